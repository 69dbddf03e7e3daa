//! `foreach` and `lmap`, inlined.

ghost use Rattle.std.specs.Prelude.{◌≡◌, ◌-◌, ◌<◌, ◌++◌, ◌∷◌, [], IfOk, IfSome, OnOk, length, map};
ghost use Rattle.std.specs.Str.{chars};
ghost use Rattle.tcl_list.specs.Texts.{text_of};
ghost use Rattle.tcl_words.specs.First.{most_levels};
ghost use Rattle.tcl_words.specs.Parts.{shape_of};
ghost use Rattle.tcl_meaning.specs.Nesting.{WordsNest};
ghost use Rattle.tcl_code.specs.Guards.{name_of};
ghost use Rattle.tcl_code.specs.Instructions.{Answer, Deal};
ghost use Rattle.tcl_compile.specs.Eaches.{AreListWords, AreNames, EachCode, IsEach, IsNameList, each_begin, each_command, each_end, takes};
ghost use Rattle.tcl_compile.specs.Emitted.{CommandCode};
ghost use Rattle.tcl_compile.specs.Fragments.{Grown, Plain};
ghost use Rattle.tcl_compile.specs.Literals as literals;
ghost use Rattle.tcl_compile.specs.Within.{ArgumentsAreShort, WordsWithin};

use crate::context::Context;
use crate::literals::{Literal, literal_of, stretch};
use crate::pages::{emit_looped, emit_nothing, emit_turn};
use crate::script::{emit_call, emit_word};
use crate::skips::lead_here;
use std::alloc::{AllocError, Global};
use std::rc::RcStr;
use tcl_chars::Fault;
use tcl_code::{CodeBuilder, Inlined, Instr};
use tcl_list::split;
use tcl_words::Word;

/// A loop over lists, which may gather results: the names of all its lists, and the body.
#[derive(Drop)]
pub(crate) struct EachForm<'a> {
    pub(crate) gathers: bool,
    pub(crate) names: Vec<RcStr>,
    pub(crate) body: Literal<'a>,
}

// A loop of more names is called.
const MOST_NAMES: usize = 16;

// The names of a list, where there are some and not too many.
fn names_of(alloc: Global, list: &str) -> Result<Option<Vec<RcStr>>, AllocError>
    ensures { IfOk result (λ names. IfSome names (λ ns. AreNames (chars list.now) (map text_of ns.items))) }
{
    let names = match split(alloc, list) {
        Ok(names) => names,
        Err(Fault::Error(_)) => return Ok(None),
        Err(Fault::Memory) => return Err(AllocError),
    };
    if names.is_empty() || names.len() > MOST_NAMES {
        return Ok(None);
    }
    Ok(Some(names))
}

// The names of a word that is a literal list of them.
fn named_by(alloc: Global, word: &Word<'_>) -> Result<Option<Vec<RcStr>>, AllocError>
    ensures { IfOk result (λ names. IfSome names (λ ns. IsNameList (shape_of word.now) (map text_of ns.items))) }
{
    match literal_of(alloc, word)? {
        Some(list) => names_of(alloc, list.as_str()),
        None => Ok(None),
    }
}

// The names of all lists and the body, where they are literal, of the words behind the command's name.
fn each_words<'a>(
    alloc: Global,
    gathers: bool,
    words: &[Word<'a>],
) -> Result<Option<EachForm<'a>>, AllocError>
    ensures { IfOk result (λ form. IfSome form (λ f. (f.gathers ≡ gathers) × AreListWords (map text_of f.names.items) (literals.text_of f.body) (map shape_of words.now))) }
{
    let mut names = Vec::new(alloc);
    let mut rest = words;
    'lists: while rest.len() > 1 {
        let Some(mut more) = named_by(alloc, &rest[0])? else {
            return Ok(None);
        };
        names.append(&mut more)?;
        if names.len() > MOST_NAMES {
            return Ok(None);
        }
        rest = &rest[2..];
    }
    if rest.len() != 1 {
        return Ok(None);
    }
    match literal_of(alloc, &rest[0])? {
        Some(body) => Ok(Some(EachForm {
            gathers,
            names,
            body,
        })),
        None => Ok(None),
    }
}

// Does the loop of a name gather results, if it is one?
fn loop_named(name: &str) -> Option<bool>
    ensures { IfSome result (λ gathers. chars name.now ≡ name_of (each_command gathers)) }
{
    if name == "foreach" {
        Some(false)
    } else if name == "lmap" {
        Some(true)
    } else {
        None
    }
}

// A `foreach` or `lmap` that is inlined.
pub(crate) fn each_of<'a>(
    context: Context,
    words: &[Word<'a>],
) -> Result<Option<EachForm<'a>>, AllocError>
    ensures { IfOk result (λ form. IfSome form (λ f. IsEach f (map shape_of words.now))) }
{
    if words.is_empty() || !context.inlines() {
        return Ok(None);
    }
    let Some(head) = stretch(&words[0]) else {
        return Ok(None);
    };
    let Some(gathers) = loop_named(head) else {
        return Ok(None);
    };
    match each_words(context.alloc, gathers, &words[1..])? {
        Some(each) if !each.names.is_empty() => Ok(Some(each)),
        _ => Ok(None),
    }
}

// The names get the next elements.
fn emit_names(code: &mut CodeBuilder, names: &[RcStr]) -> Result<(), AllocError>
    ensures { OnOk result (code.new ≡ code.old ++ takes (map text_of names.now)) }
{
    'names: for name in names {
        code.emit(Instr::TakeFirst)?;
        code.write(name.as_str())?;
    }
    Ok(())
}

// Emits that the elements of the lists among the texts of `count` words are dealt.
fn emit_deal(code: &mut CodeBuilder, count: usize) -> Result<(), AllocError>
    ensures { OnOk result (code.new ≡ code.old ++ Deal count ∷ []) }
{
    let count = u32::try_from(count).map_err(|_| AllocError)?;
    code.emit(Instr::Deal(count))
}

// The command of a loop over lists.
fn command_of(gathers: bool) -> Inlined
    ensures { result ≡ each_command gathers }
{
    if gathers {
        Inlined::Lmap
    } else {
        Inlined::Foreach
    }
}

// Emits that a list of results begins, if they are gathered.
fn emit_begin(code: &mut CodeBuilder, gathers: bool) -> Result<(), AllocError>
    ensures { OnOk result (code.new ≡ code.old ++ each_begin gathers) }
{
    if gathers {
        code.emit(Instr::Gather)
    } else {
        Ok(())
    }
}

// The list of the results, if they are gathered, or an empty result.
fn emit_end(code: &mut CodeBuilder, gathers: bool) -> Result<(), AllocError>
    ensures { OnOk result (code.new ≡ code.old ++ each_end gathers ∷ Answer ∷ []) }
{
    if gathers {
        code.emit(Instr::Listed)?;
        code.emit(Instr::Answer)
    } else {
        emit_nothing(code)
    }
}

// The turns, where the texts of the command's words, as many as `count` says, are there.
#[cycle(emitting)]
fn emit_turns(
    code: &mut CodeBuilder,
    context: Context,
    count: usize,
    each: &EachForm<'_>,
) -> Result<(), AllocError>
    ensures { OnOk result (Grown (EachCode context.dialect each.now.gathers count (map text_of each.now.names.items) (literals.text_of each.now.body)) code.old code.new) }
{
    emit_begin(code, each.gathers)?;
    emit_deal(code, count)?;
    let to_more = code.len();
    code.emit(Instr::Skip(0))?;
    let begin = code.len();
    emit_names(code, each.names.as_slice())?;
    emit_looped(code, context, false, each.gathers, each.body.as_str())?;
    code.emit(Instr::Skip(2))?;
    lead_here(code, to_more)?;
    code.emit(Instr::SkipEmpty(1))?;
    let turn = code.len() - begin;
    emit_turn(code, turn)?;
    code.emit(Instr::DropList)?;
    emit_end(code, each.gathers)
}

// A loop over lists: the words, a guard, the turns, and the general call beside them.
#[cycle(emitting)]
pub(crate) fn emit_each(
    code: &mut CodeBuilder,
    context: Context,
    whole: &str,
    each: &EachForm<'_>,
    words: &[Word<'_>],
) -> Result<(), AllocError>
    requires each { IsEach each.now (map shape_of words.now) }
    requires plain { Plain (map shape_of words.now) }
    requires some { 0 < length (chars whole.now) }
    requires nests { WordsNest most_levels (map shape_of words.now) }
    requires within { WordsWithin (length (chars whole.now) - 1) (map shape_of words.now) }
    requires short { ArgumentsAreShort (length (chars whole.now) - 1) (map shape_of words.now) }
    ensures { OnOk result (Grown (CommandCode context.dialect (map shape_of words.now)) code.old code.new) }
{
    'words: for word in words {
        emit_word(code, context, whole, word)?;
    }
    let guard = code.len();
    code.emit(Instr::Guard(command_of(each.gathers), 0))?;
    emit_turns(code, context, words.len(), each)?;
    let past = code.len();
    code.emit(Instr::Skip(0))?;
    lead_here(code, guard)?;
    emit_call(code, words.len())?;
    lead_here(code, past)
}
