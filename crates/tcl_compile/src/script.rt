//! The code of a script, emitted from left to right.

ghost use Rattle.std.specs.Prelude.{◌≡◌, ◌+◌, ◌-◌, ◌<◌, ◌++◌, false, true, ◌∷◌, [], IfOk, IfSome, OnOk, length, map};
ghost use Rattle.std.specs.Str.{chars};
ghost use Rattle.std.specs.String.{string_bytes};
ghost use Rattle.tcl_words.specs.First.{IsParsed, first_command, most_levels};
ghost use Rattle.tcl_words.specs.Parts.{shape_of, part_of, parts_of};
ghost use Rattle.tcl_meaning.specs.Nesting.{PartNests, PartsNest, WordsNest};
ghost use Rattle.tcl_code.specs.Instructions.{Call, Join, Push, Spend};
ghost use Rattle.tcl_code.specs.declared.inlined.Inlined.TheVariants as inlined;
ghost use Rattle.tcl_compile.specs.Changes.{IsChange};
ghost use Rattle.tcl_compile.specs.Emitted.{PieceCode, WordCode, BracketCode, CommandCode};
ghost use Rattle.tcl_compile.specs.Forms.{HasForm, InlinedCode, IsNamed};
ghost use Rattle.tcl_compile.specs.Fragments.{Grown, Plain, adding};
ghost use Rattle.tcl_compile.specs.Literals.{IsListOf};
ghost use Rattle.tcl_compile.specs.Whiles.{CommandMade, IsWhile, ScriptMade};
ghost use Rattle.tcl_compile.specs.Within.{ArgumentsAreShort, PartWithin, PartsWithin, WordsWithin};

use crate::beside::{emit_list, foresee_body, foresee_call, listed};
use crate::change::{change_of, emit_change};
use crate::context::Context;
use crate::each::{each_of, emit_each};
use crate::inlining::{Form, command_of, form_of, inlined_by};
use crate::leaving::{emit_returned, is_return};
use crate::literals::literals;
use crate::pages::emit_page;
use crate::reading::prefer_ways;
use crate::skips::lead_here;
use crate::switching::{emit_switch, switch_of};
use std::alloc::{AllocError, Global};
use tcl_chars::push;
use tcl_code::{Change, CodeBuilder, Inlined, Instr};
use tcl_words::{Parsed, Piece, Word, parse_first};

// Brackets and array indices may stand in one another this deep.
const MOST_LEVELS: u32 = 200;

fn first(alloc: Global, text: &str) -> Result<Parsed<'_>, AllocError>
    ensures { IfOk result (λ p. IsParsed text.now p (first_command most_levels (chars text.now))) }
{
    parse_first(alloc, text, MOST_LEVELS)
}

// Between a text's own commands, finds what was emitted valid, if it is long.
fn settle(code: &mut CodeBuilder, context: Context) -> Result<(), AllocError>
    ensures { code.new ≡ code.old }
{
    if context.outermost {
        code.settle()
    } else {
        Ok(())
    }
}

// Emits that a unit is spent: a command begins.
fn emit_spend(code: &mut CodeBuilder, context: Context) -> Result<(), AllocError>
    ensures { OnOk result (code.new ≡ code.old ++ Spend ∷ []) }
{
    settle(code, context)?;
    code.emit(Instr::Spend)
}

// The commands of a script, in place of its last completion.
#[cycle(emitting)]
pub(crate) fn emit_script(
    code: &mut CodeBuilder,
    context: Context,
    text: &str,
) -> Result<(), AllocError>
    ensures { OnOk result (Grown (ScriptMade context.dialect context.outermost (chars text.now)) code.old code.new) }
{
    let mut rest = text;
    'commands: loop {
        match first(context.alloc, rest)? {
            Parsed::End(_) => return Ok(()),
            Parsed::Bad(fault) => return code.raise(fault.text()),
            Parsed::Command(words, after) => {
                emit_spend(code, context)?;
                emit_command(code, context, rest, words.as_slice())?;
                rest = &rest[after..];
            }
        }
    }
}

// Has a word `{*}` in front?
fn any_expands(words: &[Word<'_>]) -> bool
    ensures plain { result ≡ false → Plain (map shape_of words.now) }
    ensures expands { result ≡ true → Plain (map shape_of words.now) → ⊥ }
{
    'words: for word in words {
        if word.expands {
            return true;
        }
    }
    false
}

// A command of a text, which has been paid for.
#[cycle(emitting)]
fn emit_command(
    code: &mut CodeBuilder,
    context: Context,
    whole: &str,
    words: &[Word<'_>],
) -> Result<(), AllocError>
    requires some { 0 < length (chars whole.now) }
    requires nests { WordsNest most_levels (map shape_of words.now) }
    requires within { WordsWithin (length (chars whole.now) - 1) (map shape_of words.now) }
    requires short { ArgumentsAreShort (length (chars whole.now) - 1) (map shape_of words.now) }
    ensures { OnOk result (Grown (CommandMade context.dialect context.outermost (map shape_of words.now)) code.old code.new) }
{
    if any_expands(words) {
        return emit_gathered(code, context, whole, words);
    }
    if is_return(words) {
        return emit_returned(code, context, whole, words);
    }
    if let Some((change, name)) = change_of(words) {
        return emit_changed(code, context, whole, change, name, words);
    }
    if let Some(each) = each_of(context, words)? {
        foresee_body(code, words)?;
        return emit_each(code, context, whole, &each, words);
    }
    if let Some(form) = switch_of(context, words)? {
        foresee_body(code, words)?;
        return emit_switch(code, context, whole, &form, words);
    }
    match inlined_by(words) {
        Some(command) => emit_named(code, context, whole, command, words),
        None => emit_plain(code, context, whole, words),
    }
}

// A command of the name of one that is inlined.
#[cycle(emitting)]
fn emit_named(
    code: &mut CodeBuilder,
    context: Context,
    whole: &str,
    command: Inlined,
    words: &[Word<'_>],
) -> Result<(), AllocError>
    requires named { IsNamed command (map shape_of words.now) }
    requires whiles { IsWhile (map shape_of words.now) → command ≡ inlined.While }
    requires plain { Plain (map shape_of words.now) }
    requires some { 0 < length (chars whole.now) }
    requires nests { WordsNest most_levels (map shape_of words.now) }
    requires within { WordsWithin (length (chars whole.now) - 1) (map shape_of words.now) }
    requires short { ArgumentsAreShort (length (chars whole.now) - 1) (map shape_of words.now) }
    ensures { OnOk result (Grown (CommandMade context.dialect context.outermost (map shape_of words.now)) code.old code.new) }
{
    match literals(context.alloc, &words[1..])? {
        Some(literals) => match form_of(context, command, literals.as_slice())? {
            Some(form) => emit_inlined(code, context, whole, &form, words),
            None => emit_plain(code, context, whole, words),
        },
        None => emit_plain(code, context, whole, words),
    }
}

// A command that is inlined: its page behind a guard, and the general call beside it.
#[cycle(emitting)]
fn emit_inlined(
    code: &mut CodeBuilder,
    context: Context,
    whole: &str,
    form: &Form<'_>,
    words: &[Word<'_>],
) -> Result<(), AllocError>
    requires form { HasForm form.now (map shape_of words.now) }
    requires some { 0 < length (chars whole.now) }
    requires nests { WordsNest most_levels (map shape_of words.now) }
    requires within { WordsWithin (length (chars whole.now) - 1) (map shape_of words.now) }
    requires short { ArgumentsAreShort (length (chars whole.now) - 1) (map shape_of words.now) }
    ensures { OnOk result (Grown (InlinedCode context.dialect form.now (map shape_of words.now)) code.old code.new) }
{
    let list = listed(context.alloc, words)?;
    foresee_call(code, words, &list)?;
    let guard = code.len();
    code.emit(Instr::Guard(command_of(form), 0))?;
    emit_page(code, context, whole, form)?;
    let past = code.len();
    code.emit(Instr::Skip(0))?;
    lead_here(code, guard)?;
    emit_beside(code, context, whole, words, &list)?;
    lead_here(code, past)
}

// The call of a command beside its page, of its words as a list or else one by one.
#[cycle(emitting)]
fn emit_beside(
    code: &mut CodeBuilder,
    context: Context,
    whole: &str,
    words: &[Word<'_>],
    list: &Option<String>,
) -> Result<(), AllocError>
    requires plain { Plain (map shape_of words.now) }
    requires some { 0 < length (chars whole.now) }
    requires nests { WordsNest most_levels (map shape_of words.now) }
    requires within { WordsWithin (length (chars whole.now) - 1) (map shape_of words.now) }
    requires list { IfSome list.now (λ l. IsListOf (chars (string_bytes l)) (map shape_of words.now)) }
    ensures { OnOk result (Grown (CommandCode context.dialect (map shape_of words.now)) code.old code.new) }
{
    match list {
        Some(list) => emit_list(code, list.as_str()),
        None => emit_plain(code, context, whole, words),
    }
}

// A command that changes a variable by the text of its last word.
#[cycle(emitting)]
fn emit_changed(
    code: &mut CodeBuilder,
    context: Context,
    whole: &str,
    change: Change,
    name: &str,
    words: &[Word<'_>],
) -> Result<(), AllocError>
    requires change { IsChange change (chars name.now) (map shape_of words.now) }
    requires some { 0 < length (chars whole.now) }
    requires nests { WordsNest most_levels (map shape_of words.now) }
    requires within { WordsWithin (length (chars whole.now) - 1) (map shape_of words.now) }
    ensures { OnOk result (Grown (CommandCode context.dialect (map shape_of words.now)) code.old code.new) }
{
    emit_word(code, context, whole, &words[2])?;
    emit_change(code, change, name)
}

// Emits that `count` pieces are joined.
fn emit_join(code: &mut CodeBuilder, count: usize) -> Result<(), AllocError>
    ensures { OnOk result (code.new ≡ code.old ++ Join count ∷ []) }
{
    let count = u32::try_from(count).map_err(|_| AllocError)?;
    code.emit(Instr::Join(count))
}

// Emits the call of a command of `count` words.
pub(crate) fn emit_call(code: &mut CodeBuilder, count: usize) -> Result<(), AllocError>
    ensures { OnOk result (code.new ≡ code.old ++ Call count ∷ []) }
{
    let count = u32::try_from(count).map_err(|_| AllocError)?;
    code.emit(Instr::Call(count))
}

// The words of a command, and its call. Where they are those of `dict get $name`, or the like, the words in front of the variable are an
// instruction each.
#[cycle(emitting)]
fn emit_plain(
    code: &mut CodeBuilder,
    context: Context,
    whole: &str,
    words: &[Word<'_>],
) -> Result<(), AllocError>
    requires plain { Plain (map shape_of words.now) }
    requires some { 0 < length (chars whole.now) }
    requires nests { WordsNest most_levels (map shape_of words.now) }
    requires within { WordsWithin (length (chars whole.now) - 1) (map shape_of words.now) }
    ensures { OnOk result (Grown (CommandCode context.dialect (map shape_of words.now)) code.old code.new) }
{
    let start = code.len();
    'words: for word in words {
        emit_word(code, context, whole, word)?;
    }
    emit_call(code, words.len())?;
    prefer_ways(code, words, start);
    Ok(())
}

// A word that is there, or all elements of its text.
fn emit_add(code: &mut CodeBuilder, all: bool) -> Result<(), AllocError>
    ensures { OnOk result (code.new ≡ code.old ++ adding all ∷ []) }
{
    if all {
        code.emit(Instr::AddAll)
    } else {
        code.emit(Instr::Add)
    }
}

// The words of a command, some of them expanded, and its call.
#[cycle(emitting)]
fn emit_gathered(
    code: &mut CodeBuilder,
    context: Context,
    whole: &str,
    words: &[Word<'_>],
) -> Result<(), AllocError>
    requires some { 0 < length (chars whole.now) }
    requires nests { WordsNest most_levels (map shape_of words.now) }
    requires within { WordsWithin (length (chars whole.now) - 1) (map shape_of words.now) }
    ensures { OnOk result (Grown (CommandCode context.dialect (map shape_of words.now)) code.old code.new) }
{
    code.emit(Instr::Gather)?;
    'words: for word in words {
        emit_word(code, context, whole, word)?;
        emit_add(code, word.expands)?;
    }
    code.emit(Instr::CallGathered)
}

// The text of a word.
#[cycle(emitting)]
pub(crate) fn emit_word(
    code: &mut CodeBuilder,
    context: Context,
    whole: &str,
    word: &Word<'_>,
) -> Result<(), AllocError>
    requires some { 0 < length (chars whole.now) }
    requires nests { PartsNest most_levels (parts_of (shape_of word.now).pieces) }
    requires within { PartsWithin (length (chars whole.now) - 1) (parts_of (shape_of word.now).pieces) }
    ensures { OnOk result (Grown (WordCode context.dialect (shape_of word.now).pieces) code.old code.new) }
{
    emit_pieces(code, context, whole, MOST_LEVELS, word.pieces.as_slice())
}

// Pieces, which are joined where there are more than one. Their array indices stand in one another at most `levels` deep.
#[cycle(emitting)]
fn emit_pieces(
    code: &mut CodeBuilder,
    context: Context,
    whole: &str,
    levels: u32,
    pieces: &[Piece<'_>],
) -> Result<(), AllocError>
    requires some { 0 < length (chars whole.now) }
    requires nests { PartsNest levels (parts_of (map part_of pieces.now)) }
    requires within { PartsWithin (length (chars whole.now) - 1) (parts_of (map part_of pieces.now)) }
    ensures { OnOk result (Grown (WordCode context.dialect (map part_of pieces.now)) code.old code.new) }
{
    if pieces.is_empty() {
        return code.push("");
    }
    if pieces.len() == 1 {
        return emit_piece(code, context, whole, levels, &pieces[0]);
    }
    'pieces: for piece in pieces {
        emit_piece(code, context, whole, levels, piece)?;
    }
    emit_join(code, pieces.len())
}

// The text of one character.
fn emit_char(code: &mut CodeBuilder, alloc: Global, c: char) -> Result<(), AllocError>
    ensures { OnOk result (code.new ≡ code.old ++ Push (c ∷ []) ∷ []) }
{
    let mut text = String::new(alloc);
    push(&mut text, c)?;
    code.push(text.as_str())
}

// A piece. Its array indices stand in one another at most `levels` deep.
#[cycle(emitting)]
fn emit_piece(
    code: &mut CodeBuilder,
    context: Context,
    whole: &str,
    levels: u32,
    piece: &Piece<'_>,
) -> Result<(), AllocError>
    requires some { 0 < length (chars whole.now) }
    requires nests { PartNests levels (part_of piece.now) }
    requires within { PartWithin (length (chars whole.now) - 1) (part_of piece.now) }
    ensures { OnOk result (Grown (PieceCode context.dialect (part_of piece.now)) code.old code.new) }
{
    match piece {
        Piece::Text(span) => code.push(span.text),
        Piece::Escape(_, c) => emit_char(code, context.alloc, *c),
        Piece::Var(_, name) => code.read(name.text),
        Piece::Elem(_, name, index) => {
            emit_pieces(code, context, whole, levels - 1, index)?;
            code.read_element(name.text)
        }
        Piece::Bracket(_, script) => emit_deeper(code, context, script.text),
    }
}

// A script one deeper.
#[cycle(emitting)]
fn emit_deeper(code: &mut CodeBuilder, context: Context, text: &str) -> Result<(), AllocError>
    ensures { OnOk result (Grown (BracketCode context.dialect (chars text.now)) code.old code.new) }
{
    code.emit(Instr::Enter)?;
    emit_script(code, context.within(), text)?;
    code.emit(Instr::Leave)
}
