//! `return` of one word, inlined.

ghost use Rattle.std.specs.Prelude.{◌≡◌, ◌-◌, ◌<◌, ◌++◌, true, OnOk, length, map};
ghost use Rattle.std.specs.Str.{chars};
ghost use Rattle.tcl_words.specs.First.{most_levels};
ghost use Rattle.tcl_words.specs.Parts.{shape_of};
ghost use Rattle.tcl_meaning.specs.Nesting.{WordsNest};
ghost use Rattle.tcl_compile.specs.Emitted.{CommandCode};
ghost use Rattle.tcl_compile.specs.Fragments.{Grown};
ghost use Rattle.tcl_compile.specs.Returns.{IsReturn, returning};
ghost use Rattle.tcl_compile.specs.Within.{WordsWithin};

use crate::context::Context;
use crate::literals::is_stretch;
use crate::script::emit_word;
use std::alloc::AllocError;
use tcl_code::{CodeBuilder, Inlined, Instr};
use tcl_words::Word;

// Are these the words of a `return` of one word?
pub(crate) fn is_return(words: &[Word<'_>]) -> bool
    ensures { result ≡ true → IsReturn (map shape_of words.now) }
{
    words.len() == 2 && !words[1].expands && is_stretch(&words[0], "return")
}

// The completion of the text on top, and the general call beside it.
fn emit_return(code: &mut CodeBuilder) -> Result<(), AllocError>
    ensures { OnOk result (code.new ≡ code.old ++ returning) }
{
    code.emit(Instr::Guard(Inlined::Return, 2))?;
    code.emit(Instr::Return)?;
    code.emit(Instr::Skip(2))?;
    code.under(Inlined::Return.name())?;
    code.emit(Instr::Call(2))
}

// A `return` of a word's text.
#[cycle(emitting)]
pub(crate) fn emit_returned(
    code: &mut CodeBuilder,
    context: Context,
    whole: &str,
    words: &[Word<'_>],
) -> Result<(), AllocError>
    requires returns { IsReturn (map shape_of words.now) }
    requires some { 0 < length (chars whole.now) }
    requires nests { WordsNest most_levels (map shape_of words.now) }
    requires within { WordsWithin (length (chars whole.now) - 1) (map shape_of words.now) }
    ensures { OnOk result (Grown (CommandCode context.dialect (map shape_of words.now)) code.old code.new) }
{
    emit_word(code, context, whole, &words[1])?;
    emit_return(code)
}
