//! The commands that change a variable by a word's text, inlined.

ghost use Rattle.std.specs.Prelude.{◌≡◌, ◌++◌, ◌∷◌, [], IfSome, OnOk, length, map};
ghost use Rattle.std.specs.Str.{chars};
ghost use Rattle.tcl_code.specs.Guards.{inlined_of, name_of};
ghost use Rattle.tcl_code.specs.Instructions.{Call, Guard, Skip, Under};
ghost use Rattle.tcl_words.specs.Parts.{shape_of};
ghost use Rattle.tcl_compile.specs.Changes.{IsChange, changing};

use crate::literals::stretch;
use std::alloc::AllocError;
use tcl_code::{Change, CodeBuilder, Instr};
use tcl_words::Word;

// The change of a name.
fn change_named(name: &str) -> Option<Change>
    ensures { IfSome result (λ change. chars name.now ≡ name_of (inlined_of change)) }
{
    if name == "set" {
        Some(Change::Set)
    } else if name == "incr" {
        Some(Change::Incr)
    } else {
        None
    }
}

// The change that a command of three words makes, and the variable's name, where both are stretches.
pub(crate) fn change_of<'a>(words: &[Word<'a>]) -> Option<(Change, &'a str)>
    ensures { IfSome result (λ x. IsChange x.0 (chars x.1.now) (map shape_of words.now)) }
{
    if words.len() != 3 || words[2].expands {
        return None;
    }
    let head = stretch(&words[0])?;
    let name = stretch(&words[1])?;
    let change = change_named(head)?;
    Some((change, name))
}

// The change by the text on top, and the general call beside it.
pub(crate) fn emit_change(
    code: &mut CodeBuilder,
    change: Change,
    name: &str,
) -> Result<(), AllocError>
    ensures { OnOk result (code.new ≡ code.old ++ Guard (inlined_of change) 2 ∷ changing change (chars name.now) ∷ Skip 3 ∷ Under (name_of (inlined_of change)) ∷ Under (chars name.now) ∷ Call 3 ∷ []) }
{
    code.emit(Instr::Guard(change.inlined(), 2))?;
    match change {
        Change::Set => code.write(name)?,
        Change::Incr => code.bump(name)?,
    }
    code.emit(Instr::Skip(3))?;
    code.under(change.inlined().name())?;
    code.under(name)?;
    code.emit(Instr::Call(3))
}
