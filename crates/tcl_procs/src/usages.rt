//! How a procedure is used, for its error: proc(n).
ghost use Rattle.std.specs.Prelude.{◌≡◌, ◌++◌, ◌∷◌, map as each, IfOk, OnOk};
ghost use Rattle.std.specs.Str.{chars};
ghost use Rattle.std.specs.String.{string_bytes};
ghost use Rattle.tcl_meaning.specs.Procedures as spec;
ghost use Rattle.tcl_procs.specs.Binding.{shown_as};
ghost use Rattle.tcl_table.specs.Procedures.{formal_of};

use crate::binding::takes_rest;
use std::alloc::{AllocError, Global};
use tcl_chars::{push, push_text};
use tcl_table::Formal;

// Writes how a formal stands there.
fn push_formal(text: &mut String, formal: &Formal, rest: bool) -> Result<(), AllocError>
    ensures { OnOk result (chars (string_bytes text.new) ≡ chars (string_bytes text.old) ++ shown_as rest (formal_of formal.now)) }
{
    if rest {
        return push_text(text, "?arg ...?");
    }
    if formal.default.is_none() {
        return push_text(text, formal.name.as_str());
    }
    push_text(text, "?")?;
    push_text(text, formal.name.as_str())?;
    push_text(text, "?")
}

/// How a command of this name is used that has these formals.
pub(crate) fn procedure_usage(
    alloc: Global,
    word: &str,
    formals: &[Formal],
) -> Result<String, AllocError>
    ensures { IfOk result (λ text. chars (string_bytes text) ≡ spec.procedure_usage (chars word.now) (each formal_of formals.now)) }
{
    let mut text = String::from_str(alloc, word)?;
    let mut left = formals;
    'formals: while let [formal, others @ ..] = left {
        push(&mut text, ' ')?;
        push_formal(&mut text, formal, takes_rest(left))?;
        left = others;
    }
    Ok(text)
}
