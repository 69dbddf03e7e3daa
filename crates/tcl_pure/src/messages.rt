//! What is said where a subcommand is missing, or unknown.
ghost use Rattle.std.specs.Prelude.{◌≡◌, ◌++◌, map as each, IfOk, OnOk};
ghost use Rattle.std.specs.Str.{chars};
ghost use Rattle.std.specs.String.{string_bytes};
ghost use Rattle.tcl_meaning.specs.Completions.{failure, wrong_words};
ghost use Rattle.tcl_meaning.specs.Ensembles as spec;
ghost use Rattle.tcl_pure.specs.Names.{names_to_choose};

use crate::tables::subcommands;
use std::alloc::{AllocError, Global};
use tcl_chars::push_text;
use tcl_meaning::{Ensemble, Page};
use tcl_steps::Completion;

// The command's name.
fn ensemble_name(ensemble: Ensemble) -> &'static str
    ensures { chars result.now ≡ spec.ensemble_name ensemble }
{
    match ensemble {
        Ensemble::Array => "array",
        Ensemble::Dict => "dict",
        Ensemble::Info => "info",
        Ensemble::String => "string",
    }
}

// Writes two texts at the end of a text.
fn push_both(text: &mut String, first: &str, second: &str) -> Result<(), AllocError>
    ensures { OnOk result (chars (string_bytes text.new) ≡ chars (string_bytes text.old) ++ chars first.now ++ chars second.now) }
{
    push_text(text, first)?;
    push_text(text, second)
}

// Writes the names of subcommands as choices: `a, b, or c`.
fn push_choices(text: &mut String, entries: &[(&str, Page)]) -> Result<(), AllocError>
    ensures { OnOk result (chars (string_bytes text.new) ≡ chars (string_bytes text.old) ++ names_to_choose (each (λ entry. (chars entry.0.now, entry.1)) entries.now)) }
{
    let mut rest = entries;
    'entries: while let [(name, _), others @ ..] = rest {
        if others.is_empty() {
            push_both(text, "or ", name)?;
        } else {
            push_both(text, name, ", ")?;
        }
        rest = others;
    }
    Ok(())
}

/// The error of a word that names no subcommand.
pub fn unknown_subcommand(
    alloc: Global,
    ensemble: Ensemble,
    word: &str,
) -> Result<Completion, AllocError>
    ensures { IfOk result (λ c. c ≡ failure (spec.unknown_subcommand ensemble (chars word.now))) }
{
    let mut after = String::new(alloc);
    push_text(&mut after, ": must be ")?;
    push_choices(&mut after, subcommands(ensemble))?;
    Completion::about(
        alloc,
        "unknown or ambiguous subcommand",
        word,
        after.as_str(),
    )
}

/// The error of a command that is called without a subcommand.
pub fn subcommand_usage(alloc: Global, ensemble: Ensemble) -> Result<Completion, AllocError>
    ensures { IfOk result (λ c. c ≡ wrong_words (spec.subcommand_usage ensemble)) }
{
    let mut usage = String::new(alloc);
    push_both(&mut usage, ensemble_name(ensemble), " subcommand ?arg ...?")?;
    Completion::wrong_words(alloc, usage.as_str())
}
