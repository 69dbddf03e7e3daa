//! Scripts and expressions that words make: eval(n), expr(n).
ghost use Rattle.std.specs.Prelude.{◌≡◌, IfOk};
ghost use Rattle.tcl_steps.specs.Asked.{IsAsked};
ghost use Rattle.tcl_meaning.specs.Control as spec;
ghost use Rattle.tcl_pages.specs.Lists as lists;

use crate::answers::word_at;
use std::alloc::{AllocError, Global};
use tcl_lists::concat;
use tcl_steps::{Loop, Owes, Scope, Step, usage};
use tcl_values::Value;

// The words as one text: one word as it is, several as concat(n) joins them.
#[tactic(auto, using(tcl_steps::proofs::WordLemmas::one_is, tcl_steps::proofs::WordLemmas::several_are))]
fn one_text(alloc: Global, words: &mut [Value]) -> Result<Value, AllocError>
    ensures { IfOk result (λ text. text ≡ lists.one_text words.old) }
{
    if words.len() == 1 {
        return word_at(words, 0);
    }
    concat(alloc, words)
}

/// `eval arg ?arg ...?`: the words are run as one script.
pub fn eval_page(alloc: Global, words: &mut [Value]) -> Result<Step<Scope, Owes, Loop>, AllocError>
    ensures { IsAsked result (spec.eval_page words.old) }
{
    if words.len() == 0 {
        return usage(alloc, "eval arg ?arg ...?");
    }
    let script = one_text(alloc, words)?;
    Ok(Step::Run(Scope::Here, script, Owes::Nothing))
}

/// `expr arg ?arg ...?`: the words are evaluated as one expression.
pub fn expr_page(alloc: Global, words: &mut [Value]) -> Result<Step<Scope, Owes, Loop>, AllocError>
    ensures { IsAsked result (spec.expr_page words.old) }
{
    if words.len() == 0 {
        return usage(alloc, "expr arg ?arg ...?");
    }
    let expr = one_text(alloc, words)?;
    Ok(Step::Evaluate(expr, Owes::Nothing))
}
