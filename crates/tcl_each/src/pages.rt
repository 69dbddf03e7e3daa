//! The words of loops over lists and dictionaries: foreach(n), lmap(n), `dict for` of dict(n).
ghost use Rattle.std.specs.Prelude.{◌∷◌, [], None, option_map};
ghost use Rattle.std.specs.Str.{chars};
ghost use Rattle.tcl_steps.specs.Asked.{IsAsked};
ghost use Rattle.tcl_meaning.specs.Control as spec;
ghost use Rattle.tcl_meaning.specs.Shapes as shapes;
ghost use Rattle.tcl_steps.specs.Views.{loop_list_of};

use crate::answers::word_at;
use crate::next::each_next;
use crate::rows::{loop_lists_among, pairs_at};
use std::alloc::{AllocError, Global};
use tcl_chars::Fault;
use tcl_steps::{Completion, Each, Loop, LoopList, Owes, Scope, Step, usage};
use tcl_values::Value;

// Lists with their names and the body behind them: the first turn is asked for, if there is an element.
#[tactic(auto, using(crate::proofs::PageLemmas::too_few, crate::proofs::PageLemmas::lists_ask))]
fn each_page(
    alloc: Global,
    words: &mut [Value],
    form: &str,
    empty: &str,
    results: Option<Vec<Value>>,
) -> Result<Step<Scope, Owes, Loop>, AllocError>
    ensures { IsAsked result (spec.each_shaped (option_map (λ v. v.items) results) (chars form.now) (chars empty.now) (shapes.each_shape words.old)) }
{
    let pairs = words.len() / 2;
    if pairs == 0 {
        return usage(alloc, form);
    }
    if words.len() == 2 * pairs {
        return usage(alloc, form);
    }
    match loop_lists_among(alloc, words, empty) {
        Ok(lists) => {
            let body = word_at(words, 2 * pairs)?;
            let each = Each {
                lists,
                body,
                results,
            };
            each_next(alloc, Box::new(alloc, each)?)
        }
        Err(Fault::Error(message)) => Ok(Step::Done(Completion::failure(alloc, message))),
        Err(Fault::Memory) => Err(AllocError),
    }
}

/// `foreach varList list ?varList list ...? command`: the first turn is asked for, if a list has an element.
///
/// # Errors
///
/// `AllocError` where a growth was refused.
#[tactic(auto, unfolding(tcl_meaning::specs::Control::foreach_page))]
pub fn foreach_page(
    alloc: Global,
    words: &mut [Value],
) -> Result<Step<Scope, Owes, Loop>, AllocError>
    ensures { IsAsked result (spec.foreach_page words.old) }
{
    each_page(
        alloc,
        words,
        "foreach varList list ?varList list ...? command",
        "foreach varlist is empty",
        None,
    )
}

/// `lmap varList list ?varList list ...? command`: as `foreach_page`, and the results of the turns are gathered.
///
/// # Errors
///
/// `AllocError` where a growth was refused.
#[tactic(auto, unfolding(tcl_meaning::specs::Control::lmap_page))]
pub fn lmap_page(alloc: Global, words: &mut [Value]) -> Result<Step<Scope, Owes, Loop>, AllocError>
    ensures { IsAsked result (spec.lmap_page words.old) }
{
    each_page(
        alloc,
        words,
        "lmap varList list ?varList list ...? command",
        "lmap varlist is empty",
        Some(Vec::new(alloc)),
    )
}

// A loop over one list, whose results aren't gathered.
fn lone_list(
    alloc: Global,
    list: LoopList,
    body: Value,
) -> Result<Step<Scope, Owes, Loop>, AllocError>
    ensures { IsAsked result (spec.each_next (record { lists = loop_list_of list ∷ []; body = body; results = None })) }
{
    let mut lists = Vec::new(alloc);
    lists.push(list)?;
    let each = Each {
        lists,
        body,
        results: None,
    };
    each_next(alloc, Box::new(alloc, each)?)
}

/// `dict for {keyVarName valueVarName} dictionary script`: the first turn is asked for, if the dictionary has a key. Its pairs are
/// those that it has now.
///
/// # Errors
///
/// `AllocError` where a growth was refused.
#[tactic(auto, using(crate::proofs::PageLemmas::pairs_ask, crate::proofs::PageLemmas::pairs_fail))]
pub fn dict_for_page(
    alloc: Global,
    words: &mut [Value],
) -> Result<Step<Scope, Owes, Loop>, AllocError>
    ensures { IsAsked result (spec.dict_for_page words.old) }
{
    if words.len() != 3 {
        return usage(
            alloc,
            "dict for {keyVarName valueVarName} dictionary script",
        );
    }
    match pairs_at(alloc, words) {
        Ok(list) => {
            let body = word_at(words, 2)?;
            lone_list(alloc, list, body)
        }
        Err(Fault::Error(message)) => Ok(Step::Done(Completion::failure(alloc, message))),
        Err(Fault::Memory) => Err(AllocError),
    }
}
