//! The elements of lists, as the turns of a loop take them: foreach(n).
ghost use Rattle.std.specs.Prelude.{◌≡◌, ◌<◌, ◌++◌, drop, length, IfOk, OnOk};
ghost use Rattle.tcl_arguments.specs.WordAt.{word};
ghost use Rattle.tcl_chars.specs.Answers.{Answers};
ghost use Rattle.tcl_code.specs.Dealing as spec;
ghost use Rattle.tcl_code.specs.Dealing.{dealt_of, dealt_once, firsts};
ghost use Rattle.tcl_each.specs.LoopLists.{counts_one};
ghost use Rattle.tcl_steps.specs.Views.{loop_lists_of};

use crate::moving::{has_more, move_lists};
use crate::rows::{list_at, loop_lists_among};
use crate::setting::element_at;
use std::alloc::{AllocError, Global};
use tcl_chars::Fault;
use tcl_steps::LoopList;
use tcl_values::Value;

// The number of elements that are left in the longest list.
fn longest(lists: &[LoopList]) -> usize
    ensures { result ≡ spec.longest (loop_lists_of lists.now) }
{
    let mut most = 0;
    for list in lists {
        most = most.max(list.elements.len().saturating_sub(list.gone));
    }
    most
}

// An element for each name of a list, and the empty text where none is left.
fn deal_list(alloc: Global, list: &LoopList, dealt: &mut Vec<Value>) -> Result<(), AllocError>
    ensures { OnOk result (dealt.new.items ≡ dealt.old.items ++ firsts (length list.now.names.items) (drop list.now.gone list.now.elements)) }
{
    for place in 0..list.names.len() {
        let value = element_at(alloc, &list.elements, list.gone, place)?;
        dealt.push(value)?;
    }
    Ok(())
}

// What a turn takes of all lists.
fn deal_turn(alloc: Global, lists: &[LoopList], dealt: &mut Vec<Value>) -> Result<(), AllocError>
    ensures { OnOk result (dealt.new.items ≡ dealt.old.items ++ dealt_once (loop_lists_of lists.now)) }
{
    for list in lists {
        deal_list(alloc, list, dealt)?;
    }
    Ok(())
}

// What all turns take.
fn deal(alloc: Global, lists: &mut [LoopList]) -> Result<Vec<Value>, AllocError>
    ensures { IfOk result (λ dealt. dealt.items ≡ spec.dealt (loop_lists_of lists.old)) }
{
    let mut dealt = Vec::new(alloc);
    for _ in 0..longest(lists) {
        if !has_more(lists) {
            return Ok(dealt);
        }
        deal_turn(alloc, lists, &mut dealt)?;
        move_lists(lists);
    }
    Ok(dealt)
}

// Has the list that the first word is one element?
fn has_one_name(alloc: Global, words: &mut [Value]) -> Result<bool, Fault>
    requires { 0 < length words.old }
    ensures one { Answers (λ one. one) result (counts_one (word words.old 0)) }
    ensures same { words.new ≡ words.old }
{
    let count = words[0].count(alloc)?;
    Ok(count == 1)
}

/// The elements of the lists of a `foreach`, as its turns take them, by the words behind its name.
///
/// # Errors
///
/// `Fault::Error` with what is wrong with the first list that can't be read, `Fault::Memory`.
pub fn dealt(alloc: Global, words: &mut [Value]) -> Result<Vec<Value>, Fault>
    ensures { Answers (λ dealt. dealt.items) result (dealt_of words.old) }
{
    // each turn takes one element of a lone list
    if words.len() == 3 && has_one_name(alloc, words)? {
        return list_at(alloc, words, 1);
    }
    let mut lists = loop_lists_among(alloc, words, "foreach varlist is empty")?;
    let dealt = deal(alloc, lists.as_mut_slice())?;
    Ok(dealt)
}
