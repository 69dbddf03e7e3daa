//! What is left of lists: foreach(n).
ghost use Rattle.std.specs.Prelude.{◌≡◌, drop, length};
ghost use Rattle.tcl_meaning.specs.Control as spec;
ghost use Rattle.tcl_steps.specs.Views.{loop_lists_of};

use tcl_steps::LoopList;

/// Is an element left in one of the lists?
pub(crate) fn has_more(lists: &[LoopList]) -> bool
    ensures { result ≡ spec.has_more (loop_lists_of lists.now) }
{
    for list in lists {
        if list.gone < list.elements.len() {
            return true;
        }
    }
    false
}

// How many elements of a list have gone when each of its names has had one more.
#[tactic(auto, using(crate::proofs::MovingLemmas::none_behind, crate::proofs::MovingLemmas::more_gone))]
fn gone_behind(list: &LoopList) -> usize
    ensures { drop result list.now.elements ≡ drop (length list.now.names.items) (drop list.now.gone list.now.elements) }
{
    let count = list.elements.len();
    if list.gone >= count {
        return count;
    }
    if list.names.len() >= count - list.gone {
        return count;
    }
    list.gone + list.names.len()
}

/// Each list is behind its elements of this turn.
pub(crate) fn move_lists(lists: &mut [LoopList])
    ensures { loop_lists_of lists.new ≡ spec.behind_turns (loop_lists_of lists.old) }
{
    for list in lists.iter_mut() {
        list.gone = gone_behind(list);
    }
}
