//! A dictionary that nobody has written, read as a list: its keys and values in turn (dict(n)).

ghost use Rattle.std.specs.Prelude.{◌≡◌, ◌≤◌, None, Ok, length, IfOk};
ghost use Rattle.tcl_list.specs.Elements.{elements_of};
ghost use Rattle.tcl_pages.specs.DictPages.{flat};
ghost use Rattle.tcl_values.specs.Kept.{texts, depth_over};
ghost use Rattle.tcl_values.specs.Shape.{elements, items_text, pairs_in, pairs_text, AreKept, ArePaired};

use crate::element::{Element, Items, Pairs};
use crate::items::gathered;
use std::alloc::{AllocError, Global};
use std::rc::Rc;

/// Keys and values in turn, as elements. What is kept of the values is shared.
fn flat_elements(alloc: Global, pairs: &Pairs) -> Result<Vec<Element>, AllocError>
    requires even { length pairs.now.keys.keys ≡ length pairs.now.values.items }
    ensures texts { IfOk result (λ v. texts v.items ≡ flat (pairs_in pairs.now)) }
    ensures depth { IfOk result (λ v. depth_over v.items ≤ depth_over pairs.now.values.items) }
{
    let keys = pairs.keys.as_slice();
    let values = pairs.values.as_slice();
    let mut elements = Vec::with_capacity(alloc, keys.len().saturating_mul(2))?;
    for place in 0..keys.len() {
        elements.push(keys[place].element()?)?;
        elements.push(values[place].duplicate()?)?;
    }
    Ok(elements)
}

/// The list that a dictionary is read as whose text nobody has written. It stays unwritten.
pub(crate) fn flat_row(alloc: Global, pairs: &Pairs) -> Result<Rc<Items>, AllocError>
    requires unwritten { pairs.now.text ≡ None }
    requires kept { ArePaired pairs.now }
    ensures read { IfOk result (λ r. elements_of (pairs_text pairs.now) ≡ Ok (texts (elements r.value))) }
    ensures same { IfOk result (λ r. items_text r.value ≡ pairs_text pairs.now) }
    ensures kept { IfOk result (λ r. AreKept r.value) }
{
    let elements = flat_elements(alloc, pairs)?;
    gathered(alloc, elements)
}
