//! What stood under the names of an array, noted so that it is put back where a change is refused half way.
ghost use Rattle.std.specs.Prelude.{◌≡◌, IfOk, OnOk};
ghost use Rattle.std.specs.FinMap as map;
ghost use Rattle.tcl_chars.specs.Texts.{text_of};
ghost use Rattle.tcl_frames.specs.Undone.{restored, undone};

use std::alloc::AllocError;
use std::rc::RcStr;
use tcl_names::HashedNames;
use tcl_values::Value;

/// What stood under a name.
#[derive(Drop)]
pub(crate) struct Earlier {
    name: RcStr,
    value: Option<Value>,
}

// What stands under a name, for a note.
fn standing(elements: &HashedNames<Value>, name: &RcStr) -> Result<Earlier, AllocError>
    ensures name { IfOk result (λ e. text_of e.name ≡ text_of name.now) }
    ensures value { IfOk result (λ e. map.get elements.now (text_of name.now) ≡ e.value) }
{
    let value = match elements.get(name.as_str()) {
        Some(value) => Some(value.copy()?),
        None => None,
    };
    Ok(Earlier {
        name: name.clone()?,
        value,
    })
}

/// Puts a text under a name. What stood there is noted first, behind the earlier notes.
pub(crate) fn put_noted(
    elements: &mut HashedNames<Value>,
    name: RcStr,
    value: Value,
    notes: &mut Vec<Earlier>,
) -> Result<(), AllocError>
    ensures done { OnOk result (elements.new ≡ map.insert elements.old (text_of name) value) }
    ensures noted { undone notes.new.items elements.new ≡ undone notes.old.items elements.old }
{
    let before = standing(elements, &name)?;
    notes.push(before)?;
    elements.insert_shared(name, value)
}

// Puts back what stood under a name. It takes no memory.
fn put_back(elements: &mut HashedNames<Value>, earlier: Earlier)
    ensures { elements.new ≡ restored earlier elements.old }
{
    let Earlier { name, value } = earlier;
    match value {
        Some(value) => {
            if let Some(place) = elements.get_mut(name.as_str()) {
                *place = value;
            }
        }
        None => {
            elements.remove(name.as_str());
        }
    }
}

/// Puts back what was noted, the last first. It takes no memory.
pub(crate) fn undo(elements: &mut HashedNames<Value>, mut notes: Vec<Earlier>)
    ensures { elements.new ≡ undone notes.items elements.old }
{
    while let Some(earlier) = notes.pop() {
        put_back(elements, earlier);
    }
}
