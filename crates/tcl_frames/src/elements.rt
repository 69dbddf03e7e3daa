//! Elements of arrays, found where their array stood last.
ghost use Rattle.std.specs.Prelude.{◌≡◌, true, [], Ok, IfSome};
ghost use Rattle.std.specs.Str.{chars};
ghost use Rattle.tcl_frames.specs.Standing.{store_of};
ghost use Rattle.tcl_meaning.specs.State.{Commands};
ghost use Rattle.tcl_meaning.specs.Substitution.{spelled_element};
ghost use Rattle.tcl_meaning.specs.Variables.{get};

use crate::frames::{Frames, is_whole};
use crate::name::{Part, has_no_paren};
use tcl_meaning::Refusal;
use tcl_names::Sought;
use tcl_values::Value;

impl Frames {
    /// The text of an element of an array, if none of the active frame's names is a link and there is one: set(n). The array is found where it stood last,
    /// and the name of the element isn't spelled.
    #[inline(always)]
    pub fn find_element(&self, name: &Sought<'_>, index: &str) -> Option<&Value>
        ensures { (cs : Commands) → IfSome result (λ value. get (store_of cs self.now) (spelled_element name.now (chars index.now)) ≡ Ok value.now) }
    {
        if !is_whole(name) || !has_no_paren(name.as_str()) || !self.stack.has_no_link() {
            return None;
        }
        let frame = self.stack.active();
        let part = Part::Element(index);
        match self.variables.find(frame, name, part, Refusal::NoElement) {
            Ok(value) => Some(value),
            Err(_) => None,
        }
    }
}
