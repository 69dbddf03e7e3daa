//! What a name stands for, as a host is told of it.
ghost use Rattle.std.specs.Prelude.{◌≡◌, option_map};
ghost use Rattle.std.specs.Str.{chars};
ghost use Rattle.tcl_meaning.specs.State.{Commands};
ghost use Rattle.tcl_frames.specs.Seen.{seen_here, variable_seen};
ghost use Rattle.tcl_frames.specs.Standing.{store_of};

use crate::frames::{Frames, place_here};
use tcl_meaning::Refusal;
use tcl_names::{HashedNames, Hint, Sought};
use tcl_values::Value;

/// A text, or the elements of an array.
#[derive(Clone, Copy)]
pub enum Seen<'a> {
    Text(&'a Value),
    Array(&'a HashedNames<Value>),
}

impl Frames {
    /// What a name of the active frame, which is not divided, stands for or leads to, if there is anything.
    pub fn seen_here(&self, name: &str) -> Option<Seen<'_>>
        ensures { (cs : Commands) → option_map variable_seen result ≡ seen_here (store_of cs self.now) (chars name.now) }
    {
        let at = place_here(&self.stack, name);
        if let Some(elements) = self.variables.array(at) {
            return Some(Seen::Array(elements));
        }
        let hint = Hint::new();
        let name = Sought::unkeyed(at.name, &hint);
        match self
            .variables
            .find(at.frame, &name, at.part, Refusal::NoSuch)
        {
            Ok(value) => Some(Seen::Text(value)),
            Err(_) => None,
        }
    }
}
