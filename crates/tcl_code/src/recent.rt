//! Where the texts stand that were kept last.

ghost use Rattle.std.specs.Prelude.{◌<◌, IfOk, IfSome};
ghost use Rattle.std.specs.Str.{chars};
ghost use Rattle.tcl_code.specs.Build.{IsAt};

use crate::instr::Place;
use crate::texts::Texts;
use std::alloc::{AllocError, Global};

/// How many slots there are for the texts put last.
const SLOTS: usize = 128;

/// A slot for each text, with the place where a text of that slot was put last. Texts share slots, so a place says nothing by itself: the
/// text that stands there is compared.
#[derive(Drop)]
pub(crate) struct Recent {
    places: [Option<Place>; SLOTS],
}

/// The slot of a text, from its length and its first and last bytes.
fn slot(text: &str) -> usize
    ensures { result < 128 }
{
    let bytes = text.as_bytes();
    let length = bytes.len();
    if length == 0 {
        return 0;
    }
    let first = usize::from(bytes[0]);
    let last = usize::from(bytes[length - 1]);
    (length % SLOTS + 5 * first + 14 * last) % SLOTS
}

impl Recent {
    /// No text has been put anywhere yet.
    pub(crate) fn new() -> Recent {
        Recent {
            places: [None; SLOTS],
        }
    }

    /// The place of a text, where it was the last of its slot.
    pub(crate) fn find(
        &self,
        alloc: Global,
        texts: &Texts,
        text: &str,
    ) -> Result<Option<Place>, AllocError>
        ensures { IfOk result (λ found. IfSome found (λ place. IsAt texts.now place (chars text.now))) }
    {
        let Some(place) = self.places[slot(text)] else {
            return Ok(None);
        };
        let there = texts.stands_at(alloc, place, text)?;
        Ok(if there { Some(place) } else { None })
    }

    /// Notes the place where a text was put.
    pub(crate) fn note(&mut self, text: &str, place: Place) {
        self.places[slot(text)] = Some(place);
    }
}
