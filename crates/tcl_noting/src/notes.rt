//! Places where an error has left codes.
use std::alloc::Global;
use std::marker::Model;
use std::mem;
use tcl_values::Value;

/// A code that runs, with the text that it was made of.
#[derive(Drop)]
pub(crate) struct Followed<A> {
    pub(crate) activation: A,
    pub(crate) text: Value,
    /// A script, or an expression.
    pub(crate) is_script: bool,
}

impl<A> Model for Followed<A> {
    ghost Value = { A };

    ghost view = { λ followed. followed.activation };
}

/// Where an error has left a code.
#[derive(Drop)]
pub struct Place {
    /// The text of the code.
    pub text: Value,
    /// Is the text a script, or an expression?
    pub is_script: bool,
    /// The instruction of the code where it would have gone on.
    pub at: usize,
    /// Was the code run as the body of a procedure?
    pub is_body: bool,
}

/// The places where an error has left codes, from the inside out.
#[derive(Drop)]
pub(crate) struct Notes {
    places: Vec<Place>,
    // Was memory refused to one of them?
    lost: bool,
}

// A code's place, where it stands at this instruction.
fn place_of<A>(followed: &Followed<A>, at: usize) -> Option<Place> {
    let Ok(text) = followed.text.copy() else {
        return None;
    };
    Some(Place {
        text,
        is_script: followed.is_script,
        at,
        is_body: false,
    })
}

impl Notes {
    /// No places.
    pub(crate) fn new(alloc: Global) -> Notes {
        Notes {
            places: Vec::new(alloc),
            lost: false,
        }
    }

    /// Adds the place of a code that stands at this instruction.
    pub(crate) fn add<A>(&mut self, followed: &Followed<A>, at: usize) {
        if let Some(place) = place_of(followed, at) {
            if self.places.push(place).is_ok() {
                return;
            }
        }
        self.lost = true;
    }

    /// Forgets all.
    pub(crate) fn clear(&mut self) {
        self.places.clear();
        self.lost = false;
    }

    /// The code that was left last was a procedure's body.
    pub(crate) fn mark_body(&mut self) {
        if let Some(place) = self.places.last_mut() {
            place.is_body = true;
        }
    }

    /// Takes the places; none where memory was refused to one of them.
    pub(crate) fn take(&mut self, alloc: Global) -> Vec<Place> {
        let places = mem::replace(&mut self.places, Vec::new(alloc));
        if self.lost {
            return Vec::new(alloc);
        }
        places
    }
}
