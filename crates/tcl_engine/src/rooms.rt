//! Where codes stand that run, and rooms of codes that have ended, which those that begin take.
ghost use Rattle.std.specs.Prelude.{◌≡◌, IfOk};
ghost use Rattle.tcl_code.specs.Running.{begun};
ghost use Rattle.tcl_code.specs.Shown.{shown_by};

use crate::last::LastElements;
use std::alloc::{AllocError, Global};
use std::marker::Model;
use std::rc::Rc;
use tcl_activation::Activation;
use tcl_code::Code;
use tcl_names::Hint;
use tcl_values::Value;

/// A code that runs, or waits for a command that it has called, at a place of its own. Contracts see it as its activation.
#[derive(Drop)]
pub struct Room {
    pub(crate) activation: Box<Activation>,
}

impl Model for Room {
    ghost use Rattle.tcl_code.specs.Running.{Running};

    ghost Value = { Running };

    ghost view = { λ room. room.activation.value };
}

impl Room {
    /// A code at its beginning, at depth `depth`.
    ///
    /// # Errors
    ///
    /// A growth was refused.
    pub fn new(alloc: Global, code: Rc<Code>, depth: u32) -> Result<Room, AllocError>
        ensures { IfOk result (λ room. room ≡ begun (shown_by code.value) depth) }
    {
        let activation = Activation::new(alloc, code, depth)?;
        Ok(Room {
            activation: Box::new(alloc, activation)?,
        })
    }
}

// So many are kept at most.
const MOST: usize = 32;

/// Rooms of codes that have ended, of which a code that begins takes one, and needs no memory then; and the elements that were taken last.
#[derive(Drop)]
pub struct Rooms {
    left: Vec<Room>,
    // The code that began first, whose script is run as long as there are rooms: one that is left holds on to no other code.
    first: Option<Rc<Code>>,
    pub(crate) elements: LastElements,
    // The words of a command that is done where it begins, while it is done.
    pub(crate) words: Vec<Value>,
    // Where the variable stood whose name was composed last.
    pub(crate) hint: Hint,
}

impl Rooms {
    /// None yet.
    pub fn new(alloc: Global) -> Rooms {
        Rooms {
            left: Vec::new(alloc),
            first: None,
            elements: LastElements::new(alloc),
            words: Vec::new(alloc),
            hint: Hint::new(),
        }
    }

    /// A code at its beginning, at depth `depth`.
    pub(crate) fn begin(
        &mut self,
        alloc: Global,
        code: Rc<Code>,
        depth: u32,
    ) -> Result<Room, AllocError>
        ensures { IfOk result (λ room. room ≡ begun (shown_by code.value) depth) }
    {
        if self.first.is_none() {
            self.first = Some(code.clone()?);
        }
        match self.left.pop() {
            Some(mut room) => {
                room.activation.begin(code, depth)?;
                Ok(room)
            }
            None => Room::new(alloc, code, depth),
        }
    }

    /// A code has ended. Its room is kept where nothing is left in it.
    pub(crate) fn leave(&mut self, mut room: Room) {
        let Some(first) = &self.first else {
            return;
        };
        let Ok(code) = first.clone() else {
            return;
        };
        if self.left.len() < MOST && room.activation.rest(code) && self.left.reserve(1).is_ok() {
            self.left.push_reserved(room);
        }
    }
}
