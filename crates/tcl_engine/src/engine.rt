//! The engine of the machine.
ghost use Rattle.tcl_engine.specs.Leaving as leaving;
ghost use Rattle.tcl_engine.specs.Answered.{host_views};
ghost use Rattle.tcl_engine.specs.Hosts.{shown, HostLeaves};

use crate::host::Host;
use crate::lifts::asked_over;
use crate::owed::after;
use crate::rooms::Room;
use crate::scopes;
use crate::undone::Undone;
use std::alloc::AllocError;
use tcl_channels::Devices;
use tcl_each::turned;
use tcl_steps::{Completion, Loop, Owes, Scope, Step};
use tcl_values::Value;
use tcl_vm::{Engine, Progress, Stop};

impl<V: Devices> Engine for Host<'_, '_, '_, '_, '_, V> {
    type Activation = Room;

    type Undone = Undone;

    type Scope = Scope;

    type Owes = Owes;

    type Loop = Loop;

    ghost dialect = { λ host. host.codes.now };

    ghost views = { host_views };

    ghost shown = { shown V.channels };

    ghost leaves = { HostLeaves V.leaves };

    #[inline(always)]
    fn step(
        &mut self,
        room: &mut Room,
        paid: &mut u64,
    ) -> Result<Progress<Scope, Owes, Loop>, Stop> {
        let dialect = self.codes.dialect();
        self.stride(dialect, &mut room.activation, paid)
    }

    fn depth(&self, room: &Room) -> u64 {
        u64::from(room.activation.depth())
    }

    fn answer(
        &self,
        room: &mut Room,
        completion: Completion,
    ) -> Result<Option<Completion>, AllocError> {
        room.activation.answer(completion)
    }

    fn too_deep(&self) -> Result<Completion, AllocError> {
        Completion::too_deep(self.alloc)
    }

    fn script(&mut self, mut text: Value, depth: u64) -> Result<Room, AllocError> {
        let text = text.text(self.alloc)?;
        let code = self.codes.script(self.alloc, text.as_str())?;
        self.rooms.begin(self.alloc, code, depth as u32)
    }

    fn expression(&mut self, mut text: Value, depth: u64) -> Result<Room, AllocError> {
        let text = text.text(self.alloc)?;
        let code = self.codes.expression(self.alloc, text.as_str())?;
        self.rooms.begin(self.alloc, code, depth as u32)
    }

    fn enter(&mut self, scope: Scope) -> Result<Undone, AllocError> {
        scopes::enter(self.alloc, self.frames, scope)
    }

    fn stay(&self) -> Undone {
        Undone::Nothing
    }

    fn undo(&mut self, undone: Undone, ended: Room) {
        scopes::leave(self.frames, undone);
        self.rooms.leave(ended);
    }

    fn owed(
        &mut self,
        owes: Owes,
        completion: Completion,
    ) -> Result<Step<Scope, Owes, Loop>, Stop> {
        let dialect = self.codes.dialect();
        asked_over(after(self.alloc, dialect, self.frames, owes, completion))
    }

    fn turned(&mut self, turn: Loop) -> Result<Step<Scope, Owes, Loop>, Stop> {
        asked_over(turned(self.alloc, self.frames, turn))
    }

    fn spend(&mut self) -> bool {
        if self.units == 0 {
            return false;
        }
        self.units -= 1;
        true
    }

    ghost leaves_same = { leaving.leaves_same V.leaves V.leaves_same };

    ghost leaves_then = { leaving.leaves_then V.leaves V.leaves_then };

    ghost dialect_left = { λ io a b left. left.dialect };
}
