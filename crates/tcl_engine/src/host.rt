//! What a run works on.
ghost use Rattle.std.specs.Prelude.{◌≡◌, false, OnOk, OnErr, IfOk};
ghost use Rattle.tcl_activation.specs.Standing.{IsOnWay, IsDone, Stays, instruction_at, move_of};
ghost use Rattle.tcl_engine.specs.Hosts.{shown, HostLeaves};
ghost use Rattle.tcl_meaning.specs.State.{with_units};

use crate::kept::Kept;
use crate::rooms::Rooms;
use std::alloc::{AllocError, Global};
use tcl_activation::{Activation, Progress};
use tcl_channels::Devices;
use tcl_chars::Dialect;
use tcl_compile::Codes;
use tcl_frames::Frames;
use tcl_table::Table;

/// What a run works on: what an interpreter keeps, and devices. Its units are what is left of them.
#[derive(Drop)]
pub struct Host<'frames, 'table, 'codes, 'devices, 'rooms, V: Devices> {
    pub(crate) alloc: Global,
    pub(crate) frames: &'frames mut Frames,
    pub(crate) table: &'table mut Table,
    pub(crate) codes: &'codes mut Codes,
    pub(crate) devices: &'devices mut V,
    pub(crate) rooms: &'rooms mut Rooms,
    pub(crate) units: u64,
}

/// The host over what is lent.
pub fn host_over<'frames, 'table, 'codes, 'devices, 'rooms, V: Devices>(
    alloc: Global,
    frames: &'frames mut Frames,
    table: &'table mut Table,
    codes: &'codes mut Codes,
    devices: &'devices mut V,
    rooms: &'rooms mut Rooms,
    units: u64,
) -> Host<'frames, 'table, 'codes, 'devices, 'rooms, V>
    ensures frames { result.frames ≡ frames.entry }
    ensures table { result.table ≡ table.entry }
    ensures codes { result.codes ≡ codes.entry }
    ensures devices { result.devices ≡ devices.entry }
    ensures rooms { result.rooms ≡ rooms.entry }
    ensures units { result.units ≡ units }
{
    Host {
        alloc,
        frames,
        table,
        codes,
        devices,
        rooms,
        units,
    }
}

impl<V: Devices> Host<'_, '_, '_, '_, '_, V> {
    /// How many units are left.
    pub fn units(&self) -> u64
        ensures { result ≡ self.now.units }
    {
        self.units
    }

    /// One instruction of a code, or its end. It stands apart, so that the way of those that are done at once stays small.
    #[inline(never)]
    pub(crate) fn instruct(
        &mut self,
        dialect: Dialect,
        activation: &mut Activation,
    ) -> Result<Progress, AllocError>
        requires { IsOnWay activation.old }
        ensures code { activation.new.code ≡ activation.old.code }
        ensures done { IsDone dialect result (instruction_at activation.old) (move_of dialect activation.old (shown V.channels self.old)) activation.new.spot (shown V.channels self.old) self.new.units }
        ensures state { shown V.channels self.new ≡ with_units self.new.units (shown V.channels self.old) }
        ensures stays { Stays result activation.old activation.new }
        ensures leaves { HostLeaves V.leaves false self.old self.new }
    {
        let kept = Kept {
            frames: self.frames,
            table: self.table,
        };
        activation.step(self.alloc, dialect, &kept, &mut self.units)
    }
}
