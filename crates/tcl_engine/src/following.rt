//! What is told of a host's codes.
ghost use Rattle.std.specs.Prelude.{◌≡◌};
ghost use Rattle.tcl_engine.specs.Answered.{host_views};
ghost use Rattle.tcl_noting.specs.Following.{is_leaving};

use crate::host::Host;
use crate::rooms::Room;
use tcl_channels::Devices;
use tcl_noting::Follow;
use tcl_steps::Owes;

impl<V: Devices> Follow for Host<'_, '_, '_, '_, '_, V> {
    fn place(room: &Room) -> usize
        ensures { result ≡ (host_views.running room.now).spot.at }
    {
        room.activation.place()
    }

    fn is_leaving(owes: &Owes) -> bool
        ensures { result ≡ is_leaving (host_views.owes owes.now) }
    {
        matches!(owes, Owes::Leaving)
    }
}
