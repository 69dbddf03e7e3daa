//! What more is told of an engine's codes.
ghost use Rattle.std.specs.Prelude.{◌≡◌};
ghost use Rattle.tcl_noting.specs.Following.{is_leaving};

use tcl_vm::Engine;

/// An engine that tells where its codes stand.
pub trait Follow: Engine {
    /// The place of the instruction that comes next in a code.
    fn place(activation: &Self::Activation) -> usize
        ensures { result ≡ (Self.views.running activation.now).spot.at };

    /// Has the body of a procedure ended, where this is owed?
    fn is_leaving(owes: &Self::Owes) -> bool
        ensures { result ≡ is_leaving (Self.views.owes owes.now) };
}
