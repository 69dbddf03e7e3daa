//! The interpreter, as a host makes, runs and asks it.
#![tactic(auto)]

mod arguments;
mod host;
mod interp;
mod noted;
mod outcome;
mod pausing;
mod report;
mod slices;
mod stage;
mod vars;

pub use host::{Config, HostFault, HostVar, Outcome, VarFault};
pub use interp::Interp;
pub use noted::{named, run_noted};
pub use pausing::Run;
pub use report::{Report, flush_both, prepared, run, run_with};
pub use slices::run_sliced;
pub use stage::Stage;
pub use tcl_run::Place;
