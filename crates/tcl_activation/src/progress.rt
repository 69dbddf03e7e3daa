//! What an instruction has done.
use tcl_code::Change;
use tcl_steps::Completion;

/// What an instruction has done.
#[derive(Drop)]
pub enum Progress {
    Moved,
    /// A unit pays for the next command.
    Spent,
    /// A unit has paid for a turn back.
    Turned,
    /// A command is called: its words are this number of texts on top, and they stay there.
    Calls(usize),
    /// A variable is changed in place of a command's call: the variable's name and a text are the two texts on top, and they stay there.
    Changes(Change),
    /// The code has ended so.
    Over(Completion),
    /// A unit was wanting.
    Broke,
}
