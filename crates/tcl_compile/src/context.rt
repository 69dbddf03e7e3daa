//! What a code is emitted for.

ghost use Rattle.std.specs.Prelude.{◌≡◌, true};

use std::alloc::Global;
use tcl_chars::Dialect;

// Commands are inlined where brackets and inlined bodies stand in one another at most this deep. An inlined body stands in the code as a
// text too, for the general call.
const MOST_LEVELS: u32 = 16;

/// What a code is emitted for.
#[derive(Clone, Copy)]
pub(crate) struct Context {
    pub(crate) alloc: Global,
    /// Of numbers.
    pub(crate) dialect: Dialect,
    /// For a text's own commands.
    pub(crate) outermost: bool,
    /// How much deeper commands are inlined.
    levels: u32,
}

impl Context {
    // For a whole text.
    pub(crate) fn new(alloc: Global, dialect: Dialect) -> Context
        ensures dialect { result.dialect ≡ dialect }
        ensures outermost { result.outermost ≡ true }
    {
        Context {
            alloc,
            dialect,
            outermost: true,
            levels: MOST_LEVELS,
        }
    }

    // May scripts and expressions be inlined here?
    pub(crate) fn inlines(self) -> bool {
        self.levels > 0
    }

    // For a script inside.
    pub(crate) fn within(self) -> Context
        ensures { result.dialect ≡ self.dialect }
    {
        Context {
            alloc: self.alloc,
            dialect: self.dialect,
            outermost: false,
            levels: self.levels.saturating_sub(1),
        }
    }
}
