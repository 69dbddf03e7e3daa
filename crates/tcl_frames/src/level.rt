//! Levels of frames.

/// Which frame is meant: uplevel(n).
#[derive(Clone, Copy, Debug, PartialEq, Eq)]
pub enum Level {
    /// The frame that is this number of callers up.
    Up(usize),
    /// The frame of this level, among the active one and its callers.
    At(usize),
}
