//! What is undone when a script has ended.

/// What is undone when a script has ended: proc(n), uplevel(n).
#[derive(Clone, Copy, Debug, Drop)]
pub enum Undone {
    Nothing,
    /// This frame becomes active again.
    Back(usize),
    /// The frames behind the first so many go, and this one becomes active again.
    Gone(usize, usize),
}
