//! Long texts, most of which are run once.

/// Which long texts were compiled, by their lengths.
#[derive(Drop)]
pub(crate) struct LongTexts {
    compiled: [bool; PLACES],
}

/// How many places there are for lengths.
const PLACES: usize = 64;

/// A text of more bytes is long.
const LONGEST: usize = 65_536;

impl LongTexts {
    /// None was compiled yet.
    pub(crate) fn new() -> LongTexts {
        LongTexts {
            compiled: [false; PLACES],
        }
    }

    /// Is a text long, and was none compiled whose length has the same place? From now on one was.
    pub(crate) fn is_first(&mut self, text: &str) -> bool {
        if text.len() <= LONGEST {
            return false;
        }
        let place = text.len() % PLACES;
        let first = !self.compiled[place];
        self.compiled[place] = true;
        first
    }
}
