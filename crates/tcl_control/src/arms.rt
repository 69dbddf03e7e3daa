//! Patterns and bodies of switch(n), wherever they stand.
ghost use Rattle.std.specs.Prelude.{◌≡◌, ◌<◌, ◌≤◌, drop, length, IfOk, IfSome};
ghost use Rattle.std.specs.Fmt.{signed_decimal};
ghost use Rattle.std.specs.Str.{chars};
ghost use Rattle.tcl_chars.specs.Texts.{same_text};
ghost use Rattle.tcl_arguments.specs.WordAt.{word};
ghost use Rattle.tcl_control.specs.Arms.{arm_texts};
ghost use Rattle.tcl_meaning.specs.Shapes as shapes;
ghost use Rattle.tcl_values.specs.Kept.{texts};

use crate::answers::words_behind;
use crate::subject::Subject;
use std::alloc::{AllocError, Global};
use tcl_chars::is_text;
use tcl_glob::glob_match;
use tcl_values::{Element, ElementText, Value};

/// Patterns and bodies, one behind the other.
#[derive(Clone, Copy)]
pub(crate) enum Arms<'a> {
    /// Words of the command.
    Words(&'a [Value]),
    /// Elements of its last word, a list, which are not copied.
    Elements(&'a [Element]),
}

// Does a pattern match a text?
fn matches_text(globs: bool, pattern: &str, text: &str) -> bool
    ensures { result ≡ shapes.matches globs (chars pattern.now) (chars text.now) }
{
    if globs {
        return glob_match(pattern, text);
    }
    is_text(pattern, text)
}

// The elements behind so many.
#[tactic(auto, using(crate::proofs::ArmTexts::texts_length, crate::proofs::ArmTexts::texts_behind))]
fn elements_behind(elements: &[Element], count: usize) -> &[Element]
    requires { count ≤ length (texts elements.now) }
    ensures { texts result.now ≡ drop count (texts elements.now) }
{
    &elements[count..]
}

impl<'a> Arms<'a> {
    /// How many patterns and bodies these are.
    #[tactic(auto, using(crate::proofs::ArmTexts::texts_length, tcl_values::proofs::ElementTexts::text_at, crate::proofs::ArmTexts::texts_behind))]
    pub(crate) fn len(self) -> usize
        ensures { result ≡ length (arm_texts self.entry) }
    {
        match self {
            Arms::Words(words) => words.len(),
            Arms::Elements(elements) => elements.len(),
        }
    }

    /// Those behind so many.
    #[tactic(auto, using(crate::proofs::ArmTexts::texts_length, tcl_values::proofs::ElementTexts::text_at, crate::proofs::ArmTexts::texts_behind))]
    pub(crate) fn behind(self, count: usize) -> Arms<'a>
        requires { count ≤ length (arm_texts self) }
        ensures { arm_texts result ≡ drop count (arm_texts self.entry) }
    {
        match self {
            Arms::Words(words) => Arms::Words(words_behind(words, count)),
            Arms::Elements(elements) => Arms::Elements(elements_behind(elements, count)),
        }
    }

    /// The text at a place, where it stands ready.
    #[tactic(auto, using(crate::proofs::ArmTexts::texts_length, tcl_values::proofs::ElementTexts::text_at, crate::proofs::ArmTexts::texts_behind))]
    fn shown(self, place: usize) -> Option<&'a str>
        requires { place < length (arm_texts self) }
        ensures { IfSome result (λ t. chars t.now ≡ word (arm_texts self.entry) place) }
    {
        match self {
            Arms::Words(words) => words[place].shown(),
            Arms::Elements(elements) => elements[place].shown(),
        }
    }

    /// The text at a place: lent where it stands ready, else written.
    #[tactic(auto, using(crate::proofs::ArmTexts::texts_length, tcl_values::proofs::ElementTexts::text_at, crate::proofs::ArmTexts::texts_behind))]
    fn text(self, alloc: Global, place: usize) -> Result<ElementText<'a>, AllocError>
        requires { place < length (arm_texts self) }
        ensures { IfOk result (λ t. t ≡ word (arm_texts self.entry) place) }
    {
        match self {
            Arms::Words(words) => words[place].spelled(alloc),
            Arms::Elements(elements) => elements[place].text(alloc),
        }
    }

    /// The value of the text at a place. What is kept of it is shared.
    #[tactic(auto, using(crate::proofs::ArmTexts::texts_length, tcl_values::proofs::ElementTexts::text_at, crate::proofs::ArmTexts::texts_behind))]
    pub(crate) fn value(self, place: usize) -> Result<Value, AllocError>
        requires { place < length (arm_texts self) }
        ensures { IfOk result (λ value. value ≡ word (arm_texts self.entry) place) }
    {
        match self {
            Arms::Words(words) => words[place].copy(),
            Arms::Elements(elements) => elements[place].copy(),
        }
    }

    /// Is the text at a place this word?
    pub(crate) fn is(self, alloc: Global, place: usize, known: &str) -> Result<bool, AllocError>
        requires { place < length (arm_texts self) }
        ensures { IfOk result (λ is. is ≡ shapes.is_word (chars known.now) (word (arm_texts self.entry) place)) }
    {
        if let Some(shown) = self.shown(place) {
            return Ok(is_text(shown, known));
        }
        let own = self.text(alloc, place)?;
        Ok(is_text(own.as_str(), known))
    }

    /// The number at a place, if one is kept there: the text is its decimal text.
    #[tactic(auto, using(crate::proofs::ArmTexts::texts_length, tcl_values::proofs::ElementTexts::text_at))]
    fn number(self, place: usize) -> Option<i64>
        requires { place < length (arm_texts self) }
        ensures { IfSome result (λ n. word (arm_texts self.entry) place ≡ signed_decimal n) }
    {
        match self {
            Arms::Words(words) => words[place].number(),
            Arms::Elements(elements) => elements[place].number(),
        }
    }

    /// Is the text at a place the subject? That is known without a text where both are kept as numbers.
    fn is_known(self, place: usize, subject: &Subject<'_>) -> Option<bool>
        requires { place < length (arm_texts self) }
        ensures { IfSome result (λ is. is ≡ same_text (word (arm_texts self.entry) place) subject.now) }
    {
        match (self.number(place), subject.number()) {
            (Some(own), Some(known)) => Some(known == own),
            _ => None,
        }
    }

    /// Does the pattern at a place match the subject?
    pub(crate) fn matches(
        self,
        alloc: Global,
        place: usize,
        globs: bool,
        subject: &Subject<'_>,
    ) -> Result<bool, AllocError>
        requires { place < length (arm_texts self) }
        ensures { IfOk result (λ is. is ≡ shapes.matches globs (word (arm_texts self.entry) place) subject.now) }
    {
        if let Some(pattern) = self.shown(place) {
            return Ok(matches_text(globs, pattern, subject.as_str()));
        }
        if !globs {
            if let Some(is) = self.is_known(place, subject) {
                return Ok(is);
            }
        }
        let pattern = self.text(alloc, place)?;
        Ok(matches_text(globs, pattern.as_str(), subject.as_str()))
    }
}
