//! Errors that every command can have.
ghost use Rattle.std.specs.Prelude.{◌≡◌, [], IfOk};
ghost use Rattle.std.specs.Str.{chars};
ghost use Rattle.tcl_chars.specs.Messages.{about};
ghost use Rattle.tcl_meaning.specs.Channels.{unknown_channel};
ghost use Rattle.tcl_meaning.specs.Completions.{failure, wrong_words, too_deep};
ghost use Rattle.tcl_meaning.specs.Pages.{unknown_command};
ghost use Rattle.tcl_meaning.specs.Variables.{because, cant_read, cant_set, cant_unset};

use crate::completion::Completion;
use std::alloc::{AllocError, Global};
use tcl_chars::{about, message};
use tcl_meaning::Refusal;

impl Completion {
    /// The error that is said of a word: `before "word"after`.
    pub fn about(
        alloc: Global,
        before: &str,
        word: &str,
        after: &str,
    ) -> Result<Completion, AllocError>
        ensures { IfOk result (λ c. c ≡ failure (about (chars before.now) (chars word.now) (chars after.now))) }
    {
        let text = about(alloc, before, word, after)?;
        Ok(Completion::failure(alloc, text))
    }

    // The same, with nothing behind.
    fn of_word(alloc: Global, before: &str, word: &str) -> Result<Completion, AllocError>
        ensures { IfOk result (λ c. c ≡ failure (about (chars before.now) (chars word.now) [])) }
    {
        Completion::about(alloc, before, word, "")
    }

    /// The error of a script that stands in too many others.
    pub fn too_deep(alloc: Global) -> Result<Completion, AllocError>
        ensures { IfOk result (λ c. c ≡ too_deep) }
    {
        let text = message(alloc, "too many nested evaluations (infinite loop?)")?;
        Ok(Completion::failure(alloc, text))
    }

    /// The error of a variable that can't be read.
    pub fn cant_read(alloc: Global, name: &str, refusal: Refusal) -> Result<Completion, AllocError>
        ensures { IfOk result (λ c. c ≡ cant_read (chars name.now) refusal) }
    {
        Completion::about(alloc, "can't read", name, because(refusal))
    }

    /// The error of a variable that can't be written.
    pub fn cant_set(alloc: Global, name: &str, refusal: Refusal) -> Result<Completion, AllocError>
        ensures { IfOk result (λ c. c ≡ cant_set (chars name.now) refusal) }
    {
        Completion::about(alloc, "can't set", name, because(refusal))
    }

    /// The error of a variable that can't be taken away.
    pub fn cant_unset(alloc: Global, name: &str, refusal: Refusal) -> Result<Completion, AllocError>
        ensures { IfOk result (λ c. c ≡ cant_unset (chars name.now) refusal) }
    {
        Completion::about(alloc, "can't unset", name, because(refusal))
    }

    /// The error of a command that has other words than its usage says.
    pub fn wrong_words(alloc: Global, usage: &str) -> Result<Completion, AllocError>
        ensures { IfOk result (λ c. c ≡ wrong_words (chars usage.now)) }
    {
        Completion::of_word(alloc, "wrong # args: should be", usage)
    }

    /// The error of a word that is no command's name.
    pub fn unknown_command(alloc: Global, word: &str) -> Result<Completion, AllocError>
        ensures { IfOk result (λ c. c ≡ unknown_command (chars word.now)) }
    {
        Completion::of_word(alloc, "invalid command name", word)
    }

    /// The error of a word that is no channel's name.
    pub fn unknown_channel(alloc: Global, word: &str) -> Result<Completion, AllocError>
        ensures { IfOk result (λ c. c ≡ failure (unknown_channel (chars word.now))) }
    {
        Completion::of_word(alloc, "can not find channel named", word)
    }
}

// What a refusal says behind the name.
fn because(refusal: Refusal) -> &'static str
    ensures { chars result.now ≡ because refusal }
{
    match refusal {
        Refusal::NoSuch => ": no such variable",
        Refusal::IsArray => ": variable is array",
        Refusal::IsntArray => ": variable isn't array",
        Refusal::NoElement => ": no such element in array",
    }
}
