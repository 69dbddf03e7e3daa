//! The script of a file: CR LF is read as LF.
ghost use Rattle.std.specs.Prelude.{◌≡◌, ◌==◌, IfOk};
ghost use Rattle.std.specs.List.{list_any};
ghost use Rattle.std.specs.Str.{chars};
ghost use Rattle.std.specs.String.{string_bytes};
ghost use Rattle.tcl_chan.specs.Newlines.{is_joined_return, joined_newlines};
ghost use Rattle.tcl_shell.specs.Scripts.{script_text};

use std::alloc::{AllocError, Global};
use tcl_chars::{begins, push, split_first};

/// The script of a file.
#[derive(Drop)]
pub(crate) enum Script<'a> {
    /// The file's own text.
    Own(&'a str),
    /// It has fewer characters.
    Joined(String),
}

impl Script<'_> {
    pub(crate) fn as_str(&self) -> &str
        ensures { chars result.now ≡ script_text self.now }
    {
        match self {
            Script::Own(text) => *text,
            Script::Joined(text) => text.as_str(),
        }
    }
}

// Does a CR stand in a text?
fn has_return(text: &str) -> bool
    ensures { result ≡ list_any (λ c. c == 13) (chars text.now) }
{
    text.chars().any(|c| c == '\r')
}

// Is the character the CR of a CR LF, where this follows it?
#[tactic(auto, using(crate::proofs::JoinedNewlines::return_is))]
fn is_joined_return(c: char, after: &str) -> bool
    ensures { result ≡ is_joined_return c (chars after.now) }
{
    c == '\r' && begins('\n', after)
}

// A text in which CR LF is read as LF.
fn joined_lines(alloc: Global, text: &str) -> Result<String, AllocError>
    ensures { IfOk result (λ script. chars (string_bytes script) ≡ joined_newlines (chars text.now)) }
{
    let mut script = String::new(alloc);
    let mut rest = text;
    'characters: while let Some((c, after)) = split_first(rest) {
        if !is_joined_return(c, after) {
            push(&mut script, c)?;
        }
        rest = after;
    }
    Ok(script)
}

// The script of a file with this text. A text without a CR is read as it is, and isn't copied.
#[tactic(auto, using(crate::proofs::JoinedNewlines::no_return))]
pub(crate) fn script_of<'a>(alloc: Global, text: &'a str) -> Result<Script<'a>, AllocError>
    ensures { IfOk result (λ script. script_text script ≡ joined_newlines (chars text.now)) }
{
    if has_return(text) {
        return Ok(Script::Joined(joined_lines(alloc, text)?));
    }
    Ok(Script::Own(text))
}
