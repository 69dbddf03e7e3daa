//! tclwhere: runs a Tcl script from a file as tclint does, and tells where an error has come from.
#![tactic(auto)]

use std::alloc::AllocError;
use std::io::ErrorKind;
use std::process::ExitCode;
use std::{env, fs, io};
use tcl_chan::standard::{StandardInput, StandardOutput};
use tcl_where::{is_file, refuse_words, tool};

// The program's words, without its own name.
fn words_of(rt: &HostRuntime) -> io::Result<Vec<String>> {
    let mut words = Vec::new(rt.alloc());
    for word in env::args(rt)?.skip(1) {
        words.push(word)?;
    }
    Ok(words)
}

// Does an error say that memory was refused?
fn is_refused(error: &io::Error) -> bool {
    error.kind() == ErrorKind::OutOfMemory
}

// The bytes of the file that the words ask for: `None` where it can't be read, or none is asked for.
fn file_of(rt: &HostRuntime, words: &[&str]) -> Result<Option<Vec<u8>>, AllocError> {
    if !is_file(words) {
        return Ok(None);
    }
    match fs::read(rt, words[0]) {
        Ok(bytes) => Ok(Some(bytes)),
        Err(error) => {
            if is_refused(&error) {
                return Err(AllocError);
            }
            Ok(None)
        }
    }
}

// The status of the program, or that memory was refused to it.
fn status(rt: &HostRuntime) -> Result<u8, AllocError> {
    let mut input = StandardInput::new(rt.stdin());
    let mut out = StandardOutput::stdout(rt.stdout());
    let mut err = StandardOutput::stderr(rt.stderr());
    let words = match words_of(rt) {
        Ok(words) => words,
        Err(error) => {
            if is_refused(&error) {
                return Err(AllocError);
            }
            // A word that isn't UTF-8 is no usage.
            return Ok(refuse_words(rt.alloc(), &mut input, &mut out, &mut err));
        }
    };
    let mut texts = Vec::new(rt.alloc());
    for word in &words {
        texts.push(word.as_str())?;
    }
    let bytes = file_of(rt, &texts)?;
    let file = match &bytes {
        Some(bytes) => Some(bytes.as_slice()),
        None => None,
    };
    Ok(tool(rt.alloc(), &texts, file, &mut input, &mut out, &mut err))
}

fn main(rt: HostRuntime) -> ExitCode {
    match status(&rt) {
        Ok(status) => ExitCode::from(status),
        Err(_) => {
            let _ = eprintln!(rt; "out of memory");
            ExitCode::from(3)
        }
    }
}
