//! The command of a text where its code stands.

use crate::commands::{Command, Part, commands_in};
use crate::events::{beginnings, command_before};
use std::alloc::{AllocError, Global};
use tcl_chars::Dialect;
use tcl_code::Code;
use tcl_compile::{compile_expr, compile_script};
use tcl_names::Layout;

// The code of a text.
fn code_of(alloc: Global, text: &str, is_script: bool) -> Result<Code, AllocError> {
    let layout = Layout::new(alloc);
    if is_script {
        compile_script(alloc, text, Dialect::Tcl86, &layout)
    } else {
        compile_expr(alloc, text, Dialect::Tcl86, &layout)
    }
}

/// The innermost command of a script or an expression to which the instruction before this place of its code belongs, if it belongs to
/// one.
pub fn command_at(
    alloc: Global,
    text: &str,
    is_script: bool,
    at: usize,
) -> Result<Option<Command>, AllocError> {
    let code = code_of(alloc, text, is_script)?;
    let Some(number) = command_before(alloc, &code, at)? else {
        return Ok(None);
    };
    let events = beginnings(alloc, &code)?;
    let whole = Part {
        text,
        base: 0,
        is_script,
    };
    let commands = commands_in(alloc, &code, events.as_slice(), whole)?;
    if commands.len() != events.len() {
        return Ok(None);
    }
    Ok(commands.get(number).copied())
}
