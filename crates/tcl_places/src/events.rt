//! Commands of a code, by its instructions.

use std::alloc::{AllocError, Global};
use tcl_code::{Code, Inlined, Instr, TextInstr};

// Does a script end at an instruction that stands in a code?
fn ends_script(instr: Option<Instr>) -> bool {
    matches!(
        instr,
        None | Some(Instr::Leave | Instr::Become | Instr::Again | Instr::Collect)
    )
}

// Does a command begin at a place, a malformed one among them?
fn begins_at(code: &Code, place: usize) -> bool {
    match code.instr(place) {
        Some(Instr::Spend | Instr::Begin(_)) => true,
        Some(Instr::Raise(_) | Instr::Rare(TextInstr::Raise, _)) => ends_script(code.instr(
            place.saturating_add(1),
        )),
        _ => false,
    }
}

/// The places where the commands of a code begin, those of scripts inside among them, in the order of the code.
pub(crate) fn beginnings(alloc: Global, code: &Code) -> Result<Vec<usize>, AllocError> {
    let mut places = Vec::new(alloc);
    'places: for place in 0..code.len() {
        if begins_at(code, place) {
            places.push(place)?;
        }
    }
    Ok(places)
}

// Does a script begin inside of a command?
fn opens(instr: Option<Instr>) -> bool {
    matches!(instr, Some(Instr::Enter | Instr::Body(_, _)))
}

// Has a script ended that stands inside of a command?
fn closes(instr: Option<Instr>) -> bool {
    instr.is_some() && ends_script(instr)
}

/// Which of the commands of a code an instruction belongs to, by the place behind it: the innermost one, counted from 0. `None` where it
/// belongs to none, as in an expression.
pub(crate) fn command_before(
    alloc: Global,
    code: &Code,
    behind: usize,
) -> Result<Option<usize>, AllocError> {
    let mut begun = 0usize;
    let mut current = None;
    let mut outer = Vec::new(alloc);
    'places: for place in 0..code.len() {
        if place >= behind {
            return Ok(current);
        }
        let instr = code.instr(place);
        if begins_at(code, place) {
            current = Some(begun);
            begun = begun.saturating_add(1);
        } else if opens(instr) {
            outer.push(current)?;
        } else if closes(instr) {
            current = outer.pop().unwrap_or(None);
        }
    }
    Ok(current)
}

/// The command by whose guard the code of a command is inlined, from the place where the command begins.
pub(crate) fn guard_behind(code: &Code, begin: usize) -> Option<Inlined> {
    let mut depth = 0usize;
    'places: for place in begin..code.len() {
        let instr = code.instr(place);
        if opens(instr) {
            depth = depth.saturating_add(1);
        } else if closes(instr) {
            depth = depth.saturating_sub(1);
        }
        match instr {
            Some(Instr::Guard(page, _)) if depth == 0 => return Some(page),
            Some(Instr::Call(_) | Instr::CallSlow(_) | Instr::CallGathered) if depth == 0 => {
                return None;
            }
            _ => {}
        }
    }
    None
}
