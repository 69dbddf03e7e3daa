//! Variables, as a host is told of them.
ghost use Rattle.std.specs.Prelude.{◌≡◌, option_map, IfOk};
ghost use Rattle.std.specs.FinMap as map;
ghost use Rattle.std.specs.Str.{chars};
ghost use Rattle.tcl_chars.specs.Texts.{text_of as characters_of};
ghost use Rattle.tcl_frames.specs.Seen.{seen_here, variable_seen};
ghost use Rattle.tcl_frames.specs.Standing.{store_of};
ghost use Rattle.tcl_interp.specs.Host.{all_told, elements_shown, told_among, told_by, told_of, vars_shown};

use crate::host::HostVar;
use std::alloc::{AllocError, Global};
use std::rc::RcStr;
use tcl_frames::{Frames, Seen};
use tcl_names::{HashedNames, NameMap};
use tcl_values::Value;

/// The text of a value, for keeps.
pub(crate) fn text_of(alloc: Global, value: &Value) -> Result<RcStr, AllocError>
    ensures { IfOk result (λ text. characters_of text ≡ value.now) }
{
    let mut value = value.copy()?;
    value.text(alloc)
}

// The elements of an array, by name in the order of code points.
fn host_elements(
    alloc: Global,
    elements: &HashedNames<Value>,
) -> Result<Vec<(RcStr, RcStr)>, AllocError>
    ensures { IfOk result (λ shown. elements_shown shown.items ≡ map.entries elements.now) }
{
    let mut shown = Vec::new(alloc);
    for (name, value) in elements.entries(alloc)? {
        shown.push((name, text_of(alloc, value)?))?;
    }
    Ok(shown)
}

// What a host is told of a variable.
fn host_var(alloc: Global, seen: Seen<'_>) -> Result<HostVar, AllocError>
    ensures { IfOk result (λ var. told_by var ≡ told_of (variable_seen seen.entry)) }
{
    match seen {
        Seen::Text(value) => Ok(HostVar::Text(text_of(alloc, value)?)),
        Seen::Array(elements) => Ok(HostVar::Array(host_elements(alloc, elements)?)),
    }
}

// What a host is told under a name of the active frame, if there is anything.
fn told_under(alloc: Global, frames: &Frames, name: &str) -> Result<Option<HostVar>, AllocError>
    ensures { IfOk result (λ var. option_map told_by var ≡ option_map told_of (seen_here (store_of map.empty frames.now) (chars name.now))) }
{
    match frames.seen_here(name) {
        Some(seen) => Ok(Some(host_var(alloc, seen)?)),
        None => Ok(None),
    }
}

// Those of some names of the active frame under which there is anything.
fn vars_among(
    alloc: Global,
    frames: &Frames,
    names: &NameMap<()>,
) -> Result<Vec<(RcStr, HostVar)>, AllocError>
    ensures { IfOk result (λ vars. vars_shown vars.items ≡ told_among (store_of map.empty frames.now) (map.entries names.now)) }
{
    let mut vars = Vec::new(alloc);
    for (name, _) in names.iter() {
        if let Some(var) = told_under(alloc, frames, name.as_str())? {
            vars.push((name.clone()?, var))?;
        }
    }
    Ok(vars)
}

/// The variables of the active frame, by name in the order of code points.
pub(crate) fn host_vars(alloc: Global, frames: &Frames) -> Result<Vec<(RcStr, HostVar)>, AllocError>
    ensures { IfOk result (λ vars. vars_shown vars.items ≡ all_told (store_of map.empty frames.now)) }
{
    let names = frames.names(alloc)?;
    vars_among(alloc, frames, &names)
}
