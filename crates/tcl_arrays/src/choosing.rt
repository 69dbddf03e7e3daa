//! Elements and names that a pattern chooses: array(n), info(n).
ghost use Rattle.std.specs.Prelude.{◌≡◌, map as each, option_map, IfOk};
ghost use Rattle.std.specs.FinMap as map;
ghost use Rattle.std.specs.Str.{chars};
ghost use Rattle.tcl_chars.specs.Texts.{text_of};
ghost use Rattle.tcl_list.specs.Written.{written};
ghost use Rattle.tcl_meaning.specs.Arrays as spec;

use std::alloc::{AllocError, Global};
use std::rc::RcStr;
use tcl_glob::glob_match;
use tcl_names::HashedNames;
use tcl_values::Value;

/// Does a name match the pattern, if there is one?
pub(crate) fn name_fits(pattern: &Option<RcStr>, name: &str) -> bool
    ensures { result ≡ spec.name_fits (option_map text_of pattern.now) (chars name.now) }
{
    match pattern {
        Some(pattern) => glob_match(pattern.as_str(), name),
        None => true,
    }
}

/// The names that match, in their order.
pub(crate) fn names_among(
    alloc: Global,
    elements: &HashedNames<Value>,
    pattern: &Option<RcStr>,
) -> Result<Vec<RcStr>, AllocError>
    ensures { IfOk result (λ names. each text_of names.items ≡ spec.names_among (option_map text_of pattern.now) (map.entries elements.now)) }
{
    let mut found = Vec::new(alloc);
    for (name, _) in elements.entries(alloc)? {
        if name_fits(pattern, name.as_str()) {
            found.push(name)?;
        }
    }
    Ok(found)
}

/// The names that match, each with its text behind it.
pub(crate) fn pairs_among(
    alloc: Global,
    elements: &HashedNames<Value>,
    pattern: &Option<RcStr>,
) -> Result<Vec<Value>, AllocError>
    ensures { IfOk result (λ pairs. pairs.items ≡ spec.pairs_among (option_map text_of pattern.now) (map.entries elements.now)) }
{
    let mut found = Vec::new(alloc);
    for (name, value) in elements.entries(alloc)? {
        if name_fits(pattern, name.as_str()) {
            found.push(Value::of_text(name))?;
            found.push(value.copy()?)?;
        }
    }
    Ok(found)
}

/// The list of some names.
pub(crate) fn list_of(alloc: Global, names: &[RcStr]) -> Result<Value, AllocError>
    ensures { IfOk result (λ value. value ≡ written (each text_of names.now)) }
{
    let mut items = Vec::new(alloc);
    for name in names {
        items.push(Value::of_text(name.clone()?))?;
    }
    Value::of_list(alloc, items)
}
