//! Lists and dictionaries written as a text, and those that stand in them at once with them: what is written of an inner one
//! is neither copied nor looked at again for the outer one.

ghost use Rattle.std.specs.Prelude.{◌≡◌, ◌++◌, length, OnOk};
ghost use Rattle.std.specs.Str.{chars};
ghost use Rattle.std.specs.String.{string_bytes};
ghost use Rattle.tcl_list.specs.Written.{appended, written};
ghost use Rattle.tcl_pages.specs.DictPages.{dictionary};
ghost use Rattle.tcl_values.specs.Kept.{texts};
ghost use Rattle.tcl_values.specs.Nested.{opening};
ghost use Rattle.tcl_values.specs.Shape.{elements, items_text, pairs_in, pairs_text, ArePaired};

use crate::element::{Element, Entry, Items, Pairs};
use crate::items::row_shown;
use crate::pairs::pairs_shown;
use std::alloc::{AllocError, Global};
use tcl_chars::{push, push_text};
use tcl_list::append_element;

/// Writes the elements of a list, as a list, at the end of a text.
#[cycle(writing)]
pub(crate) fn push_items(text: &mut String, alloc: Global, row: &Items) -> Result<(), AllocError>
    ensures { OnOk result (chars (string_bytes text.new)
        ≡ chars (string_bytes text.old) ++ written (texts (elements row.now))) }
{
    let mut first = true;
    for item in &row.items {
        push_item(text, alloc, item, first)?;
        first = false;
    }
    Ok(())
}

/// Writes the keys and values in turn, as a list, at the end of a text.
#[cycle(writing)]
pub(crate) fn push_pairs(text: &mut String, alloc: Global, pairs: &Pairs) -> Result<(), AllocError>
    requires { length pairs.now.keys.keys ≡ length pairs.now.values.items }
    ensures { OnOk result (chars (string_bytes text.new)
        ≡ chars (string_bytes text.old) ++ dictionary (pairs_in pairs.now)) }
{
    let keys = pairs.keys.as_slice();
    let values = pairs.values.as_slice();
    for place in 0..keys.len() {
        append_element(text, keys[place].as_str(), place == 0)?;
        push_item(text, alloc, &values[place], false)?;
    }
    Ok(())
}

/// Writes an element of a list, behind a space unless it is the first.
#[cycle(writing)]
fn push_item(
    text: &mut String,
    alloc: Global,
    item: &Element,
    first: bool,
) -> Result<(), AllocError>
    ensures { OnOk result (chars (string_bytes text.new)
        ≡ chars (string_bytes text.old) ++ appended first item.now.text) }
{
    match &item.entry {
        Entry::Row(row) => push_row(text, alloc, row, first),
        Entry::Dict(pairs) => push_dict(text, alloc, pairs, first),
        _ => {
            let shown = item.text(alloc)?;
            append_element(text, shown.as_str(), first)
        }
    }
}

/// Opens an element in braces, behind a space unless it is the first.
fn push_open(text: &mut String, first: bool) -> Result<(), AllocError>
    ensures { OnOk result (chars (string_bytes text.new) ≡ chars (string_bytes text.old) ++ opening first) }
{
    if first {
        return push(text, '{');
    }
    push_text(text, " {")
}

/// Writes a list as an element of another one. Where nobody has written its two elements or more, they are written in braces.
#[cycle(writing)]
fn push_row(text: &mut String, alloc: Global, row: &Items, first: bool) -> Result<(), AllocError>
    ensures { OnOk result (chars (string_bytes text.new)
        ≡ chars (string_bytes text.old) ++ appended first (items_text row.now)) }
{
    if row.text.is_none() && row.items.len() > 1 {
        push_open(text, first)?;
        push_items(text, alloc, row)?;
        push(text, '}')?;
        return Ok(());
    }
    let shown = row_shown(row, alloc)?;
    append_element(text, shown.as_str(), first)
}

/// Writes a dictionary as an element of a list. Where nobody has written its pairs, they are written in braces.
#[cycle(writing)]
fn push_dict(text: &mut String, alloc: Global, pairs: &Pairs, first: bool) -> Result<(), AllocError>
    requires { ArePaired pairs.now }
    ensures { OnOk result (chars (string_bytes text.new)
        ≡ chars (string_bytes text.old) ++ appended first (pairs_text pairs.now)) }
{
    if pairs.text.is_none() && 0 < pairs.values.len() {
        push_open(text, first)?;
        push_pairs(text, alloc, pairs)?;
        push(text, '}')?;
        return Ok(());
    }
    let shown = pairs_shown(pairs, alloc)?;
    append_element(text, shown.as_str(), first)
}
