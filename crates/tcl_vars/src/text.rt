//! A text that grows: append(n).

ghost use Rattle.std.specs.Prelude.{◌≡◌, IfOk, OnOk, OnErr};
ghost use Rattle.tcl_pages.specs.Updates.{text_appended};

use std::alloc::{AllocError, Global};
use tcl_values::Value;

/// `append varName ?value ...?`: writes the words at the value's end, in place where nobody else holds its text.
///
/// # Errors
///
/// `AllocError` where a growth was refused; the value is then as it was.
pub(crate) fn append(
    alloc: Global,
    value: &mut Value,
    words: &mut [Value],
) -> Result<(), AllocError>
    ensures done { OnOk result (value.new ≡ text_appended value.old words.old) }
    ensures same { OnErr result (value.new ≡ value.old) }
    ensures words { words.new ≡ words.old }
{
    if words.len() == 1 {
        let text = words[0].spelled(alloc)?;
        return value.append(alloc, text.as_str());
    }
    let more = Value::joined_text(alloc, &*words)?;
    value.append(alloc, more.as_str())
}
