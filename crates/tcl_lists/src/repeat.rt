//! Elements many times: lrepeat(n).

ghost use Rattle.std.specs.Prelude.{◌≡◌, drop, IfOk};
ghost use Rattle.tcl_chars.specs.Answers.{Answers};
ghost use Rattle.tcl_list.specs.Written.{written};
ghost use Rattle.tcl_pages.specs.Lists as spec;

use crate::message::usage;
use crate::range::values_from;
use crate::words::text_at;
use std::alloc::{AllocError, Global};
use tcl_chars::{Dialect, Fault, about, expect_number};
use tcl_values::{Gathering, Value};

/// The list of the values, repeated `count` times.
fn repeated(alloc: Global, values: &[Value], count: u64) -> Result<Value, AllocError>
    ensures { IfOk result (λ v. v ≡ written (spec.times count values.now)) }
{
    let once = Gathering::with_capacity(alloc, values.len())?.with_values(alloc, values)?;
    if values.len() == 0 {
        return once.into_value(alloc);
    }
    once.repeated(alloc, count)?.into_value(alloc)
}

/// `lrepeat count ?element ...?`: the list of the elements, repeated `count` times.
///
/// # Errors
///
/// `Fault::Error` with the usage or what is wrong with the count, `Fault::Memory`.
pub fn lrepeat(alloc: Global, words: &mut [Value], dialect: Dialect) -> Result<Value, Fault>
    ensures answer { Answers (λ v. v) result (spec.lrepeat dialect words.old) }
    ensures same { words.new ≡ words.old }
{
    if words.len() == 0 {
        return usage(alloc, "lrepeat count ?element ...?");
    }
    let text = text_at(alloc, words, 0)?;
    let count = expect_number(alloc, text.as_str(), dialect)?;
    if count < 0 {
        return Err(Fault::Error(about(
            alloc,
            "bad count",
            text.as_str(),
            ": must be integer >= 0",
        )?));
    }
    Ok(repeated(alloc, values_from(&*words, 1), count as u64)?)
}
