//! Values that are truth values and counts.
ghost use Rattle.std.specs.Prelude.{◌≡◌, IfOk};
ghost use Rattle.tcl_pages.specs.Results.{truth_text};
ghost use Rattle.tcl_pages.specs.Texts.{count_text};

use crate::value::Value;
use itoa::Buffer;
use std::alloc::{AllocError, Global};
use std::rc::RcStr;

impl Value {
    /// The value of a truth value: 1 or 0.
    #[tactic(auto, using(crate::proofs::Truths::one, crate::proofs::Truths::nought))]
    pub fn of_truth(holds: bool) -> Value
        ensures { result ≡ truth_text holds }
    {
        if holds {
            Value::of_int(1)
        } else {
            Value::of_int(0)
        }
    }

    /// The value of a count, in decimal.
    ///
    /// # Errors
    ///
    /// `AllocError` where the count is past the numbers of a script and a growth was refused.
    pub fn of_count(alloc: Global, count: u64) -> Result<Value, AllocError>
        ensures { IfOk result (λ value. value ≡ count_text count) }
    {
        match i64::try_from(count) {
            Ok(number) => Ok(Value::of_int(number)),
            Err(_) => {
                let digits = RcStr::from_str(alloc, Buffer::new().format(count))?;
                Ok(Value::of_text(digits))
            }
        }
    }
}
