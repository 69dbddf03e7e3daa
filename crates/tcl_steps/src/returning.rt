//! How `return` ends: return(n).
ghost use Rattle.std.specs.Prelude.{◌≡◌, IfOk};
ghost use Rattle.tcl_meaning.specs.Codes.{return_completion};

use crate::completion::{Completion, Ending, Given};
use std::alloc::{AllocError, Global};
use tcl_meaning::Code;
use tcl_values::Value;

impl Completion {
    /// The end of a `return` with a code that waits for the end of `level` procedures, and with options. The code `return` is `ok`
    /// of a level more.
    ///
    /// # Errors
    ///
    /// `AllocError` where a growth was refused.
    pub fn returned(
        alloc: Global,
        code: Code,
        level: u32,
        value: Value,
        options: Vec<(Value, Value)>,
    ) -> Result<Completion, AllocError>
        ensures { IfOk result (λ c. c ≡ return_completion code level value options.items) }
    {
        let level = u64::from(level);
        let (code, level) = match code {
            Code::Return => (Code::Ok, level + 1),
            code => (code, level),
        };
        if options.len() == 0 && code == Code::Ok {
            return Ok(Completion {
                result: value,
                ending: Ending::Waiting(level),
            });
        }
        let given = Given {
            code,
            level,
            options,
        };
        Ok(Completion {
            result: value,
            ending: Ending::Given(Box::new(alloc, given)?),
        })
    }
}
