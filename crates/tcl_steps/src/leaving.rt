//! The end of a procedure's body.
ghost use Rattle.std.specs.Prelude.{◌≡◌, IfOk};
ghost use Rattle.std.specs.Str.{chars};
ghost use Rattle.tcl_meaning.specs.Completions.{left_at, left_body, outside_loop};

use crate::completion::{Completion, Ending, Given};
use std::alloc::{AllocError, Global};
use tcl_meaning::Code;
use tcl_values::Value;

impl Completion {
    /// The error of a loop's code that has come to a place where no loop is.
    pub(crate) fn outside_loop(alloc: Global, word: &str) -> Result<Completion, AllocError>
        ensures { IfOk result (λ c. c ≡ outside_loop (chars word.now)) }
    {
        Completion::about(alloc, "invoked", word, " outside of a loop")
    }

    // What the end of a body is that was given more than a code in force.
    fn left_given(
        alloc: Global,
        value: Value,
        mut given: Box<Given>,
    ) -> Result<Completion, AllocError>
        ensures { IfOk result (λ c. c ≡ left_at given.value.level (record { code = given.value.code; level = given.value.level; result = value; options = given.value.options.items })) }
    {
        if given.level == 0 {
            match given.code {
                Code::Break => return Completion::outside_loop(alloc, "break"),
                Code::Continue => return Completion::outside_loop(alloc, "continue"),
                _ => {}
            }
        } else {
            given.level -= 1;
        }
        Ok(Completion {
            result: value,
            ending: Ending::Given(given),
        })
    }

    /// What the end of a body is for its caller: proc(n), return(n). A `return` has one procedure less to wait for.
    pub fn left_body(self, alloc: Global) -> Result<Completion, AllocError>
        ensures { IfOk result (λ c. c ≡ left_body self) }
    {
        let (result, ending) = self.into_parts();
        let ending = match ending {
            Ending::Waiting(level) if level > 1 => Ending::Waiting(level - 1),
            Ending::Waiting(_) => Ending::Ok,
            Ending::Break => return Completion::outside_loop(alloc, "break"),
            Ending::Continue => return Completion::outside_loop(alloc, "continue"),
            Ending::Given(given) => return Completion::left_given(alloc, result, given),
            ending => ending,
        };
        Ok(Completion { result, ending })
    }
}
