//! The end of a script, for a host.
ghost use Rattle.std.specs.Prelude.{◌≡◌, IfOk};
ghost use Rattle.tcl_meaning.specs.Completions.{bad_code, code_number, top};

use crate::completion::{Completion, Ending, code_value};
use std::alloc::{AllocError, Global};
use tcl_chars::{message, push_text};
use tcl_meaning::Code;

impl Completion {
    /// The code, in force or waiting for the end of procedures.
    pub fn code(&self) -> Code
        ensures { result ≡ self.now.code }
    {
        self.ending.code()
    }

    // The error of a code that nothing takes.
    fn bad_code(alloc: Global, code: Code) -> Result<Completion, AllocError>
        ensures { IfOk result (λ c. c ≡ bad_code (code_number code)) }
    {
        let mut number = code_value(code);
        let number = number.text(alloc)?;
        let mut text = String::new(alloc);
        push_text(&mut text, "command returned bad code: ")?;
        push_text(&mut text, number.as_str())?;
        Ok(Completion::failure(alloc, message(alloc, text.as_str())?))
    }

    // The same, for no procedure's end to wait for.
    fn in_force(self) -> Completion
        ensures { result ≡ record self { level = 0 } }
    {
        let (result, ending) = self.into_parts();
        let ending = match ending {
            Ending::Waiting(_) => Ending::Ok,
            Ending::Given(mut given) => {
                given.level = 0;
                Ending::Given(given)
            }
            ending => ending,
        };
        Completion { result, ending }
    }

    /// What the end of a script is for a host: no procedure is left to wait for.
    pub fn into_top(self, alloc: Global) -> Result<Completion, AllocError>
        ensures { IfOk result (λ c. c ≡ top self) }
    {
        match self.code() {
            Code::Ok | Code::Error => Ok(self.in_force()),
            Code::Return => Completion::bad_code(alloc, Code::Return),
            Code::Other(number) => Completion::bad_code(alloc, Code::Other(number)),
            Code::Break => Completion::outside_loop(alloc, "break"),
            Code::Continue => Completion::outside_loop(alloc, "continue"),
        }
    }
}
