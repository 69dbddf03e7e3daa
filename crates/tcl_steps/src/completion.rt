//! How a command ended.
ghost use Rattle.std.specs.Prelude.{◌≡◌, ◌≢◌, [], ◌++◌, true, false, IfOk, OnOk};
ghost use Rattle.tcl_chars.specs.Texts.{literal, text_of};
ghost use Rattle.tcl_meaning.specs.Completions.{ended, normal, failure, nothing, code_at, code_now, code_number, options_text};
ghost use Rattle.tcl_meaning.specs.Handlers.{or_none, error_code};
ghost use Rattle.tcl_pages.specs.DictPages.{flat, value_at};
ghost use Rattle.tcl_pages.specs.Texts.{number_text};
ghost use Rattle.tcl_meaning.specs.declared.code.Code.TheVariants as code;
ghost use Rattle.tcl_steps.specs.CompletionShape.{code_of, level_of, options_of};

use crate::answers::is_word;
use std::alloc::{AllocError, Global};
use std::marker::Model;
use std::rc::RcStr;
use tcl_chars::message;
use tcl_meaning::Code;
use tcl_values::Value;

/// How a command ended: a code, a result or a message, and the options that `return` or `error` was given. return(n), RETURN
/// CODES.
pub struct Completion {
    pub(crate) result: Value,
    pub(crate) ending: Ending,
}

impl Drop for Completion {
    #[inline(always)]
    fn drop(self) {
        let Completion { result, ending } = self;
        drop(result);
        drop(ending);
    }
}

/// How a command ended, but for its result. A code stands here if it is in force, without options.
#[derive(Drop)]
pub(crate) enum Ending {
    Ok,
    Error,
    Return,
    Break,
    Continue,
    Other(i64),
    /// It is ok, and waits for the end of so many procedures, without options.
    Waiting(u64),
    Given(Box<Given>),
}

/// What `return` or `error` was given.
#[derive(Drop)]
pub(crate) struct Given {
    /// At level 0 it is in force; above, it waits for the end of that many procedures.
    pub(crate) code: Code,
    pub(crate) level: u64,
    pub(crate) options: Vec<(Value, Value)>,
}

impl Model for Completion {
    ghost use Rattle.tcl_meaning.specs.Completions as meaning;

    ghost Value = { meaning.Completion };

    ghost use Rattle.tcl_steps.specs.CompletionShape.{completion_of};

    ghost view = { completion_of };
}

/// The number of a code: return(n), RETURN CODES.
pub fn code_number(code: Code) -> i64
    ensures { result ≡ code_number code }
{
    match code {
        Code::Ok => 0,
        Code::Error => 1,
        Code::Return => 2,
        Code::Break => 3,
        Code::Continue => 4,
        Code::Other(number) => number,
    }
}

/// The decimal text of the number of a code.
pub fn code_value(code: Code) -> Value
    ensures { result ≡ number_text (code_number code) }
{
    Value::of_int(code_number(code))
}

// Adds options, a name and a value in turn.
fn push_options(items: &mut Vec<Value>, options: &[(Value, Value)]) -> Result<(), AllocError>
    ensures { OnOk result (items.new.items ≡ items.old.items ++ flat options.now) }
{
    for (name, value) in options {
        items.push(name.copy()?)?;
        items.push(value.copy()?)?;
    }
    Ok(())
}

// The value of `-errorcode` among options, or `NONE` where it isn't there.
fn error_code_among(alloc: Global, options: &[(Value, Value)]) -> Result<Value, AllocError>
    ensures { IfOk result (λ code. code ≡ or_none (value_at (literal "-errorcode") options.now)) }
{
    let mut rest = options;
    'options: while let [(name, value), others @ ..] = rest {
        if is_word(alloc, name, "-errorcode")? {
            return value.copy();
        }
        rest = others;
    }
    Ok(Value::of_text(message(alloc, "NONE")?))
}

impl Ending {
    // The end with a code in force.
    fn of_code(code: Code) -> Ending
        ensures code { code_of result ≡ code }
        ensures level { level_of result ≡ 0 }
        ensures options { options_of result ≡ [] }
    {
        match code {
            Code::Ok => Ending::Ok,
            Code::Error => Ending::Error,
            Code::Return => Ending::Return,
            Code::Break => Ending::Break,
            Code::Continue => Ending::Continue,
            Code::Other(number) => Ending::Other(number),
        }
    }

    /// The code, in force or waiting for the end of procedures.
    pub(crate) fn code(&self) -> Code
        ensures { result ≡ code_of self.now }
    {
        match self {
            Ending::Ok | Ending::Waiting(_) => Code::Ok,
            Ending::Error => Code::Error,
            Ending::Return => Code::Return,
            Ending::Break => Code::Break,
            Ending::Continue => Code::Continue,
            Ending::Other(number) => Code::Other(*number),
            Ending::Given(given) => given.code,
        }
    }

    // For the end of how many procedures the code waits.
    fn level(&self) -> u64
        ensures { result ≡ level_of self.now }
    {
        match self {
            Ending::Waiting(level) => *level,
            Ending::Given(given) => given.level,
            _ => 0,
        }
    }

    // Adds the options that were given, a name and a value in turn.
    fn add_options(&self, items: &mut Vec<Value>) -> Result<(), AllocError>
        ensures { OnOk result (items.new.items ≡ items.old.items ++ flat (options_of self.now)) }
    {
        match self {
            Ending::Given(given) => push_options(items, &given.options),
            _ => Ok(()),
        }
    }

    /// The code that is in force.
    pub(crate) fn code_now(&self) -> Code
        ensures { result ≡ code_at (level_of self.now) (code_of self.now) }
    {
        if self.level() == 0 {
            self.code()
        } else {
            Code::Return
        }
    }
}

impl Completion {
    /// Its result, and how it ended.
    #[inline(always)]
    pub(crate) fn into_parts(self) -> (Value, Ending)
        ensures result { result.0 ≡ self.result }
        ensures code { code_of result.1 ≡ self.code }
        ensures level { level_of result.1 ≡ self.level }
        ensures options { options_of result.1 ≡ self.options }
    {
        let Completion { result, ending } = self;
        (result, ending)
    }

    /// The end with a code in force.
    pub fn ended(_alloc: Global, code: Code, value: Value) -> Completion
        ensures { result ≡ ended code value }
    {
        Completion {
            result: value,
            ending: Ending::of_code(code),
        }
    }

    /// The end of a command that was ok.
    #[inline(always)]
    pub fn normal(_alloc: Global, value: Value) -> Completion
        ensures { result ≡ normal value }
    {
        Completion {
            result: value,
            ending: Ending::Ok,
        }
    }

    /// The answer of a command that has nothing to say.
    pub fn nothing(alloc: Global) -> Result<Completion, AllocError>
        ensures { IfOk result (λ c. c ≡ nothing) }
    {
        let text = Value::of_str(alloc, "")?;
        Ok(Completion::normal(alloc, text))
    }

    /// The error with a message.
    pub fn failure(_alloc: Global, message: RcStr) -> Completion
        ensures { result ≡ failure (text_of message) }
    {
        Completion {
            result: Value::of_text(message),
            ending: Ending::Error,
        }
    }

    /// The error with a message, and the options that it was given.
    pub fn error_with(
        alloc: Global,
        message: Value,
        options: Vec<(Value, Value)>,
    ) -> Result<Completion, AllocError>
        ensures { IfOk result (λ c. c ≡ record (failure message) { options = options.items }) }
    {
        let given = Given {
            code: Code::Error,
            level: 0,
            options,
        };
        Ok(Completion {
            result: message,
            ending: Ending::Given(Box::new(alloc, given)?),
        })
    }

    /// The code that is in force.
    #[inline(always)]
    pub fn code_now(&self) -> Code
        ensures { result ≡ code_now self.now }
    {
        match &self.ending {
            Ending::Ok => Code::Ok,
            ending => ending.code_now(),
        }
    }

    /// The return options as a list, the code and the level first: catch(n).
    pub fn options_text(&self, alloc: Global) -> Result<Value, AllocError>
        ensures { IfOk result (λ text. text ≡ options_text self.now) }
    {
        let mut items = Vec::new(alloc);
        items.push(Value::of_text(message(alloc, "-code")?))?;
        items.push(code_value(self.ending.code()))?;
        items.push(Value::of_text(message(alloc, "-level")?))?;
        items.push(Value::of_count(alloc, self.ending.level())?)?;
        self.ending.add_options(&mut items)?;
        Value::of_list(alloc, items)
    }

    /// The code of an error, for programs to read: `NONE` where it was given none. throw(n).
    pub fn error_code(&self, alloc: Global) -> Result<Value, AllocError>
        ensures { IfOk result (λ code. code ≡ error_code self.now) }
    {
        match &self.ending {
            Ending::Given(given) => error_code_among(alloc, &given.options),
            _ => Ok(Value::of_text(message(alloc, "NONE")?)),
        }
    }

    /// Is the code that is in force ok?
    #[inline(always)]
    pub fn is_ok(&self) -> bool
        ensures is { result ≡ true → code_now self.now ≡ code.Ok }
        ensures other { result ≡ false → code_now self.now ≢ code.Ok }
    {
        match &self.ending {
            Ending::Ok => true,
            ending => ending.code_now() == Code::Ok,
        }
    }

    /// The result, or the message.
    pub fn result(&self) -> &Value
        ensures { result.now ≡ self.now.result }
    {
        &self.result
    }

    /// The result, or the message, and nothing else.
    #[inline(always)]
    pub fn into_result(self) -> Value
        ensures { result ≡ self.result }
    {
        let Completion { result, ending } = self;
        drop(ending);
        result
    }
}
