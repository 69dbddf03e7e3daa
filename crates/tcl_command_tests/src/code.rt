//! Codes: what the builder gives, which codes are refused as invalid, and a long one.
use std::alloc::{AllocError, Global};
use std::rc::Rc;
use tcl_chars::Dialect;
use tcl_code::{Code, CodeBuilder, CodeFault, Instr};

type Built = Result<Code, CodeFault>;

/// What a builder is asked to do.
#[derive(Clone, Copy)]
enum Step<'a> {
    Spend,
    Enter,
    Leave,
    Call(u32),
    Turn(u32),
    /// Where the text on top says no, a way out that is patched later.
    SkipUnless,
    Push(&'a str),
    Read(&'a str),
    ReadElement(&'a str),
    Raise(&'a str),
}

fn add(builder: &mut CodeBuilder, step: Step<'_>) -> Result<(), AllocError> {
    match step {
        Step::Spend => builder.emit(Instr::Spend),
        Step::Enter => builder.emit(Instr::Enter),
        Step::Leave => builder.emit(Instr::Leave),
        Step::Call(count) => builder.emit(Instr::Call(count)),
        Step::Turn(count) => builder.emit(Instr::Turn(count)),
        Step::SkipUnless => builder.emit(Instr::SkipWhen(false, 0)),
        Step::Push(text) => builder.push(text),
        Step::Read(name) => builder.read(name),
        Step::ReadElement(name) => builder.read_element(name),
        Step::Raise(message) => builder.raise(message),
    }
}

fn add_steps(builder: &mut CodeBuilder, steps: &[Step<'_>]) -> Result<(), AllocError> {
    for step in steps {
        add(builder, *step)?;
    }
    Ok(())
}

fn add_times(
    builder: &mut CodeBuilder,
    steps: &[Step<'_>],
    times: usize,
) -> Result<(), AllocError> {
    for _ in 0..times {
        add_steps(builder, steps)?;
    }
    Ok(())
}

/// Patches the way out of a loop's five last instructions, where it is to lead past so many instructions.
fn patch(builder: &mut CodeBuilder, past: Option<usize>) -> Result<(), AllocError> {
    match past {
        Some(past) => builder.patch(builder.len().saturating_sub(5), past),
        None => Ok(()),
    }
}

fn add_all(
    builder: &mut CodeBuilder,
    steps: &[Step<'_>],
    past: Option<usize>,
) -> Result<(), AllocError> {
    add_steps(builder, steps)?;
    patch(builder, past)
}

fn finished(builder: CodeBuilder, added: Result<(), AllocError>) -> Built {
    match added {
        Ok(()) => builder.finish(),
        Err(_) => Err(CodeFault::Memory),
    }
}

/// The code of the steps, with a way out that leads past so many instructions.
fn built(alloc: Global, steps: &[Step<'_>], past: Option<usize>) -> Built {
    let mut builder = CodeBuilder::new(alloc);
    let added = add_all(&mut builder, steps, past);
    finished(builder, added)
}

/// Code that calls `times` commands of this name.
fn commands(alloc: Global, name: &str, times: usize) -> Built {
    let mut builder = CodeBuilder::new(alloc);
    let steps = [Step::Spend, Step::Push(name), Step::Call(1)];
    let added = add_times(&mut builder, &steps, times);
    finished(builder, added)
}

/// `set x $y`
const COMMAND: &[Step<'static>] = &[
    Step::Spend,
    Step::Push("set"),
    Step::Push("x"),
    Step::Read("y"),
    Step::Call(3),
];

/// `set a($i)` in a bracket, as the word of a command.
const BRACKET: &[Step<'static>] = &[
    Step::Spend,
    Step::Push("puts"),
    Step::Enter,
    Step::Spend,
    Step::Push("set"),
    Step::Read("i"),
    Step::ReadElement("a"),
    Step::Call(2),
    Step::Leave,
    Step::Call(2),
];

/// A loop over a command, whose way out is patched.
const TURNING: &[Step<'static>] = &[
    Step::Read("more"),
    Step::SkipUnless,
    Step::Spend,
    Step::Push("break"),
    Step::Call(1),
    Step::Turn(5),
];

/// A command that isn't paid for.
const UNPAID: &[Step<'static>] = &[Step::Push("exit"), Step::Call(1)];

/// A text that is left over.
const LEFT_OVER: &[Step<'static>] = &[Step::Push("exit")];

/// An error, behind which nothing is reached.
const RAISING: &[Step<'static>] = &[Step::Raise("missing close-bracket"), Step::Leave];

/// How many instructions a code has.
fn length(built: Built) -> Option<usize> {
    match built {
        Ok(code) => Some(code.len()),
        Err(_) => None,
    }
}

/// What a code is, its steps, how far its way out leads, and how many instructions it has.
type Sized = (&'static str, &'static [Step<'static>], Option<usize>, usize);

/// The first code that has another number of instructions.
fn other_length(alloc: Global, rows: &[Sized]) -> Option<&'static str> {
    for row in rows {
        let (name, steps, past, want) = *row;
        if length(built(alloc, steps, past)) != Some(want) {
            return Some(name);
        }
    }
    None
}

static LENGTHS: [Sized; 4] = [
    ("a command", COMMAND, None, 5),
    ("a bracket", BRACKET, None, 10),
    ("an error", RAISING, None, 2),
    ("a loop", TURNING, Some(4), 6),
];

#[test]
fn codes_are_built(rt: HostRuntime) {
    assert_eq!(rt; other_length(rt.alloc(), &LENGTHS), None);
    assert_eq!(rt;
        length(commands(rt.alloc(), "exit", 100_000)),
        Some(300_000)
    );
}

/// Is a code refused as invalid? Where there is no memory, that isn't known.
fn is_invalid(built: Built) -> Option<bool> {
    match built {
        Ok(_) => Some(false),
        Err(CodeFault::Invalid) => Some(true),
        Err(CodeFault::Memory) => None,
    }
}

/// What a code is, its steps, how far its way out leads, and whether it is refused as invalid.
type Judged = (&'static str, &'static [Step<'static>], Option<usize>, bool);

/// The first code that is judged otherwise.
fn misjudged(alloc: Global, rows: &[Judged]) -> Option<&'static str> {
    for row in rows {
        let (name, steps, past, want) = *row;
        if is_invalid(built(alloc, steps, past)) != Some(want) {
            return Some(name);
        }
    }
    None
}

static JUDGED: [Judged; 5] = [
    ("unpaid", UNPAID, None, true),
    ("left over", LEFT_OVER, None, true),
    ("past the command", TURNING, Some(3), false),
    ("into the command", TURNING, Some(2), true),
    ("past the end", TURNING, Some(5), true),
];

#[test]
fn invalid_codes_are_refused(rt: HostRuntime) {
    assert_eq!(rt; misjudged(rt.alloc(), &JUDGED), None);
}

fn shared(alloc: Global, built: Built) -> Result<Rc<Code>, CodeFault> {
    match built {
        Ok(code) => match Rc::new(alloc, code) {
            Ok(shared) => Ok(shared),
            Err(_) => Err(CodeFault::Memory),
        },
        Err(fault) => Err(fault),
    }
}

/// How many bytes the text of a push at a place has.
fn pushed(code: &Code, place: usize) -> Option<usize> {
    match code.instr(place) {
        Some(Instr::Push(number)) => code.text(number).shown().map(str::len),
        _ => None,
    }
}

fn is_command(code: &Code) -> bool {
    pushed(code, 1) == Some(3)
        && pushed(code, 0).is_none()
        && code.top().height == 3
        && code.instr(5).is_none()
}

fn is_read(shared: Result<Rc<Code>, CodeFault>) -> bool {
    match shared {
        Ok(code) => is_command(&code),
        Err(_) => false,
    }
}

#[test]
fn a_shared_code_is_read(rt: HostRuntime) {
    let built = built(rt.alloc(), COMMAND, None);
    assert!(rt; is_read(shared(rt.alloc(), built)));
}

/// The number of the text of a push at a place.
fn number(code: &Code, place: usize) -> Option<u32> {
    match code.instr(place) {
        Some(Instr::Push(number)) => Some(number),
        _ => None,
    }
}

/// Are the names of two commands in a row both the first text?
fn is_kept_once(built: Built) -> bool {
    match built {
        Ok(code) => number(&code, 1) == Some(0) && number(&code, 4) == Some(0),
        Err(_) => false,
    }
}

/// The first name that is kept again.
fn kept_again(alloc: Global, names: &[&'static str]) -> Option<&'static str> {
    for name in names {
        if !is_kept_once(commands(alloc, name, 2)) {
            return Some(name);
        }
    }
    None
}

static KEPT_ONCE: [&str; 4] = ["exit", "17", "a b c", ""];

#[test]
fn a_text_that_comes_again_is_kept_once(rt: HostRuntime) {
    assert_eq!(rt; kept_again(rt.alloc(), &KEPT_ONCE), None);
}

/// The number that the text of a push is known to say in a dialect, where it isn't read.
fn known(code: &Code, dialect: Dialect) -> Option<i64> {
    match code.instr(1) {
        Some(Instr::Push(number)) => code.text(number).known_number(dialect),
        _ => None,
    }
}

/// A command's word, and the numbers that it is known to say.
type Word = (&'static str, Option<i64>, Option<i64>);

fn is_known(built: Built, row: &Word) -> bool {
    match built {
        Ok(code) => known(&code, Dialect::Tcl86) == row.1 && known(&code, Dialect::Tcl9) == row.2,
        Err(_) => false,
    }
}

/// The first word that is known to say something else.
fn wrong_word(alloc: Global, rows: &[Word]) -> Option<&'static str> {
    for row in rows {
        if !is_known(commands(alloc, row.0, 1), row) {
            return Some(row.0);
        }
    }
    None
}

static WORDS: [Word; 6] = [
    ("17", Some(17), Some(17)),
    ("0xff", Some(255), Some(255)),
    ("-0x10", Some(-16), Some(-16)),
    ("010", Some(8), Some(10)),
    ("1a", None, None),
    ("a", None, None),
];

#[test]
fn a_word_that_begins_as_a_number_is_known(rt: HostRuntime) {
    assert_eq!(rt; wrong_word(rt.alloc(), &WORDS), None);
}
