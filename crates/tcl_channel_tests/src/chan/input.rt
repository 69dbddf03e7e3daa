//! Rows of input: the bytes, and what the calls answer, over a device that gives all it has, over one that gives a byte a
//! call, and over those that cut at one place.
use super::cuts::{CutInput, Resuming};
use crate::answers::is;
use std::alloc::{AllocError, Global};
use std::rc::RcStr;
use std::string::String;
use tcl_chan::device::{Input, Output};
use tcl_chan::fault::ChanFault;
use tcl_chan::faulty::FaultyInput;
use tcl_chan::memory::{MemoryInput, MemoryOutput};
use tcl_chan::pieces::OneByte;
use tcl_chan::standard::StandardInput;
use tcl_chan::world::World;

/// A call: `gets`, or a `read` of a number of characters or of all.
#[derive(Clone, Copy)]
pub(super) enum Ask {
    Line,
    Chars(u64),
    All,
}

pub(super) fn answer<R: Input, W: Output, E: Output>(
    world: &mut World<'_, '_, '_, R, W, E>,
    ask: Ask,
) -> Result<Option<RcStr>, ChanFault> {
    match ask {
        Ask::Line => world.gets(),
        Ask::Chars(count) => Ok(Some(world.read(Some(count))?)),
        Ask::All => Ok(Some(world.read(None)?)),
    }
}

/// Adds an answer, with `!` behind it where the end was met by then and `;` else.
fn add_answer(
    shown: &mut String,
    answer: Result<Option<RcStr>, ChanFault>,
    ended: bool,
) -> Result<(), AllocError> {
    match answer {
        Ok(Some(text)) => shown.push_str(&text)?,
        Ok(None) => shown.push_str("none")?,
        Err(fault) => write!(shown, "{fault}")?,
    }
    shown.push(if ended { '!' } else { ';' })
}

fn add_answers<R: Input, W: Output, E: Output>(
    shown: &mut String,
    world: &mut World<'_, '_, '_, R, W, E>,
    asks: &[Ask],
) -> Result<(), AllocError> {
    for ask in asks {
        let answer = answer(world, *ask);
        add_answer(shown, answer, world.eof())?;
    }
    Ok(())
}

/// What the calls answer, one after another.
fn answers<R: Input>(alloc: Global, input: &mut R, asks: &[Ask]) -> Result<String, AllocError> {
    let mut shown = String::new(alloc);
    let mut out = MemoryOutput::new(alloc, 0)?;
    let mut err = MemoryOutput::new(alloc, 0)?;
    let mut world = World::new(alloc, input, &mut out, &mut err);
    add_answers(&mut shown, &mut world, asks)?;
    Ok(shown)
}

/// Do the calls answer this?
fn answer_is<R: Input>(alloc: Global, input: &mut R, asks: &[Ask], want: &str) -> bool {
    is(answers(alloc, input, asks), want)
}

/// The places at which the input, cut there, is not answered so.
fn wrong_cut(alloc: Global, bytes: &[u8], asks: &[Ask], want: &str) -> Option<usize> {
    for front in 0..bytes.len() {
        let inner = MemoryInput::new(bytes);
        if !answer_is(alloc, &mut CutInput { inner, front }, asks, want) {
            return Some(front);
        }
    }
    None
}

/// Do the calls answer this, however the bytes come?
fn agrees(alloc: Global, bytes: &[u8], asks: &[Ask], want: &str) -> bool {
    answer_is(alloc, &mut MemoryInput::new(bytes), asks, want)
        && answer_is(
            alloc,
            &mut OneByte::new(MemoryInput::new(bytes)),
            asks,
            want,
        )
        && wrong_cut(alloc, bytes, asks, want).is_none()
}

/// Bytes, calls, and what these answer.
type Row = (&'static [u8], &'static [Ask], &'static str);

/// What should have been the first answers that are others.
fn wrongly_answered(alloc: Global, rows: &[Row]) -> Option<&'static str> {
    for row in rows {
        let (bytes, asks, want) = *row;
        if !agrees(alloc, bytes, asks, want) {
            return Some(want);
        }
    }
    None
}

const FOUR_LINES: &[Ask] = &[Ask::Line; 4];

static LINES: [Row; 17] = [
    (b"a\r\nb", FOUR_LINES, "a;b!none!none!"),
    (b"\xFF\n", FOUR_LINES, "\u{FFFD};none!none!none!"),
    (
        b"\xE2\x82\x41\xF0\x80\x80\n",
        FOUR_LINES,
        "\u{FFFD}A\u{FFFD}\u{FFFD}\u{FFFD};none!none!none!",
    ),
    (b"a\r", FOUR_LINES, "a\r!none!none!none!"),
    (b"a\r\r\nb\n", FOUR_LINES, "a\r;b;none!none!"),
    (b"\ra\n", FOUR_LINES, "\ra;none!none!none!"),
    (b"\r", FOUR_LINES, "\r!none!none!none!"),
    (b"\xE2\x82\xAC\r\n", FOUR_LINES, "\u{20AC};none!none!none!"),
    (
        b"\xE2\n\xE2\x82\n",
        FOUR_LINES,
        "\u{FFFD};\u{FFFD};none!none!",
    ),
    (
        b"\xF0\x80\x80",
        FOUR_LINES,
        "\u{FFFD}\u{FFFD}\u{FFFD}!none!none!none!",
    ),
    (b"\r\n\r\n\n", FOUR_LINES, ";;;none!"),
    (b"\xE2\x82", FOUR_LINES, "\u{FFFD}!none!none!none!"),
    (
        b"\xF0\x9F\x98\x80\xF0\x9F\x98\n\xF0\x9F\nx",
        FOUR_LINES,
        "\u{1F600}\u{FFFD};\u{FFFD};x!none!",
    ),
    (b"\xEF\xBB\xBFa\n", FOUR_LINES, "\u{FEFF}a;none!none!none!"),
    (b"", FOUR_LINES, "none!none!none!none!"),
    (b"a\0b\n", FOUR_LINES, "a\0b;none!none!none!"),
    (b"a\nb\nc\nd\n", FOUR_LINES, "a;b;c;d;"),
];

#[test]
fn lines_of_rows(rt: HostRuntime) {
    assert_eq!(rt; wrongly_answered(rt.alloc(), &LINES), None);
}

static TEXTS: [Row; 16] = [
    (
        b"abcd",
        &[Ask::Chars(3), Ask::Chars(0), Ask::Chars(9)],
        "abc;;d!",
    ),
    (
        b"abcd",
        &[Ask::Chars(9), Ask::All, Ask::Chars(0)],
        "abcd!!!",
    ),
    (
        b"abcd",
        &[Ask::Chars(4), Ask::Chars(0), Ask::Chars(1)],
        "abcd;;!",
    ),
    (b"abcd", &[Ask::All, Ask::All, Ask::All], "abcd!!!"),
    (
        b"\xE2\x82\x41\xF0\x80\x80\n",
        &[Ask::Chars(2), Ask::Chars(3), Ask::All],
        "\u{FFFD}A;\u{FFFD}\u{FFFD}\u{FFFD};\n!",
    ),
    (
        b"a\r\nb\r\r\nc\r",
        &[Ask::Chars(3), Ask::Chars(2), Ask::All],
        "a\nb;\r\n;c\r!",
    ),
    (
        b"\r\n\r\n",
        &[Ask::Chars(1), Ask::Chars(1), Ask::Chars(1)],
        "\n;\n;!",
    ),
    (
        b"\r\r\n",
        &[Ask::Chars(1), Ask::Chars(1), Ask::Chars(1)],
        "\r;\n;!",
    ),
    (b"a\rb", &[Ask::Chars(2), Ask::All, Ask::All], "a\r;b!!"),
    (
        b"\xE2\x82\xAC",
        &[Ask::Chars(1), Ask::Chars(1), Ask::All],
        "\u{20AC};!!",
    ),
    (
        b"\xE2\x82",
        &[Ask::Chars(1), Ask::Chars(1), Ask::All],
        "\u{FFFD};!!",
    ),
    (
        b"\xF0\x80\x80",
        &[Ask::Chars(2), Ask::Chars(9), Ask::All],
        "\u{FFFD}\u{FFFD};\u{FFFD}!!",
    ),
    (
        b"\xF0\x9F\x98\x80\xF0\x9F\x98",
        &[Ask::Chars(1), Ask::Chars(1), Ask::Chars(1)],
        "\u{1F600};\u{FFFD};!",
    ),
    (
        b"\xEF\xBB\xBFa",
        &[Ask::Chars(1), Ask::Chars(1), Ask::Chars(1)],
        "\u{FEFF};a;!",
    ),
    (b"", &[Ask::Chars(0), Ask::Chars(1), Ask::All], ";!!"),
    (
        b"ab\r\ncd\nef",
        &[Ask::Chars(1), Ask::Line, Ask::Chars(3), Ask::Line],
        "a;b;cd\n;ef!",
    ),
];

#[test]
fn texts_of_rows(rt: HostRuntime) {
    assert_eq!(rt; wrongly_answered(rt.alloc(), &TEXTS), None);
}

#[test]
fn the_first_end_is_the_end(rt: HostRuntime) {
    let lines = [Ask::Line; 4];
    let mut input = Resuming { at_end: false };
    assert!(rt; answer_is(rt.alloc(), &mut input, &lines, "x!none!none!none!"));
    let texts = [Ask::Chars(2), Ask::Chars(1), Ask::All];
    let mut input = Resuming { at_end: false };
    assert!(rt; answer_is(rt.alloc(), &mut input, &texts, "x!!!"));
}

#[test]
fn after_a_fault_the_input_is_as_it_was(rt: HostRuntime) {
    for fail_read in 1..4u64 {
        let mut input = FaultyInput::new(OneByte::new(MemoryInput::new(b"x\n")), fail_read);
        let asks = [Ask::All, Ask::Line];
        assert!(rt; answer_is(rt.alloc(), &mut input, &asks, "can't read the input;x;"));
        assert!(rt; input.failures() == 1);
        assert!(rt; input.inner().failures() == 0);
    }
}

/// Standard input with bytes in place of the process's own.
fn lines_are(alloc: Global, bytes: &[u8], want: &str) -> bool {
    answer_is(alloc, &mut StandardInput::new(bytes), FOUR_LINES, want)
}

/// The same, a byte a call, with texts in place of lines.
fn texts_are(alloc: Global, bytes: &[u8], want: &str) -> bool {
    let mut input = OneByte::new(StandardInput::new(bytes));
    let texts = [Ask::Chars(2), Ask::Chars(1), Ask::All];
    answer_is(alloc, &mut input, &texts, want) && input.failures() == 0
}

#[test]
fn standard_input_gives_its_bytes(rt: HostRuntime) {
    assert!(rt; lines_are(rt.alloc(), b"ab\r\n\xFF\nc", "ab;\u{FFFD};c!none!"));
    assert!(rt; texts_are(rt.alloc(), b"a\r\n\xE2\x82\xACb", "a\n;\u{20AC};b!"));
}

/// Bytes, how many of them one read of a terminal gives, a call, and what it answers.
type Enough = (&'static [u8], usize, Ask, &'static str);

/// Another read would not return: it fails here.
static ENOUGH: [Enough; 18] = [
    (b"ab\ncd\n", 3, Ask::Line, "ab;"),
    (b"ab\ncd\n", 5, Ask::Line, "ab;"),
    (b"ab\r\ncd\n", 4, Ask::Line, "ab;"),
    (b"\nb", 1, Ask::Line, ";"),
    (b"\xFF\nb", 2, Ask::Line, "\u{FFFD};"),
    (b"abc", 2, Ask::Chars(0), ";"),
    (b"abc", 2, Ask::Chars(1), "a;"),
    (b"abc", 2, Ask::Chars(2), "ab;"),
    (b"\r\nb", 2, Ask::Chars(1), "\n;"),
    (b"\rab", 2, Ask::Chars(1), "\r;"),
    (b"\xFFab", 1, Ask::Chars(1), "\u{FFFD};"),
    (b"\xC1ab", 1, Ask::Chars(1), "\u{FFFD};"),
    (b"\x80ab", 1, Ask::Chars(1), "\u{FFFD};"),
    (b"\xF5ab", 1, Ask::Chars(1), "\u{FFFD};"),
    (b"\xE2ab", 2, Ask::Chars(1), "\u{FFFD};"),
    (b"\xE2\x82ab", 3, Ask::Chars(1), "\u{FFFD};"),
    (b"\xF0\x80ab", 2, Ask::Chars(2), "\u{FFFD}\u{FFFD};"),
    (b"\xE2\x82\xAC", 3, Ask::Chars(1), "\u{20AC};"),
];

/// What should have been the first answer that is another one.
fn not_enough(alloc: Global, rows: &[Enough]) -> Option<&'static str> {
    for row in rows {
        let (bytes, front, ask, want) = *row;
        let inner = MemoryInput::new(bytes);
        let mut input = FaultyInput::new(CutInput { inner, front }, 2);
        if !answer_is(alloc, &mut input, &[ask], want) {
            return Some(want);
        }
    }
    None
}

#[test]
fn no_more_is_asked_than_needed(rt: HostRuntime) {
    assert_eq!(rt; not_enough(rt.alloc(), &ENOUGH), None);
}

/// The first bytes of which no other read is asked for.
fn enough(alloc: Global, rows: &[(&'static [u8], Ask)]) -> Option<&'static [u8]> {
    for row in rows {
        let (bytes, ask) = *row;
        let mut input = FaultyInput::new(MemoryInput::new(bytes), 2);
        if !answer_is(alloc, &mut input, &[ask], "can't read the input;") {
            return Some(bytes);
        }
    }
    None
}

/// Rows of bytes that what follows may change: another read is asked for.
static NOT_ENOUGH: [(&[u8], Ask); 6] = [
    (b"ab", Ask::Line),
    (b"ab\r", Ask::Line),
    (b"ab", Ask::Chars(3)),
    (b"\r", Ask::Chars(1)),
    (b"\xE2\x82", Ask::Chars(1)),
    (b"\xF0\x9F\x98", Ask::Chars(1)),
];

#[test]
fn more_is_asked_where_it_is_needed(rt: HostRuntime) {
    assert!(rt; enough(rt.alloc(), &NOT_ENOUGH).is_none());
}
