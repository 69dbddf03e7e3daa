//! The program's words: `?-tcl9? ?-budget N? ?-slice N? ?file arg ...?`.
ghost use Rattle.std.specs.Prelude.{◌≡◌, ◌+◌, ◌<◌, ◌≤◌, length, map, IfSome};
ghost use Rattle.std.specs.Str.{chars};
ghost use Rattle.tcl_shell.specs.Words.{asked, asked_in, budget_of, budgeted, file_of, request_of, slice_of, sliced, with_file};

use tcl_chars::{Decimal, Dialect, is_text, read_decimal};

// The greatest budget.
const MOST_BUDGET: u64 = 0x7fff_ffff_ffff_ffff;

/// What the program is asked to do.
#[derive(Clone, Copy, Debug, PartialEq, Eq)]
pub(crate) struct Request {
    /// Which texts are numbers.
    pub(crate) dialect: Dialect,
    /// The units of the run, or of the session.
    pub(crate) budget: u64,
    /// How many of them are handed out at a time, or 0 where all of them are.
    pub(crate) slice: u64,
    /// Where the file stands among the words, or `None` where a session is asked for.
    pub(crate) file: Option<usize>,
}

// A budget: decimal digits, up to the greatest.
fn read_budget(word: &str) -> Option<u64>
    ensures { result ≡ budget_of (chars word.now) }
{
    match read_decimal(word) {
        Decimal::Number(budget) => Some(budget),
        Decimal::TooLarge | Decimal::Not => None,
    }
}

// A slice: the same, but not 0.
fn read_slice(word: &str) -> Option<u64>
    ensures { result ≡ slice_of (chars word.now) }
{
    match read_budget(word) {
        None | Some(0) => None,
        Some(slice) => Some(slice),
    }
}

// The file that stands at a place is asked for, unless it is an option.
fn with_file(dialect: Dialect, budget: u64, slice: u64, place: usize, word: &str) -> Option<Request>
    ensures request { result ≡ with_file dialect budget slice place (chars word.now) }
    ensures file { IfSome result (λ request. IfSome request.file (λ at. at ≡ place)) }
{
    if is_text(word, "-tcl9") {
        return None;
    }
    Some(Request {
        dialect,
        budget,
        slice,
        file: Some(place),
    })
}

// What the words behind `-slice` ask, which stand at this place.
fn read_sliced(words: &[&str], dialect: Dialect, budget: u64, place: usize) -> Option<Request>
    requires { place ≤ 4 }
    ensures request { result ≡ sliced dialect budget place (map (λ word. chars word.now) words.now) }
    ensures file { IfSome result (λ request. IfSome request.file (λ at. at < length words.now + place)) }
{
    let [number, file, ..] = words else {
        return None;
    };
    let slice = read_slice(number)?;
    with_file(dialect, budget, slice, place + 1, file)
}

// What the words at a place ask, behind a budget.
fn read_asked(words: &[&str], dialect: Dialect, budget: u64, place: usize) -> Option<Request>
    requires { place ≤ 3 }
    ensures request { result ≡ asked dialect budget place (map (λ word. chars word.now) words.now) }
    ensures file { IfSome result (λ request. IfSome request.file (λ at. at < length words.now + place)) }
{
    let [first, others @ ..] = words else {
        return Some(Request {
            dialect,
            budget,
            slice: 0,
            file: None,
        });
    };
    if is_text(first, "-slice") {
        return read_sliced(others, dialect, budget, place + 1);
    }
    with_file(dialect, budget, 0, place, first)
}

// What the words behind `-budget` ask, which stand at this place.
fn read_budgeted(words: &[&str], dialect: Dialect, place: usize) -> Option<Request>
    requires { place ≤ 2 }
    ensures request { result ≡ budgeted dialect place (map (λ word. chars word.now) words.now) }
    ensures file { IfSome result (λ request. IfSome request.file (λ at. at < length words.now + place)) }
{
    let [number, others @ ..] = words else {
        return None;
    };
    let budget = read_budget(number)?;
    read_asked(others, dialect, budget, place + 1)
}

// What the words at a place ask, in a dialect.
fn read_asked_in(words: &[&str], dialect: Dialect, place: usize) -> Option<Request>
    requires { place ≤ 1 }
    ensures request { result ≡ asked_in dialect place (map (λ word. chars word.now) words.now) }
    ensures file { IfSome result (λ request. IfSome request.file (λ at. at < length words.now + place)) }
{
    if let [first, others @ ..] = words {
        if is_text(first, "-budget") {
            return read_budgeted(others, dialect, place + 1);
        }
    }
    read_asked(words, dialect, MOST_BUDGET, place)
}

/// What the program's words ask, its own name not among them, or `None` where they are not its usage.
#[tactic(auto, unfolding(crate::specs::Words::request_of))]
pub(crate) fn read_request(words: &[&str]) -> Option<Request>
    ensures request { result ≡ request_of (map (λ word. chars word.now) words.now) }
    ensures file { IfSome result (λ request. IfSome request.file (λ place. place < length words.now)) }
{
    if let [first, others @ ..] = words {
        if is_text(first, "-tcl9") {
            return read_asked_in(others, Dialect::Tcl9, 1);
        }
    }
    read_asked_in(words, Dialect::Tcl86, 0)
}

/// Where the file stands among the program's words, its own name not among them; `None` where none is asked for, or the
/// words are not the program's usage.
pub fn file_word(words: &[&str]) -> Option<usize>
    ensures place { result ≡ file_of (request_of (map (λ word. chars word.now) words.now)) }
    ensures within { IfSome result (λ place. place < length words.now) }
{
    read_request(words)?.file
}
