//! The names of variables.
ghost use Rattle.std.specs.Prelude.{◌≡◌, [], true, false, ◌||◌};
ghost use Rattle.std.specs.Str.{chars};
ghost use Rattle.tcl_chars.specs.Characters.{colon};
ghost use Rattle.tcl_chars.specs.Place as place;
ghost use Rattle.tcl_meaning.specs.Names as spec;
ghost use Rattle.tcl_meaning.specs.Variables.{missing};
ghost use Rattle.tcl_frames.specs.Parts.{part_of, name_of, paren_in, plain_name};

use tcl_chars::{begins, split_first, tail};
use tcl_meaning::Refusal;

/// Which part of a variable is meant.
#[derive(Clone, Copy, Debug)]
pub(crate) enum Part<'a> {
    /// The variable as a whole.
    Whole,
    /// Its element of this index.
    Element(&'a str),
    /// An element of an element, which never holds anything.
    Deeper,
}

impl Part<'_> {
    /// How a part is missed in an array that is there, as its name is written.
    #[inline(always)]
    pub(crate) fn missing(self) -> Refusal
        ensures { result ≡ missing (part_of self.entry) }
    {
        match self {
            Part::Whole => Refusal::NoSuch,
            Part::Element(_) | Part::Deeper => Refusal::NoElement,
        }
    }

    /// Is it an element?
    pub(crate) fn is_element(self) -> bool
        ensures { result ≡ spec.is_element (part_of self.entry) }
    {
        !matches!(self, Part::Whole)
    }
}

/// The name of a variable: of a global one or not, and of an element or not.
#[derive(Clone, Copy, Debug)]
pub(crate) struct Name<'a> {
    pub(crate) global: bool,
    pub(crate) base: &'a str,
    pub(crate) part: Part<'a>,
}

// What follows the colons at the front.
#[tactic(auto, unfolding(tcl_meaning::specs::Names::after_colons))]
#[inline(never)]
fn after_colons(text: &str) -> &str
    ensures { chars result.now ≡ spec.after_colons (chars text.now) }
{
    let mut rest = text;
    'scan: while let Some((c, after)) = split_first(rest) {
        if c != ':' {
            break 'scan;
        }
        rest = after;
    }
    rest
}

// Is a colon its first byte?
#[inline(always)]
fn is_led(name: &str) -> bool
    ensures { result ≡ false → place.begins colon (chars name.now) ≡ false }
{
    let bytes = name.as_bytes();
    bytes.len() > 0 && bytes[0] == b':'
}

/// Does a run of two or more colons lead the name? Mostly its first byte tells.
#[inline(always)]
pub fn is_global(name: &str) -> bool
    ensures { result ≡ spec.is_global (chars name.now) }
{
    is_led(name) && has_two_colons(name)
}

// The same, where a colon leads it.
#[inline(never)]
fn has_two_colons(name: &str) -> bool
    ensures { result ≡ spec.is_global (chars name.now) }
{
    begins(':', name) && begins(':', tail(name))
}

/// The name of a variable or a command without a leading run of two or more colons: Tcl(n), rule 8.
#[inline(always)]
pub fn without_colons(name: &str) -> &str
    ensures { chars result.now ≡ spec.without_colons (chars name.now) }
{
    if is_global(name) {
        after_colons(name)
    } else {
        name
    }
}

// A name that is no element's.
fn whole_name(name: &str) -> Name<'_>
    ensures { name_of result ≡ spec.whole_name (chars name.now) }
{
    Name {
        global: is_global(name),
        base: without_colons(name),
        part: Part::Whole,
    }
}

// The name of an element.
fn element_name<'a>(base: &'a str, index: &'a str) -> Name<'a>
    ensures { name_of result ≡ spec.element_name (chars base.now) (chars index.now) }
{
    Name {
        global: is_global(base),
        base: without_colons(base),
        part: Part::Element(index),
    }
}

/// Does neither a colon lead the name nor `)` end it? Its bytes tell.
#[inline(always)]
pub(crate) fn is_plain(name: &str) -> bool
    ensures { result ≡ true → spec.divided_name (chars name.now) ≡ plain_name (chars name.now) }
{
    let bytes = name.as_bytes();
    let size = bytes.len();
    size > 0 && bytes[0] != b':' && bytes[size - 1] != b')'
}

/// The name of a variable, divided.
#[inline(always)]
pub(crate) fn divide(name: &str) -> Name<'_>
    ensures { name_of result ≡ spec.divided_name (chars name.now) }
{
    if is_plain(name) {
        return Name {
            global: false,
            base: name,
            part: Part::Whole,
        };
    }
    divide_at_paren(name)
}

// Where the first `(` of these bytes stands; where there is none, how many they are.
#[inline(always)]
fn paren_in(bytes: &[u8]) -> usize
    ensures { result ≡ paren_in bytes.now }
{
    let size = bytes.len();
    let mut at = 0;
    'bytes: while at < size {
        if bytes[at] == b'(' {
            return at;
        }
        at += 1;
    }
    size
}

/// Has a name no `(`?
#[inline(always)]
pub(crate) fn has_no_paren(name: &str) -> bool
    ensures { result ≡ true → spec.from_paren (chars name.now) ≡ [] }
{
    let bytes = name.as_bytes();
    paren_in(bytes) == bytes.len()
}

// The same of any name.
#[inline(always)]
fn divide_at_paren(name: &str) -> Name<'_>
    ensures { name_of result ≡ spec.divided_name (chars name.now) }
{
    let bytes = name.as_bytes();
    let size = bytes.len();
    if size == 0 || bytes[size - 1] != b')' {
        return whole_name(name);
    }
    let at = paren_in(bytes);
    if at == size {
        return whole_name(name);
    }
    element_name(&name[..at], &name[at + 1..size - 1])
}

/// Is a name an element's?
pub fn is_element(name: &str) -> bool
    ensures { result ≡ spec.is_element (spec.divided_name (chars name.now)).part }
{
    divide(name).part.is_element()
}

/// Does a name mean a global variable, or an element?
pub(crate) fn is_compound(name: &str) -> bool
    ensures { result ≡ ((spec.divided_name (chars name.now)).global || spec.is_element (spec.divided_name (chars name.now)).part) }
{
    let name = divide(name);
    name.global || name.part.is_element()
}
