//! Texts sought in one another where both are ASCII: each character is one byte, and bytes are sought.

ghost use Rattle.std.specs.Prelude.{◌≡◌, length};
ghost use Rattle.tcl_pages.specs.Strings as spec;

use memchr::memmem;
use tcl_arguments::behind;
use tcl_chars::clamp;

/// The first place, not before the start, where the needle stands.
#[tactic(auto, using(crate::proofs::Bytes::clamped_le))]
pub(crate) fn first_in_bytes(needle: &str, text: &str, start: i128) -> Option<usize>
    ensures { result ≡ spec.first_from start (spec.found_at needle.now text.now) }
{
    if needle.is_empty() {
        return None;
    }
    let from = clamp(start, text.len());
    let place = memmem::find(&text.as_bytes()[from..], needle.as_bytes())?;
    Some(from + place)
}

/// The last place where the needle stands and ends at the end at the latest.
#[tactic(auto, using(crate::proofs::Bytes::clamped_le, crate::proofs::Finder::last_found))]
pub(crate) fn last_in_bytes(needle: &str, text: &str, end: i128) -> Option<usize>
    ensures { result ≡ spec.last_until (length needle.now) end None (spec.found_at needle.now text.now) }
{
    if needle.is_empty() {
        return None;
    }
    let behind = behind(end, text.len());
    memmem::rfind(&text.as_bytes()[..behind], needle.as_bytes())
}
