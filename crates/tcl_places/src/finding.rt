//! Where a text stands in another one. A backslash, a newline and blanks in braces stand for a space of it.

// How many blanks stand in front of bytes.
fn blanks(bytes: &[u8]) -> usize {
    let mut count = 0usize;
    'bytes: for byte in bytes {
        if !matches!(*byte, b' ' | b'\t') {
            return count;
        }
        count = count.saturating_add(1);
    }
    count
}

// How many bytes of a source stand for this byte of a text, if they do.
fn taken(source: &[u8], byte: u8) -> Option<usize> {
    match source {
        [b'\\', b'\n', rest @ ..] if byte == b' ' => Some(blanks(rest).saturating_add(2)),
        [first, ..] if *first == byte => Some(1),
        _ => None,
    }
}

/// The place in a source behind this text, which stands from this place on, if it stands there.
pub fn place_behind(source: &str, from: usize, text: &str) -> Option<usize> {
    let mut place = from;
    'bytes: for byte in text.as_bytes() {
        let rest = source.as_bytes().get(place..)?;
        place = place.saturating_add(taken(rest, *byte)?);
    }
    Some(place)
}

// Does a word begin at a place?
fn begins_word(source: &str, place: usize) -> bool {
    matches!(
        source.as_bytes().get(place.saturating_sub(1)),
        Some(b'{' | b'"' | b' ' | b'\t' | b'\n' | b'[')
    )
}

/// The first place from one on, and before another one, where a text stands in a source as a word begins.
pub fn find_within(source: &str, from: usize, end: usize, text: &str) -> Option<usize> {
    'places: for place in from..end {
        if begins_word(source, place) && place_behind(source, place, text).is_some() {
            return Some(place);
        }
    }
    None
}

// Does a text stand in braces at a place?
fn is_braced(source: &str, place: usize, text: &str) -> bool {
    let bytes = source.as_bytes();
    if place == 0 || bytes.get(place - 1) != Some(&b'{') {
        return false;
    }
    match place_behind(source, place, text) {
        Some(behind) => bytes.get(behind) == Some(&b'}'),
        None => false,
    }
}

/// The place where a text stands in braces in a source, if it does so at one place alone.
pub fn find_lone(source: &str, text: &str) -> Option<usize> {
    let mut found = None;
    'places: for place in 0..source.len() {
        if is_braced(source, place, text) {
            if found.is_some() {
                return None;
            }
            found = Some(place);
        }
    }
    found
}

/// The line in which a byte of a text stands.
pub fn line_of(text: &[u8], place: usize) -> usize {
    let mut line = 1usize;
    let mut at = 0usize;
    'bytes: for byte in text {
        if at >= place {
            return line;
        }
        if *byte == b'\n' {
            line = line.saturating_add(1);
        }
        at = at.saturating_add(1);
    }
    line
}
