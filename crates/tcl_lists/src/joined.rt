//! Words joined as lists: concat(n).

ghost use Rattle.std.specs.Prelude.{◌≡◌, IfOk, IfSome, OnOk};
ghost use Rattle.std.specs.Str.{chars};
ghost use Rattle.std.specs.String.{string_bytes};
ghost use Rattle.tcl_lists.specs.Joined.{begins_sign, is_empty, with_word};
ghost use Rattle.tcl_pages.specs.Lists as spec;
ghost use Rattle.tcl_values.specs.Kept.{texts};

use crate::words::text_at;
use std::alloc::{AllocError, Global};
use tcl_chars::{begins, is_list_space, push, push_text, skip_space, split_first, split_last};
use tcl_values::{Element, Gathering, Value};

/// A text without the list space at its end, of which one character stays behind a backslash.
fn trimmed_end(text: &str) -> &str
    ensures { chars result.now ≡ spec.trimmed_end (chars text.now) }
{
    let mut end = text;
    let mut longer = text;
    while let Some((front, last)) = split_last(end) {
        if !is_list_space(last) {
            return if last == '\\' { longer } else { end };
        }
        longer = end;
        end = front;
    }
    end
}

/// Has the text no character?
fn is_empty(text: &str) -> bool
    ensures { result ≡ is_empty (chars text.now) }
{
    split_first(text).is_none()
}

/// Writes a word behind others, with a space between. An empty word is left out.
fn push_word(joined: &mut String, word: &str) -> Result<(), AllocError>
    ensures { OnOk result (chars (string_bytes joined.new) ≡ with_word (chars (string_bytes joined.old)) (chars word.now)) }
{
    if is_empty(word) {
        return Ok(());
    }
    if is_empty(joined.as_str()) {
        return push_text(joined, word);
    }
    push(joined, ' ')?;
    push_text(joined, word)
}

/// The words joined by their texts.
fn joined(alloc: Global, words: &mut [Value]) -> Result<Value, AllocError>
    ensures answer { IfOk result (λ v. v ≡ spec.concat words.old) }
    ensures same { words.new ≡ words.old }
{
    let mut joined = String::new(alloc);
    for place in 0..words.len() {
        let text = text_at(alloc, words, place)?;
        push_word(&mut joined, trimmed_end(skip_space(text.as_str())))?;
    }
    Value::of_string(alloc, joined)
}

/// Does the first element begin with a number sign? Then it is written otherwise there than behind others.
fn begins_with_sign(alloc: Global, elements: &[Element]) -> Result<bool, AllocError>
    ensures { IfOk result (λ b. b ≡ begins_sign (texts elements.now)) }
{
    match elements.first() {
        Some(element) => {
            let text = element.text(alloc)?;
            Ok(begins('#', text.as_str()))
        }
        None => Ok(false),
    }
}

/// How many elements the words have together, where each is kept as a list and has no text yet.
fn room_for(words: &[Value]) -> Result<Option<usize>, AllocError> {
    let mut room: usize = 0;
    for word in words {
        match word.unwritten()? {
            Some(row) => room = room.saturating_add(row.len()),
            None => return Ok(None),
        }
    }
    Ok(Some(room))
}

/// The list of all their elements, where each word is kept as a list and has no text yet.
fn chained(alloc: Global, words: &[Value], room: usize) -> Result<Option<Value>, AllocError>
    ensures { IfOk result (λ o. IfSome o (λ v. v ≡ spec.concat words.now)) }
{
    let mut all = Gathering::with_capacity(alloc, room)?;
    for word in words {
        let Some(row) = word.unwritten()? else {
            return Ok(None);
        };
        let has_sign = begins_with_sign(alloc, row.items())?;
        if has_sign {
            return Ok(None);
        }
        all = all.with_part(&row, 0, row.len())?;
    }
    Ok(Some(all.into_value(alloc)?))
}

/// `concat ?arg ...?`: the words without the space around them, one behind the other. Of words that are all kept as lists no text is
/// written: what comes of them is a list of their elements.
pub fn concat(alloc: Global, words: &mut [Value]) -> Result<Value, AllocError>
    ensures answer { IfOk result (λ v. v ≡ spec.concat words.old) }
    ensures same { words.new ≡ words.old }
{
    if let Some(room) = room_for(&*words)? {
        if let Some(list) = chained(alloc, &*words, room)? {
            return Ok(list);
        }
    }
    joined(alloc, words)
}
