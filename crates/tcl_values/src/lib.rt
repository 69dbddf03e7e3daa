//! Values of a script. A value is its text; in place of the text, or beside it, a number, a list or a dictionary is kept, so that it
//! isn't read and written again and again. Contracts see the text alone.
//!
//! What is kept is shared by copies of a value and copied where one of them is changed. A change of a value that has no copy is
//! made in place. A text of at most seven ASCII characters that is composed, or cut out of another one, is kept in the value itself.
//!
//! - [`Value`]: made by `of_text`, `of_unread_text`, `of_str`, `of_shared`, `of_literal`, `of_name`, `of_string`, `of_int`, `of_list`, `joined`; copied by `copy`. Read by `text`,
//!   `spelled`, `shown`, `ascii` and `places`, as a number by `whole`, and without any reading by `number` and `known_number`, as a name by `sought` and `sought_command`, as a list by
//!   `count`, `item`, `row`, `list`, `range`. Changed by
//!   `append` at the end of the text, and as a list by `push`, `replace_item`, `put_item_under` and `splice`.
//!   As a dictionary made by `of_dict`, read by `dict_size`, `dict_get`, `dictionary`, changed by `dict_put`, `dict_put_under`, `dict_remove`, `dict_remove_under` and
//!   `dict_change`. Who is to read copies of it again and again has it keep what they are read as: by `prefer_number`, `prefer_list` and `prefer_dictionary`, and by `prefer_list_at` and
//!   `prefer_dictionary_under` what stands in it.
//! - [`Places`]: the characters of a text, found by their places.
//! - [`Change`]: what `dict_change` makes of the value under a key. A list or a text that has grown there once grows in place from then on.
//! - [`Dictionary`]: the pairs of a value, to be looked at and to be changed into another dictionary; a share as a row is.
//! - [`Key`]: a key of a dictionary, made of a text by `of` or of a value by `Value::key`. A short one is kept in place.
//! - [`Row`]: the elements of a value, to be looked at as a slice of [`Element`]s. It is a share of the value's list: drop it
//!   before the value is changed, or the change copies the list.
//! - [`Element`]: an element of a list. Its text is always there.
//! - [`Gathering`]: elements and values, gathered one behind the other to be a list.
//!
//! A call that only reads leaves the value as it was, and so does one that is refused.
#![tactic(auto)]

mod appending;
mod beside;
mod change;
mod composed;
mod deep;
mod dict;
mod dictionary;
mod digits;
mod element;
mod element_text;
mod flat;
mod gathering;
mod inner;
mod items;
mod joining;
mod key;
mod list;
mod list_reading;
mod literal;
mod making;
mod marks;
mod named;
mod nested;
mod numerals;
mod pairs;
mod places;
mod placing;
mod preferring;
mod readings;
mod row;
mod short;
mod single;
mod taking;
mod value;
mod writing;
mod written;

pub use change::Change;
pub use dictionary::Dictionary;
pub use element::Element;
pub use element_text::ElementText;
pub use gathering::Gathering;
pub use key::Key;
pub use places::Places;
pub use row::Row;
pub use value::Value;
