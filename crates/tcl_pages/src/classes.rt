//! The classes of `string is`.

/// A class of texts: string(n), string is.
#[derive(Clone, Copy, Debug, PartialEq, Eq)]
pub enum StringClass {
    /// Texts of such characters alone.
    Characters(CharacterClass),
    Boolean,
    False,
    Integer,
    List,
    True,
    Wideinteger,
}

/// A class of characters. Letters and digits are those of ASCII.
#[derive(Clone, Copy, Debug, PartialEq, Eq)]
pub enum CharacterClass {
    Alnum,
    Alpha,
    Ascii,
    Digit,
    Lower,
    Space,
    Upper,
    Xdigit,
}
