//! The parts of a format: format(n).

/// A width or a precision.
#[derive(Clone, Copy)]
pub enum Size {
    /// Digits; above 2147483647 they count as 2147483648.
    Given(u32),
    /// `*`: the next argument.
    FromArgument,
}

/// How a field writes a number.
#[derive(Clone, Copy)]
pub enum NumberForm {
    /// `%d`, `%i`
    Signed,
    /// `%u`
    Unsigned,
    /// `%x`
    Hex,
    /// `%X`
    UpperHex,
    /// `%o`
    Octal,
    /// `%b`
    Binary,
}

/// What a field shows.
#[derive(Clone, Copy)]
pub enum Conversion {
    /// A number.
    Number(NumberForm),
    /// `%c`
    Character,
    /// `%s`
    Text,
    /// `%%`
    Percent,
}

/// The flags of a field, its width and precision, and its conversion.
#[derive(Clone, Copy)]
pub struct Field {
    pub minus: bool,
    pub plus: bool,
    pub gap: bool,
    pub zeros: bool,
    pub hash: bool,
    pub width: Size,
    pub precision: Option<Size>,
    pub conversion: Conversion,
}

/// A part of a format.
#[derive(Clone, Copy)]
pub enum FormatPart {
    /// A character that stands for itself.
    Character(char),
    /// A field that shows arguments.
    Field(Field),
    /// A character that is no conversion, where one is needed.
    NoConversion(char),
}

/// What may stand next in a format.
#[derive(Clone, Copy)]
pub enum FormatStage {
    Plain,
    Flags,
    Width,
    BehindWidth,
    Precision,
    PrecisionDigits,
    BehindPrecision,
    BehindL,
    BehindLl,
}

/// The part that a character ends, if it ends one, what may stand next, and the field so far.
#[derive(Clone, Copy)]
pub struct FormatStep {
    pub part: Option<FormatPart>,
    pub stage: FormatStage,
    pub field: Field,
}

/// Where a field's text stands: at which side, how wide, and how precise.
#[derive(Clone, Copy)]
pub struct Layout {
    pub left: bool,
    pub width: u32,
    pub precision: Option<u32>,
}
