//! A format read character by character: format(n).

ghost use Rattle.std.specs.Prelude.{◌≡◌};
ghost use Rattle.tcl_pages.specs.Formats as spec;

use tcl_pages::{Conversion, Field, FormatPart, FormatStage, FormatStep, NumberForm, Size};

/// A field of which nothing has been read.
pub(crate) fn no_field() -> Field
    ensures { result ≡ spec.no_field }
{
    Field {
        minus: false,
        plus: false,
        gap: false,
        zeros: false,
        hash: false,
        width: Size::Given(0),
        precision: None,
        conversion: Conversion::Percent,
    }
}

/// The field goes on.
fn on_to(stage: FormatStage, field: Field) -> FormatStep
    ensures { result ≡ spec.on_to stage field }
{
    FormatStep {
        part: None,
        stage,
        field,
    }
}

/// A part ends.
fn ends(part: FormatPart) -> FormatStep
    ensures { result ≡ spec.ends part }
{
    FormatStep {
        part: Some(part),
        stage: FormatStage::Plain,
        field: no_field(),
    }
}

/// The conversion that a character stands for.
fn conversion_of(c: char) -> Option<Conversion>
    ensures { result ≡ spec.conversion_of c }
{
    match c {
        'd' | 'i' => Some(Conversion::Number(NumberForm::Signed)),
        'u' => Some(Conversion::Number(NumberForm::Unsigned)),
        'x' => Some(Conversion::Number(NumberForm::Hex)),
        'X' => Some(Conversion::Number(NumberForm::UpperHex)),
        'o' => Some(Conversion::Number(NumberForm::Octal)),
        'b' => Some(Conversion::Number(NumberForm::Binary)),
        'c' => Some(Conversion::Character),
        's' => Some(Conversion::Text),
        '%' => Some(Conversion::Percent),
        _ => None,
    }
}

/// What a character does where a conversion must stand.
fn conversion_next(field: Field, c: char) -> FormatStep
    ensures { result ≡ spec.conversion_next field c }
{
    match conversion_of(c) {
        Some(conversion) => ends(FormatPart::Field(Field {
            conversion,
            ..field
        })),
        None => ends(FormatPart::NoConversion(c)),
    }
}

/// What a character does where `l` may stand.
fn modifier_next(field: Field, c: char) -> FormatStep
    ensures { result ≡ spec.modifier_next field c }
{
    if c == 'l' {
        return on_to(FormatStage::BehindL, field);
    }
    conversion_next(field, c)
}

/// What a character does where a second `l` may stand.
fn second_modifier_next(field: Field, c: char) -> FormatStep
    ensures { result ≡ spec.second_modifier_next field c }
{
    if c == 'l' {
        return on_to(FormatStage::BehindLl, field);
    }
    conversion_next(field, c)
}

/// What a character does where a precision may begin.
fn dot_next(field: Field, c: char) -> FormatStep
    ensures { result ≡ spec.dot_next field c }
{
    if c == '.' {
        let precision = Some(Size::Given(0));
        return on_to(FormatStage::Precision, Field { precision, ..field });
    }
    modifier_next(field, c)
}

/// The digit that a character is.
fn digit_of(c: char) -> u32
    ensures { result ≡ spec.digit_of c }
{
    (c as u32).saturating_sub(48)
}

/// The size with one digit more, up to the first size that is too large.
fn more_digits(size: Size, c: char) -> Size
    ensures { result ≡ spec.more_digits size c }
{
    match size {
        Size::Given(number) => {
            let more = u64::from(number) * 10 + u64::from(digit_of(c));
            Size::Given(more.min(0x8000_0000) as u32)
        }
        Size::FromArgument => Size::FromArgument,
    }
}

/// The precision with one digit more.
fn more_precision(precision: Option<Size>, c: char) -> Option<Size>
    ensures { result ≡ spec.more_precision precision c }
{
    match precision {
        Some(size) => Some(more_digits(size, c)),
        None => Some(Size::Given(digit_of(c))),
    }
}

/// What a character does where a width may begin.
fn width_next(field: Field, c: char) -> FormatStep
    ensures { result ≡ spec.width_next field c }
{
    if c == '*' {
        let width = Size::FromArgument;
        return on_to(FormatStage::BehindWidth, Field { width, ..field });
    }
    if c.is_ascii_digit() {
        let width = Size::Given(digit_of(c));
        return on_to(FormatStage::Width, Field { width, ..field });
    }
    dot_next(field, c)
}

/// What a character does where a flag may stand.
fn flag_next(field: Field, c: char) -> FormatStep
    ensures { result ≡ spec.flag_next field c }
{
    let flagged = match c {
        '-' => Field {
            minus: true,
            ..field
        },
        '+' => Field {
            plus: true,
            ..field
        },
        ' ' => Field { gap: true, ..field },
        '0' => Field {
            zeros: true,
            ..field
        },
        '#' => Field {
            hash: true,
            ..field
        },
        _ => return width_next(field, c),
    };
    on_to(FormatStage::Flags, flagged)
}

/// What a character outside of a field does.
fn plain_next(c: char) -> FormatStep
    ensures { result ≡ spec.plain_next c }
{
    if c == '%' {
        return on_to(FormatStage::Flags, no_field());
    }
    ends(FormatPart::Character(c))
}

/// What a character behind a digit of a width does.
fn more_width(field: Field, c: char) -> FormatStep
    ensures { result ≡ spec.more_width field c }
{
    if c.is_ascii_digit() {
        let width = more_digits(field.width, c);
        return on_to(FormatStage::Width, Field { width, ..field });
    }
    dot_next(field, c)
}

/// What a character does where a digit of a precision may stand.
fn precise_next(field: Field, c: char) -> FormatStep
    ensures { result ≡ spec.precise_next field c }
{
    if c.is_ascii_digit() {
        let precision = more_precision(field.precision, c);
        return on_to(FormatStage::PrecisionDigits, Field { precision, ..field });
    }
    modifier_next(field, c)
}

/// What a character behind the dot does.
fn precision_next(field: Field, c: char) -> FormatStep
    ensures { result ≡ spec.precision_next field c }
{
    if c == '*' {
        let precision = Some(Size::FromArgument);
        return on_to(FormatStage::BehindPrecision, Field { precision, ..field });
    }
    precise_next(field, c)
}

/// What the next character of a format does.
pub(crate) fn next_of(stage: FormatStage, field: Field, c: char) -> FormatStep
    ensures { result ≡ spec.next_of stage field c }
{
    match stage {
        FormatStage::Plain => plain_next(c),
        FormatStage::Flags => flag_next(field, c),
        FormatStage::Width => more_width(field, c),
        FormatStage::BehindWidth => dot_next(field, c),
        FormatStage::Precision => precision_next(field, c),
        FormatStage::PrecisionDigits => precise_next(field, c),
        FormatStage::BehindPrecision => modifier_next(field, c),
        FormatStage::BehindL => second_modifier_next(field, c),
        FormatStage::BehindLl => conversion_next(field, c),
    }
}
