//! Texts made by a format: format(n).

ghost use Rattle.std.specs.Prelude.{◌≡◌, ◌∷◌, [], map, IfOk};
ghost use Rattle.std.specs.Str.{chars};
ghost use Rattle.std.specs.String.{string_bytes};
ghost use Rattle.tcl_chars.specs.Answers.{Answers};
ghost use Rattle.tcl_chars.specs.Texts.{text_of};
ghost use Rattle.tcl_pages.specs.Formats as spec;
ghost use Rattle.tcl_strings.specs.Shown.{shown_behind};

use crate::directives::{next_of, no_field};
use crate::fields::{first_characters, number_field, padded, scalar};
use crate::places::room;
use std::alloc::{AllocError, Global};
use std::rc::RcStr;
use tcl_arguments::{all_texts, usage};
use tcl_chars::{Dialect, Fault, about, expect_number, message, push, push_text, split_first};
use tcl_pages::{Conversion, Field, FormatPart, FormatStage, Layout, Size};
use tcl_values::Value;

/// The next argument, and those behind it.
fn argument(alloc: Global, args: &[RcStr]) -> Result<(&str, &[RcStr]), Fault>
    ensures { Answers (λ r. (chars r.0.now, map text_of r.1.now)) result (spec.argument (map text_of args.now)) }
{
    match args {
        [first, rest @ ..] => Ok((first.as_str(), rest)),
        [] => Err(Fault::Error(message(alloc, "not enough arguments for all format specifiers")?)),
    }
}

/// The number of the next argument, and the arguments behind it.
fn number_argument(
    alloc: Global,
    args: &[RcStr],
    dialect: Dialect,
) -> Result<(i64, &[RcStr]), Fault>
    ensures { Answers (λ r. (r.0, map text_of r.1.now)) result (spec.number_argument dialect (map text_of args.now)) }
{
    let (text, rest) = argument(alloc, args)?;
    let number = expect_number(alloc, text, dialect)?;
    Ok((number, rest))
}

/// A width or a precision, unless it is too large.
fn size_within(alloc: Global, size: u64) -> Result<u32, Fault>
    ensures { Answers (λ n. n) result (spec.size_within size) }
{
    if size <= 0x7fff_ffff {
        return Ok(size as u32);
    }
    Err(Fault::Error(message(alloc, "integer value too large to represent")?))
}

/// The layout of a field whose width is a number: a negative one is the flag `-` and its size.
fn width_from(alloc: Global, field: Field, number: i64) -> Result<Layout, Fault>
    ensures { Answers (λ s. s) result (spec.width_from field number) }
{
    let width = size_within(alloc, number.unsigned_abs())?;
    Ok(Layout {
        left: number < 0 || field.minus,
        width,
        precision: None,
    })
}

/// The layout of a field without its precision, and the arguments that are left.
fn width_taken(
    alloc: Global,
    field: Field,
    args: &[RcStr],
    dialect: Dialect,
) -> Result<(Layout, &[RcStr]), Fault>
    ensures { Answers (λ r. (r.0, map text_of r.1.now)) result
        (spec.width_taken dialect field field.width (map text_of args.now)) }
{
    match field.width {
        Size::Given(size) => {
            let width = size_within(alloc, u64::from(size))?;
            let layout = Layout {
                left: field.minus,
                width,
                precision: None,
            };
            Ok((layout, args))
        }
        Size::FromArgument => {
            let (number, rest) = number_argument(alloc, args, dialect)?;
            Ok((width_from(alloc, field, number)?, rest))
        }
    }
}

/// The layout with a precision that is a number: a negative one is as none.
fn precision_from(alloc: Global, layout: Layout, number: i64) -> Result<Layout, Fault>
    ensures { Answers (λ s. s) result (spec.precision_from layout number) }
{
    if number < 0 {
        return Ok(layout);
    }
    let precision = Some(size_within(alloc, number as u64)?);
    Ok(Layout {
        precision,
        ..layout
    })
}

/// The layout with a field's precision, and the arguments that are left.
fn precision_taken(
    alloc: Global,
    layout: Layout,
    precision: Option<Size>,
    args: &[RcStr],
    dialect: Dialect,
) -> Result<(Layout, &[RcStr]), Fault>
    ensures { Answers (λ r. (r.0, map text_of r.1.now)) result
        (spec.precision_taken dialect layout precision (map text_of args.now)) }
{
    match precision {
        None => Ok((layout, args)),
        Some(Size::Given(size)) => {
            let precision = Some(size_within(alloc, u64::from(size))?);
            Ok((
                Layout {
                    precision,
                    ..layout
                },
                args,
            ))
        }
        Some(Size::FromArgument) => {
            let (number, rest) = number_argument(alloc, args, dialect)?;
            Ok((precision_from(alloc, layout, number)?, rest))
        }
    }
}

/// The text of one character.
fn of_char(alloc: Global, c: char) -> Result<String, AllocError>
    ensures { IfOk result (λ s. chars (string_bytes s) ≡ c ∷ []) }
{
    let mut text = room(alloc, 4)?;
    push(&mut text, c)?;
    Ok(text)
}

/// What a field with this layout shows, and the arguments that are left.
fn shown(
    alloc: Global,
    field: Field,
    layout: Layout,
    args: &[RcStr],
    dialect: Dialect,
) -> Result<(String, &[RcStr]), Fault>
    ensures { Answers (λ r. (chars (string_bytes r.0), map text_of r.1.now)) result
        (spec.shown dialect field layout field.conversion (map text_of args.now)) }
{
    match field.conversion {
        Conversion::Number(form) => {
            let (number, rest) = number_argument(alloc, args, dialect)?;
            Ok((number_field(alloc, field, layout, form, number)?, rest))
        }
        Conversion::Character => {
            let (number, rest) = number_argument(alloc, args, dialect)?;
            let text = of_char(alloc, scalar(number))?;
            Ok((padded(alloc, layout, text.as_str())?, rest))
        }
        Conversion::Text => {
            let (text, rest) = argument(alloc, args)?;
            Ok((
                padded(alloc, layout, first_characters(layout.precision, text))?,
                rest,
            ))
        }
        Conversion::Percent => Ok((String::from_str(alloc, "%")?, args)),
    }
}

/// The layout of a field, and the arguments that are left.
fn sizes_taken(
    alloc: Global,
    field: Field,
    args: &[RcStr],
    dialect: Dialect,
) -> Result<(Layout, &[RcStr]), Fault>
    ensures { Answers (λ r. (r.0, map text_of r.1.now)) result (spec.sizes_taken dialect field (map text_of args.now)) }
{
    let (wide, args) = width_taken(alloc, field, args, dialect)?;
    precision_taken(alloc, wide, field.precision, args, dialect)
}

/// What a field shows, and the arguments that are left.
fn field_taken(
    alloc: Global,
    field: Field,
    args: &[RcStr],
    dialect: Dialect,
) -> Result<(String, &[RcStr]), Fault>
    ensures { Answers (λ r. (chars (string_bytes r.0), map text_of r.1.now)) result
        (spec.field_taken dialect field (map text_of args.now)) }
{
    let (layout, args) = sizes_taken(alloc, field, args, dialect)?;
    shown(alloc, field, layout, args, dialect)
}

/// The error of a character that is no conversion.
fn bad_field(alloc: Global, c: char) -> Result<RcStr, AllocError>
    ensures { IfOk result (λ s. text_of s ≡ spec.bad_field c) }
{
    let text = of_char(alloc, c)?;
    about(alloc, "bad field specifier", text.as_str(), "")
}

/// Writes what a part shows at the end of a text, and answers the arguments that are left. The field is what was read of one
/// in front of the part's last character.
fn push_part<'a>(
    alloc: Global,
    said: &mut String,
    so_far: Field,
    part: Option<FormatPart>,
    args: &'a [RcStr],
    dialect: Dialect,
) -> Result<&'a [RcStr], Fault>
    ensures { Answers (λ r. (chars (string_bytes said.new), map text_of r.now)) result
        (shown_behind (chars (string_bytes said.old)) (spec.step_taken dialect so_far part (map text_of args.now))) }
{
    match part {
        None => Ok(args),
        Some(FormatPart::Character(c)) => {
            push(said, c)?;
            Ok(args)
        }
        Some(FormatPart::Field(field)) => {
            let (text, rest) = field_taken(alloc, field, args, dialect)?;
            push_text(said, text.as_str())?;
            Ok(rest)
        }
        Some(FormatPart::NoConversion(c)) => {
            sizes_taken(alloc, so_far, args, dialect)?;
            Err(Fault::Error(bad_field(alloc, c)?))
        }
    }
}

/// Is it outside of a field?
fn is_plain(stage: FormatStage) -> bool
    ensures { result ≡ spec.is_plain stage }
{
    matches!(stage, FormatStage::Plain)
}

/// May a format end there?
fn at_end(
    alloc: Global,
    stage: FormatStage,
    so_far: Field,
    args: &[RcStr],
    dialect: Dialect,
) -> Result<(), Fault>
    ensures { Answers (λ u. []) result (spec.at_end dialect stage so_far (map text_of args.now)) }
{
    if is_plain(stage) {
        return Ok(());
    }
    sizes_taken(alloc, so_far, args, dialect)?;
    Err(Fault::Error(message(alloc, "format string ended in middle of field specifier")?))
}

/// The text of a format, with what its fields show of the arguments.
fn formatted(alloc: Global, format: &str, args: &[RcStr], dialect: Dialect) -> Result<String, Fault>
    ensures { Answers (λ s. chars (string_bytes s)) result
        (spec.formatted dialect FormatStage.Plain spec.no_field (chars format.now) (map text_of args.now)) }
{
    let mut said = room(alloc, format.len())?;
    let mut rest = format;
    let mut left = args;
    let mut stage = FormatStage::Plain;
    let mut field = no_field();
    'characters: loop {
        let Some((c, after)) = split_first(rest) else {
            at_end(alloc, stage, field, left, dialect)?;
            return Ok(said);
        };
        let step = next_of(stage, field, c);
        left = push_part(alloc, &mut said, field, step.part, left, dialect)?;
        stage = step.stage;
        field = step.field;
        rest = after;
    }
}

/// `format formatString ?arg ...?`: the format with what its fields show of the arguments.
///
/// # Errors
///
/// `Fault::Error` with the usage or the first fault from the left: of the format, of a number, or where an argument is
/// wanting. `Fault::Memory`.
pub fn format(alloc: Global, words: &mut [Value], dialect: Dialect) -> Result<Value, Fault>
    ensures answer { Answers (λ v. v) result (spec.format_page dialect words.old) }
    ensures same { words.new ≡ words.old }
{
    let texts = all_texts(alloc, words)?;
    match texts.as_slice() {
        [format, args @ ..] => {
            let text = formatted(alloc, format.as_str(), args, dialect)?;
            Ok(Value::of_string(alloc, text)?)
        }
        [] => Err(Fault::Error(usage(alloc, "format formatString ?arg ...?")?)),
    }
}
