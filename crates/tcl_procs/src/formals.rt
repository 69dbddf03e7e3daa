//! The formals of a procedure, read from their text: proc(n).
ghost use Rattle.std.specs.Prelude.{◌≡◌, map as each, option_map};
ghost use Rattle.std.specs.Str.{chars};
ghost use Rattle.tcl_chars.specs.Answers.{Answers};
ghost use Rattle.tcl_chars.specs.Texts.{text_of};
ghost use Rattle.tcl_meaning.specs.Procedures as spec;
ghost use Rattle.tcl_procs.specs.Reading.{formal_of_text, is_empty};
ghost use Rattle.tcl_table.specs.Procedures.{formal_of, procedure_of};

use std::alloc::{AllocError, Global};
use std::rc::{Rc, RcStr};
use tcl_chars::{Fault, about, message, split_first};
use tcl_frames::{is_element, is_global};
use tcl_list::split;
use tcl_names::Layout;
use tcl_table::{Formal, Procedure};

// The greatest number of formals that have places of their own. A name is looked for among them one by one, so that more would be
// found faster by their order.
const PLACED: usize = 16;

/// Has a text no character?
pub(crate) fn is_empty(text: &str) -> bool
    ensures { result ≡ is_empty (chars text.now) }
{
    split_first(text).is_none()
}

// The formal of this name and this default.
fn simple_formal(alloc: Global, name: RcStr, default: Option<RcStr>) -> Result<Formal, Fault>
    ensures { Answers formal_of result (spec.simple_formal (text_of name) (option_map text_of default)) }
{
    if is_empty(name.as_str()) {
        return Err(Fault::Error(message(alloc, "argument with no name")?));
    }
    if is_element(name.as_str()) {
        let said = about(
            alloc,
            "formal parameter",
            name.as_str(),
            " is an array element",
        )?;
        return Err(Fault::Error(said));
    }
    if is_global(name.as_str()) {
        let said = about(
            alloc,
            "formal parameter",
            name.as_str(),
            " is not a simple name",
        )?;
        return Err(Fault::Error(said));
    }
    Ok(Formal { name, default })
}

// The formal of a text of these fields: a name, or a name and its default.
fn formal_by(alloc: Global, text: &str, fields: &[RcStr]) -> Result<Formal, Fault>
    ensures { Answers formal_of result (spec.formal_by (chars text.now) (each text_of fields.now)) }
{
    match fields {
        [] => Err(Fault::Error(message(alloc, "argument with no name")?)),
        [name] => simple_formal(alloc, name.clone()?, None),
        [name, default] => simple_formal(alloc, name.clone()?, Some(default.clone()?)),
        _ => {
            let said = about(alloc, "too many fields in argument specifier", text, "")?;
            Err(Fault::Error(said))
        }
    }
}

// The formal that a text is read as.
fn formal_of_text(alloc: Global, text: &str) -> Result<Formal, Fault>
    ensures { Answers formal_of result (formal_of_text (chars text.now)) }
{
    let fields = split(alloc, text)?;
    formal_by(alloc, text, &fields)
}

// The formals that texts are read as, or the first fault.
fn formals_by(alloc: Global, texts: &[RcStr]) -> Result<Vec<Formal>, Fault>
    ensures { Answers (λ formals. each formal_of formals.items) result (spec.formals_by (each text_of texts.now)) }
{
    let mut formals = Vec::with_capacity(alloc, texts.len())?;
    let mut rest = texts;
    'texts: while let [text, others @ ..] = rest {
        let formal = formal_of_text(alloc, text.as_str())?;
        formals.push(formal)?;
        rest = others;
    }
    Ok(formals)
}

// Places for the first of some formals.
fn layout_of(alloc: Global, formals: &[Formal]) -> Result<Rc<Layout>, AllocError> {
    let mut layout = Layout::new(alloc);
    for formal in formals.iter().take(PLACED) {
        layout.add(&formal.name)?;
    }
    Ok(Rc::new(alloc, layout)?)
}

/// The procedure of these formals and this body.
///
/// # Errors
///
/// `Fault::Error` with the first fault of the formals, `Fault::Memory`.
#[tactic(auto, unfolding(tcl_meaning::specs::Procedures::procedure_of))]
pub(crate) fn read_procedure(alloc: Global, formals: &str, body: RcStr) -> Result<Procedure, Fault>
    ensures { Answers procedure_of result (spec.procedure_of (chars formals.now) (text_of body)) }
{
    let texts = split(alloc, formals)?;
    let formals = formals_by(alloc, &texts)?;
    let layout = layout_of(alloc, &formals)?;
    Ok(Procedure {
        formals,
        body,
        layout,
    })
}
