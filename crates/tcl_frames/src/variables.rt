//! The variables of one frame.
ghost use Rattle.std.specs.Prelude.{◌≡◌, Some, None, Ok, Err, IfOk, IfErr, OnOk, OnErr};
ghost use Rattle.tcl_meaning.specs.Frames.{element};
ghost use Rattle.std.specs.Borrow.{sem};
ghost use Rattle.std.specs.FinMap as map;
ghost use Rattle.std.specs.Str.{chars};
ghost use Rattle.tcl_meaning.specs.Variables.{get_part, put_part, remove_part};
ghost use Rattle.std.specs.Option.{option_copied};
ghost use Rattle.tcl_meaning.specs.Arrays.{whole_array};
ghost use Rattle.tcl_meaning.specs.SeenPages.{is_there};
ghost use Rattle.tcl_frames.specs.Parts.{part_of};
ghost use Rattle.tcl_frames.specs.Refusals.{Refuses};
ghost use Rattle.tcl_frames.specs.Edits.{edit_part};
ghost use Rattle.tcl_frames.specs.Written.{stored_in, removed_in};
ghost use Rattle.tcl_frames.specs.VariablesLent.{LendsText};

use crate::edit::Edit;
use crate::fault::VarFault;
use crate::name::Part;
use crate::variable::Variable;
use std::alloc::Global;
use tcl_meaning::Refusal;
use tcl_names::{HashedNames, PlacedNames, Sought};
use tcl_values::Value;

/// The text of a part of a variable.
#[inline(always)]
pub(crate) fn find_in<'a>(
    variables: &'a PlacedNames<Variable>,
    name: &Sought<'_>,
    part: Part<'_>,
    missing: Refusal,
) -> Result<&'a Value, Refusal>
    ensures found { IfOk result (λ value. get_part missing (map.get variables.now name.now) (part_of part.entry) ≡ Ok value.now) }
    ensures refused { IfErr result (λ refusal. get_part missing (map.get variables.now name.now) (part_of part.entry) ≡ Err refusal) }
{
    match variables.get_near(name) {
        Some(variable) => variable.part(part, missing),
        None => match part {
            Part::Deeper => Err(Refusal::IsntArray),
            _ => Err(Refusal::NoSuch),
        },
    }
}

/// The elements of an array.
pub(crate) fn array_in<'a>(
    variables: &'a PlacedNames<Variable>,
    name: &str,
    part: Part<'_>,
) -> Option<&'a HashedNames<Value>>
    ensures { option_copied result ≡ whole_array (map.get variables.now (chars name.now)) (part_of part.entry) }
{
    match variables.get(name) {
        Some(variable) => variable.elements(part),
        None => None,
    }
}

/// Is there a variable, or an element?
pub(crate) fn is_there_in(variables: &PlacedNames<Variable>, name: &str, part: Part<'_>) -> bool
    ensures { result ≡ is_there (map.get variables.now (chars name.now)) (part_of part.entry) }
{
    match variables.get(name) {
        Some(variable) => variable.has(part),
        None => false,
    }
}

/// Lends the text of a part of a variable.
#[inline(always)]
pub(crate) fn place_in<'a>(
    variables: &'a mut PlacedNames<Variable>,
    name: &Sought<'_>,
    part: Part<'_>,
    missing: Refusal,
) -> Result<&'a mut Value, Refusal>
    ensures* writes_back { sem 𝓛 (LendsText variables.entry name.entry.now (part_of part.entry) result) }
    ensures found { IfOk result (λ value. get_part missing (map.get variables.old name.now) (part_of part.entry) ≡ Ok value.now) }
    ensures refused { IfErr result (λ refusal. get_part missing (map.get variables.old name.now) (part_of part.entry) ≡ Err refusal) }
{
    match variables.get_mut_near(name) {
        Some(variable) => variable.place(part, missing),
        None => match part {
            Part::Deeper => Err(Refusal::IsntArray),
            _ => Err(Refusal::NoSuch),
        },
    }
}

// The variable of which a part has a text, and nothing else.
fn made(alloc: Global, part: Part<'_>, value: Value) -> Result<Variable, VarFault>
    ensures done { IfOk result (λ variable. put_part None (part_of part.entry) value ≡ Ok variable) }
    ensures refused { IfErr result (Refuses (put_part None (part_of part.entry) value)) }
{
    match part {
        Part::Whole => Ok(Variable::of_text(value)),
        Part::Element(index) => {
            let mut elements = HashedNames::new(alloc);
            elements.insert(alloc, index, value)?;
            Ok(Variable::of_array(alloc, elements)?)
        }
        Part::Deeper => Err(VarFault::Refused(Refusal::IsntArray)),
    }
}

/// Puts a text into a part of a variable, which is made where it is missing.
#[inline(always)]
pub(crate) fn put_in(
    variables: &mut PlacedNames<Variable>,
    alloc: Global,
    name: &Sought<'_>,
    part: Part<'_>,
    value: Value,
) -> Result<(), VarFault>
    ensures done { OnOk result (stored_in variables.old name.now (put_part (map.get variables.old name.now) (part_of part.entry) value) ≡ Ok variables.new) }
    ensures refused { IfErr result (Refuses (put_part (map.get variables.old name.now) (part_of part.entry) value)) }
    ensures same { OnErr result (variables.new ≡ variables.old) }
{
    if let Some(variable) = variables.get_mut_near(name) {
        return variable.write(alloc, part, value);
    }
    put_anew(variables, alloc, name.as_str(), part, value)
}

// The same, where the variable is missing.
#[inline(never)]
fn put_anew(
    variables: &mut PlacedNames<Variable>,
    alloc: Global,
    name: &str,
    part: Part<'_>,
    value: Value,
) -> Result<(), VarFault>
    requires { map.get variables.old (chars name.now) ≡ None }
    ensures done { OnOk result (stored_in variables.old (chars name.now) (put_part (map.get variables.old (chars name.now)) (part_of part.entry) value) ≡ Ok variables.new) }
    ensures refused { IfErr result (Refuses (put_part (map.get variables.old (chars name.now)) (part_of part.entry) value)) }
    ensures same { OnErr result (variables.new ≡ variables.old) }
{
    let variable = made(alloc, part, value)?;
    variables.insert(alloc, name, variable)?;
    Ok(())
}

// The array that is begun by a change.
fn begun(alloc: Global, part: Part<'_>, edit: Edit<'_>) -> Result<Variable, VarFault>
    ensures done { IfOk result (λ variable. edit_part edit.entry None (part_of part.entry) ≡ Ok variable) }
    ensures refused { IfErr result (Refuses (edit_part edit.entry None (part_of part.entry))) }
{
    match part {
        Part::Whole => {
            let mut elements = HashedNames::new(alloc);
            edit.apply(alloc, &mut elements)?;
            Ok(Variable::of_array(alloc, elements)?)
        }
        Part::Element(_) => Err(VarFault::Refused(Refusal::IsntArray)),
        Part::Deeper => Err(VarFault::Refused(Refusal::IsntArray)),
    }
}

/// Changes the elements of an array, which is made where it is missing.
pub(crate) fn edit_in(
    variables: &mut PlacedNames<Variable>,
    alloc: Global,
    name: &str,
    part: Part<'_>,
    edit: Edit<'_>,
) -> Result<(), VarFault>
    ensures done { OnOk result (stored_in variables.old (chars name.now) (edit_part edit.entry (map.get variables.old (chars name.now)) (part_of part.entry)) ≡ Ok variables.new) }
    ensures refused { IfErr result (Refuses (edit_part edit.entry (map.get variables.old (chars name.now)) (part_of part.entry))) }
    ensures same { OnErr result (variables.new ≡ variables.old) }
{
    if let Some(variable) = variables.get_mut(name) {
        return variable.edit(alloc, part, edit);
    }
    let variable = begun(alloc, part, edit)?;
    variables.insert(alloc, name, variable)?;
    Ok(())
}

// Takes an element away from a variable that is there.
fn remove_element_in(
    variables: &mut PlacedNames<Variable>,
    name: &str,
    index: &str,
    missing: Refusal,
) -> Result<(), Refusal>
    ensures done { OnOk result (removed_in variables.old (chars name.now) (remove_part missing (map.get variables.old (chars name.now)) (element (chars index.now))) ≡ Ok variables.new) }
    ensures refused { IfErr result (λ refusal. remove_part missing (map.get variables.old (chars name.now)) (element (chars index.now)) ≡ Err refusal) }
    ensures same { OnErr result (variables.new ≡ variables.old) }
{
    match variables.get_mut(name) {
        Some(variable) => variable.remove_element(index, missing),
        None => Err(Refusal::NoSuch),
    }
}

/// Takes a part of a variable away.
pub(crate) fn remove_in(
    variables: &mut PlacedNames<Variable>,
    name: &str,
    part: Part<'_>,
    missing: Refusal,
) -> Result<(), Refusal>
    ensures done { OnOk result (removed_in variables.old (chars name.now) (remove_part missing (map.get variables.old (chars name.now)) (part_of part.entry)) ≡ Ok variables.new) }
    ensures refused { IfErr result (λ refusal. remove_part missing (map.get variables.old (chars name.now)) (part_of part.entry) ≡ Err refusal) }
    ensures same { OnErr result (variables.new ≡ variables.old) }
{
    match part {
        Part::Whole => {
            if variables.get(name).is_none() {
                return Err(Refusal::NoSuch);
            }
            variables.remove(name);
            Ok(())
        }
        Part::Element(index) => remove_element_in(variables, name, index, missing),
        Part::Deeper => Err(Refusal::IsntArray),
    }
}
