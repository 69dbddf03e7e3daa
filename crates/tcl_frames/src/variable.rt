//! One variable.
ghost use Rattle.std.specs.Prelude.{◌≡◌, Some, None, Ok, Err, IfOk, IfErr, OnOk, OnErr};
ghost use Rattle.std.specs.Borrow.{sem};
ghost use Rattle.std.specs.Str.{chars};
ghost use Rattle.tcl_frames.specs.VariableShape.{variable_of};
ghost use Rattle.tcl_meaning.specs.Frames.{text, array, element};
ghost use Rattle.tcl_meaning.specs.Variables.{get_part, put_part, remove_part, without_element};
ghost use Rattle.std.specs.FinMap as map;
ghost use Rattle.std.specs.Option.{option_copied};
ghost use Rattle.tcl_meaning.specs.Arrays.{whole_array};
ghost use Rattle.tcl_meaning.specs.SeenPages.{is_there};
ghost use Rattle.tcl_frames.specs.Parts.{part_of};
ghost use Rattle.tcl_frames.specs.Refusals.{Refuses};
ghost use Rattle.tcl_frames.specs.Edits.{edit_part};
ghost use Rattle.tcl_frames.specs.VariableLent.{LendsHeld, LendsPart};

use crate::edit::Edit;
use crate::fault::VarFault;
use crate::name::Part;
use std::alloc::{AllocError, Global};
use std::marker::Model;
use tcl_meaning::Refusal;
use tcl_names::HashedNames;
use tcl_values::Value;

// What a variable holds.
#[derive(Drop)]
enum Held {
    Text(Value),
    Array(Box<HashedNames<Value>>),
}

/// A variable: a text, or an array of texts.
pub struct Variable {
    held: Held,
}

impl Drop for Variable {
    #[inline(always)]
    fn drop(self) {
        let Variable { held } = self;
        drop(held);
    }
}

impl Model for Variable {
    ghost use Rattle.tcl_meaning.specs.Frames.{Variable};
    ghost use Rattle.tcl_frames.specs.Coding.{variable_code};

    ghost Value = { Variable };

    ghost coded = { variable_code };

    ghost use Rattle.tcl_frames.specs.VariableShape.{variable_of};

    ghost view = { λ variable. variable_of variable.held };
}

impl Held {
    // Lends the text of a part.
    #[inline(always)]
    fn place(&mut self, part: Part<'_>, missing: Refusal) -> Result<&mut Value, Refusal>
        ensures* writes_back { sem 𝓛 (LendsHeld self.entry (part_of part.entry) result) }
        ensures found { IfOk result (λ value. get_part missing (Some (variable_of self.old)) (part_of part.entry) ≡ Ok value.now) }
        ensures refused { IfErr result (λ refusal. get_part missing (Some (variable_of self.old)) (part_of part.entry) ≡ Err refusal) }
    {
        match self {
            Held::Text(value) => match part {
                Part::Whole => Ok(value),
                _ => Err(Refusal::IsntArray),
            },
            Held::Array(elements) => match part {
                Part::Whole => Err(Refusal::IsArray),
                Part::Element(index) => match elements.get_mut(index) {
                    Some(value) => Ok(value),
                    None => Err(missing),
                },
                Part::Deeper => Err(Refusal::IsntArray),
            },
        }
    }
}

// Takes an element out of an array.
fn take_out(elements: &mut HashedNames<Value>, index: &str, missing: Refusal) -> Result<(), Refusal>
    ensures done { OnOk result (without_element missing elements.old (chars index.now) (map.get elements.old (chars index.now)) ≡ Ok (Some (array elements.new))) }
    ensures refused { IfErr result (λ refusal. without_element missing elements.old (chars index.now) (map.get elements.old (chars index.now)) ≡ Err refusal) }
    ensures same { OnErr result (elements.new ≡ elements.old) }
{
    if elements.get(index).is_none() {
        return Err(missing);
    }
    elements.remove(index);
    Ok(())
}

impl Variable {
    /// The variable that holds a text.
    pub fn of_text(value: Value) -> Variable
        ensures { result ≡ text value }
    {
        Variable {
            held: Held::Text(value),
        }
    }

    /// The array of these elements.
    pub fn of_array(alloc: Global, elements: HashedNames<Value>) -> Result<Variable, AllocError>
        ensures { IfOk result (λ variable. variable ≡ array elements) }
    {
        Ok(Variable {
            held: Held::Array(Box::new(alloc, elements)?),
        })
    }

    /// The text of a part.
    #[inline(always)]
    pub(crate) fn part(&self, part: Part<'_>, missing: Refusal) -> Result<&Value, Refusal>
        ensures found { IfOk result (λ value. get_part missing (Some self.now) (part_of part.entry) ≡ Ok value.now) }
        ensures refused { IfErr result (λ refusal. get_part missing (Some self.now) (part_of part.entry) ≡ Err refusal) }
    {
        match (&self.held, part) {
            (_, Part::Deeper) => Err(Refusal::IsntArray),
            (Held::Text(value), Part::Whole) => Ok(value),
            (Held::Text(_), Part::Element(_)) => Err(Refusal::IsntArray),
            (Held::Array(_), Part::Whole) => Err(Refusal::IsArray),
            (Held::Array(elements), Part::Element(index)) => match elements.get(index) {
                Some(value) => Ok(value),
                None => Err(missing),
            },
        }
    }

    /// The elements, where the variable is an array and it is meant as a whole.
    pub(crate) fn elements(&self, part: Part<'_>) -> Option<&HashedNames<Value>>
        ensures { option_copied result ≡ whole_array (Some self.now) (part_of part.entry) }
    {
        match (&self.held, part) {
            (Held::Array(elements), Part::Whole) => Some(elements),
            (Held::Array(_), Part::Element(_)) => None,
            (Held::Array(_), Part::Deeper) => None,
            (Held::Text(_), _) => None,
        }
    }

    /// Is a part there?
    pub(crate) fn has(&self, part: Part<'_>) -> bool
        ensures { result ≡ is_there (Some self.now) (part_of part.entry) }
    {
        match (&self.held, part) {
            (_, Part::Deeper) => false,
            (_, Part::Whole) => true,
            (Held::Text(_), Part::Element(_)) => false,
            (Held::Array(elements), Part::Element(index)) => elements.get(index).is_some(),
        }
    }

    /// Gives a part a text.
    #[inline(always)]
    pub(crate) fn write(
        &mut self,
        alloc: Global,
        part: Part<'_>,
        value: Value,
    ) -> Result<(), VarFault>
        ensures done { OnOk result (put_part (Some self.old) (part_of part.entry) value ≡ Ok self.new) }
        ensures refused { IfErr result (Refuses (put_part (Some self.old) (part_of part.entry) value)) }
        ensures same { OnErr result (self.new ≡ self.old) }
    {
        match &mut self.held {
            Held::Text(text) => match part {
                Part::Whole => *text = value,
                _ => return Err(VarFault::Refused(Refusal::IsntArray)),
            },
            Held::Array(elements) => match part {
                Part::Whole => return Err(VarFault::Refused(Refusal::IsArray)),
                Part::Element(index) => elements.insert(alloc, index, value)?,
                Part::Deeper => return Err(VarFault::Refused(Refusal::IsntArray)),
            },
        }
        Ok(())
    }

    /// Changes the elements, where the variable is an array and it is meant as a whole.
    pub(crate) fn edit(
        &mut self,
        alloc: Global,
        part: Part<'_>,
        edit: Edit<'_>,
    ) -> Result<(), VarFault>
        ensures done { OnOk result (edit_part edit.entry (Some self.old) (part_of part.entry) ≡ Ok self.new) }
        ensures refused { IfErr result (Refuses (edit_part edit.entry (Some self.old) (part_of part.entry))) }
        ensures same { OnErr result (self.new ≡ self.old) }
    {
        match &mut self.held {
            Held::Text(_) => Err(VarFault::Refused(Refusal::IsntArray)),
            Held::Array(elements) => match part {
                Part::Whole => Ok(edit.apply(alloc, elements)?),
                Part::Element(_) => Err(VarFault::Refused(Refusal::IsntArray)),
                Part::Deeper => Err(VarFault::Refused(Refusal::IsntArray)),
            },
        }
    }

    /// Takes an element away.
    pub(crate) fn remove_element(&mut self, index: &str, missing: Refusal) -> Result<(), Refusal>
        ensures done { OnOk result (remove_part missing (Some self.old) (element (chars index.now)) ≡ Ok (Some self.new)) }
        ensures refused { IfErr result (λ refusal. remove_part missing (Some self.old) (element (chars index.now)) ≡ Err refusal) }
        ensures same { OnErr result (self.new ≡ self.old) }
    {
        match &mut self.held {
            Held::Text(_) => Err(Refusal::IsntArray),
            Held::Array(elements) => take_out(elements, index, missing),
        }
    }

    /// Lends the text of a part.
    #[inline(always)]
    pub(crate) fn place(&mut self, part: Part<'_>, missing: Refusal) -> Result<&mut Value, Refusal>
        ensures* writes_back { sem 𝓛 (LendsPart self.entry (part_of part.entry) result) }
        ensures found { IfOk result (λ value. get_part missing (Some self.old) (part_of part.entry) ≡ Ok value.now) }
        ensures refused { IfErr result (λ refusal. get_part missing (Some self.old) (part_of part.entry) ≡ Err refusal) }
    {
        self.held.place(part, missing)
    }
}
