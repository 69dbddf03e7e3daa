//! The variables of all frames.
ghost use Rattle.std.specs.Prelude.{◌≡◌, is_some, ◌<◌, ◌-◌, length, ◌++◌, ◌∷◌, [], take, Ok, Err, IfOk, IfErr, OnOk, OnErr};
ghost use Rattle.std.specs.Borrow.{sem};
ghost use Rattle.std.specs.FinMap as map;
ghost use Rattle.std.specs.Str.{chars};
ghost use Rattle.tcl_meaning.specs.Variables.{get_part, put_part, remove_part};
ghost use Rattle.tcl_frames.specs.AllLent.{LendsAt};
ghost use Rattle.std.specs.Option.{option_copied};
ghost use Rattle.tcl_meaning.specs.Arrays.{whole_array};
ghost use Rattle.tcl_meaning.specs.SeenPages.{is_there, names_of};
ghost use Rattle.tcl_frames.specs.NameSets.{with_names};
ghost use Rattle.tcl_frames.specs.Parts.{part_of};
ghost use Rattle.tcl_frames.specs.Places.{spot, spot_of};
ghost use Rattle.tcl_frames.specs.Refusals.{Refuses};
ghost use Rattle.tcl_frames.specs.Edits.{edit_part};
ghost use Rattle.tcl_frames.specs.Written.{variables_of, variable_in, stored_at, removed_at};

use crate::edit::Edit;
use crate::fault::VarFault;
use crate::name::Part;
use crate::place::Place;
use crate::variable::Variable;
use crate::variables::{array_in, edit_in, find_in, is_there_in, place_in, put_in, remove_in};
use std::alloc::{AllocError, Global};
use std::marker::Model;
use tcl_meaning::Refusal;
use tcl_names::{HashedNames, NameMap, PlacedNames, Sought};
use tcl_values::Value;

/// The variables of all frames, by the numbers of the frames.
#[derive(Drop)]
pub(crate) struct AllVariables {
    frames: Vec<PlacedNames<Variable>>,
}

impl Model for AllVariables {
    ghost use Rattle.std.specs.Prelude.{List};
    ghost use Rattle.std.specs.Coded.{coded_list};
    ghost use Rattle.tcl_names.specs.Named.{named_code};
    ghost use Rattle.tcl_meaning.specs.Frames.{Variables};
    ghost use Rattle.tcl_frames.specs.Coding.{variable_code};

    ghost Value = { List Variables };

    ghost coded = { coded_list (named_code variable_code) };

    ghost view = { λ all. all.frames.items };
}

impl AllVariables {
    /// Those of one frame.
    pub(crate) fn of_one(
        alloc: Global,
        variables: NameMap<Variable>,
    ) -> Result<AllVariables, AllocError>
        ensures { IfOk result (λ all. all ≡ variables ∷ []) }
    {
        let mut frames = Vec::new(alloc);
        frames.push(PlacedNames::of_map(alloc, variables)?)?;
        Ok(AllVariables { frames })
    }

    /// Those of one frame more.
    pub(crate) fn push(&mut self, variables: PlacedNames<Variable>) -> Result<(), AllocError>
        ensures done { OnOk result (self.new ≡ self.old ++ variables ∷ []) }
        ensures same { OnErr result (self.new ≡ self.old) }
    {
        self.frames.push(variables)?;
        Ok(())
    }

    /// Those of one frame fewer.
    pub(crate) fn pop(&mut self)
        ensures { self.new ≡ take (length self.old - 1) self.old }
    {
        self.frames.pop();
    }

    /// Is there a variable of a name in a frame?
    pub(crate) fn has(&self, frame: usize, name: &str) -> bool
        requires { frame < length self.now }
        ensures { result ≡ is_some (map.get (variables_of self.now frame) (chars name.now)) }
    {
        self.frames[frame].get(name).is_some()
    }

    /// The text of a place.
    #[inline(always)]
    pub(crate) fn find(
        &self,
        frame: usize,
        name: &Sought<'_>,
        part: Part<'_>,
        missing: Refusal,
    ) -> Result<&Value, Refusal>
        requires { frame < length self.now }
        ensures found { IfOk result (λ value. get_part missing (variable_in self.now (spot frame name.now (part_of part.entry))) (part_of part.entry) ≡ Ok value.now) }
        ensures refused { IfErr result (λ refusal. get_part missing (variable_in self.now (spot frame name.now (part_of part.entry))) (part_of part.entry) ≡ Err refusal) }
    {
        find_in(&self.frames[frame], name, part, missing)
    }

    /// The elements of an array.
    pub(crate) fn array(&self, at: Place<'_>) -> Option<&HashedNames<Value>>
        requires { at.frame < length self.now }
        ensures { option_copied result ≡ whole_array (variable_in self.now (spot_of at.entry)) (spot_of at.entry).part }
    {
        array_in(&self.frames[at.frame], at.name, at.part)
    }

    /// Is there a variable or an element at a place?
    pub(crate) fn is_there(&self, at: Place<'_>) -> bool
        requires { at.frame < length self.now }
        ensures { result ≡ is_there (variable_in self.now (spot_of at.entry)) (spot_of at.entry).part }
    {
        is_there_in(&self.frames[at.frame], at.name, at.part)
    }

    /// Puts the names of a frame's variables into a set of names.
    pub(crate) fn add_names(
        &self,
        alloc: Global,
        frame: usize,
        names: &mut NameMap<()>,
    ) -> Result<(), AllocError>
        requires { frame < length self.now }
        ensures { OnOk result (names.new ≡ with_names names.old (names_of (variables_of self.now frame))) }
    {
        self.frames[frame].add_names(alloc, names)
    }

    /// Gives a place a text.
    #[inline(always)]
    pub(crate) fn put(
        &mut self,
        alloc: Global,
        frame: usize,
        name: &Sought<'_>,
        part: Part<'_>,
        value: Value,
    ) -> Result<(), VarFault>
        requires { frame < length self.old }
        ensures done { OnOk result (stored_at self.old (spot frame name.now (part_of part.entry)) (put_part (variable_in self.old (spot frame name.now (part_of part.entry))) (part_of part.entry) value) ≡ Ok self.new) }
        ensures refused { IfErr result (Refuses (put_part (variable_in self.old (spot frame name.now (part_of part.entry))) (part_of part.entry) value)) }
        ensures same { OnErr result (self.new ≡ self.old) }
    {
        let variables = &mut self.frames[frame];
        put_in(variables, alloc, name, part, value)
    }

    /// Changes the elements of the array at a place.
    pub(crate) fn edit(
        &mut self,
        alloc: Global,
        at: Place<'_>,
        edit: Edit<'_>,
    ) -> Result<(), VarFault>
        requires { at.frame < length self.old }
        ensures done { OnOk result (stored_at self.old (spot_of at.entry) (edit_part edit.entry (variable_in self.old (spot_of at.entry)) (spot_of at.entry).part) ≡ Ok self.new) }
        ensures refused { IfErr result (Refuses (edit_part edit.entry (variable_in self.old (spot_of at.entry)) (spot_of at.entry).part)) }
        ensures same { OnErr result (self.new ≡ self.old) }
        ensures count { length self.new ≡ length self.old }
    {
        edit_in(&mut self.frames[at.frame], alloc, at.name, at.part, edit)
    }

    /// Takes away what is at a place.
    pub(crate) fn remove(&mut self, at: Place<'_>, missing: Refusal) -> Result<(), Refusal>
        requires { at.frame < length self.old }
        ensures done { OnOk result (removed_at self.old (spot_of at.entry) (remove_part missing (variable_in self.old (spot_of at.entry)) (spot_of at.entry).part) ≡ Ok self.new) }
        ensures refused { IfErr result (λ refusal. remove_part missing (variable_in self.old (spot_of at.entry)) (spot_of at.entry).part ≡ Err refusal) }
        ensures same { OnErr result (self.new ≡ self.old) }
    {
        remove_in(&mut self.frames[at.frame], at.name, at.part, missing)
    }

    /// Lends the text of a place.
    #[inline(always)]
    pub(crate) fn place(
        &mut self,
        frame: usize,
        name: &Sought<'_>,
        part: Part<'_>,
        missing: Refusal,
    ) -> Result<&mut Value, Refusal>
        requires { frame < length self.old }
        ensures* writes_back { sem 𝓛 (LendsAt self.entry (spot frame name.entry.now (part_of part.entry)) result) }
        ensures found { IfOk result (λ value. get_part missing (variable_in self.old (spot frame name.now (part_of part.entry))) (part_of part.entry) ≡ Ok value.now) }
        ensures refused { IfErr result (λ refusal. get_part missing (variable_in self.old (spot frame name.now (part_of part.entry))) (part_of part.entry) ≡ Err refusal) }
    {
        let variables = &mut self.frames[frame];
        place_in(variables, name, part, missing)
    }
}
