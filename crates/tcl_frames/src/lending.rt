//! Texts of variables that are lent, to be changed where they stand.
ghost use Rattle.std.specs.Prelude.{◌≡◌, ◌<◌, length, Ok, Err, IfOk, IfErr, IfSome};
ghost use Rattle.std.specs.Borrow.{sem};
ghost use Rattle.std.specs.Str.{chars};
ghost use Rattle.tcl_meaning.specs.Frames.{whole};
ghost use Rattle.tcl_meaning.specs.State.{Commands};
ghost use Rattle.tcl_meaning.specs.Variables.{get, get_part, missing as missing_by, variable_at, spot_of as place_named};
ghost use Rattle.tcl_meaning.specs.Names.{divided_name};
ghost use Rattle.tcl_frames.specs.FramesLent.{LendsPlace, LendsSpot};
ghost use Rattle.tcl_frames.specs.Parts.{name_of, part_of};
ghost use Rattle.tcl_frames.specs.Places.{spot, spot_of};
ghost use Rattle.tcl_frames.specs.Refusals.{Refuses};
ghost use Rattle.tcl_frames.specs.Standing.{store_of};

use crate::fault::VarFault;
use crate::frames::{Frames, home, own_frame, place_of};
use crate::name::{Name, Part, divide};
use crate::place::{Link, Place};
use std::alloc::{AllocError, Global};
use tcl_meaning::Refusal;
use tcl_names::{Hint, Sought};
use tcl_values::Value;

impl Frames {
    /// Lends the text of a variable or of an element, to be changed where it stands: append(n), lappend(n).
    pub fn place(&mut self, alloc: Global, name: &str) -> Result<&mut Value, VarFault>
        ensures* writes_back { sem 𝓛 (LendsPlace self.entry (chars name.entry.now) result) }
        ensures found { (cs : Commands) → IfOk result (λ value. get (store_of cs self.old) (chars name.now) ≡ Ok value.now) }
        ensures refused { (cs : Commands) → IfErr result (Refuses (get (store_of cs self.old) (chars name.now))) }
    {
        self.place_afar(alloc, name, &Hint::new())
    }

    /// The same as `place`: quick where it stands where it was found last, and above all where the name has a key.
    #[inline(always)]
    pub fn place_near(&mut self, alloc: Global, name: &Sought<'_>) -> Result<&mut Value, VarFault>
        ensures* writes_back { sem 𝓛 (LendsPlace self.entry name.entry.now result) }
        ensures found { (cs : Commands) → IfOk result (λ value. get (store_of cs self.old) name.now ≡ Ok value.now) }
        ensures refused { (cs : Commands) → IfErr result (Refuses (get (store_of cs self.old) name.now)) }
    {
        match self.frame_of(name) {
            Some(frame) => match self.place_at(frame, name, Part::Whole, Refusal::NoSuch) {
                Ok(value) => Ok(value),
                Err(refusal) => Err(VarFault::Refused(refusal)),
            },
            None => self.place_afar(alloc, name.as_str(), name.hint()),
        }
    }

    // The active frame, where it is the one in which the variable of a name stands: none of its names is a link.
    #[inline(always)]
    fn frame_of(&self, name: &Sought<'_>) -> Option<usize>
        ensures leads { (cs : Commands) → IfSome result (λ frame. spot frame name.now whole ≡ place_named (store_of cs self.now) (divided_name name.now)) }
        ensures there { IfSome result (λ frame. frame < length self.now.frames) }
        ensures whole { IfSome result (λ frame. (divided_name name.now).part ≡ whole) }
    {
        own_frame(&self.stack, name)
    }

    // The same as `place`. The name is divided, and links are followed.
    #[inline(never)]
    fn place_afar(&mut self, alloc: Global, name: &str, hint: &Hint) -> Result<&mut Value, VarFault>
        ensures* writes_back { sem 𝓛 (LendsPlace self.entry (chars name.entry.now) result) }
        ensures found { (cs : Commands) → IfOk result (λ value. get (store_of cs self.old) (chars name.now) ≡ Ok value.now) }
        ensures refused { (cs : Commands) → IfErr result (Refuses (get (store_of cs self.old) (chars name.now))) }
    {
        let divided = divide(name);
        let missing = divided.part.missing();
        match self.own_place(divided) {
            Some(at) => {
                let base = Sought::unkeyed(at.name, hint);
                match self.place_at(at.frame, &base, at.part, missing) {
                    Ok(value) => Ok(value),
                    Err(refusal) => Err(VarFault::Refused(refusal)),
                }
            }
            None => self.place_linked(alloc, name, hint, missing),
        }
    }

    // The place that a divided name is itself, where it is no link.
    fn own_place<'a>(&self, name: Name<'a>) -> Option<Place<'a>>
        ensures leads { (cs : Commands) → IfSome result (λ at. spot_of at ≡ place_named (store_of cs self.now) (name_of name.entry)) }
        ensures there { IfSome result (λ at. at.frame < length self.now.frames) }
    {
        let frame = home(self.stack.active(), name.global);
        if self.stack.is_link(frame, name.base) {
            return None;
        }
        Some(Place {
            frame,
            name: name.base,
            part: name.part,
        })
    }

    // The same as `place`. The place to which the name leads is copied.
    fn place_linked(
        &mut self,
        alloc: Global,
        name: &str,
        hint: &Hint,
        missing: Refusal,
    ) -> Result<&mut Value, VarFault>
        requires { missing ≡ missing_by (divided_name (chars name.now)).part }
        ensures* writes_back { sem 𝓛 (LendsPlace self.entry (chars name.entry.now) result) }
        ensures found { (cs : Commands) → IfOk result (λ value. get (store_of cs self.old) (chars name.now) ≡ Ok value.now) }
        ensures refused { (cs : Commands) → IfErr result (Refuses (get (store_of cs self.old) (chars name.now))) }
    {
        let Ok(target) = self.target(alloc, name) else {
            return Err(VarFault::Memory);
        };
        let at = target.as_place();
        let base = Sought::unkeyed(at.name, hint);
        match self.place_at(at.frame, &base, at.part, missing) {
            Ok(value) => Ok(value),
            Err(refusal) => Err(VarFault::Refused(refusal)),
        }
    }

    // The place to which a name leads.
    fn target(&self, alloc: Global, name: &str) -> Result<Link, AllocError>
        ensures leads { (cs : Commands) → IfOk result (λ target. target ≡ place_named (store_of cs self.now) (divided_name (chars name.now))) }
        ensures there { IfOk result (λ target. target.frame < length self.now.frames) }
    {
        Link::to(alloc, place_of(&self.stack, name))
    }

    // Lends the text of a part of a variable of a frame.
    #[inline(always)]
    fn place_at(
        &mut self,
        frame: usize,
        name: &Sought<'_>,
        part: Part<'_>,
        missing: Refusal,
    ) -> Result<&mut Value, Refusal>
        requires { frame < length self.old.frames }
        ensures* writes_back { sem 𝓛 (LendsSpot self.entry (spot frame name.entry.now (part_of part.entry)) result) }
        ensures found { (cs : Commands) → IfOk result (λ value. get_part missing (variable_at (store_of cs self.old) (spot frame name.now (part_of part.entry))) (part_of part.entry) ≡ Ok value.now) }
        ensures refused { (cs : Commands) → IfErr result (λ refusal. get_part missing (variable_at (store_of cs self.old) (spot frame name.now (part_of part.entry))) (part_of part.entry) ≡ Err refusal) }
    {
        self.variables.place(frame, name, part, missing)
    }
}
