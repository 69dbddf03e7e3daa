//! All frames of a script.
ghost use Rattle.std.specs.Prelude.{◌≡◌, true, ◌<◌, ◌≤◌, if◌then◌else◌, length, take, ◌++◌, ◌∷◌, [], None, Some, Ok, Err, IfOk, IfErr, IfSome, OnOk, OnErr};
ghost use Rattle.std.specs.FinMap as map;
ghost use Rattle.std.specs.Str.{chars};
ghost use Rattle.tcl_meaning.specs.Frames.{global_frame, whole};
ghost use Rattle.tcl_meaning.specs.Links.{destination, link_at, links_of, spot_in};
ghost use Rattle.tcl_meaning.specs.Names.{divided_name};
ghost use Rattle.tcl_frames.specs.Parts.{name_of, plain_name};
ghost use Rattle.tcl_frames.specs.Places.{spot, spot_of};
ghost use Rattle.tcl_meaning.specs.State.{Commands};
ghost use Rattle.tcl_meaning.specs.Variables.{get, put_change, remove_change};
ghost use Rattle.tcl_frames.specs.Standing.{store_of, applied};
ghost use Rattle.std.specs.Option.{option_copied};
ghost use Rattle.tcl_meaning.specs.Arrays.{array_of};
ghost use Rattle.tcl_frames.specs.Refusals.{Refuses};

use crate::all_variables::AllVariables;
use crate::fault::VarFault;
use crate::name::{Name, Part, divide, is_plain};
use crate::place::Place;
use crate::stack::Stack;
use crate::variable::Variable;
use std::alloc::{AllocError, Global};
use std::marker::Model;
use tcl_meaning::Refusal;
use tcl_names::{HashedNames, Hint, NameMap, Sought};
use tcl_values::Value;

/// The frames of a script, the global one first, and the active one, whose names the script means.
pub struct Frames {
    pub(crate) stack: Stack,
    pub(crate) variables: AllVariables,
}

impl Drop for Frames {
    #[inline(always)]
    fn drop(self) {
        let Frames { stack, variables } = self;
        drop(stack);
        drop(variables);
    }
}

impl Model for Frames {
    ghost use Rattle.tcl_frames.specs.Standing.{Standing};
    ghost use Rattle.tcl_frames.specs.Coding.{standing_code};

    ghost Value = { Standing };

    ghost coded = { standing_code };

    ghost use Rattle.tcl_frames.specs.FramesShape.{all_of, IsEven};

    ghost view = { all_of };

    ghost invariant = { IsEven };
}

impl Frames {
    /// The global frame alone, with these variables.
    pub fn new(alloc: Global, globals: NameMap<Variable>) -> Result<Frames, AllocError>
        ensures frames { IfOk result (λ f. f.frames ≡ global_frame globals ∷ []) }
        ensures active { IfOk result (λ f. f.active ≡ 0) }
    {
        let stack = Stack::new(alloc)?;
        let variables = AllVariables::of_one(alloc, globals)?;
        Ok(Frames { stack, variables })
    }

    /// The text of a variable or of an element: set(n).
    pub fn find(&self, name: &str) -> Result<&Value, Refusal>
        ensures found { (cs : Commands) → IfOk result (λ value. get (store_of cs self.now) (chars name.now) ≡ Ok value.now) }
        ensures refused { (cs : Commands) → IfErr result (λ refusal. get (store_of cs self.now) (chars name.now) ≡ Err refusal) }
    {
        self.find_afar(name, &Hint::new())
    }

    /// The same as `find`: quick where it stands where it was found last, and above all where the name has a key.
    #[inline(always)]
    pub fn find_near(&self, name: &Sought<'_>) -> Result<&Value, Refusal>
        ensures found { (cs : Commands) → IfOk result (λ value. get (store_of cs self.now) name.now ≡ Ok value.now) }
        ensures refused { (cs : Commands) → IfErr result (λ refusal. get (store_of cs self.now) name.now ≡ Err refusal) }
    {
        if let Some(frame) = own_frame(&self.stack, name) {
            return self
                .variables
                .find(frame, name, Part::Whole, Refusal::NoSuch);
        }
        self.find_afar(name.as_str(), name.hint())
    }

    // The same. The name is divided, and links are followed.
    #[inline(never)]
    fn find_afar(&self, name: &str, hint: &Hint) -> Result<&Value, Refusal>
        ensures found { (cs : Commands) → IfOk result (λ value. get (store_of cs self.now) (chars name.now) ≡ Ok value.now) }
        ensures refused { (cs : Commands) → IfErr result (λ refusal. get (store_of cs self.now) (chars name.now) ≡ Err refusal) }
    {
        let name = divide(name);
        let at = place_divided(&self.stack, name);
        let base = Sought::unkeyed(at.name, hint);
        self.variables
            .find(at.frame, &base, at.part, name.part.missing())
    }
}

impl Frames {
    /// A copy of the text of a variable or of an element, which shares what is kept: set(n).
    pub fn get(&self, name: &str) -> Result<Value, VarFault>
        ensures found { (cs : Commands) → IfOk result (λ value. get (store_of cs self.now) (chars name.now) ≡ Ok value) }
        ensures refused { (cs : Commands) → IfErr result (Refuses (get (store_of cs self.now) (chars name.now))) }
    {
        match self.find(name) {
            Ok(value) => Ok(value.copy()?),
            Err(refusal) => Err(VarFault::Refused(refusal)),
        }
    }

    /// The elements of an array: array(n). None where the name is no array's.
    pub fn array(&self, name: &str) -> Option<&HashedNames<Value>>
        ensures { (cs : Commands) → option_copied result ≡ array_of (store_of cs self.now) (chars name.now) }
    {
        let at = place_of(&self.stack, name);
        self.variables.array(at)
    }

    /// Puts a text under the name of a variable or an element, which is made where it is missing: set(n).
    pub fn put(&mut self, alloc: Global, name: &str, value: Value) -> Result<(), VarFault>
        ensures done { (cs : Commands) → OnOk result (applied (put_change (store_of cs self.old) (chars name.now) value) (store_of cs self.old) ≡ Ok (store_of cs self.new)) }
        ensures refused { (cs : Commands) → IfErr result (Refuses (put_change (store_of cs self.old) (chars name.now) value)) }
        ensures same { OnErr result (self.new ≡ self.old) }
    {
        self.put_afar(alloc, name, &Hint::new(), value)
    }

    /// The same as `put`: quick where it stands where it was found last, and above all where the name has a key.
    #[inline(always)]
    pub fn put_near(
        &mut self,
        alloc: Global,
        name: &Sought<'_>,
        value: Value,
    ) -> Result<(), VarFault>
        ensures done { (cs : Commands) → OnOk result (applied (put_change (store_of cs self.old) name.now value) (store_of cs self.old) ≡ Ok (store_of cs self.new)) }
        ensures refused { (cs : Commands) → IfErr result (Refuses (put_change (store_of cs self.old) name.now value)) }
        ensures same { OnErr result (self.new ≡ self.old) }
    {
        if let Some(frame) = own_frame(&self.stack, name) {
            return self.variables.put(alloc, frame, name, Part::Whole, value);
        }
        self.put_afar(alloc, name.as_str(), name.hint(), value)
    }

    // The same. The name is divided, and links are followed.
    #[inline(never)]
    fn put_afar(
        &mut self,
        alloc: Global,
        name: &str,
        hint: &Hint,
        value: Value,
    ) -> Result<(), VarFault>
        ensures done { (cs : Commands) → OnOk result (applied (put_change (store_of cs self.old) (chars name.now) value) (store_of cs self.old) ≡ Ok (store_of cs self.new)) }
        ensures refused { (cs : Commands) → IfErr result (Refuses (put_change (store_of cs self.old) (chars name.now) value)) }
        ensures same { OnErr result (self.new ≡ self.old) }
    {
        let at = place_of(&self.stack, name);
        let base = Sought::unkeyed(at.name, hint);
        self.variables.put(alloc, at.frame, &base, at.part, value)
    }

    /// Takes a variable or an element away: unset(n). A link stays.
    pub fn unset(&mut self, name: &str) -> Result<(), Refusal>
        ensures done { (cs : Commands) → OnOk result (applied (remove_change (store_of cs self.old) (chars name.now)) (store_of cs self.old) ≡ Ok (store_of cs self.new)) }
        ensures refused { (cs : Commands) → IfErr result (λ refusal. remove_change (store_of cs self.old) (chars name.now) ≡ Err refusal) }
        ensures same { OnErr result (self.new ≡ self.old) }
    {
        let name = divide(name);
        let at = place_divided(&self.stack, name);
        self.variables.remove(at, name.part.missing())
    }
}

/// Is a name a variable's as a whole, and written without its frame? Its key tells, or else its bytes.
#[inline(always)]
pub(crate) fn is_whole(name: &Sought<'_>) -> bool
    ensures { result ≡ true → divided_name name.now ≡ plain_name name.now }
{
    if name.is_keyed() {
        return true;
    }
    is_plain(name.as_str())
}

// The active frame, where it is the one in which the variable of a name stands: none of its names is a link.
#[inline(always)]
pub(crate) fn own_frame(stack: &Stack, name: &Sought<'_>) -> Option<usize>
    ensures leads { IfSome result (λ frame. spot frame name.now whole ≡ spot_in stack.now.frames stack.now.active (divided_name name.now)) }
    ensures there { IfSome result (λ frame. frame < length stack.now.frames) }
    ensures whole { IfSome result (λ frame. (divided_name name.now).part ≡ whole) }
{
    if is_whole(name) && stack.has_no_link() {
        return Some(stack.active());
    }
    None
}

/// The frame in which a name is looked for that is written in a frame.
#[inline(always)]
pub(crate) fn home(frame: usize, global: bool) -> usize
    ensures home { result ≡ (if global then 0 else frame) }
    ensures earlier { result ≤ frame }
{
    if global { 0 } else { frame }
}

// The place to which a divided name leads that is written in a frame.
#[inline(always)]
fn follow_name<'a>(stack: &'a Stack, frame: usize, name: Name<'a>) -> Place<'a>
    ensures leads { spot_of result ≡ spot_in stack.now.frames frame (name_of name.entry) }
    ensures earlier { result.frame ≤ frame }
    ensures free { link_at (links_of stack.now.frames) result.frame (chars result.name.now) ≡ None }
{
    stack.follow(home(frame, name.global), name.base, name.part)
}

/// The place to which a name leads that is written in a frame.
#[inline(always)]
pub(crate) fn place_in<'a>(stack: &'a Stack, frame: usize, name: &'a str) -> Place<'a>
    ensures leads { spot_of result ≡ spot_in stack.now.frames frame (divided_name (chars name.now)) }
    ensures earlier { result.frame ≤ frame }
    ensures free { link_at (links_of stack.now.frames) result.frame (chars result.name.now) ≡ None }
{
    follow_name(stack, frame, divide(name))
}

/// The place to which a name of the active frame leads that is not divided.
pub(crate) fn place_here<'a>(stack: &'a Stack, name: &'a str) -> Place<'a>
    ensures leads { spot_of result ≡ destination stack.now.frames (spot stack.now.active (chars name.now) whole) }
    ensures there { result.frame < length stack.now.frames }
{
    stack.follow(stack.active(), name, Part::Whole)
}

/// The place to which a divided name leads that the active frame's scripts write.
#[inline(always)]
pub(crate) fn place_divided<'a>(stack: &'a Stack, name: Name<'a>) -> Place<'a>
    ensures leads { spot_of result ≡ spot_in stack.now.frames stack.now.active (name_of name.entry) }
    ensures there { result.frame < length stack.now.frames }
{
    follow_name(stack, stack.active(), name)
}

/// The place to which a name leads that the active frame's scripts write.
#[inline(always)]
pub(crate) fn place_of<'a>(stack: &'a Stack, name: &'a str) -> Place<'a>
    ensures leads { spot_of result ≡ spot_in stack.now.frames stack.now.active (divided_name (chars name.now)) }
    ensures there { result.frame < length stack.now.frames }
    ensures free { link_at (links_of stack.now.frames) result.frame (chars result.name.now) ≡ None }
{
    place_in(stack, stack.active(), name)
}
