//! Links between variables.
ghost use Rattle.std.specs.Prelude.{◌≡◌, ◌≤◌, false, None, Some, OnOk, OnErr, IfOk, IfErr};
ghost use Rattle.std.specs.Str.{chars};
ghost use Rattle.tcl_meaning.specs.Links.{link, link_at, links_of, is_own, is_variable};
ghost use Rattle.std.specs.FinMap as map;
ghost use Rattle.tcl_meaning.specs.State.{Commands, with_link};
ghost use Rattle.tcl_frames.specs.Levels.{level_of};
ghost use Rattle.tcl_frames.specs.Refusals.{RefusesLink};
ghost use Rattle.tcl_frames.specs.Standing.{store_of};

use crate::fault::LinkFault;
use crate::frames::{Frames, place_in};
use crate::level::Level;
use crate::name::is_compound;
use crate::place::Link;
use std::alloc::Global;
use tcl_meaning::LinkRefusal;

impl Frames {
    /// Makes a name of the active frame a link to what another name means at a level: upvar(n), global(n).
    pub fn link(
        &mut self,
        alloc: Global,
        level: Level,
        other: &str,
        local: &str,
    ) -> Result<(), LinkFault>
        ensures done { (cs : Commands) → OnOk result (link (store_of cs self.old) (level_of level) (chars other.now) (chars local.now) ≡ (None, store_of cs self.new)) }
        ensures refused { (cs : Commands) → IfErr result (RefusesLink (link (store_of cs self.old) (level_of level) (chars other.now) (chars local.now)).0) }
        ensures same { OnErr result (self.new ≡ self.old) }
    {
        let target = match self.link_target(alloc, level, other, local) {
            Ok(target) => target,
            Err(fault) => return Err(fault),
        };
        self.stack.set_link(alloc, local, target)?;
        Ok(())
    }

    // The place to which the name is to be linked.
    fn link_target(
        &self,
        alloc: Global,
        level: Level,
        other: &str,
        local: &str,
    ) -> Result<Link, LinkFault>
        ensures found { (cs : Commands) → IfOk result (λ target. link (store_of cs self.now) (level_of level) (chars other.now) (chars local.now) ≡ (None, with_link (chars local.now) target (store_of cs self.now))) }
        ensures refused { (cs : Commands) → IfErr result (RefusesLink (link (store_of cs self.now) (level_of level) (chars other.now) (chars local.now)).0) }
        ensures earlier { IfOk result (λ target. target.frame ≤ self.now.active) }
        ensures free { IfOk result (λ target. link_at (links_of self.now.frames) target.frame target.name ≡ None) }
        ensures apart { IfOk result (λ target. is_own (store_of map.empty self.now) (chars local.now) target ≡ false) }
    {
        let Some(frame) = self.stack.frame_of(level) else {
            return Err(LinkFault::Refused(LinkRefusal::BadLevel));
        };
        if is_compound(local) {
            return Err(LinkFault::Refused(LinkRefusal::BadName));
        }
        let target = place_in(&self.stack, frame, other);
        if target.is_at(self.stack.active(), local) {
            return Err(LinkFault::Refused(LinkRefusal::Itself));
        }
        if self.is_variable(local) {
            return Err(LinkFault::Refused(LinkRefusal::Exists));
        }
        Ok(Link::to(alloc, target)?)
    }

    // Is a name of the active frame a variable, and no link?
    fn is_variable(&self, name: &str) -> bool
        ensures { (cs : Commands) → result ≡ is_variable (store_of cs self.now) (chars name.now) }
    {
        let active = self.stack.active();
        !self.stack.is_link(active, name) && self.variables.has(active, name)
    }
}
