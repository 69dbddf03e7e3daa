//! Places for texts, and links that lead to them.
ghost use Rattle.std.specs.Prelude.{◌≡◌, nat_eq, ◌&&◌, IfOk};
ghost use Rattle.tcl_chars.specs.Texts.{same_text};
ghost use Rattle.std.specs.Str.{chars, IsUtf8};
ghost use Rattle.tcl_meaning.specs.Links.{through};
ghost use Rattle.tcl_frames.specs.Parts.{part_of};
ghost use Rattle.tcl_frames.specs.Places.{spot_of};

use crate::name::Part;
use std::alloc::{AllocError, Global};
use std::marker::Model;
use std::rc::RcStr;
use tcl_chars::is_text;

/// A frame, a name in it, and which part of the variable is meant.
#[derive(Clone, Copy, Debug)]
pub(crate) struct Place<'a> {
    pub(crate) frame: usize,
    pub(crate) name: &'a str,
    pub(crate) part: Part<'a>,
}

impl Place<'_> {
    /// Is it a name of a frame, or a part of it?
    pub(crate) fn is_at(&self, frame: usize, name: &str) -> bool
        ensures { result ≡ (nat_eq self.now.frame frame && same_text (chars self.now.name.now) (chars name.now)) }
    {
        self.frame == frame && is_text(self.name, name)
    }
}

// The part that a link means.
#[derive(Drop)]
enum Kept {
    Whole,
    Element(RcStr),
    Deeper,
}

/// The place that a name is linked to.
pub(crate) struct Link {
    frame: usize,
    name: RcStr,
    part: Kept,
}

impl Drop for Link {
    #[inline(always)]
    fn drop(self) {
        let Link {
            frame: _,
            name,
            part,
        } = self;
        drop(name);
        drop(part);
    }
}

impl Model for Link {
    ghost use Rattle.tcl_meaning.specs.Frames.{Spot};
    ghost use Rattle.tcl_frames.specs.Coding.{spot_code};

    ghost Value = { Spot };

    ghost coded = { spot_code };

    ghost use Rattle.tcl_frames.specs.Places.{link_spot};

    ghost view = { link_spot };
}

impl Link {
    /// A link to a place.
    pub(crate) fn to(alloc: Global, place: Place<'_>) -> Result<Link, AllocError>
        ensures { IfOk result (λ link. link ≡ spot_of place.entry) }
    {
        let part = match place.part {
            Part::Whole => Kept::Whole,
            Part::Element(index) => Kept::Element(RcStr::from_str(alloc, index)?),
            Part::Deeper => Kept::Deeper,
        };
        Ok(Link {
            frame: place.frame,
            name: RcStr::from_str(alloc, place.name)?,
            part,
        })
    }

    /// The place.
    pub(crate) fn as_place(&self) -> Place<'_>
        ensures { spot_of result ≡ self.now }
    {
        self.through(Part::Whole)
    }

    /// Where a part of the name leads that is this link.
    pub(crate) fn through<'a>(&'a self, part: Part<'a>) -> Place<'a>
        ensures leads { spot_of result ≡ through self.now (part_of part.entry) }
        ensures utf8 { IsUtf8 result.name.now }
    {
        let part = match (&self.part, part) {
            (Kept::Whole, part) => part,
            (Kept::Element(kept), Part::Whole) => Part::Element(kept.as_str()),
            (_, _) => Part::Deeper,
        };
        Place {
            frame: self.frame,
            name: self.name.as_str(),
            part,
        }
    }
}
