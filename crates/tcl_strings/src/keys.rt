//! Keys that are sought by their first characters: string(n), map.

ghost use Rattle.std.specs.Prelude.{◌≡◌, ◌<◌, ◌≤◌, ◌∷◌, [], true, false, length, drop, get_or, option_map, MatchOption, IfOk, IfSome, OnOk};
ghost use Rattle.std.specs.Str.{chars};
ghost use Rattle.tcl_chars.specs.Truth.{is_beginning};
ghost use Rattle.tcl_pages.specs.Dictionaries.{pairs};
ghost use Rattle.tcl_pages.specs.Strings as spec;
ghost use Rattle.tcl_strings.specs.Grouped.{Grouped, behind_others, group_of, pair_among, with_pair};
ghost use Rattle.tcl_strings.specs.Taken.{taken_by};
ghost use Rattle.tcl_values.specs.Kept.{texts};

use crate::search::behind_front;
use std::alloc::{AllocError, Global};
use std::marker::Model;
use tcl_chars::split_first;
use tcl_values::{Element, ElementText};

/// A list of keys and values makes one group if it has at most this number of elements.
const FEW: usize = 16;

/// The number of groups that the pairs of a longer list are put into.
const GROUPS: usize = 128;

/// A key that isn't empty, by its first character and what stands behind it, and its value.
#[derive(Clone, Copy, Drop)]
struct Pair<'a> {
    first: char,
    more: &'a str,
    value: &'a str,
}

impl<'a> Pair<'a> {
    /// What a text of a character and another text has left behind the key, if it begins with it.
    #[inline(always)]
    fn behind<'t>(&self, c: char, after: &'t str) -> Option<&'t str>
        ensures begins { MatchOption result (is_beginning (self.now.first ∷ chars self.now.more.now) (c ∷ chars after.now) ≡ false)
            (λ rest. is_beginning (self.now.first ∷ chars self.now.more.now) (c ∷ chars after.now) ≡ true) }
        ensures rest { IfSome result (λ rest. chars rest.now ≡ drop (length (chars self.now.more.now)) (chars after.now)) }
    {
        if self.first != c {
            return None;
        }
        behind_front(self.more, after)
    }
}

/// Some pairs of keys and values, in the order of their list.
#[derive(Drop)]
pub(crate) struct Group<'a> {
    pairs: Vec<Pair<'a>>,
}

impl<'a> Model for Group<'a> {
    ghost use Rattle.std.specs.Prelude.{List, ◌∷◌, ℕ, map};
    ghost use Rattle.std.specs.Str.{chars};

    ghost Value = { List (List ℕ × List ℕ) };

    ghost view = { λ g. map (λ p. (p.first ∷ chars p.more.now, chars p.value.now)) g.pairs.items };
}

impl<'a> Group<'a> {
    /// No pair, with room for some.
    fn with_capacity(alloc: Global, count: usize) -> Result<Group<'a>, AllocError>
        ensures { IfOk result (λ group. group ≡ []) }
    {
        Ok(Group {
            pairs: Vec::with_capacity(alloc, count)?,
        })
    }

    /// Another pair behind the others. One with an empty key is for no text.
    fn put(&mut self, key: &'a str, value: &'a str) -> Result<(), AllocError>
        ensures { OnOk result (self.new ≡ behind_others (chars key.now) (chars key.now, chars value.now) self.old) }
    {
        if let Some((first, more)) = split_first(key) {
            self.pairs.push(Pair { first, more, value })?;
        }
        Ok(())
    }

    /// The value of the first key that a text of a character and another text begins with, and what follows the key.
    fn first_pair<'t>(&self, c: char, after: &'t str) -> Option<(&'a str, &'t str)>
        ensures pair { option_map (λ p. (chars p.0.now, chars p.1.now)) result
            ≡ taken_by (spec.pair_for self.now (c ∷ chars after.now)) (c ∷ chars after.now) }
        ensures shorter { IfSome result (λ p. length (chars p.1.now) ≤ length (chars after.now)) }
    {
        let mut left = self.pairs.as_slice();
        while let [pair, more @ ..] = left {
            if let Some(rest) = pair.behind(c, after) {
                return Some((pair.value, rest));
            }
            left = more;
        }
        None
    }
}

/// Which of `count` groups has the keys with this first character.
fn place_of(c: char, count: usize) -> usize
    requires { 0 < count }
    ensures place { result ≡ group_of count c }
    ensures below { result < count }
{
    c as usize % count
}

/// `count` groups with no pair in them.
fn empty_groups<'a>(alloc: Global, count: usize) -> Result<Vec<Group<'a>>, AllocError>
    requires { 0 < count }
    ensures { IfOk result (λ groups. Grouped [] groups.items) }
{
    let mut groups = Vec::with_capacity(alloc, count)?;
    while groups.len() < count {
        groups.push(Group::with_capacity(alloc, 0)?)?;
    }
    Ok(groups)
}

/// A pair put into the group of its key's first character. A pair with an empty key is for no text.
fn put_pair<'a>(groups: &mut Vec<Group<'a>>, key: &'a str, value: &'a str) -> Result<(), AllocError>
    requires { 0 < length groups.old.items }
    ensures { OnOk result (groups.new.items ≡ with_pair (chars key.now, chars value.now) groups.old.items) }
{
    if let Some((c, _)) = split_first(key) {
        let place = place_of(c, groups.len());
        groups[place].put(key, value)?;
    }
    Ok(())
}

/// Keys and values in turn in one group, where they are few and each text stands ready. Nothing but the group is allocated.
pub(crate) fn group_of_few<'a>(
    alloc: Global,
    items: &'a [Element],
) -> Result<Option<Group<'a>>, AllocError>
    ensures { IfOk result (λ o. IfSome o (λ group. Grouped (pairs (texts items.now)) (group ∷ []))) }
{
    if items.len() > FEW {
        return Ok(None);
    }
    let mut group = Group::with_capacity(alloc, items.len() / 2)?;
    let mut left = items;
    while let [key, value, more @ ..] = left {
        let (Some(key), Some(value)) = (key.shown(), value.shown()) else {
            return Ok(None);
        };
        group.put(key, value)?;
        left = more;
    }
    Ok(Some(group))
}

/// Keys and values in turn, in groups by the first characters of the keys: one group where they are few.
pub(crate) fn grouped<'a>(
    alloc: Global,
    items: &'a [ElementText<'a>],
) -> Result<Vec<Group<'a>>, AllocError>
    ensures { IfOk result (λ groups. Grouped (pairs items.now) groups.items) }
{
    let count = if items.len() <= FEW { 1 } else { GROUPS };
    let mut groups = empty_groups(alloc, count)?;
    let mut left = items;
    while let [key, value, more @ ..] = left {
        put_pair(&mut groups, key.as_str(), value.as_str())?;
        left = more;
    }
    Ok(groups)
}

/// The group in which the keys with this first character are.
fn group_for<'g, 'a>(groups: &'g [Group<'a>], c: char) -> &'g Group<'a>
    requires { 0 < length groups.now }
    ensures { result.now ≡ get_or groups.now (group_of (length groups.now) c) [] }
{
    match groups {
        [only] => only,
        _ => &groups[place_of(c, groups.len())],
    }
}

/// The value of the first key that a text of a character and another text begins with, and what follows the key.
pub(crate) fn pair_in<'a, 't>(
    groups: &[Group<'a>],
    c: char,
    after: &'t str,
) -> Option<(&'a str, &'t str)>
    requires { 0 < length groups.now }
    ensures pair { option_map (λ p. (chars p.0.now, chars p.1.now)) result
        ≡ taken_by (pair_among groups.now (c ∷ chars after.now)) (c ∷ chars after.now) }
    ensures shorter { IfSome result (λ p. length (chars p.1.now) ≤ length (chars after.now)) }
{
    group_for(groups, c).first_pair(c, after)
}
