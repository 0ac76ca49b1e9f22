// The head of a choice: the union of the heads of its parts.
ghost use Rattle.std.specs.Option.{option_copied};
ghost use Rattle.std.specs.Prelude.{◌≡◌, [], IfOk, None, OnOk, Some, if◌then◌else◌, option_map};
ghost use Rattle.rpl_classes.specs.Norm.{norm};
ghost use Rattle.rpl_core.specs.Head.{both_heads};

use crate::NoMemory;
use regex_class::ClassRange;
use rpl_classes::Set;
use std::alloc::Global;
use std::marker::Model;

/// The ranges of all heads added so far. In contracts, the value is `None` if heads are not wanted
/// or a part had no head.
#[derive(Drop)]
pub(crate) struct Heads {
    /// Whether heads are wanted and each part so far has a head.
    found: bool,
    ranges: Vec<ClassRange>,

    /// The number of ranges right after they were last brought into normal form.
    normal: usize,
}

impl Model for Heads {
    ghost use Rattle.std.specs.Prelude.{List, None, Option, Some, if◌then◌else◌};
    ghost use Rattle.regex_class.specs.Ranges.{Range};

    ghost Value = { Option (List Range) };

    ghost view = { λ h. if h.found then Some h.ranges.items else None };
}

impl Heads {
    /// Returns a `Heads` to which no part has been added. If `wanted` is false, the returned value
    /// collects no heads.
    pub(crate) fn new(alloc: Global, wanted: bool) -> Heads
        ensures { result ≡ (if wanted then Some [] else None) }
    {
        Heads {
            found: wanted,
            ranges: Vec::new(alloc),
            normal: 0,
        }
    }

    /// Adds the head of a part, or records that the part has none.
    pub(crate) fn add(&mut self, alloc: Global, head: Option<&Set>) -> Result<(), NoMemory>
        ensures { OnOk result (option_map norm self.new
            ≡ option_map norm (both_heads self.old (option_copied head.entry))) }
    {
        let Some(set) = head else {
            self.found = false;
            return Ok(());
        };
        if !self.found {
            return Ok(());
        }
        join(alloc, &mut self.ranges, &mut self.normal)?;
        self.ranges.extend_from_slice(set.ranges())?;
        Ok(())
    }

    /// Returns the head of the choice, if the choice has one.
    pub(crate) fn set(self, alloc: Global) -> Result<Option<Set>, NoMemory>
        ensures { IfOk result (λ h. h ≡ option_map norm self) }
    {
        if self.found {
            Ok(Some(Set::from_ranges(alloc, &self.ranges)?))
        } else {
            Ok(None)
        }
    }
}

/// Brings the ranges into normal form if there are at least 1,026 of them and their number has more
/// than doubled since they were last brought into normal form. So the memory taken by parts with
/// the same head stays bounded, however many such parts there are.
fn join(alloc: Global, ranges: &mut Vec<ClassRange>, normal: &mut usize) -> Result<(), NoMemory>
    ensures { OnOk result (norm ranges.new.items ≡ norm ranges.old.items) }
{
    if ranges.len() / 2 > (*normal).max(512) {
        let set = Set::from_ranges(alloc, ranges)?;
        ranges.clear();
        ranges.extend_from_slice(set.ranges())?;
        *normal = ranges.len();
    }
    Ok(())
}
