// The text of the set that was printed last.
ghost use Rattle.std.specs.Prelude.{◌≡◌, ◌++◌, IfOk, OnOk, string_bytes};
ghost use Rattle.rpl_print.specs.Sets.{set_text};

use rpl_classes::Set;
use rpl_core::NoMemory;
use rpl_print::push_set;
use std::alloc::Global;

/// The least number of ranges that a set must have for its text to be kept.
const LONG_SET: usize = 8;

/// The text of the long set that was printed last. If the next long set is the same, as it often
/// is, this text is copied.
#[derive(Drop)]
pub(crate) struct KeptSet {
    set: Set,
    text: String,
    ghost same: { string_bytes text ≡ set_text set },
}

/// Returns a set together with its text.
fn kept(alloc: Global, set: Set) -> Result<KeptSet, NoMemory>
    ensures { IfOk result (λ k. k.set ≡ set) }
{
    let mut text = String::new(alloc);
    push_set(&mut text, &set)?;
    Ok(KeptSet { set, text })
}

impl KeptSet {
    /// Returns the empty set together with its text.
    pub(crate) fn new(alloc: Global) -> Result<KeptSet, NoMemory> {
        kept(alloc, Set::from_ranges(alloc, &[])?)
    }

    /// Keeps the text of this set.
    fn hold(&mut self, alloc: Global, set: &Set) -> Result<(), NoMemory>
        ensures { OnOk result (self.new.set ≡ set.now) }
    {
        if self.set.same(set) {
            return Ok(());
        }
        *self = kept(alloc, set.copy(alloc)?)?;
        Ok(())
    }

    /// Appends the text of a set.
    pub(crate) fn push(&mut self, out: &mut String, set: &Set) -> Result<(), NoMemory>
        ensures { OnOk result (string_bytes out.new ≡ string_bytes out.old ++ set_text set.now) }
    {
        if set.ranges().len() < LONG_SET {
            return push_set(out, set);
        }
        self.hold(*out.allocator(), set)?;
        out.push_str(&self.text)?;
        Ok(())
    }
}
