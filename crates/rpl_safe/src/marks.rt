// The shape of the stack at each address, stored as numbers.
ghost use Rattle.std.specs.Prelude.{◌≡◌, ◌↔◌, IsTrue};
ghost use Rattle.rpl_safe.specs.inside.Marks.{is_done_mark, last_of, marks_at};

/// The shape of the stack at an address: the frame, the last entry in the frame, and the number of
/// open trees. An entry is stored as the address where the run resumes after a failure, and the
/// shape at that address is the shape of the stack below the entry. The address of the last entry
/// therefore represents the whole list of entries, and equal lists are represented by the same
/// address.
#[derive(Clone, Copy)]
pub(crate) struct Mark {
    pub(crate) frame: u32,
    pub(crate) last: Option<u32>,
    pub(crate) trees: u32,
}

/// The addresses where a run continues after an instruction, and the shape at each.
#[derive(Clone, Copy)]
pub(crate) enum Next {
    /// The instruction lacks what it needs, such as an entry or an open tree.
    Lacks,
    /// The run continues at no address known here: it fails, returns from a call, or ends.
    Nowhere,
    To(u32, Mark),
    ToBoth(u32, Mark, u32, Mark),
}

fn is_same(a: Option<u32>, b: Option<u32>) -> bool
    ensures { IsTrue result ↔ (a ≡ b) }
{
    match (a, b) {
        (None, None) => true,
        (Some(x), Some(y)) => x == y,
        _ => false,
    }
}

impl Mark {
    /// Returns the mark at the start of a frame, where the frame has no entry and no open tree.
    pub(crate) fn fresh(frame: u32) -> Mark
        ensures { result ≡ record { frame = frame; last = None; trees = 0 } }
    {
        Mark {
            frame,
            last: None,
            trees: 0,
        }
    }

    /// Returns the mark with its last entry replaced by `last`.
    pub(crate) fn with_last(self, last: Option<u32>) -> Mark
        ensures { result ≡ record self { last = last } }
    {
        Mark { last, ..self }
    }

    /// Returns the mark with its number of open trees replaced by `trees`.
    pub(crate) fn with_trees(self, trees: u32) -> Mark
        ensures { result ≡ record self { trees = trees } }
    {
        Mark { trees, ..self }
    }

    /// Returns whether both marks describe the same shape.
    pub(crate) fn is(self, other: Mark) -> bool
        ensures { IsTrue result ↔ (self ≡ other) }
    {
        self.frame == other.frame && self.trees == other.trees && is_same(self.last, other.last)
    }

    /// Returns whether the frame has no entry left and no tree is open.
    pub(crate) fn is_done(self) -> bool
        ensures { result ≡ is_done_mark self }
    {
        self.trees == 0 && self.last.is_none()
    }
}

/// Returns the mark of an address, if the address has one.
pub(crate) fn mark_at(marks: &[Option<Mark>], address: u32) -> Option<Mark>
    ensures { result ≡ marks_at marks.now address }
{
    match marks.get(address as usize) {
        Some(mark) => *mark,
        None => None,
    }
}

/// Returns the mark of the last entry's address: the shape without that entry, and the number of
/// trees open when the entry was pushed.
pub(crate) fn last_mark(marks: &[Option<Mark>], last: Option<u32>) -> Option<Mark>
    ensures { result ≡ last_of (marks_at marks.now) last }
{
    match last {
        Some(address) => mark_at(marks, address),
        None => None,
    }
}
