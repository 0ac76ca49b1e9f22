// The search for the shape of the stack at each address that a run can reach.
ghost use Rattle.std.specs.Prelude.{◌<◌, ◌≤◌, length};
ghost use Rattle.rpl_core.specs.Program.{code_of, instructions};
ghost use Rattle.rpl_safe.specs.inside.Marks.{Puts, PutsAll, Searched, given_of};

use crate::marks::{Mark, Next, mark_at};
use crate::steps::goes_on;
use rpl_core::{NoMemory, Program};
use std::alloc::Global;

/// The marks found so far, and the addresses not visited yet.
#[derive(Drop)]
struct MarkSearch {
    marks: Vec<Option<Mark>>,
    waiting: Vec<u32>,
}

impl MarkSearch {
    /// Marks `address` with `mark`. Returns `false` if the address already has a different mark or
    /// doesn't exist.
    fn put(&mut self, address: u32, mark: Mark) -> Result<bool, NoMemory>
        ensures { Puts address mark self.old self.new result }
    {
        let place = address as usize;
        if place >= self.marks.len() {
            return Ok(false);
        }
        match self.marks[place] {
            Some(old) => Ok(old.is(mark)),
            None => {
                self.waiting.push(address)?;
                self.marks[place] = Some(mark);
                Ok(true)
            }
        }
    }

    /// Marks the addresses where a run continues. If there are two addresses, the second is marked
    /// first, since the list of entries at the first can depend on the second. Returns `false` if
    /// an address can't be marked.
    fn put_all(&mut self, next: Next) -> Result<bool, NoMemory>
        ensures { PutsAll (given_of next) self.old self.new result }
    {
        match next {
            Next::Lacks => Ok(false),
            Next::Nowhere => Ok(true),
            Next::To(address, mark) => self.put(address, mark),
            Next::ToBoth(address, mark, other, other_mark) => {
                if !self.put(other, other_mark)? {
                    return Ok(false);
                }
                self.put(address, mark)
            }
        }
    }
}

/// Returns the mark of each address in the program that a run can reach. Returns `None` if an
/// address has no instruction or has two shapes, or if an instruction lacks what it needs; in each
/// of these cases, the code isn't safe. Each address is visited once.
pub(crate) fn find_marks(
    alloc: Global,
    program: &Program,
) -> Result<Option<Vec<Option<Mark>>>, NoMemory>
    requires some { 0 < length (code_of program.now) }
    requires limit { length (code_of program.now) ≤ 1048576 }
    ensures { Searched (instructions program.now) result }
{
    let code = program.code();
    let mut search = MarkSearch {
        marks: vec![in alloc; None; code.len()]?,
        waiting: Vec::new(alloc),
    };
    search.put(0, Mark::fresh(0))?;
    while let Some(address) = search.waiting.pop() {
        if let Some(instr) = code.get(address as usize) {
            if let Some(mark) = mark_at(&search.marks, address) {
                let next = goes_on(&search.marks, *instr, address, mark);
                if !search.put_all(next)? {
                    return Ok(None);
                }
            }
        }
    }
    let MarkSearch { marks, .. } = search;
    Ok(Some(marks))
}
