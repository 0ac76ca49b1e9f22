//! The compiler. It turns a goal, and the rules that the goal reaches, into the code that the
//! machine runs.
//!
//! `compile` takes a goal that has passed `rpl_check`. It returns exactly the code that `rpl_core`
//! defines, with each set and each text stored once, or reports that this code is too long. Its
//! contract states that, on every text, the code does what the goal means. The size of every part
//! is known before anything is written. So each jump is written with its final target, and code
//! that is too long is refused before any of it is built.
#![tactic(auto)]

mod compiling;
mod head;
mod heads;
mod layout;
mod next;
mod size;
mod starts;
mod whole;
mod writing;

pub use compiling::compile;
pub use rpl_core::NoMemory;
pub use whole::CompileFault;
