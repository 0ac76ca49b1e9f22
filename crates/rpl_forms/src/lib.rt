//! Builds the core of each form of expression from the cores of its parts, and computes the size
//! that this core would have.
//!
//! The expansion walks an expression twice: once with `count` and, if nothing is too large, once
//! with `make`. Both modules have one function for each form. Both modules also work inside a
//! look-behind, where captures and messages are dropped and calls are replaced by the bodies of
//! earlier rules (`inner`). Counts saturate at one above their limits. The sets of the last few
//! classes are kept and shared (`ClassSets`). The only possible error is that memory runs out.
#![tactic(auto)]

mod class_sets;
pub mod count;
pub mod inner;
pub mod make;
mod size;

pub use class_sets::ClassSets;
pub use rpl_text::NoMemory;
pub use size::{Count, HALT, Inner, MAX_DEPTH, MAX_SIZE};
