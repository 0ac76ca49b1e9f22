//! Tests of the check, the compiler and the machine on thousands of generated patterns and texts.
//! The results must equal those of plain programs that evaluate the definitions directly. The cases
//! worked out by hand are in the tables that the built program is tested with (`tests/tables`). No
//! other crate depends on this one.
#![tactic(auto)]

#[cfg(test)]
mod tests;
