//! Plain programs that compute what the definitions of `rpl_core` state: what a pattern means, and
//! what the machine does. These programs are slow but simple. The tests compare the real code with
//! these programs, which no command calls.
#![tactic(auto)]

mod evaluation;
mod forest;
mod machine;
mod outcome;

pub use evaluation::{Over, evaluate};
pub use forest::Forest;
pub use machine::{Answer, Caught, run};
pub use outcome::Outcome;
