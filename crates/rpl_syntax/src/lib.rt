//! The syntax of RPL: tokens with their values, expressions, modules, the grammar, and printing.
//!
//! The parser builds expressions and modules from tokens; every later stage walks over them. The
//! grammar (`specs/Grammar.antt`) is a relation with one case for each of its lines. The laws state
//! that no sequence of tokens spells two different expressions, and that the printed text of an
//! expression that can be written is read back as that expression, apart from the braces that
//! printing adds (`specs/Texts.antt`). The only failure is running out of memory.
#![tactic(auto)]

mod build;
mod expr;
mod laws;
mod module;
mod name;
mod print;
mod printer;
mod token;

pub use build::{choose, join, wrap};
pub use expr::{Expr, Exprs, Mark, Sign};
pub use laws::{
    one_reading, printed_reads_as_itself, printed_reads_back, prints_tree, readings_of_texts,
    reads_back,
};
pub use module::{Binding, Bindings, Import, ImportAs, Imports, Item, Items, Module};
pub use name::QName;
pub use print::print_expr;
pub use printer::Printer;
pub use rpl_text::NoMemory;
pub use token::Token;
