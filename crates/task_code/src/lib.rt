//! Task code (this project's profile): the control flow of tasks and category 2 ISRs, its tree, and the first fault of
//! a list of tokens that has none.
#![tactic(auto)]

mod bodies;
mod call;
mod calls;
mod error;
mod parser;
mod phrases;
mod statements;
mod tree;
mod words;
mod works;

pub use call::{Call, Reference};
pub use error::{CodeError, CodeFault};
pub use parser::{one_answer, parse_code};
pub use tree::{Body, BodyKind, Code, Condition, Statement, StatementList};
