//! The tree of an OIL file (ISO 17356-6, the grammar of OIL), or the first fault of its tokens.
#![tactic(auto)]

mod attrs;
mod error;
mod file;
mod parser;
mod phrases;
mod tree;
mod words;

pub use error::ParseError;
pub use parser::{one_answer, parse};
pub use tree::{Attr, AttrList, Object, ObjectList, Sign, Tree, Value};
