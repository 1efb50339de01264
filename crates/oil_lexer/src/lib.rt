//! The tokens of an OIL or task code text (ISO 17356-6, lexical rules), each with its line, and the first fault of a
//! text that has none; and what the grammars of both share: the first fault of a list of tokens by a grammar, and the readers
//! of single tokens.
#![tactic(auto)]

mod classes;
mod cursor;
mod error;
mod fault;
mod front;
mod lexer;
mod piece;
mod token;

pub use cursor::Tokens;
pub use error::LexFault;
pub use fault::{PhraseError, Stop, SyntaxFault, fault_of};
pub use front::{first, is_close, is_open};
pub use lexer::{one_answer, tokens};
pub use token::{Mark, Quoted, Token, TokenKind, Word};
