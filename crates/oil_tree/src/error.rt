//! Why tokens have no tree.
use oil_lexer::SyntaxFault;
use osek_values::Refused;

/// Why tokens have no tree.
pub type ParseError = Refused<SyntaxFault>;
