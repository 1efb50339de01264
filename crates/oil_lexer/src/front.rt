//! The token at the front.
ghost use Rattle.std.specs.Prelude.{◌≡◌, [], ◌∷◌, MatchResult};
ghost use Rattle.oil_lexer.specs.{declared.fault.Stop.TheVariants.{Ends}, Tokens.{is_open, is_close}};

use crate::cursor::Tokens;
use crate::fault::Stop;
use crate::token::{Mark, Token, TokenKind};

/// The first token, and the others.
pub fn first<'a>(tokens: &Tokens<'a>) -> Result<(Token<'a>, Tokens<'a>), Stop>
    ensures { MatchResult result
        (λ x. tokens.now ≡ x.0 ∷ x.1)
        (λ stop. (tokens.now ≡ []) × (stop ≡ Ends)) }
{
    match tokens.first() {
        Some(parts) => Ok(parts),
        None => Err(Stop::Ends),
    }
}

/// Whether the token is `{`.
pub fn is_open(token: &Token<'_>) -> bool
    ensures { result ≡ is_open token.now.kind }
{
    matches!(&token.kind, TokenKind::Mark(Mark::OpenBrace))
}

/// Whether the token is `}`.
pub fn is_close(token: &Token<'_>) -> bool
    ensures { result ≡ is_close token.now.kind }
{
    matches!(&token.kind, TokenKind::Mark(Mark::CloseBrace))
}
