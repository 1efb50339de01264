//! Phrases of one token.
ghost use Rattle.std.specs.Prelude.{◌≡◌, ℕ, [], ◌∷◌, MatchResult};
ghost use Rattle.oil_lexer.specs.{declared.token.Mark.TheVariants.{OpenParen, CloseParen, Comma, Semicolon, Question}, Tokens.{name, number, mark}};
ghost use Rattle.task_code.specs.Grammar.{IsCondition};
ghost use Rattle.task_code.specs.Expect.{a_name, a_number, a_condition, open_paren as the_open_paren, close_paren as the_close_paren, a_comma, a_semicolon, a_question};
ghost use Rattle.task_code.specs.Phrases.{StopsIn};
ghost use Rattle.osek_values.specs.Answers.{Refuses};

use crate::call::Reference;
use crate::tree::Condition;
use oil_lexer::{Mark, PhraseError, Stop, Token, TokenKind, Tokens, Word, first};
use std::alloc::Global;

/// `(`
pub fn open_paren<'a>(tokens: &Tokens<'a>) -> Result<Tokens<'a>, Stop>
    ensures { MatchResult result
        (λ rest. (l : ℕ) × (tokens.now ≡ mark OpenParen l ∷ rest))
        (λ stop. (d : ℕ) → StopsIn (the_open_paren ∷ []) d tokens.now stop) }
{
    let (token, rest) = first(tokens)?;
    match &token.kind {
        TokenKind::Mark(Mark::OpenParen) => Ok(rest),
        _ => Err(Stop::NotAllowed(token.line)),
    }
}

/// `)`
pub fn close_paren<'a>(tokens: &Tokens<'a>) -> Result<Tokens<'a>, Stop>
    ensures { MatchResult result
        (λ rest. (l : ℕ) × (tokens.now ≡ mark CloseParen l ∷ rest))
        (λ stop. (d : ℕ) → StopsIn (the_close_paren ∷ []) d tokens.now stop) }
{
    let (token, rest) = first(tokens)?;
    match &token.kind {
        TokenKind::Mark(Mark::CloseParen) => Ok(rest),
        _ => Err(Stop::NotAllowed(token.line)),
    }
}

/// `,`
pub fn comma<'a>(tokens: &Tokens<'a>) -> Result<Tokens<'a>, Stop>
    ensures { MatchResult result
        (λ rest. (l : ℕ) × (tokens.now ≡ mark Comma l ∷ rest))
        (λ stop. (d : ℕ) → StopsIn (a_comma ∷ []) d tokens.now stop) }
{
    let (token, rest) = first(tokens)?;
    match &token.kind {
        TokenKind::Mark(Mark::Comma) => Ok(rest),
        _ => Err(Stop::NotAllowed(token.line)),
    }
}

/// `;`
pub fn semicolon<'a>(tokens: &Tokens<'a>) -> Result<Tokens<'a>, Stop>
    ensures { MatchResult result
        (λ rest. (l : ℕ) × (tokens.now ≡ mark Semicolon l ∷ rest))
        (λ stop. (d : ℕ) → StopsIn (a_semicolon ∷ []) d tokens.now stop) }
{
    let (token, rest) = first(tokens)?;
    match &token.kind {
        TokenKind::Mark(Mark::Semicolon) => Ok(rest),
        _ => Err(Stop::NotAllowed(token.line)),
    }
}

/// `?`
pub fn question<'a>(tokens: &Tokens<'a>) -> Result<Tokens<'a>, Stop>
    ensures { MatchResult result
        (λ rest. (l : ℕ) × (tokens.now ≡ mark Question l ∷ rest))
        (λ stop. (d : ℕ) → StopsIn (a_question ∷ []) d tokens.now stop) }
{
    let (token, rest) = first(tokens)?;
    match &token.kind {
        TokenKind::Mark(Mark::Question) => Ok(rest),
        _ => Err(Stop::NotAllowed(token.line)),
    }
}

/// A number.
pub fn number<'a>(tokens: &Tokens<'a>) -> Result<(u64, Tokens<'a>), Stop>
    ensures { MatchResult result
        (λ x. (l : ℕ) × (tokens.now ≡ number x.0 l ∷ x.1))
        (λ stop. (d : ℕ) → StopsIn (a_number ∷ []) d tokens.now stop) }
{
    let (token, rest) = first(tokens)?;
    match &token.kind {
        TokenKind::Number(value) => Ok((*value, rest)),
        _ => Err(Stop::NotAllowed(token.line)),
    }
}

/// The condition of a loop: `?` or the number 1.
pub fn condition<'a>(tokens: &Tokens<'a>) -> Result<(Condition, Tokens<'a>), Stop>
    ensures { MatchResult result
        (λ x. (t : Token) × (tokens.now ≡ t ∷ x.1) × IsCondition x.0 t)
        (λ stop. (d : ℕ) → StopsIn (a_condition ∷ []) d tokens.now stop) }
{
    let (token, rest) = first(tokens)?;
    match &token.kind {
        TokenKind::Mark(Mark::Question) => Ok((Condition::Choice, rest)),
        TokenKind::Number(1) => Ok((Condition::Always, rest)),
        _ => Err(Stop::NotAllowed(token.line)),
    }
}

/// A name and its line.
pub fn name_of<'a>(tokens: &Tokens<'a>) -> Result<(Word<'a>, u32, Tokens<'a>), Stop>
    ensures { MatchResult result
        (λ x. tokens.now ≡ name x.0 x.1 ∷ x.2)
        (λ stop. (d : ℕ) → StopsIn (a_name ∷ []) d tokens.now stop) }
{
    let (Token { kind, line }, rest) = first(tokens)?;
    match kind {
        TokenKind::Name(name) => Ok((name, line, rest)),
        _ => Err(Stop::NotAllowed(line)),
    }
}

/// The name of an object, with its line.
pub fn object_name<'a>(
    alloc: Global,
    tokens: &Tokens<'a>,
) -> Result<(Reference, Tokens<'a>), PhraseError>
    ensures { MatchResult result
        (λ x. tokens.now ≡ name x.0.name x.0.line ∷ x.1)
        (λ e. Refuses e (λ stop. (d : ℕ) → StopsIn (a_name ∷ []) d tokens.now stop)) }
{
    let (name, line, rest) = name_of(tokens)?;
    let name = name.name(alloc)?;
    Ok((Reference { name, line }, rest))
}
