//! Phrases of a few tokens.
ghost use Rattle.std.specs.Prelude.{◌≡◌, ℕ, List, [], ◌∷◌, MatchResult};
ghost use Rattle.oil_lexer.specs.Tokens.{name, number, text, mark};
ghost use Rattle.oil_tree.specs.{Grammar.{IsValue, IsEnd}, Expect.{a_value, an_end, a_name, a_text, a_number, an_equals, an_open, a_semicolon}};
ghost use Rattle.osek_values.specs.Answers.{Refuses};
ghost use Rattle.oil_tree.specs.Phrases.{StopsIn};
ghost use Rattle.oil_lexer.specs.declared.token.Mark.TheVariants.{Equals, OpenBrace, Semicolon};

use crate::tree::{Sign, Value};
use oil_lexer::{Mark, PhraseError, Stop, Token, TokenKind, Tokens, Word, first};
use std::alloc::Global;

/// A name, and its line.
pub fn name_of<'a>(tokens: &Tokens<'a>) -> Result<(Word<'a>, u32, Tokens<'a>), Stop>
    ensures { MatchResult result
        (λ x. tokens.now ≡ name x.0 x.1 ∷ x.2)
        (λ stop. (d : ℕ) → StopsIn (a_name ∷ []) d tokens.now stop) }
{
    let (Token { kind, line }, rest) = first(tokens)?;
    match kind {
        TokenKind::Name(name) => Ok((name, line, rest)),
        _ => Err(Stop::NotAllowed(line)),
    }
}

/// A text, which is passed over.
pub fn text<'a>(tokens: &Tokens<'a>) -> Result<Tokens<'a>, Stop>
    ensures { MatchResult result
        (λ rest. (t : List ℕ) × (l : ℕ) × (tokens.now ≡ text t l ∷ rest))
        (λ stop. (d : ℕ) → StopsIn (a_text ∷ []) d tokens.now stop) }
{
    let (token, rest) = first(tokens)?;
    match &token.kind {
        TokenKind::Text(_) => Ok(rest),
        _ => Err(Stop::NotAllowed(token.line)),
    }
}

fn number<'a>(tokens: &Tokens<'a>) -> Result<(u64, Tokens<'a>), Stop>
    ensures { MatchResult result
        (λ x. (l : ℕ) × (tokens.now ≡ number x.0 l ∷ x.1))
        (λ stop. (d : ℕ) → StopsIn (a_number ∷ []) d tokens.now stop) }
{
    let (token, rest) = first(tokens)?;
    match &token.kind {
        TokenKind::Number(value) => Ok((*value, rest)),
        _ => Err(Stop::NotAllowed(token.line)),
    }
}

/// `=`
pub fn equals<'a>(tokens: &Tokens<'a>) -> Result<Tokens<'a>, Stop>
    ensures { MatchResult result
        (λ rest. (l : ℕ) × (tokens.now ≡ mark Equals l ∷ rest))
        (λ stop. (d : ℕ) → StopsIn (an_equals ∷ []) d tokens.now stop) }
{
    let (token, rest) = first(tokens)?;
    match &token.kind {
        TokenKind::Mark(Mark::Equals) => Ok(rest),
        _ => Err(Stop::NotAllowed(token.line)),
    }
}

/// `{`
pub fn open_brace<'a>(tokens: &Tokens<'a>) -> Result<Tokens<'a>, Stop>
    ensures { MatchResult result
        (λ rest. (l : ℕ) × (tokens.now ≡ mark OpenBrace l ∷ rest))
        (λ stop. (d : ℕ) → StopsIn (an_open ∷ []) d tokens.now stop) }
{
    let (token, rest) = first(tokens)?;
    match &token.kind {
        TokenKind::Mark(Mark::OpenBrace) => Ok(rest),
        _ => Err(Stop::NotAllowed(token.line)),
    }
}

fn semicolon<'a>(tokens: &Tokens<'a>) -> Result<Tokens<'a>, Stop>
    ensures { MatchResult result
        (λ rest. (l : ℕ) × (tokens.now ≡ mark Semicolon l ∷ rest))
        (λ stop. (d : ℕ) → StopsIn (a_semicolon ∷ []) d tokens.now stop) }
{
    let (token, rest) = first(tokens)?;
    match &token.kind {
        TokenKind::Mark(Mark::Semicolon) => Ok(rest),
        _ => Err(Stop::NotAllowed(token.line)),
    }
}

/// value: `name | text | [+ or -] number`.
pub fn value<'a>(alloc: Global, tokens: &Tokens<'a>) -> Result<(Value, Tokens<'a>), PhraseError>
    ensures { MatchResult result
        (λ x. IsValue x.0 tokens.now x.1)
        (λ e. Refuses e (λ stop. (d : ℕ) → StopsIn (a_value ∷ []) d tokens.now stop)) }
{
    let (token, rest) = first(tokens)?;
    match &token.kind {
        TokenKind::Name(name) => Ok((Value::Word(name.name(alloc)?), rest)),
        TokenKind::Text(text) => Ok((Value::Quoted(text.seq(alloc)?), rest)),
        TokenKind::Number(value) => Ok((Value::Numeric(Sign::Bare, *value), rest)),
        TokenKind::Mark(Mark::Plus) => {
            let (value, rest) = number(&rest)?;
            Ok((Value::Numeric(Sign::Plus, value), rest))
        }
        TokenKind::Mark(Mark::Minus) => {
            let (value, rest) = number(&rest)?;
            Ok((Value::Numeric(Sign::Minus, value), rest))
        }
        TokenKind::Mark(_) => Err(PhraseError::Fault(Stop::NotAllowed(token.line))),
    }
}

/// end: `[: text] ;`.
pub fn end<'a>(tokens: &Tokens<'a>) -> Result<Tokens<'a>, Stop>
    ensures { MatchResult result
        (λ rest. IsEnd tokens.now rest)
        (λ stop. (d : ℕ) → StopsIn (an_end ∷ []) d tokens.now stop) }
{
    let (token, rest) = first(tokens)?;
    match &token.kind {
        TokenKind::Mark(Mark::Semicolon) => Ok(rest),
        TokenKind::Mark(Mark::Colon) => {
            let rest = semicolon(&text(&rest)?)?;
            Ok(rest)
        }
        _ => Err(Stop::NotAllowed(token.line)),
    }
}
