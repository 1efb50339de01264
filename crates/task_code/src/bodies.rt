//! The bodies of tasks and ISRs.
ghost use Rattle.std.specs.Prelude.{◌≡◌, ◌∷◌, [], MatchResult, Some};
ghost use Rattle.osek_values.specs.Answers.{Refuses};
ghost use Rattle.task_code.specs.{Expect.{scan, body_stack}, Phrases.{StopsIn, ReadsOwned, ReadsBody, ReadsAll}};

use crate::call::Reference;
use crate::phrases::{close_paren, object_name, open_paren};
use crate::statements::block;
use crate::tree::{Body, StatementList};
use crate::words::body_kind;
use oil_lexer::{PhraseError, Stop, Token, TokenKind, Tokens};
use osek_values::Seq;
use std::alloc::Global;

// ( name ) { statement* }
fn owned<'a>(
    alloc: Global,
    tokens: &Tokens<'a>,
) -> Result<(Reference, StatementList, Tokens<'a>), PhraseError>
    ensures { MatchResult result
        (λ x. ReadsOwned tokens.now x.0 x.1 x.2)
        (λ e. Refuses e (λ stop. StopsIn body_stack 0 tokens.now stop)) }
{
    let rest = open_paren(tokens)?;
    let (owner, rest) = object_name(alloc, &rest)?;
    let rest = close_paren(&rest)?;
    let (statements, rest) = block(alloc, 0, &rest)?;
    Ok((owner, statements, rest))
}

/// A body, by its first token and what stands behind it.
fn body<'a>(
    alloc: Global,
    token: &Token<'_>,
    tokens: &Tokens<'a>,
) -> Result<(Body, Tokens<'a>), PhraseError>
    ensures { MatchResult result
        (λ x. ReadsBody (token.now ∷ tokens.now) x.0 x.1)
        (λ e. Refuses e (λ stop. scan 0 [] (token.now ∷ tokens.now) ≡ Some stop)) }
{
    let TokenKind::Name(word) = &token.kind else {
        return Err(PhraseError::Fault(Stop::NotAllowed(token.line)));
    };
    let Some(kind) = body_kind(word.as_bytes()) else {
        return Err(PhraseError::Fault(Stop::NotAllowed(token.line)));
    };
    let (owner, statements, rest) = owned(alloc, tokens)?;
    Ok((
        Body {
            kind,
            line: token.line,
            owner,
            statements,
        },
        rest,
    ))
}

/// The bodies of all the tokens, or where reading stops.
pub fn bodies(alloc: Global, tokens: &Tokens<'_>) -> Result<Seq<Body>, PhraseError>
    ensures { MatchResult result
        (λ all. ReadsAll tokens.now all)
        (λ e. Refuses e (λ stop. scan 0 [] tokens.now ≡ Some stop)) }
{
    let mut found = Vec::new(alloc);
    let mut rest = tokens.copy();
    while let Some((token, behind)) = rest.first() {
        let (next, after) = body(alloc, &token, &behind)?;
        found.push(next)?;
        rest = after;
    }
    Ok(Seq::of(found))
}
