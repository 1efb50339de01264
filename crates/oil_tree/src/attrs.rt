//! Attributes, within attributes.
ghost use Rattle.std.specs.Prelude.{◌≡◌, ℕ, ◌≤◌, [], ◌∷◌, MatchResult};
ghost use Rattle.osek_values.specs.Answers.{Refuses};
ghost use Rattle.oil_tree.specs.{Expect.{a_body, some_attrs}, Phrases.{StopsIn, attr_phrases, ReadsAttr, ReadsBody, ReadsAttrs}};

use crate::phrases::{end, equals, name_of, value};
use crate::tree::{Attr, AttrList};
use oil_lexer::{PhraseError, Stop, Tokens, first, is_close, is_open};
use osek_values::limits::MAX_OIL_DEPTH;
use std::alloc::Global;

// attr: name = value body
#[cycle(attrs)]
fn attr<'a>(
    alloc: Global,
    depth: u32,
    tokens: &Tokens<'a>,
) -> Result<(Attr, Tokens<'a>), PhraseError>
    requires { depth ≤ MAX_OIL_DEPTH }
    ensures { MatchResult result
        (λ x. ReadsAttr depth tokens.now x.0 x.1)
        (λ e. Refuses e (λ stop. StopsIn attr_phrases depth tokens.now stop)) }
{
    let (name, line, rest) = name_of(tokens)?;
    let rest = equals(&rest)?;
    let (value, rest) = value(alloc, &rest)?;
    let (attrs, rest) = body(alloc, depth, &rest)?;
    let name = name.name(alloc)?;
    Ok((
        Attr {
            name,
            line,
            value,
            attrs,
        },
        rest,
    ))
}

// attrs: attr* }
#[cycle(attrs)]
fn attrs<'a>(
    alloc: Global,
    depth: u32,
    tokens: &Tokens<'a>,
) -> Result<(AttrList, Tokens<'a>), PhraseError>
    requires { depth ≤ MAX_OIL_DEPTH }
    ensures { MatchResult result
        (λ x. ReadsAttrs depth tokens.now x.0 x.1)
        (λ e. Refuses e (λ stop. StopsIn (some_attrs ∷ []) depth tokens.now stop)) }
{
    let mut found = Vec::new(alloc);
    let mut rest = tokens.copy();
    loop {
        let (token, after) = first(&rest)?;
        if is_close(&token) {
            return Ok((AttrList::from_vec(found), after));
        }
        let (next, after) = attr(alloc, depth, &rest)?;
        found.push(next)?;
        rest = after;
    }
}

/// body: `[{ attrs] end`, behind so many open braces.
#[cycle(attrs)]
pub fn body<'a>(
    alloc: Global,
    depth: u32,
    tokens: &Tokens<'a>,
) -> Result<(AttrList, Tokens<'a>), PhraseError>
    requires { depth ≤ MAX_OIL_DEPTH }
    ensures { MatchResult result
        (λ x. ReadsBody depth tokens.now x.0 x.1)
        (λ e. Refuses e (λ stop. StopsIn (a_body ∷ []) depth tokens.now stop)) }
{
    let (token, rest) = first(tokens)?;
    if !is_open(&token) {
        let rest = end(tokens)?;
        return Ok((AttrList::from_vec(Vec::new(alloc)), rest));
    }
    if depth >= MAX_OIL_DEPTH {
        return Err(PhraseError::Fault(Stop::TooDeep(token.line)));
    }
    let (found, rest) = attrs(alloc, depth + 1, &rest)?;
    let rest = end(&rest)?;
    Ok((found, rest))
}
