//! Objects, and the parts of a file.
ghost use Rattle.std.specs.Prelude.{◌≡◌, ◌≤◌, ℕ, List, [], ◌∷◌, Some, MatchResult};
ghost use Rattle.oil_lexer.specs.Tokens.{name};
ghost use Rattle.osek_values.specs.Answers.{Refuses};
ghost use Rattle.oil_tree.specs.{Words.{word_of}, Expect.{scan, a_file, an_unversioned, a_cpu, some_objects, some_balanced}};
ghost use Rattle.oil_tree.specs.Phrases.{StopsIn, StopsAtWord, object_phrases, ReadsObject, ReadsObjects, ReadsBalanced, ReadsVersion, ReadsImpl, ReadsCpu, ReadsFile, ReadsAll};

use crate::attrs::body;
use crate::phrases::{end, equals, name_of, open_brace, text};
use crate::tree::{Object, ObjectList, Tree};
use crate::words::{Word, word_of};
use oil_lexer::{PhraseError, Stop, TokenKind, Tokens, first, is_close, is_open};
use osek_values::limits::MAX_OIL_DEPTH;
use std::alloc::Global;

// object: name name body
fn object<'a>(alloc: Global, tokens: &Tokens<'a>) -> Result<(Object, Tokens<'a>), PhraseError>
    ensures { MatchResult result
        (λ x. ReadsObject tokens.now x.0 x.1)
        (λ e. Refuses e (λ stop. StopsIn object_phrases 1 tokens.now stop)) }
{
    let (kind, line, rest) = name_of(tokens)?;
    let (name, _, rest) = name_of(&rest)?;
    let (attrs, rest) = body(alloc, 1, &rest)?;
    let kind = kind.name(alloc)?;
    let name = name.name(alloc)?;
    Ok((
        Object {
            kind,
            line,
            name,
            attrs,
        },
        rest,
    ))
}

// objects: object* }
fn objects<'a>(alloc: Global, tokens: &Tokens<'a>) -> Result<(ObjectList, Tokens<'a>), PhraseError>
    ensures { MatchResult result
        (λ x. ReadsObjects tokens.now x.0 x.1)
        (λ e. Refuses e (λ stop. StopsIn (some_objects ∷ []) 1 tokens.now stop)) }
{
    let mut found = Vec::new(alloc);
    let mut rest = tokens.copy();
    loop {
        let (token, after) = first(&rest)?;
        if is_close(&token) {
            return Ok((ObjectList::from_vec(found), after));
        }
        let (next, after) = object(alloc, &rest)?;
        found.push(next)?;
        rest = after;
    }
}

// balanced: tokens whose braces balance, and }
fn balanced<'a>(depth: u32, tokens: &Tokens<'a>) -> Result<Tokens<'a>, Stop>
    requires { depth ≤ MAX_OIL_DEPTH }
    ensures { MatchResult result
        (λ rest. ReadsBalanced depth tokens.now rest)
        (λ stop. StopsIn (some_balanced ∷ []) depth tokens.now stop) }
{
    let mut rest = tokens.copy();
    loop {
        let (token, after) = first(&rest)?;
        if is_close(&token) {
            return Ok(after);
        }
        if is_open(&token) {
            if depth >= MAX_OIL_DEPTH {
                return Err(Stop::TooDeep(token.line));
            }
            rest = balanced(depth + 1, &after)?;
        } else {
            rest = after;
        }
    }
}

// The word that the first token is, and its line.
fn keyword<'a>(tokens: &Tokens<'a>) -> Result<(Word, u32, Tokens<'a>), Stop>
    ensures { MatchResult result
        (λ x. (n : List ℕ) × (tokens.now ≡ name n x.1 ∷ x.2) × (word_of n ≡ x.0))
        (λ stop. StopsAtWord tokens.now stop) }
{
    let (token, rest) = first(tokens)?;
    match &token.kind {
        TokenKind::Name(name) => Ok((word_of(name.as_bytes()), token.line, rest)),
        _ => Err(Stop::NotAllowed(token.line)),
    }
}

// version: [OIL_VERSION = text end]
fn version<'a>(tokens: &Tokens<'a>) -> Result<Tokens<'a>, Stop>
    ensures { MatchResult result
        (λ rest. ReadsVersion tokens.now rest)
        (λ stop. StopsIn (a_file ∷ []) 0 tokens.now stop) }
{
    let (word, _, rest) = keyword(tokens)?;
    match word {
        Word::Version => {
            let rest = equals(&rest)?;
            let rest = text(&rest)?;
            let rest = end(&rest)?;
            Ok(rest)
        }
        _ => Ok(tokens.copy()),
    }
}

// impl: [IMPLEMENTATION name { balanced end]
fn implementation<'a>(tokens: &Tokens<'a>) -> Result<Tokens<'a>, Stop>
    ensures { MatchResult result
        (λ rest. ReadsImpl tokens.now rest)
        (λ stop. StopsIn (an_unversioned ∷ []) 0 tokens.now stop) }
{
    let (word, _, rest) = keyword(tokens)?;
    match word {
        Word::Implementation => {
            let (_, _, rest) = name_of(&rest)?;
            let rest = open_brace(&rest)?;
            let rest = balanced(1, &rest)?;
            let rest = end(&rest)?;
            Ok(rest)
        }
        _ => Ok(tokens.copy()),
    }
}

// cpu: CPU name { objects end
fn cpu<'a>(alloc: Global, tokens: &Tokens<'a>) -> Result<(Tree, Tokens<'a>), PhraseError>
    ensures { MatchResult result
        (λ x. ReadsCpu tokens.now x.0 x.1)
        (λ e. Refuses e (λ stop. StopsIn (a_cpu ∷ []) 0 tokens.now stop)) }
{
    let (word, line, rest) = keyword(tokens)?;
    match word {
        Word::Cpu => {
            let (_, _, rest) = name_of(&rest)?;
            let rest = open_brace(&rest)?;
            let (objects, rest) = objects(alloc, &rest)?;
            let rest = end(&rest)?;
            Ok((Tree { line, objects }, rest))
        }
        _ => Err(PhraseError::Fault(Stop::NotAllowed(line))),
    }
}

// file: version impl cpu
fn file<'a>(alloc: Global, tokens: &Tokens<'a>) -> Result<(Tree, Tokens<'a>), PhraseError>
    ensures { MatchResult result
        (λ x. ReadsFile tokens.now x.0 x.1)
        (λ e. Refuses e (λ stop. StopsIn (a_file ∷ []) 0 tokens.now stop)) }
{
    let rest = version(tokens)?;
    let rest = implementation(&rest)?;
    let (tree, rest) = cpu(alloc, &rest)?;
    Ok((tree, rest))
}

/// The tree of all the tokens, or where reading stops.
pub fn whole(alloc: Global, tokens: &Tokens<'_>) -> Result<Tree, PhraseError>
    ensures { MatchResult result
        (λ tree. ReadsAll tokens.now tree)
        (λ e. Refuses e (λ stop. scan 0 (a_file ∷ []) tokens.now ≡ Some stop)) }
{
    let (tree, rest) = file(alloc, tokens)?;
    match first(&rest) {
        Ok((token, _)) => Err(PhraseError::Fault(Stop::NotAllowed(token.line))),
        Err(_) => Ok(tree),
    }
}
