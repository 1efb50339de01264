//! The fault of a place, and the token at the front.
use oil_lexer::{
    Stop, SyntaxFault, Token, TokenKind, Tokens, fault_of, first, is_close, is_open, tokens,
};
use osek_values::{SyntaxRule, copied};
use std::alloc::Global;

/// Places with the line and the rule of their fault.
const PLACES: [(Stop, u32, SyntaxRule); 3] = [
    (Stop::NotAllowed(4), 4, SyntaxRule::S1),
    (Stop::TooDeep(2), 2, SyntaxRule::S3),
    // The end is on the line of the last token, or on line 1.
    (Stop::Ends, 7, SyntaxRule::S2),
];

/// Whether the places have their faults, and the end of no tokens is on line 1.
fn are_told(tokens: &Tokens<'_>, none: &Tokens<'_>) -> bool {
    for (stop, line, rule) in PLACES {
        if fault_of(stop, tokens) != (SyntaxFault { line, rule }) {
            return false;
        }
    }
    fault_of(Stop::Ends, none).line == 1
}

/// The tokens, if there are just three.
fn three<'a>(tokens: &Tokens<'a>) -> Option<(Token<'a>, Token<'a>, Token<'a>)> {
    let (one, rest) = first(tokens).ok()?;
    let (two, rest) = first(&rest).ok()?;
    let (last, rest) = first(&rest).ok()?;
    match first(&rest) {
        Err(Stop::Ends) => Some((one, two, last)),
        _ => None,
    }
}

fn is_name(token: &Token<'_>) -> bool {
    !is_open(token) && !is_close(token)
}

/// Whether `{` is at the front of a name and `}`, and nothing at the front of no tokens.
fn have_a_front(tokens: &Tokens<'_>, none: &Tokens<'_>) -> bool {
    let is_front = match three(tokens) {
        Some((open, name, close)) => {
            is_open(&open)
                && !is_close(&open)
                && is_name(&name)
                && is_close(&close)
                && !is_open(&close)
        }
        None => false,
    };
    is_front && matches!(first(none), Err(Stop::Ends))
}

/// Whether the token is the name, and its copies too.
fn is_copied(alloc: Global, token: &Token<'_>, bytes: &[u8]) -> bool {
    let TokenKind::Name(word) = &token.kind else {
        return false;
    };
    let Ok(name) = word.name(alloc) else {
        return false;
    };
    match copied(alloc, &name) {
        Ok(copy) => name.as_bytes() == bytes && copy.as_bytes() == bytes,
        Err(_) => false,
    }
}

/// Whether the second of three tokens is the name, and its copies too.
fn has_a_copy(alloc: Global, tokens: &Tokens<'_>, bytes: &[u8]) -> bool {
    match three(tokens) {
        Some((_, name, _)) => is_copied(alloc, &name, bytes),
        None => false,
    }
}

/// Whether the faults are told, there is a front, and a name is copied, of the tokens of a text.
fn seen_of(alloc: Global, text: &[u8]) -> Option<[bool; 3]> {
    let none = tokens(b"".as_slice()).ok()?;
    let tokens = tokens(text).ok()?;
    Some([
        are_told(&tokens, &none),
        have_a_front(&tokens, &none),
        has_a_copy(alloc, &tokens, b"T1"),
    ])
}

#[test]
fn faults_and_fronts(rt: HostRuntime) {
    let seen = seen_of(rt.alloc(), b"\n{\n\nT1\n\n\n}");
    assert!(rt; seen == Some([true; 3]));
}
