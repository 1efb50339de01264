//! Texts with their tokens.
use oil_lexer::{Mark, TokenKind, tokens};
use osek_values::Memory;
use std::alloc::Global;

/// What a token is to be.
#[derive(Clone, Copy)]
enum Want<'a> {
    Name(&'a [u8]),
    Number(u64),
    Text(&'a [u8]),
    Mark(Mark),
}

fn is_wanted(kind: &TokenKind<'_>, want: Want) -> bool {
    match (kind, want) {
        (TokenKind::Name(name), Want::Name(bytes)) => name.as_bytes() == bytes,
        (TokenKind::Number(value), Want::Number(number)) => *value == number,
        (TokenKind::Text(text), Want::Text(bytes)) => text.as_bytes() == bytes,
        (TokenKind::Mark(one), Want::Mark(mark)) => *one == mark,
        _ => false,
    }
}

/// Whether the text has just these tokens on these lines.
fn reads(text: &[u8], wanted: &[(u32, Want)]) -> bool {
    let Ok(mut rest) = tokens(text) else {
        return false;
    };
    for (line, want) in wanted {
        let Some((token, after)) = rest.first() else {
            return false;
        };
        if token.line != *line || !is_wanted(&token.kind, *want) {
            return false;
        }
        rest = after;
    }
    rest.first().is_none()
}

/// Texts with their tokens.
const TEXTS: [(&[u8], &[(u32, Want)]); 17] = [
    (b"", &[]),
    // The longest token counts: no numbers with exponents or letters behind.
    (b"5e3", &[(1, Want::Number(5)), (1, Want::Name(b"e3"))]),
    (b"0x", &[(1, Want::Number(0)), (1, Want::Name(b"x"))]),
    (b"0xg1", &[(1, Want::Number(0)), (1, Want::Name(b"xg1"))]),
    (b"1x2", &[(1, Want::Number(1)), (1, Want::Name(b"x2"))]),
    // A token is its value.
    (
        b"0x1F 0X1f 0031",
        &[
            (1, Want::Number(31)),
            (1, Want::Number(31)),
            (1, Want::Number(31)),
        ],
    ),
    (
        b"18446744073709551615 0xFFFFffffFFFFffff",
        &[(1, Want::Number(u64::MAX)), (1, Want::Number(u64::MAX))],
    ),
    (
        b"1.5",
        &[
            (1, Want::Number(1)),
            (1, Want::Mark(Mark::Period)),
            (1, Want::Number(5)),
        ],
    ),
    (
        b"_a1+Z",
        &[
            (1, Want::Name(b"_a1")),
            (1, Want::Mark(Mark::Plus)),
            (1, Want::Name(b"Z")),
        ],
    ),
    // A name has at most 64 bytes.
    (
        b"a234567890123456789012345678901234567890123456789012345678901234",
        &[(
            1,
            Want::Name(b"a234567890123456789012345678901234567890123456789012345678901234"),
        )],
    ),
    // A text has no escapes, and a comment in it is none.
    (b"\"\"", &[(1, Want::Text(b""))]),
    (
        b"\"a\\\"b",
        &[(1, Want::Text(b"a\\")), (1, Want::Name(b"b"))],
    ),
    (b"\"/*\xff\"", &[(1, Want::Text(b"/*\xff"))]),
    // Comments don't nest, and `/*/` doesn't end one.
    (
        b"a/* /* // */b//c\nd",
        &[
            (1, Want::Name(b"a")),
            (1, Want::Name(b"b")),
            (2, Want::Name(b"d")),
        ],
    ),
    (
        b"/**/x/*/y*/z//",
        &[(1, Want::Name(b"x")), (1, Want::Name(b"z"))],
    ),
    // A token has the line of its first byte.
    (
        b"a\n/*\n\n*/b\r\n\tc\x0cd",
        &[
            (1, Want::Name(b"a")),
            (4, Want::Name(b"b")),
            (5, Want::Name(b"c")),
            (5, Want::Name(b"d")),
        ],
    ),
    (
        b"{}()[]=;:,.?|-",
        &[
            (1, Want::Mark(Mark::OpenBrace)),
            (1, Want::Mark(Mark::CloseBrace)),
            (1, Want::Mark(Mark::OpenParen)),
            (1, Want::Mark(Mark::CloseParen)),
            (1, Want::Mark(Mark::OpenBracket)),
            (1, Want::Mark(Mark::CloseBracket)),
            (1, Want::Mark(Mark::Equals)),
            (1, Want::Mark(Mark::Semicolon)),
            (1, Want::Mark(Mark::Colon)),
            (1, Want::Mark(Mark::Comma)),
            (1, Want::Mark(Mark::Period)),
            (1, Want::Mark(Mark::Question)),
            (1, Want::Mark(Mark::Bar)),
            (1, Want::Mark(Mark::Minus)),
        ],
    ),
];

/// The number of the first text that doesn't have its tokens.
fn first_wrong_text(rows: &[(&[u8], &[(u32, Want)])]) -> Option<usize> {
    for (number, (text, wanted)) in rows.iter().enumerate() {
        if !reads(text, wanted) {
            return Some(number);
        }
    }
    None
}

/// So many bytes, of which the first is another one.
fn long_text(alloc: Global, first: u8, others: u8, length: usize) -> Result<Vec<u8>, Memory> {
    let mut text = vec![in alloc; others; length]?;
    if length > 0 {
        text[0] = first;
    }
    Ok(text)
}

/// Whether there is no token in a text of so many blanks.
fn blanks_have_no_token(alloc: Global, length: usize) -> bool {
    match long_text(alloc, b' ', b' ', length) {
        Ok(text) => reads(text.as_slice(), &[]),
        Err(_) => false,
    }
}

#[test]
fn texts_with_tokens(rt: HostRuntime) {
    assert!(rt; first_wrong_text(&TEXTS) == None);
    assert!(rt; blanks_have_no_token(rt.alloc(), 1_048_576));
}
