//! Bytes by what they begin, and by what they go on with.
ghost use Rattle.std.specs.Prelude.{◌≡◌, ◌≤◌, length};
ghost use Rattle.oil_lexer.specs.{Classes.{mark_of, class_of, is_in}, Fronts.{IsRun}};

use crate::token::Mark;

/// What a byte begins.
#[derive(Clone, Copy)]
pub enum Class {
    Blank,
    Letter,
    Digit,
    Quote,
    Slash,
    Single(Mark),
    Nothing,
}

/// A set of bytes.
#[derive(Clone, Copy)]
pub enum ByteSet {
    Blanks,
    NameBytes,
    Digits,
    HexDigits,
    TextBytes,
    LineBytes,
}

fn mark_of(byte: u8) -> Option<Mark>
    ensures { result ≡ mark_of byte }
{
    match byte {
        b'{' => Some(Mark::OpenBrace),
        b'}' => Some(Mark::CloseBrace),
        b'(' => Some(Mark::OpenParen),
        b')' => Some(Mark::CloseParen),
        b'[' => Some(Mark::OpenBracket),
        b']' => Some(Mark::CloseBracket),
        b'=' => Some(Mark::Equals),
        b';' => Some(Mark::Semicolon),
        b':' => Some(Mark::Colon),
        b',' => Some(Mark::Comma),
        b'.' => Some(Mark::Period),
        b'?' => Some(Mark::Question),
        b'|' => Some(Mark::Bar),
        b'+' => Some(Mark::Plus),
        b'-' => Some(Mark::Minus),
        _ => None,
    }
}

/// What the byte begins.
pub fn class_of(byte: u8) -> Class
    ensures { result ≡ class_of byte }
{
    match byte {
        b' ' | b'\t' | b'\r' | b'\n' | 12 => Class::Blank,
        b'a'..=b'z' | b'A'..=b'Z' | b'_' => Class::Letter,
        b'0'..=b'9' => Class::Digit,
        b'"' => Class::Quote,
        b'/' => Class::Slash,
        _ => match mark_of(byte) {
            Some(mark) => Class::Single(mark),
            None => Class::Nothing,
        },
    }
}

fn is_in(set: ByteSet, byte: u8) -> bool
    ensures { result ≡ is_in set byte }
{
    match set {
        ByteSet::Blanks => matches!(byte, b' ' | b'\t' | b'\r' | b'\n' | 12),
        ByteSet::NameBytes => byte.is_ascii_alphanumeric() || byte == b'_',
        ByteSet::Digits => byte.is_ascii_digit(),
        ByteSet::HexDigits => byte.is_ascii_hexdigit(),
        ByteSet::TextBytes => byte != b'"' && byte != b'\n',
        ByteSet::LineBytes => byte != b'\n',
    }
}

/// Where the bytes of a set end that stand from a place on.
pub fn run_end(set: ByteSet, bytes: &[u8], from: usize) -> usize
    requires { from ≤ length bytes.now }
    ensures { IsRun set bytes.now from result }
{
    let mut end = from;
    while end < bytes.len() && is_in(set, bytes[end]) {
        end += 1;
    }
    end
}
