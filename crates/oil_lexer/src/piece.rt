//! The piece at the front of a text.
ghost use Rattle.std.specs.Prelude.{◌≡◌, ℕ, ◌-◌, ◌<◌, ◌^◌, ◌≤◌, length, slice_index, SomeIff, MatchOption, MatchResult, IsTrue};
ghost use Rattle.oil_lexer.specs.declared.{classes.{Class.TheVariants.{Digit, Quote, Slash}, ByteSet.TheVariants.{HexDigits}}, token.Piece.TheVariants.{Gap, Whole}};
ghost use Rattle.oil_lexer.specs.{declared.token.TokenKind.TheVariants.{Text}, Classes.{class_of, is_in, AllIn}, Numbers.{digit_value, value_of}};
ghost use Rattle.oil_lexer.specs.{Pieces.{part, ClosesAt, IsHex, IsLongest, NoPiece, Breaks}, Fronts.{IsFirstClose, IsLongestHex, IsNumber, IsFront, AreFirst}};

use crate::classes::{ByteSet, Class, class_of, run_end};
use crate::token::{Piece, Quoted, TokenKind, Word};
use osek_values::LexRule;
use osek_values::limits::MAX_NAME;

fn digit_value(digit: u8) -> u8
    requires { IsTrue (is_in HexDigits digit) }
    ensures value { result ≡ digit_value digit }
    ensures small { result < 16 }
{
    match digit {
        b'0'..=b'9' => digit - b'0',
        b'A'..=b'F' => digit - b'A' + 10,
        _ => digit - b'a' + 10,
    }
}

// The value of digits, where it fits.
fn value_of(base: u64, digits: &[u8]) -> Option<u64>
    requires base { 1 ≤ base }
    requires digits { AllIn HexDigits digits.now 0 (length digits.now) }
    ensures { SomeIff result (value_of base digits.now < 2 ^ 64) (value_of base digits.now) }
{
    let mut value = 0u64;
    for digit in digits {
        let times = value.checked_mul(base)?;
        value = times.checked_add(u64::from(digit_value(*digit)))?;
    }
    Some(value)
}

// The end of the hexadecimal number at the front, if there is one.
fn hex_end(bytes: &[u8]) -> Option<usize>
    ensures { MatchOption result
        ((n : ℕ) → n ≤ length bytes.now → IsHex bytes.now n → ⊥)
        (λ n. IsLongestHex bytes.now n) }
{
    match bytes {
        [b'0', b'x' | b'X', ..] => {
            let end = run_end(ByteSet::HexDigits, bytes, 2);
            if end > 2 { Some(end) } else { None }
        }
        _ => None,
    }
}

// The end of the number at the front, and its value where that fits.
fn number(bytes: &[u8]) -> (usize, Option<u64>)
    requires nonempty { 0 < length bytes.now }
    requires digit { class_of (slice_index bytes.now 0) ≡ Digit }
    ensures { IsNumber bytes.now result.0 result.1 }
{
    match hex_end(bytes) {
        Some(end) => (end, value_of(16, &bytes[2..end])),
        None => {
            let end = run_end(ByteSet::Digits, bytes, 1);
            (end, value_of(10, &bytes[..end]))
        }
    }
}

// The end of the text at the front, if it is closed.
fn text_end(bytes: &[u8]) -> Option<usize>
    requires nonempty { 0 < length bytes.now }
    requires quote { class_of (slice_index bytes.now 0) ≡ Quote }
    ensures { MatchOption result (NoPiece bytes.now)
        (λ n. IsLongest (Whole (Text (part bytes.now 1 (n - 1)))) bytes.now n) }
{
    let end = run_end(ByteSet::TextBytes, bytes, 1);
    if end < bytes.len() && bytes[end] == b'"' {
        Some(end + 1)
    } else {
        None
    }
}

// The first end of `*/` behind `/*`.
fn first_close(bytes: &[u8]) -> Option<usize>
    ensures { MatchOption result
        ((n : ℕ) → n ≤ length bytes.now → ClosesAt bytes.now n → ⊥)
        (λ n. IsFirstClose bytes.now n) }
{
    for end in 4..bytes.len() + 1 {
        if bytes[end - 2] == b'*' && bytes[end - 1] == b'/' {
            return Some(end);
        }
    }
    None
}

// The end of the comment at the front, or the rule that the front breaks.
fn comment_end(bytes: &[u8]) -> Result<usize, LexRule>
    requires nonempty { 0 < length bytes.now }
    requires slash { class_of (slice_index bytes.now 0) ≡ Slash }
    ensures { MatchResult result (λ n. IsLongest Gap bytes.now n) (λ rule. Breaks rule bytes.now) }
{
    match bytes {
        [_, b'/', ..] => Ok(run_end(ByteSet::LineBytes, bytes, 2)),
        [_, b'*', ..] => match first_close(bytes) {
            Some(end) => Ok(end),
            None => Err(LexRule::L2),
        },
        _ => Err(LexRule::L1),
    }
}

/// The piece at the front of a text that isn't empty, and its length.
fn piece(bytes: &[u8]) -> Result<(Piece<'_>, usize), LexRule>
    requires { 0 < length bytes.now }
    ensures { IsFront result bytes.now }
{
    match class_of(bytes[0]) {
        Class::Blank => Ok((Piece::Gap, 1)),
        Class::Letter => {
            let end = run_end(ByteSet::NameBytes, bytes, 1);
            if end > MAX_NAME {
                return Err(LexRule::L5);
            }
            let word = Word::new(&bytes[..end]);
            Ok((Piece::Whole(TokenKind::Name(word)), end))
        }
        Class::Digit => {
            let (end, value) = number(bytes);
            match value {
                Some(value) => Ok((Piece::Whole(TokenKind::Number(value)), end)),
                None => Err(LexRule::L4),
            }
        }
        Class::Quote => match text_end(bytes) {
            Some(end) => {
                let text = Quoted::new(&bytes[1..end - 1]);
                Ok((Piece::Whole(TokenKind::Text(text)), end))
            }
            None => Err(LexRule::L3),
        },
        Class::Slash => match comment_end(bytes) {
            Ok(end) => Ok((Piece::Gap, end)),
            Err(rule) => Err(rule),
        },
        Class::Single(mark) => Ok((Piece::Whole(TokenKind::Mark(mark)), 1)),
        Class::Nothing => Err(LexRule::L1),
    }
}

/// What stands at the front of a text that isn't empty, and its length: the piece there, and blanks that follow each other as one.
pub fn front(bytes: &[u8]) -> Result<(Piece<'_>, usize), LexRule>
    requires { 0 < length bytes.now }
    ensures { AreFirst result bytes.now }
{
    let blanks = run_end(ByteSet::Blanks, bytes, 0);
    if blanks > 0 {
        return Ok((Piece::Gap, blanks));
    }
    piece(bytes)
}
