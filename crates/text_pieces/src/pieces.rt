//! Pieces of text. Each call puts its piece at a place of a buffer and answers the place behind it; what stood before
//! the place stays, and what stands behind the piece has no meaning. No call takes memory.
ghost use Rattle.std.specs.{Prelude.{◌≡◌, ◌+◌, ◌<◌, ◌≤◌, false, [], ◌∷◌, ◌++◌, length, take, decimal}, Fmt.{digit_glyph}};
ghost use Rattle.osek_values.specs.Numbers.{hexadecimal};

use osek_values::Name;
use osek_values::limits::MAX_NAME;

/// The most digits of a number in decimal.
pub const MAX_DECIMAL: usize = 20;
/// The most digits of a set of events in hexadecimal.
pub const MAX_HEXADECIMAL: usize = 16;

/// Puts bytes.
pub fn put(buf: &mut [u8], at: usize, bytes: &[u8]) -> usize
    requires room { at + length bytes.now ≤ length buf.old }
    ensures text { take result buf.new ≡ take at buf.old ++ bytes.now }
    ensures end { result ≡ at + length bytes.now }
{
    let end = at + bytes.len();
    buf[at..end].copy_from_slice(bytes);
    end
}

/// Puts one byte.
pub fn put_byte(buf: &mut [u8], at: usize, byte: u8) -> usize
    requires room { at < length buf.old }
    ensures text { take result buf.new ≡ take at buf.old ++ byte ∷ [] }
    ensures end { result ≡ at + 1 }
{
    buf[at] = byte;
    at + 1
}

/// Puts a name.
pub fn put_name(buf: &mut [u8], at: usize, name: &Name) -> usize
    requires room { at + MAX_NAME ≤ length buf.old }
    ensures text { take result buf.new ≡ take at buf.old ++ name.now }
    ensures most { result ≤ at + MAX_NAME }
{
    put(buf, at, name.as_bytes())
}

/// Puts a prefix of a piece, and whatever comes of the rest of it.
#[tactic(auto, using(crate::proofs::Prefixes::prefix_put))]
pub fn put_prefix(buf: &mut [u8], at: usize, piece: &[u8], size: usize) -> usize
    requires room { at + length piece.now ≤ length buf.old }
    requires within { size ≤ length piece.now }
    ensures text { take result buf.new ≡ take at buf.old ++ take size piece.now }
    ensures end { result ≡ at + size }
{
    put(buf, at, piece);
    at + size
}

// Digits are made at the front of twice the room that they may need, the last one first, and put with what stands
// behind them: the copy has a constant size.

fn put_digits(buf: &mut [u8], at: usize, n: u64) -> usize
    requires room { at + MAX_DECIMAL ≤ length buf.old }
    ensures text { take result buf.new ≡ take at buf.old ++ decimal n }
    ensures most { result ≤ at + MAX_DECIMAL }
{
    let mut digits = [0; 2 * MAX_DECIMAL];
    let first = itoa::write_digits(n, &mut digits, MAX_DECIMAL);
    put_prefix(
        buf,
        at,
        &digits[first..first + MAX_DECIMAL],
        MAX_DECIMAL - first,
    )
}

/// Puts a number in decimal. Most have one digit or two.
pub fn put_decimal(buf: &mut [u8], at: usize, n: u64) -> usize
    requires room { at + MAX_DECIMAL ≤ length buf.old }
    ensures text { take result buf.new ≡ take at buf.old ++ decimal n }
    ensures most { result ≤ at + MAX_DECIMAL }
{
    if n < 10 {
        return put_byte(buf, at, b'0' + n as u8);
    }
    if n < 100 {
        let at = put_byte(buf, at, b'0' + (n / 10) as u8);
        return put_byte(buf, at, b'0' + (n % 10) as u8);
    }
    put_digits(buf, at, n)
}

fn hexadecimal_digit(digit: u64) -> u8
    requires { digit < 16 }
    ensures { result ≡ digit_glyph false digit }
{
    if digit < 10 {
        b'0' + digit as u8
    } else {
        b'a' + (digit as u8 - 10)
    }
}

/// Puts a number in lower-case hexadecimal, without leading zeros.
pub fn put_hexadecimal(buf: &mut [u8], at: usize, n: u64) -> usize
    requires room { at + MAX_HEXADECIMAL ≤ length buf.old }
    ensures text { take result buf.new ≡ take at buf.old ++ hexadecimal n }
    ensures most { result ≤ at + MAX_HEXADECIMAL }
{
    if n < 16 {
        return put_byte(buf, at, hexadecimal_digit(n));
    }
    let mut digits = [0; 2 * MAX_HEXADECIMAL];
    let mut first = MAX_HEXADECIMAL - 1;
    let mut left = n;
    while left >= 16 {
        digits[first] = hexadecimal_digit(left % 16);
        left /= 16;
        first -= 1;
    }
    digits[first] = hexadecimal_digit(left);
    put_prefix(
        buf,
        at,
        &digits[first..first + MAX_HEXADECIMAL],
        MAX_HEXADECIMAL - first,
    )
}
