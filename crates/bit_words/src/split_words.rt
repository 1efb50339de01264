//! The words of a set, of which the first two stand apart.
ghost use Rattle.std.specs.Prelude.{ℕ, List, false, IsTrue, ◌≡◌, ◌∷◌, ◌<◌, ◌≤◌, ◌+◌, ◌%◌, ◌*◌, ◌==◌, ◌^◌, count_ones, slice_index_or};
ghost use Rattle.bit_words.specs.{Words.{bits_of_words}, Cursors.{IsBefore, IsAtWord}};
ghost use Rattle.osek_values.specs.Bits.{has_bit as has_bit_of};

use crate::bit_cursor::BitCursor;
use crate::words;

/// Whether a number's bit is set.
pub fn has(low: u64, high: u64, more: &[u64], number: usize) -> bool
    ensures { result ≡ has_bit_of (bits_of_words (low ∷ high ∷ more.now)) number }
{
    if number < 64 {
        return words::has_bit(low, number);
    }
    if number < 128 {
        return words::has_bit(high, number - 64);
    }
    words::has(more, number - 128)
}

/// The first number from one on whose bit is set, if it is below a bound; else the bound.
#[inline(always)]
pub fn next(low: u64, high: u64, more: &[u64], from: usize, below: usize) -> usize
    requires { from ≤ below }
    ensures up { from ≤ result }
    ensures few { result ≤ below }
    ensures has { result < below → IsTrue (has_bit_of (bits_of_words (low ∷ high ∷ more.now)) result) }
    ensures none { (k : ℕ) → from ≤ k → k < result → has_bit_of (bits_of_words (low ∷ high ∷ more.now)) k ≡ false }
{
    if from >= 128 {
        let further = words::next(more, from - 128, below - 128);
        return 128 + further;
    }
    let number = next_of_two(low, high, from);
    if number >= below {
        return below;
    }
    if number < 128 {
        return number;
    }
    let further = words::next(more, number - 128, below - 128);
    128 + further
}

// the first number of the first two words from one on; where there is none a number that is in neither
fn next_of_two(low: u64, high: u64, from: usize) -> usize
    requires { from < 128 }
    ensures up { from ≤ result }
    ensures has { result < 128 → (ws : List ℕ) → IsTrue (has_bit_of (bits_of_words (low ∷ high ∷ ws)) result) }
    ensures none { (k : ℕ) → from ≤ k → k < result → (ws : List ℕ) → has_bit_of (bits_of_words (low ∷ high ∷ ws)) k ≡ false }
{
    if from >= 64 {
        let next = words::next_bit(high, from - 64);
        return 64 + next;
    }
    let number = words::next_bit(low, from);
    if number < 64 {
        return number;
    }
    let next = words::next_bit(high, 0);
    64 + next
}

/// A cursor before the numbers from one on.
pub fn cursor(low: u64, high: u64, more: &[u64], from: usize) -> BitCursor
    ensures { IsBefore (bits_of_words (low ∷ high ∷ more.now)) from result }
{
    words::are_two_words(low, high);
    words::are_words(more);
    let bit = from % 64;
    let word = word_at(low, high, more, from / 64);
    BitCursor {
        base: from - bit,
        rest: word >> bit << bit,
    }
}

// the word at a place; past the end it is 0
fn word_at(low: u64, high: u64, more: &[u64], place: usize) -> u64
    ensures { result ≡ slice_index_or (low ∷ high ∷ more.now) place 0 }
{
    if place == 0 {
        return low;
    }
    if place == 1 {
        return high;
    }
    words::word_at(more, place - 2)
}

/// A cursor before the numbers of the next word that has some, from a word on that isn't the first. Where none is below a bound
/// it has no bit.
#[inline(never)]
pub fn next_word(high: u64, more: &[u64], from: usize, below: usize) -> BitCursor
    requires { 0 < from }
    ensures word { result.base % 64 ≡ 0 }
    ensures some { 0 < result.rest → (low : ℕ) → low < 2 ^ 64 → IsAtWord (bits_of_words (low ∷ high ∷ more.now)) (64 * from) result }
    ensures none { result.rest ≡ 0 → (low k : ℕ) → low < 2 ^ 64 → 64 * from ≤ k → k < below → has_bit_of (bits_of_words (low ∷ high ∷ more.now)) k ≡ false }
{
    if from > 1 {
        return further_word(more, from - 2, below);
    }
    if high != 0 {
        return BitCursor {
            base: 64,
            rest: high,
        };
    }
    further_word(more, 0, below)
}

// the same of the words past the first two, from one of these on
fn further_word(more: &[u64], from: usize, below: usize) -> BitCursor
    ensures word { result.base % 64 ≡ 0 }
    ensures some { 0 < result.rest → (low high : ℕ) → low < 2 ^ 64 → high < 2 ^ 64 → IsAtWord (bits_of_words (low ∷ high ∷ more.now)) (128 + 64 * from) result }
    ensures none { result.rest ≡ 0 → (low high k : ℕ) → low < 2 ^ 64 → high < 2 ^ 64 → 128 + 64 * from ≤ k → k < below →
        has_bit_of (bits_of_words (low ∷ high ∷ more.now)) k ≡ false }
{
    if below <= 128 {
        return BitCursor { base: 0, rest: 0 };
    }
    let further = words::next_word(more, from, below - 128);
    BitCursor {
        base: 128 + further.base,
        rest: further.rest,
    }
}

/// Whether no bit is set.
pub fn are_clear(low: u64, high: u64, more: &[u64]) -> bool
    ensures { result ≡ (bits_of_words (low ∷ high ∷ more.now) == 0) }
{
    if low != 0 {
        return false;
    }
    if high != 0 {
        return false;
    }
    words::are_clear(more)
}

/// How many bits are set.
pub fn count(low: u64, high: u64, more: &[u64]) -> u64
    requires { count_ones (bits_of_words (low ∷ high ∷ more.now)) < 2 ^ 64 }
    ensures { result ≡ count_ones (bits_of_words (low ∷ high ∷ more.now)) }
{
    low.count_ones() as u64 + high.count_ones() as u64 + words::count(more)
}
