//! Words of 64 bits, with a bit for each number.
ghost use Rattle.std.specs.Prelude.{ℕ, false, IsTrue, ◌≡◌, ◌<◌, ◌≤◌, ◌+◌, ◌*◌, ◌/◌, ◌%◌, ◌^◌, ◌==◌, not, bit_and, bit_or, bit_xor, count_ones, length, replicate, slice_index_or, slice_set, IfOk, OnOk, OnErr};
ghost use Rattle.std.specs.Bool.{OnTrue};
ghost use Rattle.bit_words.specs.{Words.{AreWords, bits_of_words}, Cursors.{IsAtWord}};
ghost use Rattle.osek_values.specs.Bits.{has_bit as has_bit_of};

use crate::bit_cursor::BitCursor;
use osek_values::Memory;
use std::alloc::Global;

/// Whether a bit of a word is set.
pub fn has_bit(bits: u64, bit: usize) -> bool
    requires { bit < 64 }
    ensures { result ≡ has_bit_of bits bit }
{
    (bits >> bit) % 2 == 1
}

/// Each has 64 bits, as its type says.
pub fn are_words(words: &[u64])
    ensures { AreWords words.now }
{}

/// Each of two has 64 bits, as its type says.
pub fn are_two_words(low: u64, high: u64)
    ensures low { low < 2 ^ 64 }
    ensures high { high < 2 ^ 64 }
{}

/// Whether a number's bit is set.
pub fn has(words: &[u64], number: usize) -> bool
    ensures { result ≡ has_bit_of (bits_of_words words.now) number }
{
    let place = number / 64;
    place < words.len() && has_bit(words[place], number % 64)
}

/// Makes room for so many words. No bit changes.
pub fn widen(words: &mut Vec<u64>, count: usize) -> Result<(), Memory>
    ensures room { OnOk result (count ≤ length words.new.items) }
    ensures few { (n : ℕ) → length words.old.items ≤ n → count ≤ n → length words.new.items ≤ n }
    ensures words { (i : ℕ) → slice_index_or words.new.items i 0 ≡ slice_index_or words.old.items i 0 }
    ensures same { bits_of_words words.new.items ≡ bits_of_words words.old.items }
{
    for _length in words.len()..count {
        words.push(0)?;
    }
    Ok(())
}

/// The same for words that seldom grow: it takes no more memory than they need.
pub fn widen_exactly(words: &mut Vec<u64>, count: usize) -> Result<(), Memory>
    ensures room { OnOk result (count ≤ length words.new.items) }
    ensures few { (n : ℕ) → length words.old.items ≤ n → count ≤ n → length words.new.items ≤ n }
    ensures words { (i : ℕ) → slice_index_or words.new.items i 0 ≡ slice_index_or words.old.items i 0 }
    ensures same { bits_of_words words.new.items ≡ bits_of_words words.old.items }
{
    if count > words.len() {
        words.reserve_exact(count - words.len())?;
    }
    widen(words, count)
}

/// Makes room for a word at a place, if it has a bit. No bit changes.
pub fn widen_for(words: &mut Vec<u64>, place: usize, word: u64) -> Result<(), Memory>
    requires { place + 1 < 2 ^ 64 }
    ensures room { OnOk result (length words.new.items ≤ place → word ≡ 0) }
    ensures few { (n : ℕ) → length words.old.items ≤ n → place < n → length words.new.items ≤ n }
    ensures words { (i : ℕ) → slice_index_or words.new.items i 0 ≡ slice_index_or words.old.items i 0 }
{
    // mostly there is room
    if word == 0 || place < words.len() {
        return Ok(());
    }
    widen(words, place + 1)
}

/// Takes off the words without a bit at the end. No bit changes.
pub fn trim(words: &mut Vec<u64>)
    ensures { bits_of_words words.new.items ≡ bits_of_words words.old.items }
{
    'words: while !words.is_empty() && words[words.len() - 1] == 0 {
        words.pop();
    }
}

/// Clears the bits that other words lack, and takes off the words without a bit at the end.
pub fn keep_trimmed(words: &mut Vec<u64>, other: &[u64])
    ensures { bits_of_words words.new.items ≡ bit_and (bits_of_words words.old.items) (bits_of_words other.now) }
{
    keep(words.as_mut_slice(), other);
    trim(words);
}

/// Clears the bits that other words have, and takes off the words without a bit at the end.
pub fn leave_out_trimmed(words: &mut Vec<u64>, other: &[u64])
    ensures { bits_of_words words.new.items ≡ bit_xor (bits_of_words words.old.items) (bit_and (bits_of_words words.old.items) (bits_of_words other.now)) }
{
    leave_out(words.as_mut_slice(), other);
    trim(words);
}

/// Sets a number's bit.
#[inline(always)]
pub fn put(words: &mut [u64], number: usize)
    requires { number / 64 < length words.old }
    ensures { bits_of_words words.new ≡ bit_or (bits_of_words words.old) (2 ^ number) }
{
    are_words(words);
    let place = number / 64;
    words[place] = words[place] | 1 << (number % 64);
}

/// Sets the bits of other words too.
pub fn put_all(words: &mut [u64], other: &[u64])
    requires { length other.now ≤ length words.old }
    ensures { bits_of_words words.new ≡ bit_or (bits_of_words words.old) (bits_of_words other.now) }
{
    are_words(words);
    are_words(other);
    for place in 0..other.len() {
        words[place] = words[place] | other[place];
    }
}

/// The first bit of a word from one on that is set; 64 where none is.
pub fn next_bit(word: u64, from: usize) -> usize
    requires { from < 64 }
    ensures up { from ≤ result }
    ensures few { result ≤ 64 }
    ensures has { result < 64 → IsTrue (has_bit_of word result) }
    ensures none { (k : ℕ) → from ≤ k → k < result → has_bit_of word k ≡ false }
{
    let rest = word >> from;
    if rest == 0 {
        return 64;
    }
    from + rest.trailing_zeros() as usize
}

/// The first number from one on whose bit is set, if it is below a bound; else the bound.
#[inline(always)]
pub fn next(words: &[u64], from: usize, below: usize) -> usize
    requires { from ≤ below }
    ensures up { from ≤ result }
    ensures few { result ≤ below }
    ensures has { result < below → IsTrue (has_bit_of (bits_of_words words.now) result) }
    ensures none { (k : ℕ) → from ≤ k → k < result → has_bit_of (bits_of_words words.now) k ≡ false }
{
    are_words(words);
    // mostly the word where the numbers begin has one
    let begin = from / 64;
    let bit = next_bit(word_at(words, begin), from % 64);
    if bit < 64 {
        return at_most(64 * begin + bit, below);
    }
    next_in_words(words, begin + 1, below)
}

// the first number of the words from one on, if it is below a bound; else the bound
#[inline(never)]
fn next_in_words(words: &[u64], from: usize, below: usize) -> usize
    ensures up { result < below → 64 * from ≤ result }
    ensures few { result ≤ below }
    ensures has { result < below → IsTrue (has_bit_of (bits_of_words words.now) result) }
    ensures none { (k : ℕ) → 64 * from ≤ k → k < result → has_bit_of (bits_of_words words.now) k ≡ false }
{
    are_words(words);
    let end = words.len().min(below / 64 + 1);
    for place in from..end {
        let bit = next_bit(words[place], 0);
        if bit < 64 {
            return at_most(64 * place + bit, below);
        }
    }
    below
}

/// A cursor before the numbers of the first word from a place on that has some. Where none is below a bound it has no bit.
pub fn next_word(words: &[u64], from: usize, below: usize) -> BitCursor
    ensures word { result.base % 64 ≡ 0 }
    ensures bound { result.base ≤ below }
    ensures some { 0 < result.rest → IsAtWord (bits_of_words words.now) (64 * from) result }
    ensures none { result.rest ≡ 0 → (k : ℕ) → 64 * from ≤ k → k < below → has_bit_of (bits_of_words words.now) k ≡ false }
{
    are_words(words);
    let end = words.len().min(below / 64 + 1);
    for place in from..end {
        if words[place] != 0 {
            return BitCursor {
                base: 64 * place,
                rest: words[place],
            };
        }
    }
    BitCursor { base: 0, rest: 0 }
}

fn at_most(number: usize, bound: usize) -> usize
    ensures number { result ≤ number }
    ensures bound { result ≤ bound }
    ensures is { result < bound → result ≡ number }
    ensures either { (k : ℕ) → k ≤ number → k ≤ bound → k ≤ result }
{
    if number < bound {
        return number;
    }
    bound
}

/// A word with a bit more.
pub fn with_bit(word: u64, bit: usize) -> u64
    requires { bit < 64 }
    ensures { result ≡ bit_or word (2 ^ bit) }
{
    word | 1 << bit
}

/// How many bits the other word has that this one lacks.
pub fn new_bits(word: u64, other: u64) -> u64
    ensures count { count_ones (bit_or word other) ≡ count_ones word + result }
    ensures few { result ≤ count_ones other }
{
    let both = word | other;
    if both == word {
        return 0;
    }
    (both.count_ones() - word.count_ones()) as u64
}

/// Sets the bits of other words too, and tells how many were not set.
pub fn join(words: &mut [u64], other: &[u64]) -> u64
    requires room { length other.now ≤ length words.old }
    requires few { count_ones (bits_of_words other.now) < 2 ^ 64 }
    ensures words { (i : ℕ) → slice_index_or words.new i 0 ≡ bit_or (slice_index_or words.old i 0) (slice_index_or other.now i 0) }
    ensures bits { bits_of_words words.new ≡ bit_or (bits_of_words words.old) (bits_of_words other.now) }
    ensures count { count_ones (bits_of_words words.new) ≡ count_ones (bits_of_words words.old) + result }
    ensures few { result ≤ count_ones (bits_of_words other.now) }
{
    are_words(words);
    are_words(other);
    if have_all(words, other) {
        return 0;
    }
    join_each(words, other)
}

/// Whether each bit of other words is set. Most joins bring nothing new: the bits that these words lack are gathered in one, which
/// takes half the instructions that a look at each word takes.
pub fn have_all(words: &[u64], other: &[u64]) -> bool
    ensures bits { OnTrue result (bits_of_words words.now ≡ bit_or (bits_of_words words.now) (bits_of_words other.now)) }
    ensures words { OnTrue result ((i : ℕ) → i < length other.now → slice_index_or words.now i 0 ≡ bit_or (slice_index_or words.now i 0) (slice_index_or other.now i 0)) }
{
    are_words(words);
    are_words(other);
    if other.len() > words.len() {
        return false;
    }
    let mut missing = 0;
    for place in 0..other.len() {
        missing = missing | without(other[place], words[place]);
    }
    missing == 0
}

/// The same where some bit is known to be new.
pub fn join_each(words: &mut [u64], other: &[u64]) -> u64
    requires room { length other.now ≤ length words.old }
    requires few { count_ones (bits_of_words other.now) < 2 ^ 64 }
    ensures words { (i : ℕ) → slice_index_or words.new i 0 ≡ bit_or (slice_index_or words.old i 0) (slice_index_or other.now i 0) }
    ensures bits { bits_of_words words.new ≡ bit_or (bits_of_words words.old) (bits_of_words other.now) }
    ensures count { count_ones (bits_of_words words.new) ≡ count_ones (bits_of_words words.old) + result }
    ensures few { result ≤ count_ones (bits_of_words other.now) }
{
    are_words(words);
    are_words(other);
    let mut added = 0;
    for place in 0..other.len() {
        let word = words[place];
        added += new_bits(word, other[place]);
        words[place] = word | other[place];
    }
    added
}

/// How many bits are set.
pub fn count(words: &[u64]) -> u64
    requires { count_ones (bits_of_words words.now) < 2 ^ 64 }
    ensures { result ≡ count_ones (bits_of_words words.now) }
{
    are_words(words);
    let mut found = 0;
    for place in 0..words.len() {
        found += words[place].count_ones() as u64;
    }
    found
}

/// The same words again.
pub fn copied(alloc: Global, words: &[u64]) -> Result<Vec<u64>, Memory>
    ensures { IfOk result (λ copy. copy.items ≡ words.now) }
{
    if words.is_empty() {
        return Ok(Vec::new(alloc));
    }
    Ok(Vec::from_slice(alloc, words)?)
}

/// So many words without a bit.
pub fn clear_words(alloc: Global, count: usize) -> Result<Vec<u64>, Memory>
    ensures { IfOk result (λ words. words.items ≡ replicate count 0) }
{
    Ok(Vec::from_elem(alloc, 0, count)?)
}

/// The word at a place; past the end it is 0.
pub fn word_at(words: &[u64], place: usize) -> u64
    ensures word { result ≡ slice_index_or words.now place 0 }
    ensures fits { result < 2 ^ 64 }
{
    if place < words.len() { words[place] } else { 0 }
}

/// Puts a word in the place of another, if there is one.
pub fn replace(words: &mut [u64], place: usize, word: u64)
    ensures { words.new ≡ slice_set words.old place word }
{
    if place < words.len() {
        words[place] = word;
    }
}

/// Clears the bits of the word at a place that another one lacks.
pub fn keep_at(words: &mut [u64], place: usize, other: u64)
    ensures word { words.new ≡ slice_set words.old place (bit_and (slice_index_or words.old place 0) other) }
    ensures fits { slice_index_or words.old place 0 < 2 ^ 64 }
{
    if place < words.len() {
        words[place] = words[place] & other;
    }
}

/// Clears the bits of the word at a place that another one has.
pub fn leave_out_at(words: &mut [u64], place: usize, other: u64)
    ensures word { words.new ≡ slice_set words.old place (bit_xor (slice_index_or words.old place 0) (bit_and (slice_index_or words.old place 0) other)) }
    ensures fits { slice_index_or words.old place 0 < 2 ^ 64 }
{
    if place < words.len() {
        words[place] = without(words[place], other);
    }
}

/// Whether each word has a bit, or the one at its place among others. These may be fewer.
pub fn have_bits(words: &[u64], other: &[u64]) -> bool
    ensures { OnTrue result ((i : ℕ) → i < length words.now → 0 < slice_index_or words.now i 0 + slice_index_or other.now i 0) }
{
    let both = other.len().min(words.len());
    each_has_bit(words, both) && each_pair_has_bit(words, other, both)
}

// whether each word from a place on has a bit
fn each_has_bit(words: &[u64], from: usize) -> bool
    ensures { OnTrue result ((i : ℕ) → from ≤ i → i < length words.now → 0 < slice_index_or words.now i 0) }
{
    let mut all = true;
    for place in from..words.len() {
        if words[place] == 0 {
            all = false;
        }
    }
    all
}

// whether each of so many words has a bit, or the one at its place among others
fn each_pair_has_bit(words: &[u64], other: &[u64], count: usize) -> bool
    requires words { count ≤ length words.now }
    requires others { count ≤ length other.now }
    ensures { OnTrue result ((i : ℕ) → i < count → 0 < slice_index_or words.now i 0 + slice_index_or other.now i 0) }
{
    let mut all = true;
    for place in 0..count {
        if words[place] | other[place] == 0 {
            all = false;
        }
    }
    all
}

/// Clears the bits that other words lack.
pub fn keep(words: &mut [u64], other: &[u64])
    ensures { bits_of_words words.new ≡ bit_and (bits_of_words words.old) (bits_of_words other.now) }
{
    are_words(words);
    are_words(other);
    for place in 0..words.len() {
        words[place] = words[place] & word_at(other, place);
    }
}

/// Clears the bits that other words have.
pub fn leave_out(words: &mut [u64], other: &[u64])
    ensures { bits_of_words words.new ≡ bit_xor (bits_of_words words.old) (bit_and (bits_of_words words.old) (bits_of_words other.now)) }
{
    are_words(words);
    are_words(other);
    for place in 0..words.len() {
        words[place] = without(words[place], word_at(other, place));
    }
}

/// The bits of a word that another lacks.
pub fn without(word: u64, other: u64) -> u64
    ensures { result ≡ bit_xor word (bit_and word other) }
{
    word ^ (word & other)
}

/// Whether some bit is set in both.
pub fn meet(words: &[u64], other: &[u64]) -> bool
    ensures { result ≡ not (bit_and (bits_of_words words.now) (bits_of_words other.now) == 0) }
{
    are_words(words);
    are_words(other);
    for place in 0..words.len() {
        if words[place] & word_at(other, place) != 0 {
            return true;
        }
    }
    false
}

/// Whether no bit is set.
pub fn are_clear(words: &[u64]) -> bool
    ensures { result ≡ (bits_of_words words.now == 0) }
{
    for word in words {
        if *word != 0 {
            return false;
        }
    }
    true
}
