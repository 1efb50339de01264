//! Sets of numbers, which stand for values of a domain.
ghost use Rattle.std.specs.Prelude.{◌≡◌};

use abstract_state::Domain;
use bit_words::{BitCursor, split_words, words};
use osek_values::Memory;
use std::alloc::Global;
use std::marker::Model;

/// A set of numbers of values of a domain, each a bit. The first 128 stand in the set itself: most tasks have no more values,
/// and events and alarms have two. Further words end at the last one that was needed.
#[derive(Drop)]
pub struct NumberedSet {
    pub(crate) domain: Domain,
    pub(crate) low: u64,
    pub(crate) high: u64,
    pub(crate) more: Vec<u64>,
}

impl Model for NumberedSet {
    ghost use Rattle.std.specs.Prelude.{◌∷◌};
    ghost use Rattle.bit_words.specs.Words.{bits_of_words};
    ghost use Rattle.numbered_sets.specs.Numbers.{Numbers};

    ghost Value = { Numbers };

    ghost view = { λ s. record { domain = s.domain; bits = bits_of_words (s.low ∷ s.high ∷ s.more.items) } };
}

impl NumberedSet {
    ghost use Rattle.std.specs.{Prelude.{ℕ, false, IsTrue, ◌≡◌, ◌∷◌, ◌<◌, ◌≤◌, ◌+◌, ◌%◌, ◌^◌, ◌==◌, not, bit_and, IfOk, OnOk, OnErr}, Bool.{OnTrue}};
    ghost use Rattle.bit_words.specs.{Words.{bits_of_words}, Cursors.{IsBefore, IsNextNumber}};
    ghost use Rattle.numbered_sets.specs.Numbers.{numbers, has_number, with_number, joined_numbers, kept_numbers, other_numbers, number_count, meets};

    /// The set without a number. It takes no memory yet.
    pub fn new(alloc: Global, domain: Domain) -> NumberedSet
        ensures { result ≡ numbers domain 0 }
    {
        NumberedSet {
            domain,
            low: 0,
            high: 0,
            more: Vec::new(alloc),
        }
    }

    /// The same with room for so many words past the first two.
    pub fn with_room(alloc: Global, domain: Domain, words: usize) -> Result<NumberedSet, Memory>
        ensures { IfOk result (λ set. set ≡ numbers domain 0) }
    {
        let more = Vec::with_capacity(alloc, words)?;
        Ok(NumberedSet {
            domain,
            low: 0,
            high: 0,
            more,
        })
    }

    /// The same with room for as many numbers as another set has words for.
    pub fn beside(alloc: Global, other: &NumberedSet) -> Result<NumberedSet, Memory>
        ensures { IfOk result (λ set. set ≡ numbers other.now.domain 0) }
    {
        let more = words::clear_words(alloc, other.more.len())?;
        Ok(NumberedSet {
            domain: other.domain,
            low: 0,
            high: 0,
            more,
        })
    }

    /// Gives up the words after the last number. No number changes.
    pub fn trim(&mut self)
        ensures { self.new ≡ self.old }
    {
        words::trim(&mut self.more);
    }

    /// What its numbers are numbers of.
    pub fn domain(&self) -> Domain
        ensures { result ≡ self.now.domain }
    {
        self.domain
    }

    /// Whether a number is in the set.
    pub fn has(&self, number: usize) -> bool
        ensures { result ≡ has_number self.now number }
    {
        split_words::has(self.low, self.high, self.more.as_slice(), number)
    }

    /// The first number in the set from one on, if it is below a bound; else the bound.
    #[inline(always)]
    pub fn next(&self, from: usize, below: usize) -> usize
        requires { from ≤ below }
        ensures up { from ≤ result }
        ensures few { result ≤ below }
        ensures has { result < below → IsTrue (has_number self.now result) }
        ensures none { (k : ℕ) → from ≤ k → k < result → has_number self.now k ≡ false }
    {
        split_words::next(self.low, self.high, self.more.as_slice(), from, below)
    }

    /// A cursor before the numbers from one on.
    pub(crate) fn cursor(&self, from: usize) -> BitCursor
        ensures { IsBefore self.now.bits from result }
    {
        split_words::cursor(self.low, self.high, self.more.as_slice(), from)
    }

    /// The next number of a cursor, if it is below a bound; else the bound.
    #[inline(always)]
    pub(crate) fn advance(&self, cursor: &mut BitCursor, below: usize) -> usize
        requires { cursor.old.base % 64 ≡ 0 }
        ensures number { (from : ℕ) → from ≤ below → IsBefore self.now.bits from cursor.old → IsNextNumber self.now.bits from below result }
        ensures behind { result < below → (from : ℕ) → IsBefore self.now.bits from cursor.old → IsBefore self.now.bits (result + 1) cursor.new }
    {
        words::are_two_words(self.low, self.high);
        if cursor.rest != 0 {
            return cursor.step().min(below);
        }
        let place = cursor.base / 64 + 1;
        *cursor = split_words::next_word(self.high, self.more.as_slice(), place, below);
        if cursor.rest == 0 {
            return below;
        }
        cursor.step().min(below)
    }

    /// Puts a number in the set, and tells whether it is new there.
    pub fn insert(&mut self, number: usize) -> Result<bool, Memory>
        ensures is_new { IfOk result (λ is_new. is_new ≡ not (has_number self.old number)) }
        ensures set { OnOk result (self.new ≡ with_number self.old number) }
        ensures err { OnErr result (self.new ≡ self.old) }
    {
        if self.has(number) {
            return Ok(false);
        }
        self.put(number)?;
        Ok(true)
    }

    /// Puts a number in the set.
    #[inline(always)]
    pub fn put(&mut self, number: usize) -> Result<(), Memory>
        ensures set { OnOk result (self.new ≡ with_number self.old number) }
        ensures err { OnErr result (self.new ≡ self.old) }
    {
        words::are_two_words(self.low, self.high);
        if number < 64 {
            self.low = words::with_bit(self.low, number);
            return Ok(());
        }
        if number < 128 {
            self.high = words::with_bit(self.high, number - 64);
            return Ok(());
        }
        let further = number - 128;
        // mostly there is room
        if further / 64 < self.more.len() {
            words::put(self.more.as_mut_slice(), further);
            return Ok(());
        }
        words::widen(&mut self.more, further / 64 + 1)?;
        words::put(self.more.as_mut_slice(), further);
        Ok(())
    }

    /// Whether the set has some number whose bit is set in words, of which the first two stand apart.
    pub fn meets_words(&self, low: u64, high: u64, more: &[u64]) -> bool
        ensures { result ≡ not (bit_and (bits_of_words (low ∷ high ∷ more.now)) self.now.bits == 0) }
    {
        words::are_two_words(self.low, self.high);
        if low & self.low != 0 {
            return true;
        }
        if high & self.high != 0 {
            return true;
        }
        words::meet(more, self.more.as_slice())
    }

    /// Whether there is no number.
    pub fn is_empty(&self) -> bool
        ensures { result ≡ (self.now.bits == 0) }
    {
        split_words::are_clear(self.low, self.high, self.more.as_slice())
    }

    /// How many words it has past the first two.
    pub(crate) fn words(&self) -> usize {
        self.more.len()
    }

    /// Whether it has words past the first two, and numbers in at least half of them.
    pub(crate) fn is_large(&self) -> bool {
        !self.more.is_empty() && count_clear(self.more.as_slice()) <= self.more.len() / 2
    }

    /// The same set again.
    pub fn copy(&self, alloc: Global) -> Result<NumberedSet, Memory>
        ensures { IfOk result (λ set. set ≡ self.now) }
    {
        self.copy_for(alloc, self.domain)
    }

    /// The same numbers, of values of a domain.
    pub fn copy_for(&self, alloc: Global, domain: Domain) -> Result<NumberedSet, Memory>
        ensures { IfOk result (λ set. set ≡ numbers domain self.now.bits) }
    {
        let more = words::copied(alloc, self.more.as_slice())?;
        Ok(NumberedSet {
            domain,
            low: self.low,
            high: self.high,
            more,
        })
    }

    /// The numbers that another set lacks.
    pub fn without(&self, alloc: Global, other: &NumberedSet) -> Result<NumberedSet, Memory>
        ensures { IfOk result (λ set. set ≡ other_numbers self.now other.now) }
    {
        words::are_two_words(self.low, self.high);
        words::are_two_words(other.low, other.high);
        let mut more = words::copied(alloc, self.more.as_slice())?;
        words::leave_out_trimmed(&mut more, other.more.as_slice());
        Ok(NumberedSet {
            domain: self.domain,
            low: words::without(self.low, other.low),
            high: words::without(self.high, other.high),
            more,
        })
    }

    /// Puts in the numbers of another set.
    pub(crate) fn join(&mut self, other: &NumberedSet) -> Result<(), Memory>
        ensures set { OnOk result (self.new ≡ joined_numbers self.old other.now) }
        ensures err { OnErr result (self.new ≡ self.old) }
    {
        words::are_two_words(self.low, self.high);
        words::are_two_words(other.low, other.high);
        words::widen(&mut self.more, other.more.len())?;
        words::put_all(self.more.as_mut_slice(), other.more.as_slice());
        self.low = self.low | other.low;
        self.high = self.high | other.high;
        Ok(())
    }
}

// how many words have no bit
fn count_clear(words: &[u64]) -> usize {
    let mut clear: usize = 0;
    for word in words {
        if *word == 0 {
            clear = clear.saturating_add(1);
        }
    }
    clear
}
