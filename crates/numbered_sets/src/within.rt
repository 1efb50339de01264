//! Whether sets of numbers are within others.
ghost use Rattle.std.specs.{Prelude.{ℕ, List, ◌≡◌, ◌∷◌, ◌<◌, ◌==◌, length, slice_index_or, bit_and, bit_xor}, Bool.{OnTrue}};
ghost use Rattle.bit_words.specs.{Words.{bits_of_words}, Further.{further_bits}};
ghost use Rattle.numbered_sets.specs.Within.{bits_beside};

use crate::flat_sets::NumberedSets;
use crate::numbered_set::NumberedSet;
use bit_words::{SharedWords, further, words};
use osek_values::Seq;

impl NumberedSets {
    ghost use Rattle.std.specs.{Prelude.{◌≡◌, ◌==◌}, Bool.{OnTrue, OnFalse}};
    ghost use Rattle.numbered_sets.specs.{Numbers.{other_numbers}, SetLists.{set_of}, Within.{AreWithin, HasNumberBeside}};

    /// Whether each number of each set is one of the other's.
    pub fn is_within(&self, other: &NumberedSets) -> bool
        ensures within { OnTrue result (AreWithin self.now other.now) }
        ensures beside { OnFalse result (HasNumberBeside self.now other.now) }
    {
        if self.are_words_within(other) {
            return true;
        }
        for component in 0..self.len() {
            if !self.is_set_within(component, other) {
                return false;
            }
        }
        true
    }

    // Whether the words are within the other's, all low ones first. Mostly they are, and this looks at no set by itself.
    fn are_words_within(&self, other: &NumberedSets) -> bool
        ensures { OnTrue result (AreWithin self.now other.now) }
    {
        words::are_words(self.low.as_slice());
        words::are_words(self.high.as_slice());
        words::are_words(other.low.as_slice());
        words::are_words(other.high.as_slice());
        if !words::have_all(other.low.as_slice(), self.low.as_slice()) {
            return false;
        }
        if !words::have_all(other.high.as_slice(), self.high.as_slice()) {
            return false;
        }
        if !are_further_within(&self.more, &other.more) {
            return false;
        }
        true
    }

    /// Whether each number of a component's set is one of the other's.
    pub fn is_set_within(&self, component: usize, other: &NumberedSets) -> bool
        ensures { result ≡ ((other_numbers (set_of self.now component) (set_of other.now component)).bits == 0) }
    {
        let low = words::word_at(self.low.as_slice(), component);
        let high = words::word_at(self.high.as_slice(), component);
        let other_low = words::word_at(other.low.as_slice(), component);
        let other_high = words::word_at(other.high.as_slice(), component);
        if words::without(low, other_low) != 0 {
            return false;
        }
        if words::without(high, other_high) != 0 {
            return false;
        }
        are_within(
            further::of(&self.more, component),
            further::of(&other.more, component),
        )
    }

    /// Whether a component's set has each number of another one.
    pub fn has_each(&self, component: usize, other: &NumberedSet) -> bool
        ensures { result ≡ ((other_numbers other.now (set_of self.now component)).bits == 0) }
    {
        let low = words::word_at(self.low.as_slice(), component);
        let high = words::word_at(self.high.as_slice(), component);
        words::are_two_words(other.low, other.high);
        if words::without(other.low, low) != 0 {
            return false;
        }
        if words::without(other.high, high) != 0 {
            return false;
        }
        are_within(other.more.as_slice(), further::of(&self.more, component))
    }
}

impl NumberedSet {
    ghost use Rattle.std.specs.Prelude.{◌≡◌, ◌==◌};
    ghost use Rattle.numbered_sets.specs.Numbers.{other_numbers};

    /// Whether each number is one of another set.
    pub fn is_within(&self, other: &NumberedSet) -> bool
        ensures { result ≡ ((other_numbers self.now other.now).bits == 0) }
    {
        words::are_two_words(self.low, self.high);
        words::are_two_words(other.low, other.high);
        if words::without(self.low, other.low) != 0 {
            return false;
        }
        if words::without(self.high, other.high) != 0 {
            return false;
        }
        are_within(self.more.as_slice(), other.more.as_slice())
    }
}

// whether the further words of each component are within the others'
fn are_further_within(more: &Seq<SharedWords>, other: &Seq<SharedWords>) -> bool
    ensures { OnTrue result ((c : ℕ) → bits_beside (further_bits more.now c) (further_bits other.now c) ≡ 0) }
{
    for component in 0..more.len() {
        if !are_within(further::of(more, component), further::of(other, component)) {
            return false;
        }
    }
    true
}

// whether each bit of words is one of the others'
fn are_within(words: &[u64], other: &[u64]) -> bool
    ensures { result ≡ (bits_beside (bits_of_words words.now) (bits_of_words other.now) == 0) }
{
    words::are_words(words);
    words::are_words(other);
    for place in 0..words.len() {
        if words::without(words[place], words::word_at(other, place)) != 0 {
            return false;
        }
    }
    true
}
