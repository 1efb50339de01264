//! Sets of numbers for components, in flat words.
ghost use Rattle.std.specs.Prelude.{◌≡◌, ◌<◌, length, slice_index_or};
ghost use Rattle.abstract_state.specs.declared.value.Domain.{Domain};

use crate::numbered_set::NumberedSet;
use abstract_state::Domain;
use bit_words::{BitCursor, SharedWords, further, split_words, words};
use osek_values::{Memory, Seq};
use std::alloc::Global;
use std::marker::Model;
use std::rc::Rc;

/// A set of numbers of values of a domain for each of some components. The first 64 numbers of each stand in an array, with a
/// word for each component: most have no more values, and events and alarms have two. Second and further words are few.
#[derive(Drop)]
pub struct NumberedSets {
    // copies share them
    pub(crate) domains: Rc<Vec<Domain>>,
    pub(crate) low: Vec<u64>,
    // the second words, up to the last component that needed one
    pub(crate) high: Vec<u64>,
    // the words after them, alike: empty as long as no number is past the first 128
    pub(crate) more: Seq<SharedWords>,
}

impl Model for NumberedSets {
    ghost use Rattle.std.specs.Prelude.{◌≡◌, ◌≤◌, List, length};
    ghost use Rattle.numbered_sets.specs.{Numbers.{Numbers}, FlatSets.{flat_sets}};

    ghost Value = { List Numbers };

    ghost view = { λ s. flat_sets s.domains.value.items s.low.items s.high.items s.more };

    ghost invariant = { λ s. (length s.low.items ≡ length s.domains.value.items) × (length s.high.items ≤ length s.domains.value.items) × (length s.more ≤ length s.domains.value.items) };
}

impl NumberedSets {
    ghost use Rattle.std.specs.Prelude.{ℕ, false, IsTrue, ◌≡◌, ◌<◌, ◌≤◌, ◌+◌, ◌*◌, ◌%◌, ◌^◌, ◌==◌, not, length, map, slice_set, IfOk, OnOk, OnErr, EachIndex, SomeIndex};
    ghost use Rattle.std.specs.Bool.{OnTrue, OnFalse};
    ghost use Rattle.bit_words.specs.Cursors.{IsBefore, IsNextNumber, IsAtWord};
    ghost use Rattle.numbered_sets.specs.{Numbers.{numbers, has_number, with_number, kept_numbers, other_numbers, number_count, meets}, SetLists.{set_of, all_numbers, AreJoinedSets}};

    /// The sets without a number, for a component of each domain.
    pub fn new(alloc: Global, domains: &[Domain]) -> Result<NumberedSets, Memory>
        ensures { IfOk result (λ sets. sets ≡ map (λ d. numbers d 0) domains.now) }
    {
        let low = words::clear_words(alloc, domains.len())?;
        let copy = Vec::from_slice(alloc, domains)?;
        let domains = Rc::new(alloc, copy)?;
        Ok(NumberedSets {
            domains,
            low,
            high: Vec::new(alloc),
            more: Seq::new(alloc),
        })
    }

    /// How many sets there are.
    pub fn len(&self) -> usize
        ensures { result ≡ length self.now }
    {
        self.domains.len()
    }

    /// What a component's numbers are numbers of.
    pub fn domain(&self, component: usize) -> Domain
        requires { component < length self.now }
        ensures { result ≡ (set_of self.now component).domain }
    {
        domain_at(self.domains.as_slice(), component)
    }

    /// Whether a number is in a component's set.
    pub fn has(&self, component: usize, number: usize) -> bool
        ensures { result ≡ has_number (set_of self.now component) number }
    {
        split_words::has(
            words::word_at(self.low.as_slice(), component),
            words::word_at(self.high.as_slice(), component),
            further::of(&self.more, component),
            number,
        )
    }

    /// The first number of a component from one on, if it is below a bound; else the bound.
    pub fn next(&self, component: usize, from: usize, below: usize) -> usize
        requires { from ≤ below }
        ensures up { from ≤ result }
        ensures few { result ≤ below }
        ensures has { result < below → IsTrue (has_number (set_of self.now component) result) }
        ensures none { (k : ℕ) → from ≤ k → k < result → has_number (set_of self.now component) k ≡ false }
    {
        split_words::next(
            words::word_at(self.low.as_slice(), component),
            words::word_at(self.high.as_slice(), component),
            further::of(&self.more, component),
            from,
            below,
        )
    }

    /// A cursor before the numbers of a component from one on.
    pub fn cursor(&self, component: usize, from: usize) -> BitCursor
        ensures { IsBefore (set_of self.now component).bits from result }
    {
        split_words::cursor(
            words::word_at(self.low.as_slice(), component),
            words::word_at(self.high.as_slice(), component),
            further::of(&self.more, component),
            from,
        )
    }

    /// The next number of a cursor among those of a component, if it is below a bound; else the bound.
    #[inline(always)]
    pub fn advance(&self, component: usize, cursor: &mut BitCursor, below: usize) -> usize
        requires { cursor.old.base % 64 ≡ 0 }
        ensures number { (from : ℕ) → from ≤ below → IsBefore (set_of self.now component).bits from cursor.old →
            IsNextNumber (set_of self.now component).bits from below result }
        ensures behind { result < below → (from : ℕ) → IsBefore (set_of self.now component).bits from cursor.old →
            IsBefore (set_of self.now component).bits (result + 1) cursor.new }
    {
        if cursor.rest != 0 {
            return cursor.step().min(below);
        }
        *cursor = self.next_word(component, cursor.base / 64 + 1, below);
        if cursor.rest == 0 {
            return below;
        }
        cursor.step().min(below)
    }

    // a cursor before the numbers of a component's next word that has some, from one on that isn't the first
    fn next_word(&self, component: usize, from: usize, below: usize) -> BitCursor
        requires { 0 < from }
        ensures word { result.base % 64 ≡ 0 }
        ensures some { 0 < result.rest → IsAtWord (set_of self.now component).bits (64 * from) result }
        ensures none { result.rest ≡ 0 → (k : ℕ) → 64 * from ≤ k → k < below → has_number (set_of self.now component) k ≡ false }
    {
        words::are_words(self.low.as_slice());
        split_words::next_word(
            words::word_at(self.high.as_slice(), component),
            further::of(&self.more, component),
            from,
            below,
        )
    }

    /// How many words a component's set has past the first two.
    pub fn words(&self, component: usize) -> usize {
        further::of(&self.more, component).len()
    }

    /// How many numbers a component's set has.
    pub fn count(&self, component: usize) -> u64
        requires { number_count (set_of self.now component) < 2 ^ 64 }
        ensures { result ≡ number_count (set_of self.now component) }
    {
        split_words::count(
            words::word_at(self.low.as_slice(), component),
            words::word_at(self.high.as_slice(), component),
            further::of(&self.more, component),
        )
    }

    /// Whether a component's set has no number.
    pub fn is_empty(&self, component: usize) -> bool
        ensures { result ≡ ((set_of self.now component).bits == 0) }
    {
        split_words::are_clear(
            words::word_at(self.low.as_slice(), component),
            words::word_at(self.high.as_slice(), component),
            further::of(&self.more, component),
        )
    }

    /// Whether a component's set has some number of another one.
    pub fn meets(&self, component: usize, other: &NumberedSet) -> bool
        ensures { result ≡ meets (set_of self.now component) other.now }
    {
        other.meets_words(
            words::word_at(self.low.as_slice(), component),
            words::word_at(self.high.as_slice(), component),
            further::of(&self.more, component),
        )
    }

    /// Whether each set has a number.
    pub fn is_filled(&self) -> bool
        ensures filled { OnTrue result (EachIndex self.now (λ c. 0 < (set_of self.now c).bits)) }
        ensures none { OnFalse result (SomeIndex self.now (λ c. (set_of self.now c).bits ≡ 0)) }
    {
        if words::have_bits(self.low.as_slice(), self.high.as_slice()) {
            return true;
        }
        for component in 0..self.len() {
            if self.is_empty(component) {
                return false;
            }
        }
        true
    }

    /// Leaves out the numbers of a component that another set lacks.
    pub fn keep(&mut self, component: usize, other: &NumberedSet) -> Result<(), Memory>
        requires { component < length self.old }
        ensures sets { OnOk result (self.new ≡ slice_set self.old component (kept_numbers (set_of self.old component) other.now)) }
        ensures err { OnErr result (self.new ≡ self.old) }
    {
        if component < self.more.len() {
            return self.keep_further(component, other);
        }
        words::are_two_words(other.low, other.high);
        words::keep_at(self.low.as_mut_slice(), component, other.low);
        words::keep_at(self.high.as_mut_slice(), component, other.high);
        Ok(())
    }

    // the same where the component may have further numbers
    #[inline(never)]
    fn keep_further(&mut self, component: usize, other: &NumberedSet) -> Result<(), Memory>
        requires { component < length self.old }
        ensures sets { OnOk result (self.new ≡ slice_set self.old component (kept_numbers (set_of self.old component) other.now)) }
        ensures err { OnErr result (self.new ≡ self.old) }
    {
        let alloc = *self.low.allocator();
        further::keep(alloc, &mut self.more, component, other.more.as_slice())?;
        words::are_two_words(other.low, other.high);
        words::keep_at(self.low.as_mut_slice(), component, other.low);
        words::keep_at(self.high.as_mut_slice(), component, other.high);
        Ok(())
    }

    /// Leaves out the numbers of a component that another set has.
    pub fn leave_out(&mut self, component: usize, other: &NumberedSet) -> Result<(), Memory>
        requires { component < length self.old }
        ensures sets { OnOk result (self.new ≡ slice_set self.old component (other_numbers (set_of self.old component) other.now)) }
        ensures err { OnErr result (self.new ≡ self.old) }
    {
        if component < self.more.len() {
            return self.leave_out_further(component, other);
        }
        words::are_two_words(other.low, other.high);
        words::leave_out_at(self.low.as_mut_slice(), component, other.low);
        words::leave_out_at(self.high.as_mut_slice(), component, other.high);
        Ok(())
    }

    // the same where the component may have further numbers
    #[inline(never)]
    fn leave_out_further(&mut self, component: usize, other: &NumberedSet) -> Result<(), Memory>
        requires { component < length self.old }
        ensures sets { OnOk result (self.new ≡ slice_set self.old component (other_numbers (set_of self.old component) other.now)) }
        ensures err { OnErr result (self.new ≡ self.old) }
    {
        let alloc = *self.low.allocator();
        further::leave_out(alloc, &mut self.more, component, other.more.as_slice())?;
        words::are_two_words(other.low, other.high);
        words::leave_out_at(self.low.as_mut_slice(), component, other.low);
        words::leave_out_at(self.high.as_mut_slice(), component, other.high);
        Ok(())
    }

    /// A component's set by itself.
    pub fn set(&self, alloc: Global, component: usize) -> Result<NumberedSet, Memory>
        requires { component < length self.now }
        ensures { IfOk result (λ set. set ≡ set_of self.now component) }
    {
        let more = words::copied(alloc, further::of(&self.more, component))?;
        Ok(NumberedSet {
            domain: self.domain(component),
            low: words::word_at(self.low.as_slice(), component),
            high: words::word_at(self.high.as_slice(), component),
            more,
        })
    }

    /// Makes a component's set another one of the same domain. Where memory is wanted it stays what it was.
    pub fn put(&mut self, component: usize, other: &NumberedSet) -> Result<(), Memory>
        requires known { component < length self.old }
        requires alike { (set_of self.old component).domain ≡ other.now.domain }
        ensures sets { OnOk result (self.new ≡ slice_set self.old component other.now) }
        ensures err { OnErr result (self.new ≡ self.old) }
    {
        let alloc = *self.low.allocator();
        words::widen_for(&mut self.high, component, other.high)?;
        further::put_words(alloc, &mut self.more, component, other.more.as_slice())?;
        words::replace(self.low.as_mut_slice(), component, other.low);
        words::replace(self.high.as_mut_slice(), component, other.high);
        Ok(())
    }

    /// Joins other sets into these, and tells how many numbers are new. Where memory is wanted they stay what they were.
    pub fn join_into(&mut self, other: &NumberedSets) -> Result<u64, Memory>
        requires as_many { length self.old ≡ length other.now }
        requires few { all_numbers other.now < 2 ^ 64 }
        ensures sets { OnOk result (AreJoinedSets self.old other.now self.new) }
        ensures count { IfOk result (λ n. all_numbers self.new ≡ all_numbers self.old + n) }
        ensures err { OnErr result (self.new ≡ self.old) }
    {
        let alloc = *self.low.allocator();
        words::widen_exactly(&mut self.high, other.high.len())?;
        words::are_words(self.low.as_slice());
        words::are_words(self.high.as_slice());
        words::are_words(other.low.as_slice());
        words::are_words(other.high.as_slice());
        let further = further::join(alloc, &mut self.more, &other.more)?;
        let low = words::join(self.low.as_mut_slice(), other.low.as_slice());
        let high = words::join(self.high.as_mut_slice(), other.high.as_slice());
        Ok(low + high + further)
    }

    /// The same sets again.
    pub fn copy(&self, alloc: Global) -> Result<NumberedSets, Memory>
        ensures { IfOk result (λ sets. sets ≡ self.now) }
    {
        let domains = self.domains.clone()?;
        let low = words::copied(alloc, self.low.as_slice())?;
        let high = words::copied(alloc, self.high.as_slice())?;
        let more = further::copied(alloc, &self.more)?;
        Ok(NumberedSets {
            domains,
            low,
            high,
            more,
        })
    }
}

fn domain_at(domains: &[Domain], place: usize) -> Domain
    requires { place < length domains.now }
    ensures { (none : Domain) → slice_index_or domains.now place none ≡ result }
{
    domains[place]
}
