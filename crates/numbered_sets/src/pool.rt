//! The values that the components were seen with, by number.
ghost use Rattle.std.specs.Prelude.{◌≡◌};

use crate::numbered_entry::NumberedEntry;
use crate::numbered_set::NumberedSet;
use crate::shared_values::SharedValues;
use abstract_state::{Domain, PartValue};
use flow_model::{Test, Update};
use osek_values::{BlockNo, Memory, Seq};
use std::alloc::Global;
use std::marker::Model;

/// The values that each component was seen with, in the order of first use. A value keeps its number as more come in.
#[derive(Drop)]
pub struct Pool {
    components: Seq<SharedValues>,
    // for where numbers are asked; nothing rests on it
    place: u32,
}

impl Model for Pool {
    ghost use Rattle.std.specs.Prelude.{List};
    ghost use Rattle.numbered_sets.specs.Pools.{Values};

    ghost Value = { List Values };

    ghost view = { λ p. p.components };
}

impl Pool {
    ghost use Rattle.std.specs.Prelude.{ℕ, ◌≡◌, ◌<◌, length, map, slice_set, IfOk, OnOk, OnErr, IfSome, IsTrue, All};
    ghost use Rattle.abstract_state.specs.{declared.value.PartValue.{PartValue}, Domains.{IsWithin, domain_size}, Tables.{is_member}};
    ghost use Rattle.flow_model.specs.{Tests.{updated}, Values.{block_of_part}};
    ghost use Rattle.numbered_sets.specs.{Passing.{IsSifted}, Pools.{no_values, value_seen, seen_at, values_at, domain_at, AreValues, IsNumberOf, IsBeside, IsLonger}};
    ghost use Rattle.numbered_sets.specs.{Numbers.{has_number}, NumberedEntries.{numbers_at}, Views.{plain_set}, Made.{AreMade}};

    /// A pool without values, for a component of each domain.
    pub fn new(alloc: Global, domains: &[Domain]) -> Result<Pool, Memory>
        ensures { IfOk result (λ pool. pool ≡ map no_values domains.now) }
    {
        let mut components = Seq::new(alloc);
        for domain in domains {
            components.push(SharedValues::new(alloc, *domain)?)?;
        }
        Ok(Pool {
            components,
            place: 0,
        })
    }

    /// The number of a component's value, which comes in last where it is new.
    pub fn number(&mut self, component: usize, value: PartValue) -> Result<usize, Memory>
        requires known { component < length self.old }
        requires within { IsWithin (domain_at self.old component) value }
        ensures pool { OnOk result (self.new ≡ slice_set self.old component (value_seen (seen_at self.old component) value)) }
        ensures number { IfOk result (IsNumberOf (values_at self.new component) value) }
        ensures below { IfOk result (λ n. n < domain_size (domain_at self.old component)) }
        ensures err { OnErr result (self.new ≡ self.old) }
    {
        let number = self.number_of(component, &value)?;
        Ok(number)
    }

    // the same by a value that stays
    pub(crate) fn number_of(&mut self, component: usize, value: &PartValue) -> Result<usize, Memory>
        requires known { component < length self.old }
        requires within { IsWithin (domain_at self.old component) value.now }
        ensures pool { OnOk result (self.new ≡ slice_set self.old component (value_seen (seen_at self.old component) value.now)) }
        ensures number { IfOk result (IsNumberOf (values_at self.new component) value.now) }
        ensures below { IfOk result (λ n. n < domain_size (domain_at self.old component)) }
        ensures err { OnErr result (self.new ≡ self.old) }
    {
        let seen = self.components.at_mut(component);
        let number = seen.number(value)?;
        Ok(number)
    }

    /// The numbers of what an update makes of a component's values with the numbers of a set. Those that are new come in
    /// last, also where memory is wanted.
    pub fn numbers_after(
        &mut self,
        alloc: Global,
        component: usize,
        numbers: &NumberedSet,
        update: &Update,
    ) -> Result<NumberedSet, Memory>
        requires known { component < length self.old }
        requires given { (n : ℕ) → IsTrue (has_number numbers.now n) → n < length (values_at self.old component) }
        requires within { (n : ℕ) (v : PartValue) → IsTrue (has_number numbers.now n) → IsNumberOf (values_at self.old component) v n → IsWithin (domain_at self.old component) (updated update.now v) }
        ensures pool { IsLonger self.old self.new }
        ensures made { IfOk result (AreMade (updated update.now) (values_at self.new component) numbers.now (length (values_at self.old component))) }
    {
        let seen = self.components.at_mut(component);
        seen.numbers_after(alloc, numbers, update, self.place)
    }

    /// Tells for where numbers will be asked. What updates make of large sets is kept for each place, as it asks again with sets
    /// that have grown; for place 0, as long as none was told, nothing is kept.
    pub fn turn_to(&mut self, place: u32)
        ensures { self.new ≡ self.old }
    {
        self.place = place;
    }

    /// How many values a component was seen with.
    pub fn len(&self, component: usize) -> usize
        requires { component < length self.now }
        ensures { result ≡ length (values_at self.now component) }
    {
        self.components.at(component).seen().len()
    }

    /// What a component's values are values of.
    pub fn domain(&self, component: usize) -> Domain
        requires { component < length self.now }
        ensures { result ≡ domain_at self.now component }
    {
        self.components.at(component).seen().domain()
    }

    /// A component's value with a number.
    pub fn value(&self, component: usize, number: usize) -> PartValue
        requires known { component < length self.now }
        requires given { number < length (values_at self.now component) }
        ensures { IsNumberOf (values_at self.now component) result number }
    {
        self.components.at(component).seen().value(number)
    }

    /// The block of a component's value with a number; 0 where it has none.
    pub fn block(&self, component: usize, number: usize) -> BlockNo
        requires known { component < length self.now }
        requires given { number < length (values_at self.now component) }
        ensures { (v : PartValue) → IsNumberOf (values_at self.now component) v number → result ≡ block_of_part v }
    {
        self.components.at(component).seen().block(number)
    }

    /// The number of what a component's value would be at the block before its own, if that was seen.
    pub fn beside(&self, component: usize, number: usize) -> Option<usize>
        requires known { component < length self.now }
        requires given { number < length (values_at self.now component) }
        ensures { IfSome result (IsBeside (values_at self.now component) number) }
    {
        self.components.at(component).seen().beside(number)
    }

    /// Whether a component's set has the number of a value.
    pub fn has_value(&self, component: usize, value: &PartValue, entry: &NumberedEntry) -> bool
        requires { component < length self.now }
        ensures { result ≡ is_member (plain_set (values_at self.now component) (numbers_at entry.now component)) value.now }
    {
        self.components
            .at(component)
            .seen()
            .has_value(value, component, entry)
    }

    /// Leaves out the numbers of a component's values that don't pass a test. What passes is kept, so that a value is asked once.
    pub fn keep_passing(
        &mut self,
        alloc: Global,
        component: usize,
        test: &Test,
        entry: &mut NumberedEntry,
    ) -> Result<(), Memory>
        requires known { component < length self.old }
        requires set { component < length entry.old.sets }
        ensures same { self.new ≡ self.old }
        ensures passing { OnOk result (IsSifted (values_at self.old component) test.now (numbers_at entry.old component) (numbers_at entry.new component)) }
        ensures others { OnOk result (entry.new.sets ≡ slice_set entry.old.sets component (numbers_at entry.new component)) }
        ensures err { OnErr result (entry.new ≡ entry.old) }
    {
        self.components
            .at_mut(component)
            .keep_passing(alloc, test, component, entry)
    }

    /// The numbers of a component's values that pass a test. The entry stays as it is.
    pub fn passing(
        &mut self,
        alloc: Global,
        component: usize,
        test: &Test,
        entry: &NumberedEntry,
    ) -> Result<NumberedSet, Memory>
        requires known { component < length self.old }
        requires set { component < length entry.now.sets }
        ensures same { self.new ≡ self.old }
        ensures passing { IfOk result (IsSifted (values_at self.old component) test.now (numbers_at entry.now component)) }
    {
        self.components
            .at_mut(component)
            .passing(alloc, test, component, entry)
    }

    /// Another pool with the same values under the same numbers. The two share a component's values until either gets a new one there.
    pub fn copy(&self, alloc: Global) -> Result<Pool, Memory>
        ensures { IfOk result (λ pool. pool ≡ self.now) }
    {
        let mut components = Seq::new(alloc);
        for seen in self.components.as_slice() {
            components.push(seen.share(alloc)?)?;
        }
        Ok(Pool {
            components,
            place: 0,
        })
    }

    /// No value of a component has two numbers, and each is one of the component's domain.
    pub fn are_values(&self)
        ensures { All AreValues self.now }
    {
        for seen in self.components.as_slice() {
            seen.seen().are_values();
        }
    }
}
