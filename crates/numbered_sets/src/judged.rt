//! Tests that a component's values were asked, and what they said of them, where that pays.
ghost use Rattle.std.specs.{Prelude.{◌≡◌, ◌<◌}, Bool.{OnTrue}};
ghost use Rattle.numbered_sets.specs.Passing.{reads_no_block};

use crate::column::{Column, NONE};
use crate::numbered_entry::NumberedEntry;
use crate::numbered_set::NumberedSet;
use crate::seen_values::SeenValues;
use abstract_state::Domain;
use flow_model::Test;
use osek_values::{Memory, Seq};
use std::alloc::Global;

/// A test, and the numbers of those of the first values that pass it.
#[derive(Drop)]
pub struct JudgedTest {
    pub test: Test,
    /// How many values were asked.
    pub judged: usize,
    pub passing: NumberedSet,
    /// How many more were asked of which nothing was kept.
    pub spent: usize,
}

/// The tests that values of one domain were asked.
#[derive(Drop)]
pub struct JudgedTests {
    pub tests: Seq<JudgedTest>,
    /// For each load the number of the value that is asked for all that have it.
    pub samples: Column,
    /// For each kind of test where one was found last.
    pub hints: Column,
}

impl JudgedTest {
    ghost use Rattle.std.specs.Prelude.{List, ◌≡◌, ◌<◌, ◌+◌, ◌^◌, length, IfOk, OnOk};
    ghost use Rattle.abstract_state.specs.declared.value.PartValue.{PartValue};
    ghost use Rattle.flow_model.specs.Tests.{passes};
    ghost use Rattle.numbered_sets.specs.{Judging.{IsJudgedTest}, NumberedEntries.{numbers_at}, Passing.{ArePassing}, Pools.{IsNumberOf}};

    /// No value was asked yet.
    pub fn new(alloc: Global, domain: Domain, test: Test) -> JudgedTest
        ensures test { result.test ≡ test }
        ensures judged { (values : List PartValue) → IsJudgedTest values result }
    {
        JudgedTest {
            test,
            judged: 0,
            passing: NumberedSet::new(alloc, domain),
            spent: 0,
        }
    }

    // whether as many values were asked of which nothing was kept as are missing
    fn is_worth_keeping(&self, values: usize) -> bool {
        self.spent.saturating_add(self.judged) >= values
    }

    /// Asks the values that came in since the last time.
    pub fn renew(&mut self, seen: &SeenValues, samples: &mut Column) -> Result<(), Memory>
        requires { IsJudgedTest seen.now.values self.old }
        ensures judged { IsJudgedTest seen.now.values self.new }
        ensures test { self.new.test ≡ self.old.test }
        ensures all { OnOk result (self.new.judged ≡ length seen.now.values) }
    {
        for _number in self.judged..seen.len() {
            self.judge_next(seen, samples)?;
        }
        Ok(())
    }

    // asks the next value
    fn judge_next(&mut self, seen: &SeenValues, samples: &mut Column) -> Result<(), Memory>
        requires next { self.old.judged < length seen.now.values }
        requires room { self.old.judged + 1 < 2 ^ 64 }
        requires judged { IsJudgedTest seen.now.values self.old }
        ensures judged { IsJudgedTest seen.now.values self.new }
        ensures test { self.new.test ≡ self.old.test }
        ensures next { OnOk result (self.new.judged ≡ self.old.judged + 1) }
    {
        let number = self.judged;
        let passes = self.judge(seen, samples, number)?;
        if passes {
            self.passing.put(number)?;
        }
        self.judged = number + 1;
        Ok(())
    }

    // Whether a value passes. What a task holds tells it mostly: of the values with one load, the first alone is asked where its
    // answer is kept.
    fn judge(&self, seen: &SeenValues, samples: &mut Column, number: usize) -> Result<bool, Memory>
        requires given { number < length seen.now.values }
        requires judged { IsJudgedTest seen.now.values self.now }
        ensures { IfOk result (λ passed. (v : PartValue) → IsNumberOf seen.now.values v number → passed ≡ passes self.now.test v) }
    {
        match seen.sample(samples, number) {
            Some(sample) => {
                if sample < self.judged && reads_no_block(&self.test) {
                    return Ok(self.passing.has(sample));
                }
            }
            None => seen.add_sample(samples, number)?,
        }
        Ok(self.test.passes(&seen.value(number)))
    }

    /// The numbers of a component's values that pass, of which each is asked.
    pub fn among(
        &mut self,
        alloc: Global,
        seen: &SeenValues,
        samples: &mut Column,
        component: usize,
        entry: &NumberedEntry,
    ) -> Result<NumberedSet, Memory>
        requires given { component < length entry.now.sets }
        requires judged { IsJudgedTest seen.now.values self.old }
        ensures judged { IsJudgedTest seen.now.values self.new }
        ensures test { self.new.test ≡ self.old.test }
        ensures passing { IfOk result (ArePassing seen.now.values self.old.test (numbers_at entry.now component)) }
    {
        let mut passing = NumberedSet::new(alloc, seen.domain());
        let values = seen.len();
        let mut count: usize = 0;
        let mut cursor = entry.sets.cursor(component, 0);
        let mut number = entry.sets.advance(component, &mut cursor, values);
        while number < values {
            let passes = self.judge(seen, samples, number)?;
            if passes {
                passing.put(number)?;
            }
            count = count.saturating_add(1);
            number = entry.sets.advance(component, &mut cursor, values);
        }
        self.spent = self.spent.saturating_add(count);
        Ok(passing)
    }
}

impl JudgedTests {
    ghost use Rattle.std.specs.Prelude.{List, ◌≡◌, ◌<◌, [], length, slice_index_or, slice_set, IfOk, IfSome, OnOk, OnErr};
    ghost use Rattle.abstract_state.specs.declared.value.PartValue.{PartValue};
    ghost use Rattle.numbered_sets.specs.{declared.judged.JudgedTest.{JudgedTest}, Judging.{AreJudgedTests, IsAskedAt, HasTestAt}, NumberedEntries.{numbers_at}, Passing.{ArePassing, IsSifted}};

    /// No test was asked yet.
    pub fn new(alloc: Global) -> JudgedTests
        ensures { result.tests ≡ [] }
    {
        JudgedTests {
            tests: Seq::new(alloc),
            samples: Column::new(alloc),
            hints: Column::new(alloc),
        }
    }

    /// Leaves out the numbers of a component's values that don't pass a test. The set's values alone are asked, until as
    /// many were asked as are missing.
    pub fn keep_passing(
        &mut self,
        alloc: Global,
        seen: &SeenValues,
        test: &Test,
        component: usize,
        entry: &mut NumberedEntry,
    ) -> Result<(), Memory>
        requires judged { AreJudgedTests seen.now.values self.old.tests }
        requires given { component < length entry.old.sets }
        ensures judged { AreJudgedTests seen.now.values self.new.tests }
        ensures passing { OnOk result (IsSifted seen.now.values test.now (numbers_at entry.old component) (numbers_at entry.new component)) }
        ensures others { OnOk result (entry.new.sets ≡ slice_set entry.old.sets component (numbers_at entry.new component)) }
        ensures err { OnErr result (entry.new ≡ entry.old) }
    {
        let place = self.place_for(alloc, seen, test)?;
        if self.tests.at(place).is_worth_keeping(seen.len()) {
            self.renew(seen, test, place)?;
            entry.keep(component, self.passing(place))?;
            return Ok(());
        }
        let passing = self.passing_among(alloc, seen, place, component, entry)?;
        entry.keep(component, &passing)?;
        Ok(())
    }

    // the numbers of a component's values that pass the test at a place, of which each is asked
    fn passing_among(
        &mut self,
        alloc: Global,
        seen: &SeenValues,
        place: usize,
        component: usize,
        entry: &NumberedEntry,
    ) -> Result<NumberedSet, Memory>
        requires judged { AreJudgedTests seen.now.values self.old.tests }
        requires place { place < length self.old.tests }
        requires given { component < length entry.now.sets }
        ensures judged { AreJudgedTests seen.now.values self.new.tests }
        ensures passing { IfOk result (λ passing. (none : JudgedTest) → ArePassing seen.now.values (slice_index_or self.old.tests place none).test (numbers_at entry.now component) passing) }
    {
        let judged = self.tests.at_mut(place);
        judged.among(alloc, seen, &mut self.samples, component, entry)
    }

    // asks the test at a place of the values that came in since the last time
    fn renew(&mut self, seen: &SeenValues, test: &Test, place: usize) -> Result<(), Memory>
        requires judged { AreJudgedTests seen.now.values self.old.tests }
        requires place { HasTestAt test.now self.old.tests place }
        ensures judged { AreJudgedTests seen.now.values self.new.tests }
        ensures asked { OnOk result (IsAskedAt seen.now.values test.now self.new.tests place) }
    {
        let judged = self.tests.at_mut(place);
        judged.renew(seen, &mut self.samples)?;
        Ok(())
    }

    // the place of a test, which comes in last where it is new
    fn place_for(&mut self, alloc: Global, seen: &SeenValues, test: &Test) -> Result<usize, Memory>
        requires { AreJudgedTests seen.now.values self.old.tests }
        ensures judged { AreJudgedTests seen.now.values self.new.tests }
        ensures place { IfOk result (HasTestAt test.now self.new.tests) }
    {
        let kind = kind_of(test);
        if let Some(place) = self.hinted(kind, test) {
            return Ok(place);
        }
        let place = self.searched(alloc, seen, test)?;
        if place < NONE as usize {
            self.hints.widen(kind + 1)?;
            self.hints.put(kind, place as u32);
        }
        Ok(place)
    }

    // the place where a test of a kind was found last, if it is this one
    fn hinted(&self, kind: usize, test: &Test) -> Option<usize>
        ensures { IfSome result (HasTestAt test.now self.now.tests) }
    {
        let place = self.hints.at(kind) as usize;
        if place < self.tests.len() && are_same(&self.tests.at(place).test, test) {
            return Some(place);
        }
        None
    }

    // the place of a test, which comes in last where it is new
    #[inline(never)]
    fn searched(&mut self, alloc: Global, seen: &SeenValues, test: &Test) -> Result<usize, Memory>
        requires { AreJudgedTests seen.now.values self.old.tests }
        ensures judged { AreJudgedTests seen.now.values self.new.tests }
        ensures place { IfOk result (HasTestAt test.now self.new.tests) }
    {
        if let Some(place) = self.place_of(test) {
            return Ok(place);
        }
        let test = test.copy(alloc)?;
        self.tests
            .push(JudgedTest::new(alloc, seen.domain(), test))?;
        Ok(self.tests.len() - 1)
    }

    // the place of a test that was asked
    fn place_of(&self, test: &Test) -> Option<usize>
        ensures { IfSome result (HasTestAt test.now self.now.tests) }
    {
        for place in 0..self.tests.len() {
            if are_same(&self.tests.at(place).test, test) {
                return Some(place);
            }
        }
        None
    }

    // the numbers of the values that pass the test at a place
    fn passing(&self, place: usize) -> &NumberedSet
        requires { place < length self.now.tests }
        ensures { (none : JudgedTest) → (slice_index_or self.now.tests place none).passing ≡ result.now }
    {
        &self.tests.at(place).passing
    }
}

// whether two tests are seen to be the same; those that name a value are not looked at
fn are_same(one: &Test, other: &Test) -> bool
    ensures { OnTrue result (one.now ≡ other.now) }
{
    match (one, other) {
        (Test::Suspended, Test::Suspended) => true,
        (Test::NotSuspended, Test::NotSuspended) => true,
        (Test::Holds(one), Test::Holds(other)) => one == other,
        (Test::HoldsNoneOf(one), Test::HoldsNoneOf(other)) => one == other,
        (Test::HoldsSome, Test::HoldsSome) => true,
        (Test::HoldsNothing, Test::HoldsNothing) => true,
        (Test::OnTop(one), Test::OnTop(other)) => one == other,
        (Test::NotOnTop(one), Test::NotOnTop(other)) => one == other,
        (Test::Full(one), Test::Full(other)) => one == other,
        (Test::Room(one), Test::Room(other)) => one == other,
        (Test::NoFurther, Test::NoFurther) => true,
        (Test::SomeFurther, Test::SomeFurther) => true,
        (Test::WaitsAt(one), Test::WaitsAt(other)) => one.is(other),
        (Test::WaitsNotAt(one), Test::WaitsNotAt(other)) => one.is(other),
        _ => false,
    }
}

// A number below 96, by which tests are looked for: that of the kind, with the last bits of a resource's number or with how many
// resources there are. Nothing rests on it.
fn kind_of(test: &Test) -> usize
    ensures { result < 96 }
{
    match test {
        Test::Suspended => 0,
        Test::NotSuspended => 1,
        Test::HoldsSome => 2,
        Test::HoldsNothing => 3,
        Test::NoFurther => 4,
        Test::SomeFurther => 5,
        Test::Full(_) => 6,
        Test::Room(_) => 7,
        Test::WaitsAt(_) => 8,
        Test::WaitsNotAt(_) => 9,
        Test::HoldsNoneOf(barred) => 64 + barred.0.count_ones() as usize % 32,
        Test::Holds(resource) => 16 + resource.index() % 16,
        Test::OnTop(resource) => 32 + resource.index() % 16,
        Test::NotOnTop(resource) => 48 + resource.index() % 16,
        Test::Is(_) | Test::IsNot(_) => 11,
    }
}

// whether a test passes alike at each block
fn reads_no_block(test: &Test) -> bool
    ensures { result ≡ reads_no_block test.now }
{
    !matches!(test, Test::Is(_) | Test::IsNot(_))
}
