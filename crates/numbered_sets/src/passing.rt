//! Which of a component's values pass a test.
use crate::numbered_entry::NumberedEntry;
use crate::numbered_set::NumberedSet;
use crate::seen_values::SeenValues;
use abstract_state::PartValue;
use osek_values::Memory;
use std::alloc::Global;

impl SeenValues {
    ghost use Rattle.std.specs.Prelude.{◌≡◌, ◌<◌, length, slice_set, IfOk, OnOk, OnErr};
    ghost use Rattle.abstract_state.specs.{declared.value.PartValue.{PartValue}, Tables.{is_member}};
    ghost use Rattle.flow_model.specs.declared.test.Test.TheVariants as Test;
    ghost use Rattle.numbered_sets.specs.{Passing.{IsNumberAlone, IsSifted}, NumberedEntries.{numbers_at}, Views.{plain_set}};

    /// Leaves out all numbers of a component but that of a value.
    pub fn keep_value(
        &self,
        alloc: Global,
        value: &PartValue,
        component: usize,
        entry: &mut NumberedEntry,
    ) -> Result<(), Memory>
        requires { component < length entry.old.sets }
        ensures passing { OnOk result (IsSifted self.now.values (Test.Is value.now) (numbers_at entry.old component) (numbers_at entry.new component)) }
        ensures others { OnOk result (entry.new.sets ≡ slice_set entry.old.sets component (numbers_at entry.new component)) }
        ensures err { OnErr result (entry.new ≡ entry.old) }
    {
        let alone = self.alone(alloc, value)?;
        entry.keep(component, &alone)?;
        Ok(())
    }

    /// Leaves out the number of a value from those of a component.
    pub fn leave_value(
        &self,
        alloc: Global,
        value: &PartValue,
        component: usize,
        entry: &mut NumberedEntry,
    ) -> Result<(), Memory>
        requires { component < length entry.old.sets }
        ensures passing { OnOk result (IsSifted self.now.values (Test.IsNot value.now) (numbers_at entry.old component) (numbers_at entry.new component)) }
        ensures others { OnOk result (entry.new.sets ≡ slice_set entry.old.sets component (numbers_at entry.new component)) }
        ensures err { OnErr result (entry.new ≡ entry.old) }
    {
        let alone = self.alone(alloc, value)?;
        entry.leave_out(component, &alone)?;
        Ok(())
    }

    /// The number of a value by itself, if a component's set has it.
    pub fn only(
        &self,
        alloc: Global,
        value: &PartValue,
        component: usize,
        entry: &NumberedEntry,
    ) -> Result<NumberedSet, Memory>
        requires { component < length entry.now.sets }
        ensures { IfOk result (IsSifted self.now.values (Test.Is value.now) (numbers_at entry.now component)) }
    {
        self.are_values();
        let mut only = NumberedSet::new(alloc, entry.sets.domain(component));
        match self.number_of(value) {
            None => Ok(only),
            Some(number) => {
                if !entry.sets.has(component, number) {
                    return Ok(only);
                }
                only.put(number)?;
                Ok(only)
            }
        }
    }

    /// Whether a component's set has the number of a value.
    pub fn has_value(&self, value: &PartValue, component: usize, entry: &NumberedEntry) -> bool
        ensures { result ≡ is_member (plain_set self.now.values (numbers_at entry.now component)) value.now }
    {
        self.are_values();
        match self.number_of(value) {
            None => false,
            Some(number) => entry.sets.has(component, number),
        }
    }

    // the set of a value's number; it is empty where the value has none
    fn alone(&self, alloc: Global, value: &PartValue) -> Result<NumberedSet, Memory>
        ensures { IfOk result (IsNumberAlone self.now.values value.now) }
    {
        self.are_values();
        let mut alone = NumberedSet::new(alloc, self.domain());
        match self.number_of(value) {
            None => Ok(alone),
            Some(number) => {
                alone.put(number)?;
                Ok(alone)
            }
        }
    }
}
