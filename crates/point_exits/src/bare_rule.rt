//! Rules by which routines begin with all values.
ghost use Rattle.std.specs.Prelude.{◌≡◌, ◌<◌, true, length, slice_index_or, IfOk, IfSome};
ghost use Rattle.flow_model.specs.declared.change.Change.{Change};
ghost use Rattle.numbered_sets.specs.NumberedEntries.{AreFilled};
ghost use Rattle.point_exits.specs.{Applying.{IsAloneIn}, Leaving.{is_bare as is_bare_of}};

use crate::changes::updated;
use crate::group::NumberEnd;
use abstract_state::PartValue;
use flow_model::{Rule, Update};
use numbered_sets::{NumberedEntry, NumberedSet, Pool};
use osek_values::{Memory, Seq};
use std::alloc::Global;

/// A rule that takes all values of an entry, and changes one component.
#[derive(Clone, Copy)]
pub struct BareRule<'a> {
    pub rule: &'a Rule,
    pub entry: &'a NumberedEntry,
    ghost bare: { is_bare_of rule.now ≡ true },
    ghost known: { (x : Change) → slice_index_or rule.now.changes 0 x ≡ x → x.component.0 < length entry.now.sets },
    ghost filled: { AreFilled entry.now },
}

impl<'a> BareRule<'a> {
    ghost use Rattle.std.specs.Prelude.{IfOk, OnOk, IfSome};
    ghost use Rattle.numbered_sets.specs.{Pools.{IsLonger}, Views.{AreNumbersOf}};
    ghost use Rattle.point_exits.specs.{Applying.{MayApply}, Leaving.{AddsEnd, IsSetEnd}};

    /// Adds what it makes of the component that it changes.
    pub fn push_end(
        &self,
        alloc: Global,
        pool: &mut Pool,
        shared: &mut Seq<NumberEnd>,
    ) -> Result<(), Memory>
        requires { MayApply self.now.rule.now pool.old self.now.entry.now }
        ensures pool { IsLonger pool.old pool.new }
        ensures added { OnOk result (AddsEnd self.now.rule.now self.now.entry.now pool.old shared.old pool.new shared.new) }
    {
        let Some(end) = self.second_end(alloc, pool)? else {
            return self.push_made(alloc, pool, shared);
        };
        shared.push(end)?;
        Ok(())
    }

    // the end, where it sets the value that its component was seen with second
    fn second_end(&self, alloc: Global, pool: &Pool) -> Result<Option<NumberEnd>, Memory>
        requires { AreNumbersOf pool.now self.now.entry.now }
        ensures { IfOk result (λ end. IfSome end (IsSetEnd self.now.rule.now pool.now)) }
    {
        let change = self.rule.changes.at(0);
        let Update::Set(to) = &change.update else {
            return Ok(None);
        };
        let component = change.component.index();
        let Some(numbers) = second_alone(alloc, pool, component, to)? else {
            return Ok(None);
        };
        Ok(Some(NumberEnd {
            component,
            numbers,
            target: self.rule.target,
        }))
    }

    // adds the end by the numbers of what it makes of each value
    fn push_made(
        &self,
        alloc: Global,
        pool: &mut Pool,
        shared: &mut Seq<NumberEnd>,
    ) -> Result<(), Memory>
        requires { MayApply self.now.rule.now pool.old self.now.entry.now }
        ensures pool { IsLonger pool.old pool.new }
        ensures added { OnOk result (AddsEnd self.now.rule.now self.now.entry.now pool.old shared.old pool.new shared.new) }
    {
        let component = self.rule.changes.at(0).component.index();
        let numbers = self.entry.sets.set(alloc, component)?;
        let made = updated(
            alloc,
            &self.rule.changes,
            Some(0),
            pool,
            component,
            &numbers,
        )?;
        shared.push(NumberEnd {
            component,
            numbers: made,
            target: self.rule.target,
        })?;
        Ok(())
    }
}

// The set of the number of a value alone, where the component was seen with it second: mostly a source is out at first, and
// then its routine begins. So no value is looked up.
fn second_alone(
    alloc: Global,
    pool: &Pool,
    component: usize,
    value: &PartValue,
) -> Result<Option<NumberedSet>, Memory>
    requires { component < length pool.now }
    ensures { IfOk result (λ set. IfSome set (IsAloneIn pool.now component value.now)) }
{
    if pool.len(component) < 2 {
        return Ok(None);
    }
    if !pool.value(component, 1).is(value) {
        return Ok(None);
    }
    let mut alone = NumberedSet::new(alloc, pool.domain(component));
    alone.put(1)?;
    Ok(Some(alone))
}
