//! The rules of a point, out of its exits.
ghost use Rattle.std.specs.{Prelude.{◌≡◌, ◌≤◌, ◌++◌, length, IfOk, OnOk}, List.{flat_map}};
ghost use Rattle.osek_standard.specs.Points.{IsPoint};
ghost use Rattle.abstract_state.specs.Domains.{domains, domains_of};
ghost use Rattle.flow_model.specs.{Effects.{AreAllAllowed, IsKnownStay}, Rules.{Covering, Exact, Foresees}};
ghost use Rattle.numbered_sets.specs.{NumberedEntries.{number_domains}, Views.{plain_entry, AreNumbersOf}};
ghost use Rattle.flow_exits.specs.Leaving.{effect_rule};
ghost use Rattle.flow_rules.specs.Instructions.{AddsInstructionRules};
ghost use Rattle.point_exits.specs.{Applying.{KeepsDomains}, Growing.{IsGrown}, OneProof.{SameDomains-prop}};
ghost use Rattle.flow_rules.specs.Ruling.{outcomes_by, AddsRulesOf};
ghost use Rattle.point_exits.specs.Groups.{exit_at as exit_of_group, exits_of, all_exits, IsKnownGroup, AreKnownGroups};

use crate::allowing::allowed_part;
use crate::assembly::add_rules;
use crate::barring::barred;
use abstract_state::{PlainEntry, Point};
use flow_effects::effect_cases;
use flow_exits::{Exit, arrivals};
use flow_model::{Change, EffectCase, OutcomeCase, Rule, Runner};
use numbered_sets::{NumberedEntry, Pool, numbered, plain};
use osek_standard::App;
use osek_values::{Memory, Seq};
use point_exits::{AfterEffect, Ends, ExitGroup, Numbering};
use std::alloc::Global;

/// The rules of a point, over the values that its entry has: one for each routine that may begin there, and one for each
/// exit of an effect of the instruction.
pub fn rules(
    alloc: Global,
    app: &App,
    point: Point,
    pool: &Pool,
    entry: &NumberedEntry,
) -> Result<Seq<Rule>, Memory>
    requires point { IsPoint app.now point }
    requires numbers { AreNumbersOf pool.now entry.now }
    requires domains { number_domains entry.now ≡ domains_of app.now }
    ensures covering { IfOk result (Covering app.now point (plain_entry pool.now entry.now)) }
    ensures instructions { IfOk result (Foresees app.now point (plain_entry pool.now entry.now)) }
    ensures exact { IfOk result (λ rules. AreAllAllowed app.now point (plain_entry pool.now entry.now) → Exact app.now point (plain_entry pool.now entry.now) rules) }
{
    let mut rules = arrivals(alloc, app, point)?;
    match Runner::executing(app, point) {
        None => Ok(rules),
        Some(_) => {
            add_instructions(alloc, app, point, pool, entry, &mut rules)?;
            Ok(rules)
        }
    }
}

// adds the rules of the instruction of a task's or a routine's point
fn add_instructions(
    alloc: Global,
    app: &App,
    point: Point,
    pool: &Pool,
    entry: &NumberedEntry,
    rules: &mut Seq<Rule>,
) -> Result<(), Memory>
    requires point { IsPoint app.now point }
    requires numbers { AreNumbersOf pool.now entry.now }
    requires domains { number_domains entry.now ≡ domains_of app.now }
    ensures { OnOk result (AddsInstructionRules app.now point (plain_entry pool.now entry.now) rules.old rules.new) }
{
    pool.are_values();
    let whole = plain(alloc, pool, entry)?;
    // of other values an effect might make some that no state has
    let from = allowed_part(alloc, app, point, &whole)?;
    let mut grown = pool.copy(alloc)?;
    let numbers = numbered(alloc, &mut grown, &from)?;
    let mut numbering = Numbering::new(alloc, app, grown)?;
    let effects = effect_cases(alloc, app, point, &[])?;
    let ruled = Ruled {
        app,
        from: &from,
        numbers: &numbers,
    };
    for effect in effects.as_slice() {
        ruled.add_effect(alloc, effect, &mut numbering, rules)?;
    }
    Ok(())
}

/// The values before an effect, also by number.
#[derive(Clone, Copy)]
struct Ruled<'a> {
    app: &'a App,
    from: &'a PlainEntry,
    numbers: &'a NumberedEntry,
    ghost alike: { number_domains numbers.now ≡ domains_of app.now } by { SameDomains-prop (number_domains numbers.now) (domains_of app.now) },
    ghost from_alike: { domains from.now ≡ domains_of app.now } by { SameDomains-prop (domains from.now) (domains_of app.now) },
}

impl<'a> Ruled<'a> {
    // adds the rules of an effect, one for each exit
    fn add_effect(
        &self,
        alloc: Global,
        effect: &EffectCase,
        numbering: &mut Numbering,
        rules: &mut Seq<Rule>,
    ) -> Result<(), Memory>
        requires app { numbering.old.app.now ≡ self.now.app.now }
        requires plain { plain_entry numbering.old.pool self.now.numbers.now ≡ self.now.from.now }
        requires numbers { AreNumbersOf numbering.old.pool self.now.numbers.now }
        requires domains { KeepsDomains (effect_rule effect.now) (plain_entry numbering.old.pool self.now.numbers.now) }
        requires stays { IsKnownStay self.now.app.now effect.now.leaving.stay }
        ensures grown { IsGrown numbering.old numbering.new }
        ensures added { OnOk result (AddsRulesOf self.now.app.now self.now.from.now effect.now rules.old rules.new) }
    {
        if !self.numbers.is_filled() {
            return Ok(());
        }
        let Some(after) = numbering.after(alloc, self.numbers, effect)? else {
            return Ok(());
        };
        // the conditions are on what isn't settled yet: a task may come in from values with which another thing is decided
        let mut groups = Vec::new(alloc);
        let values = AfterEffect {
            app: self.app,
            pool: &numbering.pool,
            levels: &numbering.levels,
            leaving: effect.leaving,
            after,
        };
        values.push_decided(alloc, &mut groups)?;
        let exits = exits(alloc, &numbering.pool, groups.as_slice())?;
        let changes = effect.changes.as_slice();
        let outcomes = self.outcomes(alloc, changes, exits.as_slice())?;
        add_rules(alloc, self.app, effect, outcomes.as_slice(), rules)
    }

    // what the scheduler does, one case for each exit, by the values before the changes
    fn outcomes(
        &self,
        alloc: Global,
        changes: &[Change],
        exits: &[Exit],
    ) -> Result<Seq<OutcomeCase>, Memory>
        ensures { IfOk result (λ cases. cases ≡ flat_map (outcomes_by self.now.app.now changes.now self.now.from.now) exits.now) }
    {
        let mut cases = Seq::new(alloc);
        for exit in exits {
            self.push_outcome(alloc, changes, exit, &mut cases)?;
        }
        Ok(cases)
    }

    fn push_outcome(
        &self,
        alloc: Global,
        changes: &[Change],
        exit: &Exit,
        cases: &mut Seq<OutcomeCase>,
    ) -> Result<(), Memory>
        ensures { OnOk result (cases.new ≡ cases.old ++ outcomes_by self.now.app.now changes.now self.now.from.now exit.now) }
    {
        let Some(decision) = exit.decision else {
            return Ok(());
        };
        let conditions = barred(alloc, self.app, changes, self.from, &exit.entry)?;
        cases.push(OutcomeCase {
            conditions,
            decision,
            target: exit.target,
        })?;
        Ok(())
    }
}

// the exits that groups stand for
fn exits(alloc: Global, pool: &Pool, groups: &[ExitGroup]) -> Result<Seq<Exit>, Memory>
    requires { AreKnownGroups pool.now groups.now }
    ensures { IfOk result (λ exits. exits ≡ all_exits pool.now groups.now) }
{
    let mut exits = Seq::new(alloc);
    for group in groups {
        push_exits(alloc, pool, group, &mut exits)?;
    }
    Ok(exits)
}

fn push_exits(
    alloc: Global,
    pool: &Pool,
    group: &ExitGroup,
    exits: &mut Seq<Exit>,
) -> Result<(), Memory>
    requires { IsKnownGroup pool.now group.now }
    ensures { OnOk result (exits.new ≡ exits.old ++ exits_of pool.now group.now) }
{
    match &group.ends {
        Ends::At(points) => {
            for point in points.as_slice() {
                exits.push(exit_at(alloc, pool, group, &group.entry, *point)?)?;
            }
        }
        Ends::With(ends) => {
            for end in ends.as_slice() {
                let mut held = group.entry.copy(alloc)?;
                held.sets.put(end.component, &end.numbers)?;
                exits.push(exit_at(alloc, pool, group, &held, end.target)?)?;
            }
        }
    }
    Ok(())
}

fn exit_at(
    alloc: Global,
    pool: &Pool,
    group: &ExitGroup,
    entry: &NumberedEntry,
    target: Point,
) -> Result<Exit, Memory>
    requires { length entry.now.sets ≤ length pool.now }
    ensures { IfOk result (λ exit. exit ≡ exit_of_group pool.now group.now entry.now target) }
{
    Ok(Exit {
        target,
        decision: group.decision,
        status: group.status,
        entry: plain(alloc, pool, entry)?,
    })
}
