//! The rules by which routines begin, and the exits of a point by them.
ghost use Rattle.std.specs.Prelude.{◌≡◌, true, List, length, OnOk};
ghost use Rattle.osek_standard.specs.declared.{app.App.{App}, point.Point.{Point}};
ghost use Rattle.abstract_state.specs.Domains.{domains_of};
ghost use Rattle.flow_model.specs.declared.rule.Rule.{Rule};
ghost use Rattle.numbered_sets.specs.{NumberedEntries.{number_domains}, Pools.{Values, IsLonger}};
ghost use Rattle.numbered_sets.specs.Views.{plain_entry, AreNumbersOf};
ghost use Rattle.flow_exits.specs.Arrivals.{IsArrivalRule, AreArrivals};
ghost use Rattle.point_exits.specs.{Applying.{MayApply}, Groups.{AreKnownGroups}, OneProof.{SameDomains-prop}};
ghost use Rattle.point_exits.specs.Leaving.{AddsRoutines, IsAmongFirst, AreSharedEnds, is_bare as is_bare_of};

use crate::bare_rule::BareRule;
use crate::changes::applied;
use crate::group::{Ends, ExitGroup, NumberEnd};
use crate::numbering::Numbering;
use abstract_state::Point;
use flow_exits::{arrivals, arrivals_over};
use flow_model::{Rule, Runner};
use numbered_sets::{NumberedEntry, Pool};
use osek_standard::App;
use osek_values::{Memory, Seq, SourceNo, TaskNo};
use std::alloc::Global;

/// The rules by which routines begin over a task or over none, where this routine runs or none.
#[derive(Drop)]
pub struct ArrivalsOver {
    pub over: Option<TaskNo>,
    pub running: Option<SourceNo>,
    pub rules: Seq<Rule>,
}

/// These rules over each over whom they were asked for.
#[derive(Drop)]
pub struct Arrivals {
    pub known: Seq<ArrivalsOver>,
}

/// A point with the numbers of its values.
#[derive(Clone, Copy)]
pub struct NumberedPoint<'a> {
    pub app: &'a App,
    pub point: Point,
    pub entry: &'a NumberedEntry,
    ghost domains: { number_domains entry.now ≡ domains_of app.now } by { SameDomains-prop (number_domains entry.now) (domains_of app.now) },
}

impl Arrivals {
    ghost use Rattle.std.specs.Prelude.{◌<◌, IfOk, IfSome};
    ghost use Rattle.osek_standard.specs.{Apps.{source_count}, Points.{IsPoint}};
    ghost use Rattle.point_exits.specs.Arrivals.{AreKnownArrivals, AreArrivalsAt, IsOver};

    /// The place of the rules of a point. There is none where no routine begins.
    pub fn find(&mut self, alloc: Global, app: &App, point: Point) -> Result<Option<usize>, Memory>
        requires point { IsPoint app.now point }
        requires known { AreKnownArrivals app.now self.old.known }
        ensures known { AreKnownArrivals app.now self.new.known }
        ensures found { IfOk result (λ place. IfSome place (AreArrivalsAt app.now point self.new.known)) }
    {
        match point {
            Point::Halted => Ok(None),
            Point::Idle => {
                let place = self.find_over(alloc, app, None, None)?;
                Ok(Some(place))
            }
            Point::Task(block) => {
                if app.block(block).locked {
                    return Ok(None);
                }
                match Runner::executing(app, point) {
                    Some(Runner::Task(task)) => {
                        let place = self.find_over(alloc, app, Some(task), None)?;
                        Ok(Some(place))
                    }
                    Some(Runner::Routine { .. }) | None => Ok(None),
                }
            }
            Point::Routine { block, over } => {
                if app.block(block).locked {
                    return Ok(None);
                }
                match Runner::executing(app, point) {
                    Some(Runner::Routine { source, .. }) => {
                        let place = self.find_over(alloc, app, over, Some(source))?;
                        Ok(Some(place))
                    }
                    Some(Runner::Task(_)) | None => Ok(None),
                }
            }
        }
    }

    // the place of the rules over a task or over none, where this routine runs or none
    fn find_over(
        &mut self,
        alloc: Global,
        app: &App,
        over: Option<TaskNo>,
        running: Option<SourceNo>,
    ) -> Result<usize, Memory>
        requires running { IfSome running (λ k. k.0 < source_count app.now) }
        requires known { AreKnownArrivals app.now self.old.known }
        ensures known { AreKnownArrivals app.now self.new.known }
        ensures found { IfOk result (IsOver over running self.new.known) }
    {
        for place in 0..self.known.len() {
            let known = self.known.at(place);
            if known.over == over && known.running == running {
                return Ok(place);
            }
        }
        let rules = arrivals_over(alloc, app, over, running)?;
        self.known.push(ArrivalsOver {
            over,
            running,
            rules,
        })?;
        Ok(self.known.len() - 1)
    }
}

impl<'a> Numbering<'a> {
    ghost use Rattle.std.specs.Prelude.{OnOk};
    ghost use Rattle.numbered_sets.specs.Views.{plain_entry};
    ghost use Rattle.point_exits.specs.{Groups.{AreKnownGroups}, Growing.{IsGrown}, Leaving.{AddsArrivals}, PointNumbers.{AreNumbersAt}};

    /// Adds the exits by which routines begin, each with what its rule makes of the values that pass.
    pub fn push_arrivals(
        &mut self,
        alloc: Global,
        point: Point,
        entry: &NumberedEntry,
        groups: &mut Vec<ExitGroup>,
    ) -> Result<(), Memory>
        requires at { AreNumbersAt self.old.app.now point self.old.pool entry.now }
        requires known { AreKnownGroups self.old.pool groups.old.items }
        ensures grown { IsGrown self.old self.new }
        ensures added { OnOk result (AddsArrivals self.old.app.now point (plain_entry self.old.pool entry.now) self.old.pool groups.old.items self.new.pool groups.new.items) }
    {
        let app = self.app;
        let from = NumberedPoint { app, point, entry };
        match self.levels.arrivals.find(alloc, app, point)? {
            Some(place) => {
                let rules = &self.levels.arrivals.known.at(place).rules;
                from.push_begun(alloc, rules, &mut self.pool, groups)
            }
            None => {
                let rules = arrivals(alloc, app, point)?;
                from.push_begun(alloc, &rules, &mut self.pool, groups)
            }
        }
    }
}

impl<'a> NumberedPoint<'a> {
    ghost use Rattle.std.specs.Prelude.{OnOk};
    ghost use Rattle.numbered_sets.specs.{Pools.{IsLonger}, Views.{plain_entry}};
    ghost use Rattle.flow_exits.specs.Arrivals.{AreArrivals};
    ghost use Rattle.point_exits.specs.{Groups.{AreKnownGroups}, Leaving.{AddsArrivals}, PointNumbers.{AreNumbersAt}};

    // adds the exits by these rules, which are all by which routines begin
    fn push_begun(
        &self,
        alloc: Global,
        rules: &Seq<Rule>,
        pool: &mut Pool,
        groups: &mut Vec<ExitGroup>,
    ) -> Result<(), Memory>
        requires at { AreNumbersAt self.now.app.now self.now.point pool.old self.now.entry.now }
        requires rules { AreArrivals self.now.app.now self.now.point rules.now }
        requires known { AreKnownGroups pool.old groups.old.items }
        ensures pool { IsLonger pool.old pool.new }
        ensures added { OnOk result (AddsArrivals self.now.app.now self.now.point (plain_entry pool.old self.now.entry.now) pool.old groups.old.items pool.new groups.new.items) }
    {
        // the routines that begin with all values share one entry
        let mut shared = Seq::new(alloc);
        for rule in rules.as_slice() {
            if is_bare(rule) {
                let bare = BareRule {
                    rule,
                    entry: self.entry,
                };
                bare.push_end(alloc, pool, &mut shared)?;
            } else {
                push_arrival(alloc, rule, pool, self.entry, groups)?;
            }
        }
        push_shared(alloc, self.entry, shared, groups)?;
        Ok(())
    }
}

// adds the exit by which a routine begins, if its rule takes a value of each component
fn push_arrival(
    alloc: Global,
    rule: &Rule,
    pool: &mut Pool,
    entry: &NumberedEntry,
    groups: &mut Vec<ExitGroup>,
) -> Result<(), Memory>
    requires rule { MayApply rule.now pool.old entry.now }
    requires known { AreKnownGroups pool.old groups.old.items }
    ensures pool { IsLonger pool.old pool.new }
    ensures added { OnOk result ((app : App) (p : Point) → IsArrivalRule app p rule.now → number_domains entry.now ≡ domains_of app →
        AddsRoutines app p (plain_entry pool.old entry.now) (λ (other : Rule). other ≡ rule.now) pool.old groups.old.items pool.new groups.new.items) }
{
    let Some(after) = applied(alloc, &rule.conditions, &rule.changes, pool, entry)? else {
        return Ok(());
    };
    let mut targets = Seq::new(alloc);
    targets.push(rule.target)?;
    groups.push(ExitGroup {
        decision: None,
        status: None,
        entry: after,
        ends: Ends::At(targets),
    })?;
    Ok(())
}

// whether a rule takes all values, and changes one component
fn is_bare(rule: &Rule) -> bool
    ensures { result ≡ is_bare_of rule.now }
{
    rule.conditions.is_empty() && rule.changes.len() == 1
}

// adds the exits by which routines begin that share an entry, if there are any
fn push_shared(
    alloc: Global,
    entry: &NumberedEntry,
    shared: Seq<NumberEnd>,
    groups: &mut Vec<ExitGroup>,
) -> Result<(), Memory>
    ensures { OnOk result ((app : App) (p : Point) (before pool : List Values) (rules : List Rule) → AreArrivals app p rules → number_domains entry.now ≡ domains_of app → IsLonger before pool → AreNumbersOf before entry.now →
        AreKnownGroups pool groups.old.items → AreSharedEnds rules (length rules) entry.now before pool shared →
        AddsRoutines app p (plain_entry before entry.now) (IsAmongFirst rules (length rules) true) pool groups.old.items pool groups.new.items) }
{
    if shared.is_empty() {
        return Ok(());
    }
    let entry = entry.copy(alloc)?;
    groups.push(ExitGroup {
        decision: None,
        status: None,
        entry,
        ends: Ends::With(shared),
    })?;
    Ok(())
}
