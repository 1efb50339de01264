//! Rules out of the cases of an effect and of what the scheduler does after it.
ghost use Rattle.std.specs.Prelude.{◌≡◌, ◌++◌, map, IfOk, OnOk};
ghost use Rattle.flow_rules.specs.Assembly.{rule_of as rule_of_cases};

use crate::settling::settling_changes;
use flow_model::{Change, Condition, EffectCase, OutcomeCase, Rule};
use osek_standard::App;
use osek_values::{Memory, Seq};
use std::alloc::Global;

/// Adds the rules of an effect, one for each case of what the scheduler does after it.
pub fn add_rules(
    alloc: Global,
    app: &App,
    effect: &EffectCase,
    outcomes: &[OutcomeCase],
    rules: &mut Seq<Rule>,
) -> Result<(), Memory>
    ensures { OnOk result (rules.new ≡ rules.old ++ map (rule_of_cases app.now effect.now) outcomes.now) }
{
    for outcome in outcomes {
        rules.push(rule_of(alloc, app, effect, outcome)?)?;
    }
    Ok(())
}

fn rule_of(
    alloc: Global,
    app: &App,
    effect: &EffectCase,
    outcome: &OutcomeCase,
) -> Result<Rule, Memory>
    ensures { IfOk result (λ rule. rule ≡ rule_of_cases app.now effect.now outcome.now) }
{
    let mut conditions = Seq::new(alloc);
    add_conditions(alloc, &mut conditions, effect.conditions.as_slice())?;
    add_conditions(alloc, &mut conditions, outcome.conditions.as_slice())?;
    let mut changes = Seq::new(alloc);
    add_changes(alloc, &mut changes, effect.changes.as_slice())?;
    let settling = settling_changes(alloc, app, effect.leaving.stay, outcome.decision)?;
    add_changes(alloc, &mut changes, settling.as_slice())?;
    Ok(Rule {
        conditions,
        changes,
        target: outcome.target,
        decision: Some(outcome.decision),
        status: effect.leaving.status,
    })
}

fn add_changes(alloc: Global, to: &mut Seq<Change>, from: &[Change]) -> Result<(), Memory>
    ensures { OnOk result (to.new ≡ to.old ++ from.now) }
{
    for change in from {
        to.push(change.copy(alloc)?)?;
    }
    Ok(())
}

fn add_conditions(alloc: Global, to: &mut Seq<Condition>, from: &[Condition]) -> Result<(), Memory>
    ensures { OnOk result (to.new ≡ to.old ++ from.now) }
{
    for condition in from {
        to.push(condition.copy(alloc)?)?;
    }
    Ok(())
}
