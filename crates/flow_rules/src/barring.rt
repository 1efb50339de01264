//! Conditions that values aren't of those of which changes make other values than some.
ghost use Rattle.std.specs.{Prelude.{◌≡◌, ◌<◌, ◌++◌, IfOk, OnOk}, List.{flat_map}};
ghost use Rattle.abstract_state.specs.{Domains.{domains, domains_of}, Tables.{set_at, is_member}};
ghost use Rattle.flow_rules.specs.Ruling.{bars, barred as barred_of};

use abstract_state::{ComponentNo, PartValue, PlainEntry, component_number, components};
use flow_model::{Change, Condition, Test, value_after};
use osek_standard::App;
use osek_values::{Memory, Seq};
use std::alloc::Global;

/// For each value of an entry of which the changes make one that another entry lacks: that it isn't this value.
pub fn barred(
    alloc: Global,
    app: &App,
    changes: &[Change],
    from: &PlainEntry,
    kept: &PlainEntry,
) -> Result<Seq<Condition>, Memory>
    requires { domains from.now ≡ domains_of app.now }
    ensures { IfOk result (λ conditions. conditions ≡ barred_of app.now changes.now from.now kept.now) }
{
    let mut conditions = Seq::new(alloc);
    let components = components(alloc, app)?;
    for component in components.as_slice() {
        let component = component_number(app, *component);
        let values = from.sets.at(component.index()).members.as_slice();
        bar_values(changes, component, values, kept, &mut conditions)?;
    }
    Ok(conditions)
}

fn bar_values(
    changes: &[Change],
    component: ComponentNo,
    values: &[PartValue],
    kept: &PlainEntry,
    conditions: &mut Seq<Condition>,
) -> Result<(), Memory>
    ensures { OnOk result (conditions.new ≡ conditions.old ++ flat_map (bars changes.now (set_at kept.now component.0) component) values.now) }
{
    for value in values {
        bar_value(changes, component, value, kept, conditions)?;
    }
    Ok(())
}

fn bar_value(
    changes: &[Change],
    component: ComponentNo,
    value: &PartValue,
    kept: &PlainEntry,
    conditions: &mut Seq<Condition>,
) -> Result<(), Memory>
    ensures { OnOk result (conditions.new ≡ conditions.old ++ bars changes.now (set_at kept.now component.0) component value.now) }
{
    let after = value_after(changes, component.index(), value);
    if has(kept, component.index(), &after) {
        return Ok(());
    }
    conditions.push(Condition {
        component,
        test: Test::IsNot(value.copy()),
    })?;
    Ok(())
}

fn has(entry: &PlainEntry, component: usize, value: &PartValue) -> bool
    ensures { result ≡ is_member (set_at entry.now component) value.now }
{
    component < entry.sets.len() && entry.sets.at(component).has(value)
}
