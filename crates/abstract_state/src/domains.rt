//! The domains of an application's components.
ghost use Rattle.std.specs.Prelude.{◌≡◌, ◌<◌};
ghost use Rattle.osek_standard.specs.Apps.{source_count, routine_count};
ghost use Rattle.abstract_state.specs.{Components.{IsComponent}, Domains.{domain_of as domain_of_component, takable_resources as takable_of, takable_by_source}};

use crate::value::{Component, Domain};
use osek_standard::App;
use osek_values::{Mask, SourceNo};

/// The resources that may stand on a stack.
fn takable_resources(app: &App) -> Mask
    ensures { result ≡ takable_of app.now }
{
    let mut bits = 0;
    let mut resource = app.resources.len();
    while resource > 0 {
        resource -= 1;
        bits = 2 * bits + u64::from(!app.resources.at(resource).internal);
    }
    Mask(bits)
}

/// The resources that may stand on a routine's stack: a tick routine takes none.
fn takable_of_source(app: &App, source: SourceNo) -> Mask
    ensures { result ≡ takable_by_source app.now source.0 }
{
    if source.index() < app.counters.len() {
        Mask(0)
    } else {
        takable_resources(app)
    }
}

/// How many blocks a source's routine has.
pub fn routine_size(app: &App, source: SourceNo) -> u16
    requires { source.0 < source_count app.now }
    ensures { result ≡ routine_count app.now source.0 }
{
    let counters = app.counters.len();
    if source.index() < counters {
        app.counters.at(source.index()).count
    } else {
        app.isrs.at(source.index() - counters).count
    }
}

/// What the values of a component are values of.
pub fn domain_of(app: &App, component: Component) -> Domain
    requires { IsComponent app.now component }
    ensures { result ≡ domain_of_component app.now component }
{
    match component {
        Component::Task(task) => {
            let task = app.task(task);
            Domain::Task {
                first: task.first,
                count: task.count,
                takable: takable_resources(app),
                activation: task.activation,
                internal: task.internal.is_some(),
            }
        }
        Component::Event { .. } => Domain::Event,
        Component::Alarm(_) => Domain::Alarm,
        Component::Source(source) => Domain::Source {
            first: app.routine_start(source),
            count: routine_size(app, source),
            takable: takable_of_source(app, source),
        },
    }
}
