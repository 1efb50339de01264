//! Routines over each other: which goes before which, and which one goes on where another ends.
ghost use Rattle.std.specs.Prelude.{◌≡◌, ◌<◌, ◌+◌, length, IfSome};
ghost use Rattle.osek_standard.specs.{Apps.{source_count}, States.{is_in, source_state}, Levels.{comes_before, next_routine as next_routine_of}, Well.{Well}};
ghost use Rattle.generic_kernel.specs.Nests.{IsFirstBelow, first_after};

use osek_standard::{App, Source, State};
use osek_values::SourceNo;

/// Of a source and one of a greater number the one that goes before: the one of the higher priority, and among equals
/// the former.
pub fn first_of(app: &App, found: Option<SourceNo>, next: SourceNo) -> SourceNo
    requires next { next.0 < source_count app.now }
    requires found { IfSome found (λ k. k.0 < next.0) }
    ensures { result ≡ first_after app.now found next }
{
    match found {
        None => next,
        Some(other) => {
            if app.source_priority(other) < app.source_priority(next) {
                next
            } else {
                other
            }
        }
    }
}

// the first of the sources so far and the next one, where that was entered
fn with_entered(
    app: &App,
    state: &State,
    found: Option<SourceNo>,
    next: SourceNo,
) -> Option<SourceNo>
    requires sources { length state.now.sources ≡ source_count app.now }
    requires next { next.0 < source_count app.now }
    requires found { IsFirstBelow app.now (λ k. is_in (source_state state.now k)) next.0 found }
    ensures { IsFirstBelow app.now (λ k. is_in (source_state state.now k)) (next.0 + 1) result }
{
    match state.sources.at(next.index()) {
        Source::Out => found,
        Source::In(_) => Some(first_of(app, found, next)),
    }
}

/// The routine that goes on, of those that were entered.
pub fn next_routine(app: &App, state: &State) -> Option<SourceNo>
    requires { length state.now.sources ≡ source_count app.now }
    ensures { result ≡ next_routine_of app.now state.now }
{
    let mut found = None;
    for index in 0..state.sources.len() {
        found = with_entered(app, state, found, SourceNo(index as u8));
    }
    found
}
