//! Two tasks, of which one activates the other: as the kernel runs them, and with a site that traps.
ghost use Rattle.std.specs.Prelude.{◌≡◌, ◌<◌, ℕ, length, IfOk};
ghost use Rattle.image_model.specs.Sites.{IsForm};
ghost use Rattle.image_model.specs.declared.image.Version.TheVariants as version;

use crate::applications::activation;
use front_end::TextError;
use image_model::{Form, Image, Known, Site, general, site_at};
use image_run::{Machine, Trap};
use osek_standard::Processor;
use osek_values::{BlockNo, Event, HookSet, ModeNo, Notes, Status, Steps, TaskNo};
use std::alloc::Global;
use std::marker::Brand;
use std::sync::ledger::{Blank, Ledger};
use std::test::*;

/// The image of general forms.
fn image(alloc: Global) -> Result<Image, TextError>
    ensures { IfOk result (λ i. i.version ≡ version.Two) }
{
    let app = activation(alloc)?;
    Ok(general(alloc, app)?)
}

/// The same, but for the site of the first block, which activates the second task.
fn with_site(mut image: Image, form: Form, known: Known) -> Image
    requires blocks { 0 < length image.app.blocks }
    requires version { image.version ≡ version.Two }
    requires form { (n : ℕ) → IsForm n form }
{
    let Some(_site) = site_at(&image, BlockNo(0)) else {
        return image;
    };
    image.sites.put(0, Some(Site { form, known }));
    image
}

/// What three runs note, and who has the processor then.
fn three_runs<L: Ledger>(
    machine: &mut Machine,
    blank: Blank,
) -> [(Processor, Result<Notes, Trap>); 3]
    requires name { blank.name ≡ L.name }
    requires parts { blank.parts ≡ L.parts }
    requires some { 0 < L.parts }
{
    let mut scans = Steps::<L>::of(blank);
    let run = Event::Run(false);
    let first = machine.step(run, &mut scans);
    let after_first = machine.state().processor;
    let second = machine.step(run, &mut scans);
    let after_second = machine.state().processor;
    let third = machine.step(run, &mut scans);
    [
        (after_first, first),
        (after_second, second),
        (machine.state().processor, third),
    ]
}

fn noted(status: Option<Status>) -> Result<Notes, Trap> {
    Ok(Notes {
        status,
        value: None,
        hooks: HookSet::none(),
    })
}

/// What a run notes, and who has the processor then.
type Turn = (Processor, Result<Notes, Trap>);

/// Whether three runs of a machine are these.
fn runs_as(machine: &mut Machine, wanted: &[Turn; 3]) -> bool {
    three_runs::<Brand>(machine, Blank::new(1)) == *wanted
}

/// Whether the start gives the processor to the first task and notes nothing, and three runs are these.
fn starts_and_runs_as(alloc: Global, image: Image, wanted: &[Turn; 3]) -> bool
    requires { 0 < length image.app.modes }
{
    match Machine::start(alloc, image, ModeNo(0)) {
        Ok((mut machine, notes)) => {
            let right = machine.state().processor == Processor::Running(TaskNo(0))
                && Ok(notes) == noted(None)
                && runs_as(&mut machine, wanted);
            drop(machine);
            right
        }
        Err(_) => false,
    }
}

/// As the kernel does: the second task is dispatched, ends, and the first one ends.
fn kernels_runs() -> [Turn; 3] {
    let (low, high) = (TaskNo(0), TaskNo(1));
    [
        (Processor::Running(high), noted(Some(Status::Ok))),
        (Processor::Running(low), noted(None)),
        (Processor::Idle, noted(None)),
    ]
}

/// The first task stays where it is.
fn traps() -> [Turn; 3] {
    [(Processor::Running(TaskNo(0)), Err(Trap)); 3]
}

/// Whether the image of general forms runs so.
fn general_runs_as(alloc: Global, wanted: &[Turn; 3]) -> Result<bool, TextError> {
    let image = image(alloc)?;
    if image.app.modes.is_empty() {
        return Ok(false);
    }
    Ok(starts_and_runs_as(alloc, image, wanted))
}

#[test]
fn general_forms_run_as_the_kernel(rt: HostRuntime) {
    assert!(rt; general_runs_as(rt.alloc(), &kernels_runs()) == Ok(true));
}

/// Whether the image with another first site runs so.
fn changed_runs_as(
    alloc: Global,
    form: Form,
    known: Known,
    wanted: &[Turn; 3],
) -> Result<bool, TextError>
    requires { (n : ℕ) → IsForm n form }
{
    let image = image(alloc)?;
    if image.app.blocks.is_empty() {
        return Ok(false);
    }
    let changed = with_site(image, form, known);
    if changed.app.modes.is_empty() {
        return Ok(false);
    }
    Ok(starts_and_runs_as(alloc, changed, wanted))
}

#[test]
fn a_trap_is_answered_again(rt: HostRuntime) {
    assert!(rt; changed_runs_as(rt.alloc(), Form::Never, Known::Any, &traps()) == Ok(true));
}

#[test]
fn the_known_status_is_noted(rt: HostRuntime) {
    let known = Known::Always(Some(Status::Ok));
    assert!(rt; changed_runs_as(rt.alloc(), Form::General, known, &kernels_runs()) == Ok(true));
}

#[test]
fn another_status_than_the_known_one_traps(rt: HostRuntime) {
    let known = Known::Always(Some(Status::Limit));
    assert!(rt; changed_runs_as(rt.alloc(), Form::General, known, &traps()) == Ok(true));
}

#[test]
fn a_status_where_none_is_known_traps(rt: HostRuntime) {
    let known = Known::Always(None);
    assert!(rt; changed_runs_as(rt.alloc(), Form::General, known, &traps()) == Ok(true));
}
