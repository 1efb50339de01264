//! Sites at which it is known before an instruction is done that no trap comes of it: nothing has to be kept there for an
//! undoing.
ghost use Rattle.std.specs.Prelude.{◌≡◌, ◌≢◌, true, None, Bool};
ghost use Rattle.osek_standard.specs.{Apps.{tables}, States.{caller as the_caller, here as here_of}, Validity.{NamesEntries}, Well.{Well, IsActive}};
ghost use Rattle.image_model.specs.ImageStep.{instructed, site_at as site_at_of};
ghost use Rattle.image_run.specs.Trapless.{foresees as foresees_at, keeps_caller as keeps_caller_at, takes_all as takes_all_at, termination_status as the_termination_status};

use activation::is_full;
use generic_kernel::here;
use image_model::{Form, Image, Known, Site};
use osek_standard::{App, Call, Caller, Kind, PlainService, ResourceService, State, TaskService};
use osek_values::Status;

/// Whether after an instruction of this kind the caller, or what a routine interrupted, is still there.
fn keeps_caller(kind: Kind) -> bool
    ensures { result ≡ keeps_caller_at kind }
{
    match kind {
        Kind::Call(
            Call::Task(TaskService::ActivateTask, _)
            | Call::Plain(PlainService::Schedule)
            | Call::Resource(ResourceService::ReleaseResource, _)
            | Call::SetEvent(_, _),
        )
        | Kind::IsrEnd => true,
        Kind::Work(_)
        | Kind::Choice(_)
        | Kind::Loop
        | Kind::Call(_)
        | Kind::TaskEnd
        | Kind::CountUp
        | Kind::Expire(_) => false,
    }
}

/// The status that TerminateTask of the caller will note, if it will note one.
fn termination_status(app: &App, state: &State) -> Option<Status>
    requires { Well app.now state.now }
    ensures { result ≡ the_termination_status state.now (the_caller state.now.processor) }
{
    match state.caller() {
        Caller::Nobody => None,
        Caller::Routine(_) => Some(Status::CallLevel),
        Caller::Task(task) => {
            if state.task(task).holds_some() {
                Some(Status::Resource)
            } else {
                None
            }
        }
    }
}

/// Whether no other status than the known one will be noted. An activation notes E_OS_LIMIT where its task is full, and the
/// closing brace of a task notes nothing.
fn foresees(app: &App, state: &State, known: Known, kind: Kind) -> bool
    requires well { Well app.now state.now }
    requires operands { NamesEntries (tables app.now) kind }
    ensures { result ≡ foresees_at app.now state.now known kind }
{
    match kind {
        Kind::Call(Call::Task(TaskService::ActivateTask, task)) => {
            known.allows(Some(if is_full(app, state, task) {
                Status::Limit
            } else {
                Status::Ok
            }))
        }
        Kind::Call(Call::Plain(PlainService::TerminateTask)) => {
            known.allows(termination_status(app, state))
        }
        Kind::TaskEnd => known.allows(None),
        _ => known == Known::Any,
    }
}

/// Whether a site's form has an outcome whatever an instruction of this kind asks.
fn takes_all(form: Form, kind: Kind) -> bool
    ensures { result ≡ takes_all_at form kind }
{
    match form {
        Form::Never | Form::Direct(_) => false,
        Form::Stay => keeps_caller(kind),
        Form::General => true,
    }
}

/// Whether the instruction at the processor is known to be no trap. It may say no where it is none.
pub fn is_no_trap(image: &Image, state: &State, site: Option<Site>) -> bool
    requires well { Well image.now.app state.now }
    requires active { IsActive state.now.processor }
    requires site { site ≡ site_at_of image.now (here_of state.now).block.0 }
    ensures { (choice : Bool) → result ≡ true → instructed image.now state.now choice ≢ None }
{
    let Some(site) = site else {
        return true;
    };
    let kind = image.app.block(here(&image.app, state).block).kind;
    takes_all(site.form, kind) && foresees(&image.app, state, site.known, kind)
}
