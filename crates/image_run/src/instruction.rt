//! One instruction of an image.
ghost use Rattle.std.specs.Prelude.{◌≡◌, true, false, ◌≢◌, ◌+◌, ◌≤◌, length, Option, Some, None, IfSome, IfNone, option_map, ℕ};
ghost use Rattle.osek_standard.specs.{States.{here as here_of}, Effects.{effected, effect as effect_of}};
ghost use Rattle.osek_standard.specs.{Dispatch.{concluded, nothing_noted, outcome_by, stepped, with_hooks as with_hooks_of}, Well.{Well, IsActive}, Apps.{IsDeclared}};
ghost use Rattle.generic_kernel.specs.{Levels.{IsReady}, Moves.{KeepsLevels, MayDispatch, instruction_due}};
ghost use Rattle.image_model.specs.{Sites.{IsForm}, ImageStep.{form_at, formed_by, formed_at, instructed, image_step as image_step_of, site_at as site_at_of}};
ghost use Rattle.image_model.specs.declared.site.Form.TheVariants as form;
ghost use Rattle.image_run.specs.{Befores.{put_back, IsAfter}, Noted.{hooks_noted, noted_if}, Scans.{scans_at, scans_due}};

use crate::before::{Before, task_of};
use crate::trapless::is_no_trap;
use generic_kernel::{
    Effect, Ready, conclude, effect, here, keep, keep_ready, nothing, silent_effect, switch_to,
    take_event, take_in_running,
};
use image_model::{Form, Image, Site, site_at};
use osek_standard::{App, Place, State};
use osek_values::{Ask, Event, HookSet, Notes, Steps};
use std::sync::ledger::Ledger;

/// What was noted, with further hooks.
fn with_hooks(notes: Notes, hooks: HookSet) -> Notes
    ensures { result ≡ with_hooks_of notes hooks }
{
    Notes {
        hooks: notes.hooks.with(hooks),
        ..notes
    }
}

/// The outcome that a form gives after the effect of its site's instruction. `None` is a trap.
fn conclude_formed<L: Ledger>(
    app: &App,
    state: &mut State,
    ready: &Ready,
    done: Effect,
    form: Form,
    scans: &mut Steps<L>,
) -> Option<Notes>
    requires well { Well app.now state.old }
    requires ready { IsReady app.now state.old ready.now }
    requires dispatch { MayDispatch app.now state.old done.ask }
    requires names { IsForm (length app.now.tasks) form }
    ensures step { option_map (concluded app.now (effected state.old done.notes done.ask)) (formed_by app.now (effected state.old done.notes done.ask) form) ≡ option_map (stepped state.new) result }
    ensures well { Well app.now state.new }
    ensures levels { KeepsLevels app.now state.old state.new }
    ensures trap { IfNone result (state.new ≡ state.old) }
    ensures scans { scans.new ≤ scans.old + scans_at (Some form) (length app.now.tasks) }
{
    let none = app.hooks.among(HookSet::none());
    match form {
        Form::Never => None,
        Form::Stay => match done.ask {
            Ask::No | Ask::Maybe | Ask::Free => {
                keep(app, state);
                Some(with_hooks(done.notes, none))
            }
            Ask::Left => None,
        },
        Form::Direct(None) => match done.ask {
            Ask::No | Ask::Maybe => None,
            Ask::Left | Ask::Free => {
                let hooks = switch_to(app, state, None, done.ask);
                Some(with_hooks(done.notes, hooks))
            }
        },
        Form::Direct(Some(task)) => {
            if state.processor.is_interrupted() || !state.task(task).is_live() {
                return None;
            }
            let hooks = switch_to(app, state, Some(task), done.ask);
            Some(with_hooks(done.notes, hooks))
        }
        Form::General => {
            let hooks = conclude(app, state, ready, done.ask, scans);
            Some(with_hooks(done.notes, hooks))
        }
    }
}

/// The outcome that the site at the block gives after the effect of its instruction. `None` is a trap.
fn conclude_by<L: Ledger>(
    app: &App,
    state: &mut State,
    ready: &Ready,
    done: Effect,
    site: Option<Site>,
    scans: &mut Steps<L>,
) -> Option<Notes>
    requires well { Well app.now state.old }
    requires ready { IsReady app.now state.old ready.now }
    requires dispatch { MayDispatch app.now state.old done.ask }
    requires names { IfSome site (λ x. IsForm (length app.now.tasks) x.form) }
    requires other { site ≡ None → done.ask ≡ Ask.No }
    ensures step { option_map (concluded app.now (effected state.old done.notes done.ask)) (formed_at app.now (effected state.old done.notes done.ask) site) ≡ option_map (stepped state.new) result }
    ensures well { Well app.now state.new }
    ensures levels { KeepsLevels app.now state.old state.new }
    ensures trap { IfNone result ((site ≢ None) × (state.new ≡ state.old)) }
    ensures scans { scans.new ≤ scans.old + scans_at (option_map (λ x. x.form) site) (length app.now.tasks) }
{
    match site {
        None => {
            keep(app, state);
            Some(with_hooks(done.notes, app.hooks.among(HookSet::none())))
        }
        Some(site) => {
            if !site.known.allows(done.notes.status) {
                return None;
            }
            conclude_formed(app, state, ready, done, site.form, scans)
        }
    }
}

/// One instruction, with what the site at its block makes of it. `None` is a trap, which leaves the effect done.
fn attempt<L: Ledger>(
    image: &Image,
    state: &mut State,
    ready: &mut Ready,
    choice: bool,
    site: Option<Site>,
    scans: &mut Steps<L>,
) -> Option<Notes>
    requires well { Well image.now.app state.old }
    requires ready { IsReady image.now.app state.old ready.old }
    requires active { IsActive state.old.processor }
    requires site { site ≡ site_at_of image.now (here_of state.old).block.0 }
    ensures step { instructed image.now state.old choice ≡ option_map (stepped state.new) result }
    ensures well { Well image.now.app state.new }
    ensures ready { IsReady image.now.app state.new ready.new }
    ensures trap { IfNone result ((site ≢ None) × (state.new ≡ (effect_of image.now.app state.old choice).state)) }
    ensures scans { scans.new ≤ scans.old + scans_at (form_at image.now (here_of state.old).block.0) (length image.now.app.tasks) }
{
    let done = effect(&image.app, state, ready, choice);
    let notes = conclude_by(&image.app, state, ready, done, site, scans);
    take_in_running(&image.app, state, ready);
    notes
}

/// Whether a site, if there is one, has the general form, so that as anywhere else the kernel's own rescheduling follows.
fn is_free(site: Option<Site>) -> bool
    ensures { result ≡ true → IfSome site (λ x. x.form ≡ form.General) }
{
    match site {
        None => true,
        Some(site) => match site.form {
            Form::General => true,
            Form::Never | Form::Stay | Form::Direct(_) => false,
        },
    }
}

/// What the scheduler does after an instruction that noted nothing, where no other form than the general one says it. It
/// answers the hooks.
fn settle<L: Ledger>(
    app: &App,
    state: &mut State,
    ready: &mut Ready,
    ask: Ask,
    site: Option<Site>,
    scans: &mut Steps<L>,
) -> HookSet
    requires well { Well app.now state.old }
    requires ready { IsReady app.now state.old ready.old }
    requires dispatch { MayDispatch app.now state.old ask }
    requires free { IfSome site (λ x. x.form ≡ form.General) }
    requires other { site ≡ None → ask ≡ Ask.No }
    ensures step { concluded app.now (effected state.old nothing_noted ask) (outcome_by app.now state.old ask) ≡ stepped state.new (hooks_noted result) }
    ensures well { Well app.now state.new }
    ensures ready { IsReady app.now state.new ready.new }
    ensures scans { scans.new ≤ scans.old + scans_at (option_map (λ x. x.form) site) (length app.now.tasks) }
{
    match site {
        None => {
            keep_ready(app, state, ready);
            HookSet::none()
        }
        Some(_) => {
            let hooks = conclude(app, state, ready, ask, scans);
            take_in_running(app, state, ready);
            hooks
        }
    }
}

/// One instruction that notes nothing but hooks, where no other form than the general one says what comes of it. Of any
/// other nothing is answered, and it isn't done.
fn instruct_silently<L: Ledger>(
    image: &Image,
    state: &mut State,
    ready: &mut Ready,
    choice: bool,
    place: Place,
    scans: &mut Steps<L>,
) -> Option<HookSet>
    requires well { Well image.now.app state.old }
    requires ready { IsReady image.now.app state.old ready.old }
    requires active { IsActive state.old.processor }
    requires here { here_of state.old ≡ place }
    ensures step { IfSome result (λ hooks. instructed image.now state.old choice ≡ Some (stepped state.new (hooks_noted hooks))) }
    ensures other { IfNone result ((state.new ≡ state.old) × (scans.new ≡ scans.old)) }
    ensures well { Well image.now.app state.new }
    ensures ready { IsReady image.now.app state.new ready.new }
    ensures scans { scans.new ≤ scans.old + scans_at (form_at image.now place.block.0) (length image.now.app.tasks) }
{
    let site = site_at(image, place.block);
    if !is_free(site) {
        return None;
    }
    match silent_effect(&image.app, state, choice, place) {
        None => None,
        Some(ask) => Some(settle(&image.app, state, ready, ask, site, scans)),
    }
}

/// Undoes the effect of an instruction at a site.
fn undo(image: &Image, state: &mut State, ready: &mut Ready, before: Before)
    requires well { Well image.now.app state.old }
    requires ready { IsReady image.now.app state.old ready.old }
    requires before { IsAfter image.now state.old before }
    ensures state { put_back before state.old ≡ state.new }
    ensures well { Well image.now.app state.new }
    ensures ready { IsReady image.now.app state.new ready.new }
{
    let own = task_of(&before.own);
    let named = task_of(&before.named);
    before.put_back(state);
    ready.take_in(&image.app, state, own, named);
}

/// One instruction, with what its site makes of it. `None` is a trap, which changes nothing.
fn instruct_at<L: Ledger>(
    image: &Image,
    state: &mut State,
    ready: &mut Ready,
    choice: bool,
    site: Option<Site>,
    scans: &mut Steps<L>,
) -> Option<Notes>
    requires well { Well image.now.app state.old }
    requires ready { IsReady image.now.app state.old ready.old }
    requires active { IsActive state.old.processor }
    requires site { site ≡ site_at_of image.now (here_of state.old).block.0 }
    ensures step { instructed image.now state.old choice ≡ option_map (stepped state.new) result }
    ensures trap { IfNone result (state.new ≡ state.old) }
    ensures well { Well image.now.app state.new }
    ensures ready { IsReady image.now.app state.new ready.new }
    ensures scans { scans.new ≤ scans.old + scans_at (form_at image.now (here_of state.old).block.0) (length image.now.app.tasks) }
{
    if is_no_trap(image, state, site) {
        return attempt(image, state, ready, choice, site, scans);
    }
    let before = Before::of(&image.app, state);
    match attempt(image, state, ready, choice, site, scans) {
        Some(notes) => {
            drop(before);
            Some(notes)
        }
        None => {
            undo(image, state, ready, before);
            None
        }
    }
}

/// One instruction, with what the site of its block makes of it, and whether it is no trap. A trap changes nothing, and
/// notes nothing.
fn instruct<L: Ledger>(
    image: &Image,
    state: &mut State,
    ready: &mut Ready,
    choice: bool,
    scans: &mut Steps<L>,
    notes: &mut Notes,
) -> bool
    requires well { Well image.now.app state.old }
    requires ready { IsReady image.now.app state.old ready.old }
    requires active { IsActive state.old.processor }
    ensures step { instructed image.now state.old choice ≡ option_map (stepped state.new) (noted_if result notes.new) }
    ensures trap { result ≡ false → state.new ≡ state.old }
    ensures untold { result ≡ false → notes.new ≡ notes.old }
    ensures well { Well image.now.app state.new }
    ensures ready { IsReady image.now.app state.new ready.new }
    ensures scans { scans.new ≤ scans.old + scans_at (form_at image.now (here_of state.old).block.0) (length image.now.app.tasks) }
{
    let place = here(&image.app, state);
    if let Some(hooks) = instruct_silently(image, state, ready, choice, place, scans) {
        *notes = Notes { hooks, ..nothing() };
        return true;
    }
    let site = site_at(image, place.block);
    match instruct_at(image, state, ready, choice, site, scans) {
        None => false,
        Some(noted) => {
            *notes = noted;
            true
        }
    }
}

/// One step of an image, and whether it is no trap. A trap changes nothing, and notes nothing.
pub fn image_step<L: Ledger>(
    image: &Image,
    state: &mut State,
    ready: &mut Ready,
    event: Event,
    scans: &mut Steps<L>,
    notes: &mut Notes,
) -> bool
    requires well { Well image.now.app state.old }
    requires ready { IsReady image.now.app state.old ready.old }
    requires declared { IsDeclared image.now.app event }
    ensures step { image_step_of image.now state.old event ≡ option_map (stepped state.new) (noted_if result notes.new) }
    ensures trap { result ≡ false → state.new ≡ state.old }
    ensures untold { result ≡ false → notes.new ≡ notes.old }
    ensures well { Well image.now.app state.new }
    ensures ready { IsReady image.now.app state.new ready.new }
    ensures scans { scans.new ≤ scans.old + scans_due image.now state.old (instruction_due image.now.app state.old event) }
{
    match take_event(&image.app, state, event) {
        None => {
            *notes = nothing();
            true
        }
        Some(choice) => instruct(image, state, ready, choice, scans, notes),
    }
}
