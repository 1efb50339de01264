//! The machine.
ghost use Rattle.std.specs.Prelude.{◌≡◌, ◌+◌, ◌<◌, ◌≤◌, length, true, false, IfOk, IfSome, Some};
ghost use Rattle.osek_values.specs.declared.event.Event.{Event as AnEvent};
ghost use Rattle.osek_standard.specs.{Dispatch.{Stepped, stepped}, Internal.{IsInside}, Kernel.{start as start_of}, Well.{Well}, Apps.{IsDeclared}};
ghost use Rattle.image_model.specs.ImageStep.{image_step as image_step_of};
ghost use Rattle.image_run.specs.{Machines.{at_work, turn, turned, noted}, Noted.{noted_if}, Quiet.{ChangesFew, KeepsTasks}, Scans.{most_scans}};

use crate::instruction::image_step;
use crate::quiet::{named_task, runs_quietly};
use crate::trap::Trap;
use generic_kernel::{Ready, nothing, start};
use image_model::Image;
use osek_standard::{App, State};
use osek_values::{Event, Memory, ModeNo, Notes, Steps, TaskNo};
use std::alloc::Global;
use std::marker::Model;
use std::sync::ledger::Ledger;

/// An image at work. It takes all its memory at the start.
#[derive(Drop)]
pub struct Machine {
    image: Image,
    state: State,
    /// The Live tasks of the state.
    ready: Ready,
    trapped: bool,
}

impl Model for Machine {
    ghost use Rattle.image_run.specs.Machines.{AtWork, AreWell, at_work, at_work_code};

    ghost Value = { AtWork };

    ghost coded = { at_work_code };

    ghost view = { λ m. at_work m.image m.state m.trapped };

    ghost invariant = { λ m. AreWell m.image m.state m.ready };
}

impl Machine {
    /// The start of the image's application in a mode.
    pub fn start(alloc: Global, image: Image, mode: ModeNo) -> Result<(Machine, Notes), Memory>
        requires { mode.0 < length image.app.modes }
        ensures machine { IfOk result (λ r. r.0 ≡ at_work image r.0.state false) }
        ensures start { IfOk result (λ r. start_of image.app mode ≡ stepped r.0.state r.1) }
    {
        let (state, notes) = match start(alloc, &image.app, mode) {
            Ok(started) => started,
            Err(memory) => {
                drop(image);
                return Err(memory);
            }
        };
        let ready = Ready::of(&image.app, &state);
        let machine = Machine {
            image,
            state,
            ready,
            trapped: false,
        };
        Ok((machine, notes))
    }

    /// One step of the image. A trap leaves the state as it was, and every later step answers it again. It takes no
    /// memory.
    pub fn step<L: Ledger>(&mut self, event: Event, scans: &mut Steps<L>) -> Result<Notes, Trap>
        requires { IsDeclared self.old.image.app event }
        ensures step { turn self.old event ≡ turned self.new (noted result) }
        ensures scans { scans.new ≤ scans.old + most_scans self.old event }
    {
        let mut notes = nothing();
        if self.step_into(event, scans, &mut notes) {
            Ok(notes)
        } else {
            Err(Trap)
        }
    }

    /// One step of the image, whose notes are put where they are to be, and whether it is no trap. A trap notes nothing and
    /// leaves the state as it was, and every later step answers it again. It takes no memory.
    pub fn step_into<L: Ledger>(
        &mut self,
        event: Event,
        scans: &mut Steps<L>,
        notes: &mut Notes,
    ) -> bool
        requires { IsDeclared self.old.image.app event }
        ensures step { turn self.old event ≡ turned self.new (noted_if result notes.new) }
        ensures untold { result ≡ false → notes.new ≡ notes.old }
        ensures scans { scans.new ≤ scans.old + most_scans self.old event }
    {
        if self.trapped {
            return false;
        }
        if image_step(
            &self.image,
            &mut self.state,
            &mut self.ready,
            event,
            scans,
            notes,
        ) {
            return true;
        }
        self.trapped = true;
        false
    }

    /// Whether the next step is known to change of no task more than its place, and to leave who runs or is interrupted: a
    /// source latches, a routine begins, or an instruction moves on and changes at most counters and alarms beside. It may say
    /// no where that is so.
    #[inline(always)]
    pub fn is_quiet(&self, event: Event) -> bool
        requires { IsDeclared self.now.image.app event }
        ensures { (r : Stepped) → result ≡ true → image_step_of self.now.image self.now.state event ≡ Some r → KeepsTasks self.now.state r.state }
    {
        match event {
            Event::Irq(_) | Event::Tick(_) => true,
            Event::Run(_) => runs_quietly(&self.image, &self.state),
        }
    }

    /// The task that the next step may change beside the one that runs or is interrupted before it and the one that does
    /// after it, if there is one more.
    #[inline(always)]
    pub fn named(&self) -> Option<TaskNo>
        ensures changes { (e : AnEvent) → (r : Stepped) → image_step_of self.now.image self.now.state e ≡ Some r → ChangesFew result self.now.state r.state }
        ensures known { IfSome result (λ t. t.0 < length self.now.image.app.tasks) }
    {
        named_task(&self.image, &self.state)
    }

    /// The state now.
    pub fn state(&self) -> &State
        ensures state { result.now ≡ self.now.state }
        ensures well { Well self.now.image.app self.now.state }
        ensures inside { IsInside self.now.image.app self.now.state }
    {
        &self.state
    }

    /// The application of the image.
    pub fn app(&self) -> &App
        ensures { result.now ≡ self.now.image.app }
    {
        &self.image.app
    }
}
