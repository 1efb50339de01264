//! A line of the trace that is to be put.
ghost use Rattle.std.specs.Prelude.{◌≡◌, ◌++◌, ◌∷◌, []};
ghost use Rattle.osek_standard.specs.{Dispatch.{stepped}, TraceText.{line_text}};
ghost use Rattle.osek_values.specs.declared.limits.TheConstants.{LINE_MAX as the_line_max};
ghost use Rattle.trace_text.specs.{Labels.{label_texts}, LineParts.{tasks_text}};

use image_run::Machine;
use osek_io::Piece;
use osek_values::Notes;
use osek_values::limits::LINE_MAX;
use trace_text::{LineParts, put_line};

/// Line `number` of the trace of a machine, after the step that left these notes, and the parts that it is put by.
#[derive(Clone, Copy)]
pub struct TraceLine<'a> {
    pub parts: &'a LineParts,
    pub machine: &'a Machine,
    pub number: u64,
    pub notes: &'a Notes,
    ghost labelled: { parts.now.labels ≡ label_texts machine.now.image.app },
    ghost shown: { parts.now.tasks ≡ tasks_text machine.now.image.app machine.now.state },
}

impl<'a> Piece for TraceLine<'a> {
    ghost text = { λ l. line_text l.machine.now.image.app l.number (stepped l.machine.now.state l.notes.now) ++ 10 ∷ [] };

    ghost room = { λ _. the_line_max };

    fn room(&self) -> usize {
        LINE_MAX
    }

    #[inline(always)]
    fn write_at(&self, into: &mut [u8], at: usize) -> usize {
        put_line(
            into,
            at,
            self.parts,
            self.machine.app(),
            self.number,
            self.machine.state(),
            self.notes,
        )
    }
}
