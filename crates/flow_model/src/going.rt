//! What a runner does that goes on.

use crate::case::{Asked, EffectCase, Leaving};
use crate::change::{Change, Update};
use crate::runner::Runner;
use crate::test::Condition;
use osek_standard::{App, Schedule};
use osek_values::{BlockNo, Memory, Seq, Status};
use std::alloc::Global;

impl Runner {
    ghost use Rattle.std.specs.Prelude.{◌≡◌, ◌++◌, IfOk, OnOk};
    ghost use Rattle.flow_model.specs.{Runners.{moving, IsKnown}, Cases.{asked_after, goes_on}};

    /// Adds what becomes of the components where it goes on to a block.
    pub fn add_moving(self, block: BlockNo, changes: &mut Seq<Change>) -> Result<(), Memory>
        ensures { OnOk result (changes.new ≡ changes.old ++ moving self block) }
    {
        changes.push(Change {
            component: self.component(),
            update: Update::Block(block),
        })?;
        Ok(())
    }

    /// What becomes of the components where it goes on to a block.
    pub fn moving(self, alloc: Global, block: BlockNo) -> Result<Seq<Change>, Memory>
        ensures { IfOk result (λ changes. changes ≡ moving self block) }
    {
        let mut changes = Seq::new(alloc);
        self.add_moving(block, &mut changes)?;
        Ok(changes)
    }

    /// What a call of it asks that may lead to a dispatch.
    pub fn asked(self, app: &App) -> Asked
        requires { IsKnown app.now self }
        ensures { result ≡ asked_after app.now self }
    {
        match self {
            Runner::Task(task) => match app.task(task).schedule {
                Schedule::Full => Asked::Maybe(task),
                Schedule::Non => Asked::No,
            },
            Runner::Routine { .. } => Asked::No,
        }
    }

    /// The case in which it goes on to a block, and nothing else changes.
    pub fn goes_on(
        self,
        alloc: Global,
        block: BlockNo,
        conditions: Seq<Condition>,
        asked: Asked,
        status: Option<Status>,
    ) -> Result<EffectCase, Memory>
        ensures { IfOk result (λ case. case ≡ goes_on self block conditions asked status) }
    {
        Ok(EffectCase {
            conditions,
            changes: self.moving(alloc, block)?,
            leaving: Leaving::at(self.at(block), asked, status),
        })
    }
}
