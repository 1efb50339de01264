//! A task's part of the state.
ghost use Rattle.std.specs.Prelude.{◌≡◌};

use osek_values::{BlockNo, Held, Mask, ResNo};

/// The place of an instruction: a block, and how many of the block's instructions are done. The offset is 0 but at
/// `work n`.
#[derive(Clone, Copy)]
pub struct Place {
    pub block: BlockNo,
    pub offset: u16,
}

/// Where a Live task stands, and the resources that it holds.
#[derive(Drop)]
pub struct Standing {
    pub at: Place,
    pub held: Held,
    /// The activations that wait for it to end.
    pub further: u8,
    /// Whether it has its INTERNAL resource.
    pub inside: bool,
}

/// The states of the task models of ISO 17356-3. A Live task is ready or running; which, the processor says.
#[derive(Drop)]
pub enum Activity {
    Suspended,
    Live(Standing),
    /// It waits for events, at a WaitEvent block.
    Waiting(BlockNo),
}

/// A task's part of the state. The events of a suspended task stay until its next activation clears them.
#[derive(Drop)]
pub struct TaskState {
    pub activity: Activity,
    pub events: Mask,
}

impl Standing {
    /// Another that is the same. It takes no memory.
    pub fn copy(&self) -> Standing
        ensures { result ≡ self.now }
    {
        Standing {
            at: self.at,
            held: self.held.copy(),
            further: self.further,
            inside: self.inside,
        }
    }
}

impl Activity {
    ghost use Rattle.std.specs.Prelude.{◌≡◌};
    ghost use Rattle.osek_standard.specs.Services.{live_at};

    /// Live at a block, with these further activations: it holds nothing and isn't inside.
    pub fn live_at(block: BlockNo, further: u8) -> Activity
        ensures { result ≡ live_at block further }
    {
        Activity::Live(Standing {
            at: Place { block, offset: 0 },
            held: Held::new(),
            further,
            inside: false,
        })
    }
}

impl TaskState {
    ghost use Rattle.std.specs.Prelude.{◌≡◌, ◌==◌, not, length};
    ghost use Rattle.osek_standard.specs.TaskStates.{is_live, is_suspended, is_inside, further, holds, held};

    /// Another that is the same. It takes no memory.
    pub fn copy(&self) -> TaskState
        ensures { result ≡ self.now }
    {
        let activity = match &self.activity {
            Activity::Suspended => Activity::Suspended,
            Activity::Live(standing) => Activity::Live(standing.copy()),
            Activity::Waiting(block) => Activity::Waiting(*block),
        };
        TaskState {
            activity,
            events: self.events,
        }
    }

    /// Whether the task is Live, so that it is ready or running.
    pub fn is_live(&self) -> bool
        ensures { result ≡ is_live self.now }
    {
        match &self.activity {
            Activity::Live(_) => true,
            Activity::Suspended | Activity::Waiting(_) => false,
        }
    }

    /// Whether the task is suspended.
    pub fn is_suspended(&self) -> bool
        ensures { result ≡ is_suspended self.now }
    {
        match &self.activity {
            Activity::Suspended => true,
            Activity::Live(_) | Activity::Waiting(_) => false,
        }
    }

    /// Whether the resource is on its stack.
    pub fn holds(&self, resource: ResNo) -> bool
        ensures { result ≡ holds (held self.now) resource.0 }
    {
        match &self.activity {
            Activity::Live(standing) => standing.held.has(resource),
            Activity::Suspended | Activity::Waiting(_) => false,
        }
    }

    /// Whether some resource is on its stack.
    pub fn holds_some(&self) -> bool
        ensures { result ≡ not (length (held self.now) == 0) }
    {
        match &self.activity {
            Activity::Live(standing) => !standing.held.is_empty(),
            Activity::Suspended | Activity::Waiting(_) => false,
        }
    }

    /// The activations that wait for it to end.
    pub fn further(&self) -> u8
        ensures { result ≡ further self.now }
    {
        match &self.activity {
            Activity::Live(standing) => standing.further,
            Activity::Suspended | Activity::Waiting(_) => 0,
        }
    }

    /// Whether it has its INTERNAL resource.
    pub fn is_inside(&self) -> bool
        ensures { result ≡ is_inside self.now }
    {
        match &self.activity {
            Activity::Live(standing) => standing.inside,
            Activity::Suspended | Activity::Waiting(_) => false,
        }
    }
}
