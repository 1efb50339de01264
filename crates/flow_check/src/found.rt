//! What is found of the instructions at a block, and the site that it gives.
ghost use Rattle.std.specs.{Prelude.{◌≡◌}, Bool.{OnTrue}};
ghost use Rattle.flow_check.specs.Found.{Alone, AreJoined, outcome_seen, status_seen, AreJoinedFindings, IsTold, form_of, known_of};

use flow_model::Decision;
use image_model::{Form, Known};
use osek_values::Status;

/// What is found so far of the outcomes at a block: more than one is as good as all.
#[derive(Clone, Copy, PartialEq, Eq)]
pub enum Found {
    None,
    One(Decision),
    /// At least two, which differ.
    Several,
}

/// What is found so far of the instructions at a block.
#[derive(Clone, Copy)]
pub struct Findings {
    pub outcome: Found,
    /// What is known of the statuses that are noted, once there is one.
    pub status: Option<Known>,
}

impl Found {
    ghost use Rattle.std.specs.{Prelude.{◌≡◌}, Bool.{OnTrue}};
    ghost use Rattle.flow_check.specs.Found.{Alone, AreJoined, outcome_seen, form_of};

    // whether one more instruction with this outcome tells nothing new
    fn tells(self, decision: Decision) -> bool
        ensures { OnTrue result (AreJoined (outcome_seen self) (Alone decision) (outcome_seen self)) }
    {
        match self {
            Found::None => false,
            Found::One(found) => found == decision,
            Found::Several => true,
        }
    }

    /// What two searches found together.
    pub fn join(self, other: Found) -> Found
        ensures { AreJoined (outcome_seen self) (outcome_seen other) (outcome_seen result) }
    {
        match (self, other) {
            (Found::None, found) | (found, Found::None) => found,
            (Found::One(decision), Found::One(also)) => {
                if decision == also {
                    self
                } else {
                    Found::Several
                }
            }
            (Found::Several, _) | (_, Found::Several) => Found::Several,
        }
    }

    /// The form of a site where this is all.
    pub fn form(self) -> Form
        ensures { result ≡ form_of self }
    {
        match self {
            Found::None => Form::Never,
            Found::One(Decision::Keep) => Form::Stay,
            Found::One(Decision::To(task)) => Form::Direct(task),
            Found::Several => Form::General,
        }
    }
}

impl Findings {
    ghost use Rattle.std.specs.{Prelude.{◌≡◌}, Bool.{OnTrue}};
    ghost use Rattle.flow_check.specs.Found.{Nothing, Alone, outcome_seen, status_seen, AreJoinedFindings, IsTold, known_of};

    /// Before the first instruction.
    pub fn none() -> Findings
        ensures outcome { outcome_seen result.outcome ≡ Nothing }
        ensures status { status_seen result.status ≡ Nothing }
    {
        Findings {
            outcome: Found::None,
            status: None,
        }
    }

    /// One instruction with this outcome and this status.
    pub fn one(decision: Decision, status: Option<Status>) -> Findings
        ensures outcome { outcome_seen result.outcome ≡ Alone decision }
        ensures status { status_seen result.status ≡ Alone status }
    {
        Findings {
            outcome: Found::One(decision),
            status: Some(Known::Always(status)),
        }
    }

    /// Whether one more instruction with this outcome and this status tells nothing new.
    pub fn tells(self, decision: Decision, status: Option<Status>) -> bool
        ensures { OnTrue result (IsTold self decision status) }
    {
        self.outcome.tells(decision) && is_known(self.status, status)
    }

    /// What two searches found together.
    pub fn join(self, other: Findings) -> Findings
        ensures { AreJoinedFindings self other result }
    {
        Findings {
            outcome: self.outcome.join(other.outcome),
            status: known_together(self.status, other.status),
        }
    }

    /// What is known of the status of a site where this is all.
    pub fn known(self) -> Known
        ensures { result ≡ known_of self.status }
    {
        match self.status {
            None => Known::Any,
            Some(known) => known,
        }
    }
}

// what is known of the statuses that two searches found
fn known_together(one: Option<Known>, other: Option<Known>) -> Option<Known>
    ensures { AreJoined (status_seen one) (status_seen other) (status_seen result) }
{
    match (one, other) {
        (None, known) => known,
        (Some(known), None) => Some(known),
        (Some(Known::Always(status)), Some(Known::Always(also))) => {
            if status == also {
                one
            } else {
                Some(Known::Any)
            }
        }
        (Some(_), Some(_)) => Some(Known::Any),
    }
}

// whether one more instruction with this status tells nothing new
fn is_known(known: Option<Known>, status: Option<Status>) -> bool
    ensures { OnTrue result (AreJoined (status_seen known) (Alone status) (status_seen known)) }
{
    match known {
        None => false,
        Some(Known::Always(always)) => always == status,
        Some(Known::Any) => true,
    }
}
