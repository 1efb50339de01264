//! Tests of the values of components.
ghost use Rattle.std.specs.{Prelude.{◌≡◌, ◌+◌, nat_lt}, List.{list_any}};
ghost use Rattle.osek_values.specs.{declared.numbers.ResNo.{ResNo}, Bits.{has_bit}};
ghost use Rattle.osek_standard.specs.Services.{is_on_top as is_on_top_of};
ghost use Rattle.flow_model.specs.Values.{waits_at as waits_at_of};

use crate::release::Releases;
use abstract_state::{ComponentNo, PartValue, SourceVal, Val};
use osek_values::{Held, Mask, Memory, ResNo};
use std::alloc::Global;

/// A test of a component's value. What is no task's and no source's passes the tests of what is held, and what is no task's
/// passes those of activity.
#[derive(Drop)]
pub enum Test {
    /// It is this value.
    Is(PartValue),
    /// It is another value.
    IsNot(PartValue),
    Suspended,
    NotSuspended,
    /// The task or the routine holds this resource.
    Holds(ResNo),
    /// The task or the routine holds none of the resources whose bit is set.
    HoldsNoneOf(Mask),
    /// The task holds some resource.
    HoldsSome,
    /// The task holds no resource.
    HoldsNothing,
    /// The task or the routine took this resource last of those that it holds.
    OnTop(ResNo),
    NotOnTop(ResNo),
    /// The task takes no further activation: it waits, or has so many.
    Full(u8),
    /// The task is Live, and has fewer activations than so many.
    Room(u8),
    /// No further activation of the task is left.
    NoFurther,
    SomeFurther,
    /// The task waits at one of the blocks from which it is released.
    WaitsAt(Releases),
    WaitsNotAt(Releases),
}

/// A test of one component.
#[derive(Drop)]
pub struct Condition {
    pub component: ComponentNo,
    pub test: Test,
}

impl Test {
    ghost use Rattle.std.specs.Prelude.{◌≡◌, IfOk};
    ghost use Rattle.flow_model.specs.Tests.{passes};

    /// Whether a value passes.
    pub fn passes(&self, value: &PartValue) -> bool
        ensures { result ≡ passes self.now value.now }
    {
        match (self, value) {
            (Test::Is(wanted), _) => value.is(wanted),
            (Test::IsNot(barred), _) => !value.is(barred),
            (Test::Suspended, PartValue::OfTask(Val::Suspended)) => true,
            (Test::Suspended, PartValue::OfTask(_)) => false,
            (Test::NotSuspended, PartValue::OfTask(Val::Suspended)) => false,
            (Test::Holds(resource), PartValue::OfTask(Val::Live(live))) => live.held.has(*resource),
            (Test::Holds(_), PartValue::OfTask(_)) => false,
            (Test::Holds(resource), PartValue::OfSource(SourceVal::In(routine))) => {
                routine.held.has(*resource)
            }
            (Test::Holds(_), PartValue::OfSource(SourceVal::Out)) => false,
            (Test::HoldsNoneOf(resources), PartValue::OfTask(Val::Live(live))) => {
                !holds_one_of(live.held.as_slice(), *resources)
            }
            (Test::HoldsNoneOf(resources), PartValue::OfSource(SourceVal::In(routine))) => {
                !holds_one_of(routine.held.as_slice(), *resources)
            }
            (Test::HoldsSome, PartValue::OfTask(Val::Live(live))) => !live.held.is_empty(),
            (Test::HoldsSome, PartValue::OfTask(_)) => false,
            (Test::HoldsNothing, PartValue::OfTask(Val::Live(live))) => live.held.is_empty(),
            (Test::OnTop(resource), PartValue::OfTask(Val::Live(live))) => {
                is_on_top(&live.held, *resource)
            }
            (Test::OnTop(_), PartValue::OfTask(_)) => false,
            (Test::OnTop(resource), PartValue::OfSource(SourceVal::In(routine))) => {
                is_on_top(&routine.held, *resource)
            }
            (Test::OnTop(_), PartValue::OfSource(SourceVal::Out)) => false,
            (Test::NotOnTop(resource), PartValue::OfTask(Val::Live(live))) => {
                !is_on_top(&live.held, *resource)
            }
            (Test::NotOnTop(resource), PartValue::OfSource(SourceVal::In(routine))) => {
                !is_on_top(&routine.held, *resource)
            }
            (Test::Full(most), PartValue::OfTask(Val::Live(live))) => {
                !has_room(live.further, *most)
            }
            (Test::Full(_), PartValue::OfTask(Val::Suspended)) => false,
            (Test::Room(most), PartValue::OfTask(Val::Live(live))) => {
                has_room(live.further, *most)
            }
            (Test::Room(_), PartValue::OfTask(_)) => false,
            (Test::NoFurther, PartValue::OfTask(Val::Live(live))) => live.further == 0,
            (Test::SomeFurther, PartValue::OfTask(Val::Live(live))) => live.further != 0,
            (Test::SomeFurther, PartValue::OfTask(_)) => false,
            (Test::WaitsAt(releases), PartValue::OfTask(val)) => waits_at(releases, val),
            (Test::WaitsNotAt(releases), PartValue::OfTask(val)) => !waits_at(releases, val),
            _ => true,
        }
    }

    /// Another that is the same.
    pub fn copy(&self, alloc: Global) -> Result<Test, Memory>
        ensures { IfOk result (λ x. x ≡ self.now) }
    {
        match self {
            Test::Is(value) => Ok(Test::Is(value.copy())),
            Test::IsNot(value) => Ok(Test::IsNot(value.copy())),
            Test::Suspended => Ok(Test::Suspended),
            Test::NotSuspended => Ok(Test::NotSuspended),
            Test::Holds(resource) => Ok(Test::Holds(*resource)),
            Test::HoldsNoneOf(resources) => Ok(Test::HoldsNoneOf(*resources)),
            Test::HoldsSome => Ok(Test::HoldsSome),
            Test::HoldsNothing => Ok(Test::HoldsNothing),
            Test::OnTop(resource) => Ok(Test::OnTop(*resource)),
            Test::NotOnTop(resource) => Ok(Test::NotOnTop(*resource)),
            Test::Full(most) => Ok(Test::Full(*most)),
            Test::Room(most) => Ok(Test::Room(*most)),
            Test::NoFurther => Ok(Test::NoFurther),
            Test::SomeFurther => Ok(Test::SomeFurther),
            Test::WaitsAt(releases) => {
                let copy = releases.copy(alloc)?;
                Ok(Test::WaitsAt(copy))
            }
            Test::WaitsNotAt(releases) => {
                let copy = releases.copy(alloc)?;
                Ok(Test::WaitsNotAt(copy))
            }
        }
    }
}

impl Condition {
    ghost use Rattle.std.specs.Prelude.{◌≡◌, IfOk};

    /// Another that is the same.
    pub fn copy(&self, alloc: Global) -> Result<Condition, Memory>
        ensures { IfOk result (λ x. x ≡ self.now) }
    {
        let test = self.test.copy(alloc)?;
        Ok(Condition {
            component: self.component,
            test,
        })
    }
}

// whether a task with this value waits at one of the blocks from which it is released
fn waits_at(releases: &Releases, val: &Val) -> bool
    ensures { result ≡ waits_at_of releases.now val.now }
{
    match val {
        Val::Waiting(block) => releases.behind(*block).is_some(),
        Val::Suspended | Val::Live(_) => false,
    }
}

fn has_bit(bits: u64, bit: u8) -> bool
    ensures { result ≡ has_bit bits bit }
{
    bit < 64 && (bits >> bit) & 1 == 1
}

// a further activation and the present one are fewer than so many
fn has_room(further: u8, most: u8) -> bool
    ensures { result ≡ nat_lt (further + 1) most }
{
    further as u32 + 1 < most as u32
}

fn holds_one_of(held: &[ResNo], resources: Mask) -> bool
    ensures { result ≡ list_any (λ (r : ResNo). has_bit resources.0 r.0) held.now }
{
    held.iter().any(|resource| has_bit(resources.0, resource.0))
}

fn is_on_top(held: &Held, resource: ResNo) -> bool
    ensures { result ≡ is_on_top_of resource.0 held.now }
{
    match held.last() {
        Some(top) => top.0 == resource.0,
        None => false,
    }
}
