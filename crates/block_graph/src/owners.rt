//! The rules on whose code there is: that each task and ISR has some, and none has it twice.
ghost use Rattle.std.specs.{Prelude.{◌≡◌, ◌∷◌, [], if◌then◌else◌}, List.{list_any}};
ghost use Rattle.oil_system.specs.declared.system.{IsrObject.{IsrObject}, TaskObject.{TaskObject}};
ghost use Rattle.oil_model.specs.Lines.{sooner, least};
ghost use Rattle.task_code.specs.declared.tree.BodyKind.TheVariants.{Task as of_task, Isr as of_isr};
ghost use Rattle.block_graph.specs.Rules as rules_of;

use crate::names::Declared;
use oil_model::{line_if, sooner};
use oil_system::{IsrObject, TaskObject};
use osek_values::Name;
use task_code::{Body, BodyKind};

fn is_kind(one: BodyKind, other: BodyKind) -> bool
    ensures { result ≡ rules_of.is_kind one other }
{
    match one {
        BodyKind::Task => matches!(other, BodyKind::Task),
        BodyKind::Isr => matches!(other, BodyKind::Isr),
    }
}

/// Whether it is the code of the task or of the ISR of this name.
pub fn is_code_of(kind: BodyKind, name: &Name, body: &Body) -> bool
    ensures { result ≡ rules_of.is_code_of kind name.now body.now }
{
    is_kind(kind, body.kind) && name.as_bytes() == body.owner.name.as_bytes()
}

fn has_code(kind: BodyKind, name: &Name, bodies: &[Body]) -> bool
    ensures { result ≡ list_any (rules_of.is_code_of kind name.now) bodies.now }
{
    for body in bodies {
        if is_code_of(kind, name, body) {
            return true;
        }
    }
    false
}

fn lacks_code(kind: BodyKind, bodies: &[Body], name: &Name) -> bool
    ensures { result ≡ rules_of.lacks_code kind bodies.now name.now }
{
    !has_code(kind, name, bodies)
}

fn has_bare_task(tasks: &[TaskObject], bodies: &[Body]) -> bool
    ensures { result ≡ list_any (λ (task : TaskObject). rules_of.lacks_code of_task bodies.now task.name) tasks.now }
{
    for task in tasks {
        if lacks_code(BodyKind::Task, bodies, &task.name) {
            return true;
        }
    }
    false
}

fn has_bare_isr(isrs: &[IsrObject], bodies: &[Body]) -> bool
    ensures { result ≡ list_any (λ (isr : IsrObject). rules_of.lacks_code of_isr bodies.now isr.name) isrs.now }
{
    for isr in isrs {
        if lacks_code(BodyKind::Isr, bodies, &isr.name) {
            return true;
        }
    }
    false
}

/// Line 0, where a declared task or category 2 ISR has no code.
pub fn missing_code(system: &Declared, bodies: &[Body]) -> Option<u32>
    ensures { result ≡ least (rules_of.missing_code system.now bodies.now) }
{
    let declared = system.system();
    let is_missing = has_bare_task(declared.tasks.as_slice(), bodies)
        || has_bare_isr(declared.isrs.as_slice(), bodies);
    line_if(is_missing, 0)
}

fn has_owner(system: &Declared, kind: BodyKind, name: &Name) -> bool
    ensures { result ≡ rules_of.has_owner system.now kind name.now }
{
    match kind {
        BodyKind::Task => system.task_of(name).is_some(),
        BodyKind::Isr => system.isr_of(name).is_some(),
    }
}

fn is_stray(system: &Declared, body: &Body) -> bool
    ensures { result ≡ rules_of.is_stray system.now body.now }
{
    !has_owner(system, body.kind, &body.owner.name)
}

/// The least line of code for nothing declared, or for a category 1 ISR.
#[tactic(auto, using(oil_model::proofs::Leasts::least_steps))]
pub fn stray_code(system: &Declared, bodies: &[Body]) -> Option<u32>
    ensures { result ≡ least (rules_of.stray_code system.now bodies.now) }
{
    let mut best = None;
    for body in bodies {
        if is_stray(system, body) {
            best = sooner(best, Some(body.line));
        }
    }
    best
}

/// The least line so far, or the body's where that is lesser and an earlier body has the same owner. The earlier ones are
/// looked through only where its line is lesser. In a text no line behind that of the first repeated body is, so that
/// they are looked through for few bodies where each has a declared owner.
fn sooner_repeat(best: Option<u32>, body: &Body, earlier: &[Body]) -> Option<u32>
    ensures { result ≡ sooner best (least (if list_any (rules_of.has_same_owner body.now) earlier.now then body.now.line ∷ [] else [])) }
{
    match best {
        Some(line) if line <= body.line => best,
        _ => sooner(
            best,
            line_if(has_code(body.kind, &body.owner.name, earlier), body.line),
        ),
    }
}

/// The least line of a body of which an earlier one has the same owner.
pub fn repeated_code(bodies: &[Body]) -> Option<u32>
    ensures { result ≡ least (rules_of.repeated_code bodies.now) }
{
    let mut best = None;
    for (i, body) in bodies.iter().enumerate() {
        best = sooner_repeat(best, body, &bodies[..i]);
    }
    best
}
