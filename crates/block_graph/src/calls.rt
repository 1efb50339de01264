//! The rules on calls: that the names in them are declared, that an ISR takes and gives back no resource but those that it
//! names, and no call an INTERNAL one.
ghost use Rattle.std.specs.{Prelude.{◌≡◌, ℕ}, List.{flat_map, list_any}, Str.{bytes_eq}};
ghost use Rattle.osek_standard.specs.Validity.{is_internal};
ghost use Rattle.oil_model.specs.Lines.{sooner, least};
ghost use Rattle.task_code.specs.{Statements.{Statements}, StatementLists.{statement_before}};
ghost use Rattle.block_graph.specs.Rules as rules_of;
ghost use Rattle.block_graph.specs.CallRules.{lines_of};

use crate::names::Declared;
use oil_model::{line_if, sooner};
use osek_values::Name;
use task_code::{Body, BodyKind, Call, Reference, Statement, StatementList};

/// What is asked of each call.
#[derive(Clone, Copy)]
pub enum CallRule {
    /// That the names in it are declared.
    Declared,
    /// That the ISR of this number names the resource that it takes or gives back.
    NamedBy(usize),
    /// That it neither takes nor gives back an INTERNAL resource.
    Takable,
}

fn undeclared(number: Option<usize>, line: u32) -> Option<u32>
    ensures { result ≡ least (rules_of.undeclared number line) }
{
    match number {
        Some(_) => None,
        None => Some(line),
    }
}

fn no_task(system: &Declared, task: &Reference) -> Option<u32>
    ensures { result ≡ least (rules_of.no_task system.now task.now) }
{
    undeclared(system.task_of(&task.name), task.line)
}

fn no_alarm(system: &Declared, alarm: &Reference) -> Option<u32>
    ensures { result ≡ least (rules_of.no_alarm system.now alarm.now) }
{
    undeclared(system.alarm_of(&alarm.name), alarm.line)
}

fn no_resource(system: &Declared, resource: &Reference) -> Option<u32>
    ensures { result ≡ least (rules_of.no_resource system.now resource.now) }
{
    undeclared(system.resource_of(&resource.name), resource.line)
}

fn no_event(system: &Declared, event: &Reference) -> Option<u32>
    ensures { result ≡ least (rules_of.no_event system.now event.now) }
{
    undeclared(system.event_of(&event.name), event.line)
}

/// The least line of an event of a mask that isn't declared.
fn no_events(system: &Declared, events: &[Reference]) -> Option<u32>
    ensures { result ≡ least (flat_map (rules_of.no_event system.now) events.now) }
{
    let mut best = None;
    for event in events {
        best = sooner(best, no_event(system, event));
    }
    best
}

/// The least line of a name that isn't declared as the needed kind.
#[tactic(auto, using(oil_model::proofs::Leasts::least_steps))]
fn undeclared_in(system: &Declared, call: &Call) -> Option<u32>
    ensures { (line : ℕ) → result ≡ least (rules_of.undeclared_in system.now line call.now) }
{
    match call {
        Call::ActivateTask(task) => no_task(system, task),
        Call::TerminateTask => None,
        Call::ChainTask(task) => no_task(system, task),
        Call::Schedule => None,
        Call::GetResource(resource) => no_resource(system, resource),
        Call::ReleaseResource(resource) => no_resource(system, resource),
        Call::SetEvent(task, events) => sooner(
            no_task(system, task),
            no_events(system, events.as_slice()),
        ),
        Call::ClearEvent(events) => no_events(system, events.as_slice()),
        Call::GetEvent(task) => no_task(system, task),
        Call::WaitEvent(events) => no_events(system, events.as_slice()),
        Call::SetRelAlarm(alarm, _, _) => no_alarm(system, alarm),
        Call::SetAbsAlarm(alarm, _, _) => no_alarm(system, alarm),
        Call::CancelAlarm(alarm) => no_alarm(system, alarm),
        Call::GetAlarm(alarm) => no_alarm(system, alarm),
        Call::GetTaskId => None,
        Call::GetTaskState(task) => no_task(system, task),
        Call::GetActiveApplicationMode => None,
        Call::ShutdownOs(_) => None,
        Call::LockCall(_) => None,
    }
}

fn has_name(names: &[Name], name: &Name) -> bool
    ensures { result ≡ list_any (bytes_eq name.now) names.now }
{
    for one in names {
        if name.as_bytes() == one.as_bytes() {
            return true;
        }
    }
    false
}

/// Whether the ISR of a number names a resource.
fn names(system: &Declared, isr: usize, resource: &Reference) -> bool
    ensures { result ≡ list_any (bytes_eq resource.now.name) (rules_of.resources_of_isr system.now isr) }
{
    let isrs = system.system().isrs.as_slice();
    if isr < isrs.len() {
        has_name(isrs[isr].resources.as_slice(), &resource.name)
    } else {
        false
    }
}

/// Whether a call takes or gives back a resource that the ISR of a number doesn't name.
fn is_unnamed(system: &Declared, isr: usize, call: &Call) -> bool
    ensures { result ≡ rules_of.is_unnamed (rules_of.resources_of_isr system.now isr) call.now }
{
    match call {
        Call::GetResource(resource) => !names(system, isr, resource),
        Call::ReleaseResource(resource) => !names(system, isr, resource),
        _ => false,
    }
}

fn is_internal(system: &Declared, number: usize) -> bool
    ensures { result ≡ is_internal system.now.resources number }
{
    let resources = system.system().resources.as_slice();
    if number < resources.len() {
        resources[number].internal
    } else {
        false
    }
}

fn internal_at(system: &Declared, number: Option<usize>, line: u32) -> Option<u32>
    ensures { result ≡ least (rules_of.internal_at system.now number line) }
{
    match number {
        Some(number) => line_if(is_internal(system, number), line),
        None => None,
    }
}

fn internal(system: &Declared, resource: &Reference) -> Option<u32>
    ensures { result ≡ least (rules_of.internal_resource system.now resource.now) }
{
    internal_at(system, system.resource_of(&resource.name), resource.line)
}

fn internal_in(system: &Declared, call: &Call) -> Option<u32>
    ensures { (line : ℕ) → result ≡ least (rules_of.internal_in system.now line call.now) }
{
    match call {
        Call::GetResource(resource) => internal(system, resource),
        Call::ReleaseResource(resource) => internal(system, resource),
        _ => None,
    }
}

/// The least line on which a call violates the rule.
fn least_of_call(rule: CallRule, system: &Declared, line: u32, call: &Call) -> Option<u32>
    ensures { result ≡ least (lines_of rule system.now line call.now) }
{
    match rule {
        CallRule::Declared => undeclared_in(system, call),
        CallRule::NamedBy(isr) => line_if(is_unnamed(system, isr, call), line),
        CallRule::Takable => internal_in(system, call),
    }
}

/// The least line on which a call in a statement violates the rule.
#[cycle(calls_of)]
#[tactic(auto, using(oil_model::proofs::Leasts::least_steps))]
fn least_of_statement(rule: CallRule, system: &Declared, statement: &Statement) -> Option<u32>
    ensures { (next : Statements) → least (rules_of.from_calls (lines_of rule system.now) (statement_before statement.now next)) ≡ sooner result (least (rules_of.from_calls (lines_of rule system.now) next)) }
{
    match statement {
        Statement::Work { line: _, count: _ } => None,
        Statement::If {
            line: _,
            then,
            otherwise: None,
        } => least_of_list(rule, system, then),
        Statement::If {
            line: _,
            then,
            otherwise: Some(otherwise),
        } => sooner(
            least_of_list(rule, system, then),
            least_of_list(rule, system, otherwise),
        ),
        Statement::While {
            line: _,
            condition: _,
            body,
        } => least_of_list(rule, system, body),
        Statement::Call { line, call } => least_of_call(rule, system, *line, call),
    }
}

/// The least line on which a call in a list of statements violates the rule.
#[cycle(calls_of)]
#[tactic(auto, using(oil_model::proofs::Leasts::least_steps))]
fn least_of_list(rule: CallRule, system: &Declared, list: &StatementList) -> Option<u32>
    ensures { result ≡ least (rules_of.from_calls (lines_of rule system.now) list.now) }
{
    let mut best = None;
    for statement in list.as_slice() {
        best = sooner(best, least_of_statement(rule, system, statement));
    }
    best
}

/// The least line of a name in a call that isn't declared as the needed kind.
pub fn undeclared_name(system: &Declared, bodies: &[Body]) -> Option<u32>
    ensures { result ≡ least (rules_of.undeclared_names system.now bodies.now) }
{
    let mut best = None;
    for body in bodies {
        best = sooner(
            best,
            least_of_list(CallRule::Declared, system, &body.statements),
        );
    }
    best
}

fn unnamed_resource(
    system: &Declared,
    isr: Option<usize>,
    statements: &StatementList,
) -> Option<u32>
    ensures { result ≡ least (rules_of.unnamed_resources system.now isr statements.now) }
{
    match isr {
        None => None,
        Some(number) => least_of_list(CallRule::NamedBy(number), system, statements),
    }
}

fn isr_resource_of(system: &Declared, body: &Body) -> Option<u32>
    ensures { result ≡ least (rules_of.isr_resources_by system.now body.now.kind body.now.owner.name body.now.statements) }
{
    match body.kind {
        BodyKind::Task => None,
        BodyKind::Isr => unnamed_resource(
            system,
            system.isr_of(&body.owner.name),
            &body.statements,
        ),
    }
}

/// The least line of a GetResource or ReleaseResource in an ISR of a resource that the ISR doesn't name.
pub fn isr_resource(system: &Declared, bodies: &[Body]) -> Option<u32>
    ensures { result ≡ least (rules_of.isr_resources system.now bodies.now) }
{
    let mut best = None;
    for body in bodies {
        best = sooner(best, isr_resource_of(system, body));
    }
    best
}

/// The least line of an INTERNAL resource that a call takes or gives back.
pub fn internal_resource(system: &Declared, bodies: &[Body]) -> Option<u32>
    ensures { result ≡ least (rules_of.internal_resources system.now bodies.now) }
{
    let mut best = None;
    for body in bodies {
        best = sooner(
            best,
            least_of_list(CallRule::Takable, system, &body.statements),
        );
    }
    best
}
