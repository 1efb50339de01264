//! The calls: each kind of block with the row of its service.
ghost use Rattle.std.specs.Prelude.{◌≡◌, ◌<◌, length, Some, None, ◌+◌, false, not, IsTrue};
ghost use Rattle.osek_standard.specs.{Apps.{tables, is_counter, source_count}, Validity.{NamesEntries, HasOperands, is_internal}, States.{caller, IfRoutine}};
ghost use Rattle.osek_standard.specs.{Services.{answer, maybe_if, get_resource_by, release_resource_by, counted_by}, Effects.{called, row}, Well.{Well, IsActive, IsWaitEvent}};
ghost use Rattle.osek_standard.specs.declared.call.Call.{Call};
ghost use Rattle.osek_standard.specs.declared.call.Call.TheVariants as call;
ghost use Rattle.osek_standard.specs.declared.block.Kind.TheVariants as a_kind;

use crate::replies::Reply;
use crate::services::{chain_task, schedule, terminate_task};
use activation::activate;
use event_alarm::{
    cancel_alarm, clear_event, count_up, expire, get_alarm, get_event, set_abs_alarm, set_event,
    set_rel_alarm,
};
use osek_standard::{
    AlarmService, App, ArmService, Call, Caller, Kind, MaskService, PlainService, ResourceService,
    State, TaskService,
};
use osek_values::{AlarmNo, Ask, CounterNo, IsrNo, ResNo, SourceNo, Status, TaskNo, Value};

/// What a service asks that may ask for rescheduling: it does so where it is accepted.
fn maybe_where_accepted(status: Status) -> Ask
    ensures { result ≡ maybe_if status }
{
    match status {
        Status::Ok => Ask::Maybe,
        Status::Access
        | Status::CallLevel
        | Status::Id
        | Status::Limit
        | Status::NoFunc
        | Status::Resource
        | Status::State
        | Status::Value => Ask::No,
    }
}

/// The ISR whose routine a source's is.
fn isr_of(app: &App, source: SourceNo) -> IsrNo
    requires known { source.0 < source_count app.now }
    requires isr { is_counter app.now source.0 ≡ false }
    ensures is { length app.now.counters + result.0 ≡ source.0 }
    ensures known { result.0 < length app.now.isrs }
{
    IsrNo((source.index() - app.counters.len()) as u8)
}

/// GetResource of the caller.
fn get_resource(app: &App, state: &mut State, resource: ResNo) -> Reply
    requires resource { resource.0 < length app.now.resources }
    requires takable { IsTrue (not (is_internal app.now.resources resource.0)) }
    requires isr { IfRoutine (caller state.old.processor) (λ k. is_counter app.now k.0 ≡ false) }
    requires well { Well app.now state.old }
    ensures { get_resource_by app.now state.old (caller state.old.processor) resource ≡ answer state.new result.status result.value result.ask }
{
    match state.caller() {
        Caller::Nobody => Reply::unnoted(Ask::No),
        Caller::Routine(source) => {
            let isr = isr_of(app, source);
            let status = ceiling_rules::get_resource_isr(app, state, isr, resource);
            Reply::of(Some(status), Ask::No)
        }
        Caller::Task(task) => {
            let status = ceiling_rules::get_resource(app, state, task, resource);
            Reply::of(Some(status), Ask::No)
        }
    }
}

/// ReleaseResource of the caller.
fn release_resource(app: &App, state: &mut State, resource: ResNo) -> Reply
    requires resource { resource.0 < length app.now.resources }
    requires isr { IfRoutine (caller state.old.processor) (λ k. is_counter app.now k.0 ≡ false) }
    requires well { Well app.now state.old }
    ensures { release_resource_by app.now state.old (caller state.old.processor) resource ≡ answer state.new result.status result.value result.ask }
{
    match state.caller() {
        Caller::Nobody => Reply::unnoted(Ask::No),
        Caller::Routine(source) => {
            let isr = isr_of(app, source);
            let status = ceiling_rules::release_resource_isr(app, state, isr, resource);
            Reply::of(Some(status), Ask::No)
        }
        Caller::Task(task) => {
            let status = ceiling_rules::release_resource(app, state, task, resource);
            Reply::of(Some(status), maybe_where_accepted(status))
        }
    }
}

/// A tick, by the routine of a counter.
pub(crate) fn count(app: &App, state: &mut State)
    requires { Well app.now state.old }
    ensures { counted_by app.now state.old (caller state.old.processor) ≡ state.new }
{
    match state.caller() {
        Caller::Nobody | Caller::Task(_) => {}
        Caller::Routine(source) => {
            if source.index() < app.counters.len() {
                count_up(app, state, CounterNo(source.0));
            }
        }
    }
}

/// The row of a service without operands.
fn plain_row(app: &App, state: &mut State, service: PlainService) -> Reply
    requires well { Well app.now state.old }
    requires active { IsActive state.old.processor }
    ensures { row app.now state.old (caller state.old.processor) (call.Plain service) ≡ answer state.new result.status result.value result.ask }
{
    match service {
        PlainService::TerminateTask => {
            let (status, ask) = terminate_task(app, state);
            Reply::of(status, ask)
        }
        PlainService::Schedule => {
            let (status, ask) = schedule(app, state);
            Reply::of(Some(status), ask)
        }
        PlainService::GetTaskId => Reply::value(Value::Task(state.current())),
        PlainService::GetActiveApplicationMode => Reply {
            status: None,
            value: Some(Value::Mode(state.mode)),
            ask: Ask::No,
        },
    }
}

/// The row of a service of a task.
fn task_row(app: &App, state: &mut State, service: TaskService, task: TaskNo) -> Reply
    requires known { task.0 < length app.now.tasks }
    requires well { Well app.now state.old }
    requires active { IsActive state.old.processor }
    ensures { row app.now state.old (caller state.old.processor) (call.Task service task) ≡ answer state.new result.status result.value result.ask }
{
    match service {
        TaskService::ActivateTask => {
            let status = activate(app, state, task);
            Reply::of(Some(status), maybe_where_accepted(status))
        }
        TaskService::ChainTask => {
            let (status, ask) = chain_task(app, state, task);
            Reply::of(status, ask)
        }
        TaskService::GetEvent => match get_event(app, state, task) {
            Ok(events) => Reply::value(Value::Mask(events)),
            Err(status) => Reply::of(Some(status), Ask::No),
        },
        TaskService::GetTaskState => Reply::value(Value::State(state.letter(task))),
    }
}

/// The row of a service of an alarm.
fn alarm_row(app: &App, state: &mut State, service: AlarmService, alarm: AlarmNo) -> Reply
    requires known { alarm.0 < length app.now.alarms }
    requires well { Well app.now state.old }
    ensures { row app.now state.old (caller state.old.processor) (call.Alarm service alarm) ≡ answer state.new result.status result.value result.ask }
{
    match service {
        AlarmService::CancelAlarm => {
            let status = cancel_alarm(app, state, alarm);
            Reply::of(Some(status), Ask::No)
        }
        AlarmService::GetAlarm => match get_alarm(app, state, alarm) {
            Ok(ticks) => Reply::value(Value::Number(ticks)),
            Err(status) => Reply::of(Some(status), Ask::No),
        },
    }
}

/// The row of a service whose caller went on before. The lock calls do nothing here.
fn service_row(app: &App, state: &mut State, call: Call) -> Reply
    requires operands { HasOperands (tables app.now) call }
    requires isr { IfRoutine (caller state.old.processor) (λ k. is_counter app.now k.0 ≡ false) }
    requires goes_on { IsWaitEvent (a_kind.Call call) → ⊥ }
    requires well { Well app.now state.old }
    requires active { IsActive state.old.processor }
    ensures { row app.now state.old (caller state.old.processor) call ≡ answer state.new result.status result.value result.ask }
{
    match call {
        Call::Plain(service) => plain_row(app, state, service),
        Call::Task(service, task) => task_row(app, state, service, task),
        Call::Resource(ResourceService::GetResource, resource) => {
            get_resource(app, state, resource)
        }
        Call::Resource(ResourceService::ReleaseResource, resource) => {
            release_resource(app, state, resource)
        }
        Call::SetEvent(task, mask) => {
            let (status, ask) = set_event(app, state, task, mask);
            Reply::of(Some(status), ask)
        }
        Call::Mask(MaskService::ClearEvent, mask) => {
            let status = clear_event(app, state, mask);
            Reply::of(Some(status), Ask::No)
        }
        Call::Mask(MaskService::WaitEvent, _) => unreachable!(),
        Call::Alarm(service, alarm) => alarm_row(app, state, service, alarm),
        Call::Arm(ArmService::SetRelAlarm, alarm, increment, cycle) => {
            let status = set_rel_alarm(app, state, alarm, increment, cycle);
            Reply::of(Some(status), Ask::No)
        }
        Call::Arm(ArmService::SetAbsAlarm, alarm, start, cycle) => {
            let status = set_abs_alarm(app, state, alarm, start, cycle);
            Reply::of(Some(status), Ask::No)
        }
        Call::Lock(_) | Call::ShutdownOs => Reply::unnoted(Ask::No),
    }
}

/// The row of a call whose caller went on before. The kinds that are no calls do nothing here.
pub fn call(app: &App, state: &mut State, kind: Kind) -> Reply
    requires operands { NamesEntries (tables app.now) kind }
    requires isr { (c : Call) → kind ≡ a_kind.Call c → IfRoutine (caller state.old.processor) (λ k. is_counter app.now k.0 ≡ false) }
    requires goes_on { IsWaitEvent kind → ⊥ }
    requires well { Well app.now state.old }
    requires active { IsActive state.old.processor }
    ensures { called app.now state.old (caller state.old.processor) kind ≡ answer state.new result.status result.value result.ask }
{
    match kind {
        Kind::Call(service) => service_row(app, state, service),
        Kind::CountUp => {
            count(app, state);
            Reply::unnoted(Ask::No)
        }
        Kind::Expire(alarm) => {
            let status = expire(app, state, alarm);
            Reply::of(status, Ask::No)
        }
        Kind::Work(_) | Kind::Choice(_) | Kind::Loop | Kind::TaskEnd | Kind::IsrEnd => {
            Reply::unnoted(Ask::No)
        }
    }
}
