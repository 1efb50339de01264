//! The cases of a service, by the kind of its block.
ghost use Rattle.std.specs.Prelude.{◌≡◌, ◌<◌, length, map, IsTrue, IfOk};
ghost use Rattle.osek_standard.specs.{Apps.{tables, the_block}, Validity.{HasOperands}};
ghost use Rattle.flow_model.specs.{Runners.{runner_point, OwnsBlock, IsKnown}, Effects.{AreCasesOf}};
ghost use Rattle.flow_services.specs.{Occasions.{case_at}, Services.{is_service_call as is_service_call_of, is_service as is_service_of, call_cases as call_cases_of}};

use crate::alarms::{
    alarm_readings, armings, cancellings, expiries, is_abs_refused, is_rel_refused,
};
use crate::events::{add_event_settings, event_clearings, event_readings};
use crate::occasion::{Occasion, one};
use crate::tasks::add_activations;
use flow_model::{EffectCase, Runner};
use osek_standard::{
    AlarmService, App, ArmService, Call, Kind, MaskService, PlainService, TaskService,
};
use osek_values::{BlockNo, Memory, Seq};
use std::alloc::Global;

fn is_service_call(call: Call) -> bool
    ensures { result ≡ is_service_call_of call }
{
    match call {
        Call::Task(TaskService::ChainTask, _) => false,
        Call::Task(_, _) => true,
        Call::Plain(PlainService::TerminateTask | PlainService::Schedule) => false,
        Call::Plain(_) => true,
        Call::Resource(_, _) => false,
        Call::SetEvent(_, _) => true,
        Call::Mask(MaskService::ClearEvent, _) => true,
        Call::Mask(MaskService::WaitEvent, _) => false,
        Call::Arm(_, _, _, _) => true,
        Call::Alarm(_, _) => true,
        Call::Lock(_) => true,
        Call::ShutdownOs => false,
    }
}

/// Whether the cases of a block of this kind stand here.
pub fn is_service(kind: Kind) -> bool
    ensures { result ≡ is_service_of kind }
{
    match kind {
        Kind::Call(call) => is_service_call(call),
        Kind::Expire(_) => true,
        Kind::Work(_) | Kind::Choice(_) | Kind::Loop => false,
        Kind::TaskEnd | Kind::IsrEnd | Kind::CountUp => false,
    }
}

/// The cases of a call.
fn call_cases(
    alloc: Global,
    app: &App,
    occasion: Occasion,
    call: Call,
) -> Result<Seq<EffectCase>, Memory>
    requires operands { HasOperands (tables app.now) call }
    requires runner { IsKnown app.now occasion.runner }
    ensures { IfOk result (λ cases. cases ≡ map (case_at occasion) (call_cases_of app.now occasion.runner call)) }
{
    let mut cases = Seq::new(alloc);
    match call {
        Call::Task(TaskService::ActivateTask, task) => {
            add_activations(alloc, app, occasion, task, &mut cases)?;
            Ok(cases)
        }
        Call::SetEvent(task, mask) => {
            add_event_settings(alloc, app, occasion, task, mask, &mut cases)?;
            Ok(cases)
        }
        Call::Task(TaskService::GetEvent, task) => event_readings(alloc, app, occasion, task),
        Call::Mask(MaskService::ClearEvent, mask) => event_clearings(alloc, app, occasion, mask),
        Call::Arm(ArmService::SetRelAlarm, alarm, increment, cycle) => {
            let refused = is_rel_refused(app, alarm, increment, cycle);
            armings(alloc, app, occasion, alarm, refused)
        }
        Call::Arm(ArmService::SetAbsAlarm, alarm, start, cycle) => {
            let refused = is_abs_refused(app, alarm, start, cycle);
            armings(alloc, app, occasion, alarm, refused)
        }
        Call::Alarm(AlarmService::CancelAlarm, alarm) => cancellings(alloc, app, occasion, alarm),
        Call::Alarm(AlarmService::GetAlarm, alarm) => alarm_readings(alloc, app, occasion, alarm),
        Call::Task(TaskService::GetTaskState, _) | Call::Plain(PlainService::GetTaskId) => {
            one(alloc, occasion.answered(alloc, Seq::new(alloc))?)
        }
        Call::Plain(PlainService::GetActiveApplicationMode) | Call::Lock(_) => {
            one(alloc, occasion.unnoted(alloc, Seq::new(alloc))?)
        }
        Call::Task(TaskService::ChainTask, _)
        | Call::Plain(PlainService::TerminateTask | PlainService::Schedule)
        | Call::Resource(_, _)
        | Call::Mask(MaskService::WaitEvent, _)
        | Call::ShutdownOs => Ok(cases),
    }
}

/// The cases of the effect at a block of one of these kinds.
pub fn service_cases(
    alloc: Global,
    app: &App,
    runner: Runner,
    block: BlockNo,
) -> Result<Seq<EffectCase>, Memory>
    requires owns { OwnsBlock app.now runner block }
    requires service { IsTrue (is_service_of (the_block app.now block.0).kind) }
    ensures { IfOk result (AreCasesOf app.now (runner_point runner block)) }
{
    let place = app.block(block);
    match place.kind {
        Kind::Call(call) => {
            let occasion = Occasion {
                runner,
                next: place.next,
                asked: runner.asked(app),
                expired: None,
            };
            call_cases(alloc, app, occasion, call)
        }
        Kind::Expire(alarm) => expiries(alloc, app, runner, place.next, alarm),
        Kind::Work(_) | Kind::Choice(_) | Kind::Loop => Ok(Seq::new(alloc)),
        Kind::TaskEnd | Kind::IsrEnd | Kind::CountUp => Ok(Seq::new(alloc)),
    }
}
