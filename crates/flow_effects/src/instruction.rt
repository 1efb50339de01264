//! The cases of an instruction, by the kind of its block.
ghost use Rattle.std.specs.Prelude.{◌≡◌, false, IfOk};
ghost use Rattle.osek_standard.specs.declared.block.Kind.TheVariants as kind;
ghost use Rattle.osek_standard.specs.{Apps.{the_block}, Points.{IsPoint}};
ghost use Rattle.abstract_state.specs.{declared.table.PlainEntry.{PlainEntry}, Domains.{domains, domains_of}};
ghost use Rattle.flow_model.specs.{Effects.{AreAllAllowed, CoverEffects, AreExactEffects, HaveKnownStays, AreCasesOf}, Runners.{runner_point, OwnsBlock}};
ghost use Rattle.flow_services.specs.Services.{is_service, is_service_call};
ghost use Rattle.flow_effects.specs.CallNames as call;
ghost use Rattle.flow_effects.specs.Outs.{AreOutIn, AreCasesWith};

use crate::moves::{choice_cases, halts, onward, work_cases};
use crate::resources::{get_cases, release_cases};
use crate::returns::return_cases;
use crate::task_ends::{chain_cases, schedule_cases, task_end_cases, terminate_cases};
use crate::waiting::wait_cases;
use abstract_state::{Point, masks_are_few};
use flow_model::{EffectCase, Runner, routine_of, task_of};
use flow_services::{is_service, service_cases};
use osek_standard::{App, Call, Kind, MaskService, PlainService, ResourceService, TaskService};
use osek_values::{BlockNo, Mask, Memory, ResNo, Seq, TaskNo};
use std::alloc::Global;

/// The cases of a service without operands.
fn plain_cases(
    alloc: Global,
    app: &App,
    runner: Runner,
    block: BlockNo,
    service: PlainService,
) -> Result<Seq<EffectCase>, Memory>
    requires owns { OwnsBlock app.now runner block }
    requires kind { (the_block app.now block.0).kind ≡ kind.Call (call.Plain service) }
    requires unserved { is_service_call (call.Plain service) ≡ false }
    ensures { IfOk result (AreCasesOf app.now (runner_point runner block)) }
{
    let next = app.block(block).next;
    match service {
        PlainService::TerminateTask => terminate_cases(alloc, app, runner, next),
        PlainService::Schedule => schedule_cases(alloc, runner, next),
        PlainService::GetTaskId | PlainService::GetActiveApplicationMode => Ok(Seq::new(alloc)),
    }
}

/// The cases of a service of a task.
fn task_cases(
    alloc: Global,
    app: &App,
    runner: Runner,
    block: BlockNo,
    service: TaskService,
    task: TaskNo,
) -> Result<Seq<EffectCase>, Memory>
    requires owns { OwnsBlock app.now runner block }
    requires kind { (the_block app.now block.0).kind ≡ kind.Call (call.Task service task) }
    requires unserved { is_service_call (call.Task service task) ≡ false }
    ensures { IfOk result (AreCasesOf app.now (runner_point runner block)) }
{
    let next = app.block(block).next;
    match service {
        TaskService::ChainTask => chain_cases(alloc, app, runner, next, task),
        TaskService::ActivateTask | TaskService::GetEvent => Ok(Seq::new(alloc)),
        TaskService::GetTaskState => Ok(Seq::new(alloc)),
    }
}

/// The cases of a service of a resource.
fn resource_cases(
    alloc: Global,
    app: &App,
    runner: Runner,
    block: BlockNo,
    service: ResourceService,
    resource: ResNo,
) -> Result<Seq<EffectCase>, Memory>
    requires owns { OwnsBlock app.now runner block }
    requires kind { (the_block app.now block.0).kind ≡ kind.Call (call.Resource service resource) }
    ensures { IfOk result (AreCasesOf app.now (runner_point runner block)) }
{
    let next = app.block(block).next;
    match service {
        ResourceService::GetResource => get_cases(alloc, app, runner, next, resource),
        ResourceService::ReleaseResource => release_cases(alloc, app, runner, next, resource),
    }
}

/// The cases of a service of the caller's events.
fn mask_cases(
    alloc: Global,
    app: &App,
    runner: Runner,
    block: BlockNo,
    service: MaskService,
    mask: Mask,
) -> Result<Seq<EffectCase>, Memory>
    requires owns { OwnsBlock app.now runner block }
    requires kind { (the_block app.now block.0).kind ≡ kind.Call (call.Mask service mask) }
    requires unserved { is_service_call (call.Mask service mask) ≡ false }
    ensures { IfOk result (AreCasesOf app.now (runner_point runner block)) }
{
    let next = app.block(block).next;
    match service {
        MaskService::WaitEvent => {
            masks_are_few(app);
            wait_cases(alloc, app, runner, block, next, mask)
        }
        MaskService::ClearEvent => Ok(Seq::new(alloc)),
    }
}

/// The cases of a call.
fn call_cases(
    alloc: Global,
    app: &App,
    runner: Runner,
    block: BlockNo,
    call: Call,
) -> Result<Seq<EffectCase>, Memory>
    requires owns { OwnsBlock app.now runner block }
    requires kind { (the_block app.now block.0).kind ≡ kind.Call call }
    requires unserved { is_service_call call ≡ false }
    ensures { IfOk result (AreCasesOf app.now (runner_point runner block)) }
{
    match call {
        Call::Plain(service) => plain_cases(alloc, app, runner, block, service),
        Call::Task(service, task) => task_cases(alloc, app, runner, block, service, task),
        Call::Resource(service, resource) => {
            resource_cases(alloc, app, runner, block, service, resource)
        }
        Call::Mask(service, mask) => mask_cases(alloc, app, runner, block, service, mask),
        Call::SetEvent(_, _) | Call::Alarm(_, _) => Ok(Seq::new(alloc)),
        Call::Arm(_, _, _, _) | Call::Lock(_) => Ok(Seq::new(alloc)),
        Call::ShutdownOs => halts(alloc, app, runner, app.block(block).next),
    }
}

/// The cases of the instruction at a block, which is no service after which its caller goes on.
fn instruction_cases(
    alloc: Global,
    app: &App,
    runner: Runner,
    block: BlockNo,
    outs: &[bool],
) -> Result<Seq<EffectCase>, Memory>
    requires owns { OwnsBlock app.now runner block }
    requires unserved { is_service (the_block app.now block.0).kind ≡ false }
    ensures { IfOk result (AreCasesWith app.now outs.now (runner_point runner block)) }
{
    let next = app.block(block).next;
    match app.block(block).kind {
        Kind::Work(count) => work_cases(alloc, runner, block, next, count),
        Kind::Choice(other) => choice_cases(alloc, runner, next, other),
        Kind::Loop => onward(alloc, runner, next),
        Kind::Call(call) => call_cases(alloc, app, runner, block, call),
        Kind::TaskEnd => task_end_cases(alloc, app, runner, block),
        Kind::IsrEnd => return_cases(alloc, app, runner, block, outs),
        Kind::CountUp => onward(alloc, runner, next),
        Kind::Expire(_) => Ok(Seq::new(alloc)),
    }
}

/// The cases of the instruction at a block.
fn block_cases(
    alloc: Global,
    app: &App,
    runner: Runner,
    block: BlockNo,
    outs: &[bool],
) -> Result<Seq<EffectCase>, Memory>
    requires { OwnsBlock app.now runner block }
    ensures { IfOk result (AreCasesWith app.now outs.now (runner_point runner block)) }
{
    if is_service(app.block(block).kind) {
        return service_cases(alloc, app, runner, block);
    }
    instruction_cases(alloc, app, runner, block, outs)
}

/// The cases of the effect of the instruction at a point: which values of the components it takes, and what it makes of
/// them. Where nobody executes there is no case. The sources for which `outs` is true are known to be out: no case has the
/// routine of one go on. Of sources past its end nothing is known.
pub fn effect_cases(
    alloc: Global,
    app: &App,
    point: Point,
    outs: &[bool],
) -> Result<Seq<EffectCase>, Memory>
    requires point { IsPoint app.now point }
    ensures covering { IfOk result (λ cases. (entry : PlainEntry) → domains entry ≡ domains_of app.now → AreOutIn app.now outs.now entry → CoverEffects app.now point entry cases) }
    ensures exact { IfOk result (λ cases. (entry : PlainEntry) → domains entry ≡ domains_of app.now → AreAllAllowed app.now point entry → AreExactEffects app.now point entry cases) }
    ensures stays { IfOk result (HaveKnownStays app.now) }
{
    match point {
        Point::Halted | Point::Idle => Ok(Seq::new(alloc)),
        Point::Task(block) => {
            block_cases(alloc, app, Runner::Task(task_of(app, block)), block, outs)
        }
        Point::Routine { block, over } => {
            block_cases(alloc, app, routine_of(app, block, over), block, outs)
        }
    }
}
