//! Texts with their application.
ghost use Rattle.std.specs.Prelude.{IfSome};
ghost use Rattle.oil_model.specs.Linkable.{IsLinkable};
ghost use Rattle.task_code.specs.Fit.{AreFit};

use app_model::System;
use block_graph::{LinkError, link, one_answer};
use oil_lexer::tokens;
use oil_model::resolve;
use oil_tree::parse;
use osek_standard::{
    AlarmService, App, Block, Call, Counter, Isr, Kind, PlainService, Task, TaskService,
};
use osek_values::{AlarmNo, BlockNo, Lock, Mask, ResNo, TaskNo};
use std::alloc::Global;
use task_code::{Code, parse_code};

fn system_of(alloc: Global, oil: &[u8]) -> Option<System>
    ensures { IfSome result IsLinkable }
{
    let Ok(tokens) = tokens(oil) else {
        return None;
    };
    match parse(alloc, &tokens) {
        Ok(tree) => resolve(alloc, &tree).ok(),
        Err(_) => None,
    }
}

fn code_of(alloc: Global, text: &[u8]) -> Option<Code>
    ensures { IfSome result AreFit }
{
    match tokens(text) {
        Ok(tokens) => parse_code(alloc, &tokens).ok(),
        Err(_) => None,
    }
}

fn linked(alloc: Global, oil: &[u8], text: &[u8]) -> Result<App, LinkError> {
    let Some(code) = code_of(alloc, text) else {
        return Err(LinkError::Memory);
    };
    match system_of(alloc, oil) {
        Some(system) => link(alloc, system, &code),
        None => Err(LinkError::Memory),
    }
}

/// Whether the application of two texts is so.
fn gives<T: Fn(&App) -> bool>(alloc: Global, oil: &[u8], text: &[u8], is_so: T) -> bool
    requires { T.IsAlwaysCallable is_so }
{
    match linked(alloc, oil, text) {
        Ok(app) => {
            let right = is_so(&app);
            drop(app);
            right
        }
        Err(_) => false,
    }
}

fn block(kind: Kind, line: u32, next: u16) -> Block {
    Block {
        kind,
        locked: false,
        line,
        next: BlockNo(next),
    }
}

fn under_lock(kind: Kind, line: u32, next: u16) -> Block {
    Block {
        kind,
        locked: true,
        line,
        next: BlockNo(next),
    }
}

fn are_two_tasks(tasks: &[Task]) -> bool {
    tasks.len() == 2
        && tasks[0].first == BlockNo(3)
        && tasks[0].count == 2
        && tasks[1].first == BlockNo(0)
        && tasks[1].count == 3
}

/// The blocks of T2, whose code comes first, and then those of T1.
fn second_before_first(app: &App) -> bool {
    let wanted = [
        block(
            Kind::Call(Call::Task(TaskService::ActivateTask, TaskNo(0))),
            1,
            1,
        ),
        block(Kind::Call(Call::Plain(PlainService::TerminateTask)), 2, 2),
        block(Kind::TaskEnd, 2, 2),
        block(Kind::Call(Call::Plain(PlainService::TerminateTask)), 3, 4),
        block(Kind::TaskEnd, 4, 4),
    ];
    app.blocks.as_slice() == wanted.as_slice() && are_two_tasks(app.tasks.as_slice())
}

#[test]
fn tasks_in_the_order_of_the_text(rt: HostRuntime) {
    let oil = b"CPU c { OS os; TASK T1 { PRIORITY = 1; }; TASK T2 { PRIORITY = 2; }; };";
    let text = b"TASK(T2) { ActivateTask(T1);\n TerminateTask(); }\nTASK(T1) { TerminateTask();\n}";
    assert!(rt; gives(rt.alloc(), oil, text, second_before_first));
    one_answer();
}

fn branches_and_loops_lead(app: &App) -> bool {
    let wanted = [
        block(Kind::Choice(BlockNo(2)), 2, 1),
        block(Kind::Work(1), 2, 2),
        block(Kind::Choice(BlockNo(3)), 3, 4),
        block(Kind::Work(2), 3, 4),
        block(Kind::Choice(BlockNo(5)), 4, 4),
        block(Kind::Choice(BlockNo(7)), 5, 6),
        block(Kind::Choice(BlockNo(5)), 5, 5),
        block(Kind::Loop, 6, 8),
        block(Kind::Call(Call::Plain(PlainService::Schedule)), 6, 7),
        block(Kind::TaskEnd, 7, 9),
    ];
    app.blocks.as_slice() == wanted.as_slice()
}

#[test]
fn branches_and_loops(rt: HostRuntime) {
    let oil = b"CPU c { OS os; TASK T { PRIORITY = 1; }; };";
    let text =
        b"TASK(T) {\nif (?) { work 1; } else { }\nif (?) { } else { work 2; }\nwhile (?) { }\nwhile (?) { if (?) { } }\nwhile (1) { Schedule(); }\n}";
    assert!(rt; gives(rt.alloc(), oil, text, branches_and_loops_lead));
}

fn are_counters(counters: &[Counter]) -> bool {
    counters.len() == 2 && counters[1].first == BlockNo(10) && counters[1].count == 3
}

fn is_one_isr(isrs: &[Isr]) -> bool {
    isrs.len() == 1 && isrs[0].first == BlockNo(0) && isrs[0].count == 6 && isrs[0].priority == 7
}

/// An ISR's blocks, the task's, and the ticks of C and D.
fn locks_and_ticks_stand(app: &App) -> bool {
    let wanted = [
        block(Kind::Call(Call::Lock(Lock::SuspendAll)), 2, 1),
        under_lock(Kind::Work(3), 3, 2),
        under_lock(Kind::Call(Call::Lock(Lock::ResumeAll)), 4, 3),
        block(Kind::Call(Call::SetEvent(TaskNo(0), Mask(5))), 5, 4),
        block(
            Kind::Call(Call::Alarm(AlarmService::CancelAlarm, AlarmNo(1))),
            6,
            5,
        ),
        block(Kind::IsrEnd, 7, 5),
        block(Kind::TaskEnd, 8, 6),
        block(Kind::CountUp, 0, 8),
        block(Kind::Expire(AlarmNo(1)), 0, 9),
        block(Kind::IsrEnd, 0, 9),
        block(Kind::CountUp, 0, 11),
        block(Kind::Expire(AlarmNo(0)), 0, 12),
        block(Kind::IsrEnd, 0, 12),
    ];
    app.blocks.as_slice() == wanted.as_slice()
        && are_counters(app.counters.as_slice())
        && is_one_isr(app.isrs.as_slice())
}

#[test]
fn locks_masks_and_ticks(rt: HostRuntime) {
    let oil =
        b"CPU c { OS os; EVENT E1; EVENT E2; EVENT E3; TASK T { PRIORITY = 1; EVENT = E1; EVENT = E2; EVENT = E3; }; ISR I { CATEGORY = 2; PRIORITY = 7; }; COUNTER C { MAXALLOWEDVALUE = 9; }; COUNTER D { MAXALLOWEDVALUE = 9; }; ALARM A { COUNTER = D; ACTION = ACTIVATETASK { TASK = T; }; }; ALARM B { COUNTER = C; ACTION = ACTIVATETASK { TASK = T; }; }; };";
    let text =
        b"ISR(I) {\nSuspendAllInterrupts();\nwork 3;\nResumeAllInterrupts();\nSetEvent(T, E1 | E3);\nCancelAlarm(B);\n}\nTASK(T) { }";
    assert!(rt; gives(rt.alloc(), oil, text, locks_and_ticks_stand));
}

fn are_grouped(tasks: &[Task]) -> bool {
    tasks.len() == 2
        && tasks[0].activation == 255
        && tasks[0].internal == Some(ResNo(0))
        && tasks[1].activation == 1
        && tasks[1].internal.is_none()
}

fn is_grouped(app: &App) -> bool {
    are_grouped(app.tasks.as_slice())
}

#[test]
fn activations_and_an_internal_resource(rt: HostRuntime) {
    let oil =
        b"CPU c { OS os; RESOURCE G { RESOURCEPROPERTY = INTERNAL; }; TASK T1 { PRIORITY = 1; ACTIVATION = 255; RESOURCE = G; }; TASK T2 { PRIORITY = 1; }; };";
    assert!(rt; gives(rt.alloc(), oil, b"TASK(T1) { } TASK(T2) { }", is_grouped));
}
