//! Texts with their code.
use oil_lexer::tokens;
use osek_values::{Lock, Status};
use std::alloc::{AllocError, Global};
use task_code::{Body, BodyKind, Call, Condition, Reference, Statement, one_answer, parse_code};

fn is_at(reference: &Reference, name: &[u8], line: u32) -> bool {
    reference.name.as_bytes() == name && reference.line == line
}

/// The name that the standard gives the service, where its operands are the expected ones.
fn service_of(call: &Call) -> &'static [u8] {
    match call {
        Call::ActivateTask(task) if is_at(task, b"T", 2) => b"ActivateTask".as_slice(),
        Call::TerminateTask => b"TerminateTask".as_slice(),
        Call::ChainTask(task) if is_at(task, b"T", 2) => b"ChainTask".as_slice(),
        Call::Schedule => b"Schedule".as_slice(),
        Call::GetResource(resource) if is_at(resource, b"R", 2) => b"GetResource".as_slice(),
        Call::ReleaseResource(resource) if is_at(resource, b"R", 2) =>
            b"ReleaseResource".as_slice(),
        Call::SetEvent(task, mask) if is_at(task, b"T", 2) && mask.len() == 2 => {
            b"SetEvent".as_slice()
        }
        Call::ClearEvent(mask) if mask.len() == 3 => b"ClearEvent".as_slice(),
        Call::GetEvent(task) if is_at(task, b"T", 2) => b"GetEvent".as_slice(),
        Call::WaitEvent(mask) if mask.len() == 1 => b"WaitEvent".as_slice(),
        Call::SetRelAlarm(alarm, 5, 16) if is_at(alarm, b"A", 2) => b"SetRelAlarm".as_slice(),
        Call::SetAbsAlarm(alarm, 0, 7) if is_at(alarm, b"A", 2) => b"SetAbsAlarm".as_slice(),
        Call::CancelAlarm(alarm) if is_at(alarm, b"A", 2) => b"CancelAlarm".as_slice(),
        Call::GetAlarm(alarm) if is_at(alarm, b"A", 2) => b"GetAlarm".as_slice(),
        Call::GetTaskId => b"GetTaskID".as_slice(),
        Call::GetTaskState(task) if is_at(task, b"T", 2) => b"GetTaskState".as_slice(),
        Call::GetActiveApplicationMode => b"GetActiveApplicationMode".as_slice(),
        Call::ShutdownOs(Status::NoFunc) => b"ShutdownOS".as_slice(),
        Call::LockCall(Lock::SuspendAll) => b"SuspendAllInterrupts".as_slice(),
        Call::LockCall(Lock::ResumeAll) => b"ResumeAllInterrupts".as_slice(),
        Call::LockCall(Lock::SuspendOs) => b"SuspendOSInterrupts".as_slice(),
        Call::LockCall(Lock::ResumeOs) => b"ResumeOSInterrupts".as_slice(),
        Call::LockCall(Lock::DisableAll) => b"DisableAllInterrupts".as_slice(),
        Call::LockCall(Lock::EnableAll) => b"EnableAllInterrupts".as_slice(),
        _ => b"".as_slice(),
    }
}

/// The call that alone stands in a body, if the text is one.
fn is_one_call(alloc: Global, text: &[u8], service: &[u8]) -> bool {
    let Ok(tokens) = tokens(text) else {
        return false;
    };
    let Ok(code) = parse_code(alloc, &tokens) else {
        return false;
    };
    match code.bodies.as_slice() {
        [body] => match body.statements.as_slice() {
            [Statement::Call { line: 2, call }] => service_of(call) == service,
            _ => false,
        },
        _ => false,
    }
}

/// Each service with operands that it takes.
const CALLS: [(&[u8], &[u8]); 24] = [
    (b"ActivateTask", b"(T)"),
    (b"TerminateTask", b"()"),
    (b"ChainTask", b"(T)"),
    (b"Schedule", b"()"),
    (b"GetResource", b"(R)"),
    (b"ReleaseResource", b"(R)"),
    (b"SetEvent", b"(T, e1 | e2)"),
    (b"ClearEvent", b"(e1 | e2 | e3)"),
    (b"GetEvent", b"(T)"),
    (b"WaitEvent", b"(e1)"),
    (b"SetRelAlarm", b"(A, 5, 0x10)"),
    (b"SetAbsAlarm", b"(A, 0, 7)"),
    (b"CancelAlarm", b"(A)"),
    (b"GetAlarm", b"(A)"),
    (b"GetTaskID", b"()"),
    (b"GetTaskState", b"(T)"),
    (b"GetActiveApplicationMode", b"()"),
    (b"ShutdownOS", b"(E_OS_NOFUNC)"),
    (b"SuspendAllInterrupts", b"()"),
    (b"ResumeAllInterrupts", b"()"),
    (b"SuspendOSInterrupts", b"()"),
    (b"ResumeOSInterrupts", b"()"),
    (b"DisableAllInterrupts", b"()"),
    (b"EnableAllInterrupts", b"()"),
];

fn text_of_call(alloc: Global, service: &[u8], operands: &[u8]) -> Result<Vec<u8>, AllocError> {
    let mut text = b"ISR(I) {\n".to_vec(alloc)?;
    text.extend_from_slice(service)?;
    text.extend_from_slice(operands)?;
    text.extend_from_slice(b"; }")?;
    Ok(text)
}

/// Whether the service and its operands, written as a call, are read as that service.
fn is_read(alloc: Global, service: &[u8], operands: &[u8]) -> bool {
    match text_of_call(alloc, service, operands) {
        Ok(text) => is_one_call(alloc, text.as_slice(), service),
        Err(_) => false,
    }
}

/// The first call that isn't read as what it is.
fn first_misread(alloc: Global) -> Option<usize> {
    for (at, (service, operands)) in CALLS.iter().enumerate() {
        if !is_read(alloc, service, operands) {
            return Some(at);
        }
    }
    None
}

#[test]
fn each_call(rt: HostRuntime) {
    assert!(rt; first_misread(rt.alloc()) == None);
}

fn is_work(statement: &Statement, at: u32, instructions: u64) -> bool {
    match statement {
        Statement::Work { line, count } => *line == at && *count == instructions,
        _ => false,
    }
}

/// An `if` by its lines: its own, that of the brace that closes its branch, and that of the one behind `else`.
fn is_if(statement: &Statement, at: u32, close: u32, close_else: Option<u32>) -> bool {
    match statement {
        Statement::If {
            line,
            then,
            otherwise: None,
        } => *line == at && then.closing_line() == close && close_else.is_none(),
        Statement::If {
            line,
            then,
            otherwise: Some(otherwise),
        } => {
            *line == at
                && then.closing_line() == close
                && close_else == Some(otherwise.closing_line())
        }
        _ => false,
    }
}

fn is_while(statement: &Statement, at: u32, wanted: Condition, close: u32) -> bool {
    match statement {
        Statement::While {
            line,
            condition,
            body,
        } => *line == at && *condition == wanted && body.closing_line() == close,
        _ => false,
    }
}

fn are_events(mask: &[Reference]) -> bool {
    mask.len() == 2 && is_at(&mask[0], b"e1", 8) && is_at(&mask[1], b"e2", 9)
}

fn sets_events(statement: &Statement) -> bool {
    match statement {
        Statement::Call {
            line: 7,
            call: Call::SetEvent(task, mask),
        } => is_at(task, b"T2", 7) && are_events(mask.as_slice()),
        _ => false,
    }
}

/// Whether the branch of an `if` is one call that sets the two events.
fn branch_sets_events(statement: &Statement) -> bool {
    match statement {
        Statement::If {
            line: _,
            then,
            otherwise: _,
        } => {
            let inner = then.as_slice();
            inner.len() == 1 && sets_events(&inner[0])
        }
        _ => false,
    }
}

fn is_task(body: &Body) -> bool {
    body.kind == BodyKind::Task
        && body.line == 1
        && is_at(&body.owner, b"T1", 2)
        && body.statements.closing_line() == 14
}

fn is_isr(body: &Body) -> bool {
    body.kind == BodyKind::Isr
        && body.line == 15
        && is_at(&body.owner, b"I1", 15)
        && body.statements.closing_line() == 15
        && body.statements.as_slice().is_empty()
}

fn are_statements(statements: &[Statement]) -> bool {
    statements.len() == 5
        && is_work(&statements[0], 3, 16)
        && is_if(&statements[1], 4, 5, Some(6))
        && is_if(&statements[2], 7, 9, None)
        && branch_sets_events(&statements[2])
        && is_while(&statements[3], 10, Condition::Always, 12)
        && is_while(&statements[4], 13, Condition::Choice, 13)
}

fn are_bodies(bodies: &[Body]) -> bool {
    bodies.len() == 2
        && is_task(&bodies[0])
        && is_isr(&bodies[1])
        && are_statements(bodies[0].statements.as_slice())
}

/// Whether the text gives code with those bodies.
fn gives_bodies(alloc: Global, text: &[u8]) -> bool {
    let Ok(tokens) = tokens(text) else {
        return false;
    };
    match parse_code(alloc, &tokens) {
        Ok(code) => are_bodies(code.bodies.as_slice()),
        Err(_) => false,
    }
}

#[test]
fn tree_of_a_text(rt: HostRuntime) {
    let text =
        b"TASK(\nT1) {\n work 0x10;\n if (?) {\n } else {\n }\n if (?) { SetEvent(T2,\n e1 |\n e2); }\n while (0x1) {\n work 1;\n }\n while (?) { }\n}\nISR(I1) { }";
    assert!(rt; gives_bodies(rt.alloc(), text));
    one_answer();
}
