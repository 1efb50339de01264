//! Files with what they declare.
use app_model::{
    Action, Alarm, CounterObject, EventObject, IsrObject, Resource, Schedule, System, TaskObject,
};
use oil_lexer::tokens;
use oil_model::{ModelError, one_answer, resolve};
use oil_tree::parse;
use osek_values::{Mask, Memory, OilRule, ResNo, TaskNo};
use std::alloc::{AllocError, Global};

/// What comes of a text.
#[derive(Clone, Copy, PartialEq, Eq)]
enum Outcome {
    /// A system with so many tasks, resources, modes and events.
    Declares(usize, usize, usize, usize),
    Faulty(OilRule, u32),
    /// No tree, or no memory.
    Nothing,
}

fn resolved(alloc: Global, text: &[u8]) -> Result<System, ModelError> {
    let Ok(tokens) = tokens(text) else {
        return Err(ModelError::Memory);
    };
    let Ok(tree) = parse(alloc, &tokens) else {
        return Err(ModelError::Memory);
    };
    resolve(alloc, &tree)
}

fn outcome_of(alloc: Global, text: &[u8]) -> Outcome {
    match resolved(alloc, text) {
        Ok(system) => {
            let outcome = Outcome::Declares(
                system.tasks.len(),
                system.resources.len(),
                system.modes.len(),
                system.events.len(),
            );
            drop(system);
            outcome
        }
        Err(ModelError::Fault(fault)) => Outcome::Faulty(fault.rule, fault.line),
        Err(ModelError::Memory) => Outcome::Nothing,
    }
}

fn are_tasks(tasks: &[TaskObject]) -> bool {
    tasks.len() == 2
        && tasks[0].own.0 == 0
        && tasks[1].own.0 == 10
        && tasks[0].autostart == 2
        && tasks[1].autostart == 3
        && tasks[0].schedule == Schedule::Non
        && tasks[1].schedule == Schedule::Full
}

// An explicit mask keeps its bits, and AUTO takes the lowest that are left.
fn are_events(events: &[EventObject]) -> bool {
    events.len() == 3 && events[0].mask.0 == 2 && events[1].mask.0 == 5 && events[2].mask.0 == 8
}

fn are_resources(resources: &[Resource]) -> bool {
    resources.len() == 2 && resources[0].ceiling == 7 && resources[1].ceiling == 9
}

fn are_counters(counters: &[CounterObject]) -> bool {
    counters.len() == 1
        && counters[0].max == 16
        && counters[0].min_cycle == 2
        && counters[0].ticks_per_base == 10
}

fn are_alarms(alarms: &[Alarm]) -> bool {
    alarms.len() == 1
        && alarms[0].autostart == 1
        && alarms[0].time == 16
        && alarms[0].cycle == 2
        && alarms[0].action == Action::SetEvent(TaskNo(1), Mask(8))
}

/// The numbers of a system with two tasks, three events, two resources, a counter and an alarm.
fn are_numbers_right(system: &System) -> bool {
    are_tasks(system.tasks.as_slice())
        && are_events(system.events.as_slice())
        && are_resources(system.resources.as_slice())
        && are_counters(system.counters.as_slice())
        && are_alarms(system.alarms.as_slice())
        && system.hooks.0 == 20
        && system.isrs.is_empty()
        && system.category_1_isrs.len() == 1
}

fn declares_right_numbers(alloc: Global, text: &[u8]) -> bool {
    match resolved(alloc, text) {
        Ok(system) => {
            let right = are_numbers_right(&system);
            drop(system);
            right
        }
        Err(_) => false,
    }
}

#[test]
fn a_file_of_a_car_maker(rt: HostRuntime) {
    let text =
        b"OIL_VERSION = \"2.5\" : \"body controller\";\r\n/* the vendor's\r\n   attributes */\r\nIMPLEMENTATION vendor {\r\n  TASK { UINT32 [0..0xFFFF] STACKSIZE = 256; ENUM [ A { BOOLEAN B = FALSE; }, C ] D = A; };\r\n} : \"vendor\";\r\nCPU ecu {\r\n  OS os { STATUS = STANDARD; ERRORHOOK = TRUE; POSTTASKHOOK = TRUE; STARTUPHOOK = FALSE; VENDOR_CHECKS = ON { LEVEL = -1; }; }; // hooks\r\n  APPMODE Service;\r\n  EVENT A;\r\n  EVENT B { MASK = 0x5; };\r\n  EVENT C { MASK = AUTO; } : \"third\";\r\n  RESOURCE R { RESOURCEPROPERTY = STANDARD { LINKEDRESOURCE = NOPE; }; };\r\n  TASK T { PRIORITY = 0x3; SCHEDULE = NON; RESOURCE = R; ACTIVATION = 1; STACKSIZE = 512 : \"bytes\";\r\n    AUTOSTART = TRUE { APPMODE = Service; }; };\r\n  TASK U { PRIORITY = 4; EVENT = A; EVENT = C; AUTOSTART = TRUE; };\r\n  ISR Fast { CATEGORY = 1; VECTOR = \"7\"; };\r\n  COUNTER K { MAXALLOWEDVALUE = 0x10; MINCYCLE = 2; TICKSPERBASE = 10; };\r\n  ALARM L { COUNTER = K; ACTION = SETEVENT { TASK = U; EVENT = C; };\r\n    AUTOSTART = TRUE { ALARMTIME = 16; CYCLETIME = 2; APPMODE = OSDEFAULTAPPMODE; }; };\r\n};\r\n";
    assert!(rt; declares_right_numbers(rt.alloc(), text));
    assert!(rt; matches!(ModelError::from(Memory), ModelError::Memory));
    one_answer();
}

// T2 names G behind an ordinary resource, and T3 names no INTERNAL one.
fn are_grouped(tasks: &[TaskObject]) -> bool {
    tasks.len() == 3
        && tasks[0].activation == 255
        && tasks[0].internal == Some(ResNo(1))
        && tasks[1].activation == 1
        && tasks[1].internal == Some(ResNo(1))
        && tasks[2].internal.is_none()
}

// The ceiling is that of the highest task that names the resource.
fn is_group_resource(resources: &[Resource]) -> bool {
    resources.len() == 3
        && !resources[0].internal
        && resources[1].internal
        && resources[1].ceiling == 5
        && !resources[2].internal
}

fn is_grouped(alloc: Global, text: &[u8]) -> bool {
    match resolved(alloc, text) {
        Ok(system) => {
            let right = are_grouped(system.tasks.as_slice())
                && is_group_resource(system.resources.as_slice());
            drop(system);
            right
        }
        Err(_) => false,
    }
}

#[test]
fn activations_and_an_internal_resource(rt: HostRuntime) {
    let text =
        b"CPU c { OS os; RESOURCE R; RESOURCE G { RESOURCEPROPERTY = INTERNAL; }; TASK T1 { PRIORITY = 1; ACTIVATION = 255; RESOURCE = G; }; TASK T2 { PRIORITY = 2; RESOURCE = R; RESOURCE = G; }; TASK T3 { PRIORITY = 2; RESOURCE = R; }; };";
    assert!(rt; is_grouped(rt.alloc(), text));
}

// An ISR without PRIORITY has 0.
fn are_isrs(isrs: &[IsrObject]) -> bool {
    isrs.len() == 2
        && isrs[0].priority == 3
        && isrs[0].resources.len() == 2
        && isrs[1].priority == 0
        && isrs[1].resources.len() == 1
}

// What an ISR of category 2 names is as high for tasks as RES_SCHEDULER.
fn are_ceilings(resources: &[Resource]) -> bool {
    resources.len() == 4
        && resources[0].ceiling == 9
        && resources[0].interrupt_ceiling == 4
        && resources[1].ceiling == 3
        && resources[1].interrupt_ceiling == 0
        && resources[2].ceiling == 9
        && resources[2].interrupt_ceiling == 1
        && resources[3].ceiling == 9
        && resources[3].interrupt_ceiling == 0
}

fn has_ceilings(alloc: Global, text: &[u8]) -> bool {
    match resolved(alloc, text) {
        Ok(system) => {
            let right = are_isrs(system.isrs.as_slice())
                && are_ceilings(system.resources.as_slice())
                && system.category_1_isrs.len() == 1;
            drop(system);
            right
        }
        Err(_) => false,
    }
}

#[test]
fn ceilings_for_interrupts(rt: HostRuntime) {
    let text =
        b"CPU c { OS os; RESOURCE R; RESOURCE S; RESOURCE Q; TASK T1 { PRIORITY = 1; RESOURCE = R; RESOURCE = S; }; TASK T2 { PRIORITY = 4; }; ISR J { CATEGORY = 1; PRIORITY = 9; RESOURCE = S; }; ISR I1 { CATEGORY = 2; RESOURCE = R; PRIORITY = 3; RESOURCE = R; }; ISR I2 { CATEGORY = 2; RESOURCE = Q; }; };";
    assert!(rt; has_ceilings(rt.alloc(), text));
}

fn is_alone(resources: &[Resource]) -> bool {
    resources.len() == 2 && resources[0].ceiling == 1 && resources[0].interrupt_ceiling == 256
}

fn has_no_task(alloc: Global, text: &[u8]) -> bool {
    match resolved(alloc, text) {
        Ok(system) => {
            let right = is_alone(system.resources.as_slice());
            drop(system);
            right
        }
        Err(_) => false,
    }
}

#[test]
fn a_ceiling_without_a_task(rt: HostRuntime) {
    let text =
        b"CPU c { OS os; RESOURCE R; ISR I { CATEGORY = 2; PRIORITY = 255; RESOURCE = R; }; };";
    assert!(rt; has_no_task(rt.alloc(), text));
}

/// A text of almost 1 MiB: events of different names, and the OS object behind them.
fn many_events(alloc: Global) -> Result<Vec<u8>, AllocError> {
    let mut text = b"CPU c {\n".to_vec(alloc)?;
    for number in 0..70000u32 {
        let event = format!(in alloc; "EVENT E{number};\n")?;
        text.extend_from_slice(event.as_bytes())?;
    }
    text.extend_from_slice(b"OS os; };")?;
    Ok(text)
}

fn outcome_of_many_events(alloc: Global) -> Outcome {
    match many_events(alloc) {
        Ok(text) => outcome_of(alloc, text.as_slice()),
        Err(_) => Outcome::Nothing,
    }
}

// A look-up that walks all objects would not end within a test's time.
#[test]
fn many_names(rt: HostRuntime) {
    // The first 64 events take a bit each.
    let outcome = outcome_of_many_events(rt.alloc());
    assert!(rt; outcome == Outcome::Faulty(OilRule::O12, 66));
}
