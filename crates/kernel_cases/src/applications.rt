//! The applications of the tests, each read from its texts.
use front_end::{TextError, read_app, read_system};
use osek_standard::App;
use std::alloc::Global;

fn read(alloc: Global, oil: &[u8], code: &[u8]) -> Result<App, TextError> {
    let system = read_system(alloc, oil)?;
    read_app(alloc, system, code)
}

/// T1 activates T2 of higher priority, and both end.
pub fn activation(alloc: Global) -> Result<App, TextError> {
    read(
        alloc,
        b"CPU c { OS os; TASK T1 { PRIORITY = 1; AUTOSTART = TRUE; }; TASK T2 { PRIORITY = 2; }; };",
        b"TASK(T1) { ActivateTask(T2); TerminateTask(); }\nTASK(T2) { TerminateTask(); }\n",
    )
}

/// An extended task, an ISR and a counter, with all hooks.
pub fn sample(alloc: Global) -> Result<App, TextError> {
    read(
        alloc,
        b"\
        CPU c {\n\
        OS os { STARTUPHOOK = TRUE; SHUTDOWNHOOK = TRUE; ERRORHOOK = TRUE; PRETASKHOOK = TRUE; POSTTASKHOOK = TRUE; };\n\
        EVENT E; TASK T1 { PRIORITY = 1; AUTOSTART = TRUE; EVENT = E; };\n\
        ISR I { CATEGORY = 2; };\n\
        COUNTER C { MAXALLOWEDVALUE = 9; };\n\
        };\n",
        b"TASK(T1) { }\nISR(I) { }\n",
    )
}
