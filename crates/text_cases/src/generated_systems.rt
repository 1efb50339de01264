//! The texts of the least system that is generated.
use osek_vectors::{GenerateError, generate};
use std::test::Fail;

#[test]
fn one_task_makes_the_least_system(rt: HostRuntime) -> Result<(), Fail> {
    let texts = generate(rt.alloc(), 1, 1)?;
    let oil = b"CPU gen {\n\
        OS os;\n\
        EVENT E;\n\
        RESOURCE R;\n\
        COUNTER C { MAXALLOWEDVALUE = 9; };\n\
        TASK T0 { PRIORITY = 0; SCHEDULE = FULL; AUTOSTART = TRUE; EVENT = E; RESOURCE = R; };\n\
        ALARM A { COUNTER = C; ACTION = ACTIVATETASK { TASK = T0; }; AUTOSTART = TRUE { ALARMTIME = 1; CYCLETIME = 3; }; };\n\
        ISR I { CATEGORY = 2; };\n\
        };\n";
    assert_eq!(rt; texts.oil.as_slice(), oil.as_slice());
    assert!(rt;
        texts
            .code
            .as_slice()
            .starts_with(b"TASK(T0) {\nwhile (?) {\n")
    );
    assert!(rt;
        texts
            .code
            .as_slice()
            .ends_with(b"}\nISR(I) { ActivateTask(T0); }\n")
    );
    Ok(())
}

#[test]
fn a_system_has_1_to_16_tasks(rt: HostRuntime) -> Result<(), Fail> {
    assert!(rt; generate(rt.alloc(), 7, 16).is_ok());
    assert!(rt; matches!(generate(rt.alloc(), 7, 0), Err(GenerateError::Tasks)));
    assert!(rt; matches!(generate(rt.alloc(), 7, 17), Err(GenerateError::Tasks)));
    Ok(())
}
