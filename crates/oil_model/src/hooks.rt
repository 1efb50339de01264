//! The hooks that the OS object sets TRUE.
ghost use Rattle.std.specs.Prelude.{◌≡◌};
ghost use Rattle.osek_values.specs.Hooks.{hook_set};
ghost use Rattle.oil_model.specs.Systems.{hook, hooks};

use crate::look_up::says;
use crate::objects::os_attrs;
use oil_tree::Object;
use osek_values::HookSet;

fn hook_if(name: &[u8], due: HookSet, objects: &[Object]) -> HookSet
    ensures { result ≡ hook_set (hook name.now due.0 objects.now) }
{
    due.when(says(name, b"TRUE", os_attrs(objects)))
}

/// The hooks that are TRUE.
pub fn hooks(objects: &[Object]) -> HookSet
    ensures { result ≡ hook_set (hooks objects.now) }
{
    let startup = hook_if(b"STARTUPHOOK", HookSet::STARTUP, objects);
    let shutdown = hook_if(b"SHUTDOWNHOOK", HookSet::SHUTDOWN, objects);
    let error = hook_if(b"ERRORHOOK", HookSet::ERROR, objects);
    let pre_task = hook_if(b"PRETASKHOOK", HookSet::PRE_TASK, objects);
    let post_task = hook_if(b"POSTTASKHOOK", HookSet::POST_TASK, objects);
    startup.with(shutdown.with(error.with(pre_task.with(post_task))))
}
