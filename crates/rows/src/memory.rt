//! What is told where memory runs out, which no row brings about.
ghost use Rattle.std.specs.Prelude.{◌≡◌, Option, Err, codes};
ghost use Rattle.command_runs.specs.declared.stop.Stop.TheVariants as stop;
ghost use Rattle.commands.specs.{Statuses.{status_of, text_due}, Words.{Command}};

/// The text is `memory`, and the status 7.
pub fn want_of_memory_is_told()
    ensures text { (command : Option Command) → text_due command (Err stop.Memory) ≡ codes "memory\n" }
    ensures status { status_of (Err stop.Memory) ≡ 7 }
{}
