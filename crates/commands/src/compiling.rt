//! From the OIL text and the task code in two files to an application.
ghost use Rattle.std.specs.Prelude.{◌≡◌, IfOk, IfErr, OnOk};
ghost use Rattle.oil_model.specs.Linkable.{IsLinkable};
ghost use Rattle.osek_io.specs.{Counts.{Same}, Reads.{OnlyReads}};
ghost use Rattle.front_end.specs.Texts.{DeclaresSystem, GivesApp};
ghost use Rattle.command_runs.specs.{Inputs.{OfFile}, Outside.{told}};
ghost use Rattle.commands.specs.Compiling.{OfApp, SystemStops, CodeStops, CompileStops};

use command_runs::{Input, Stop, load_input};
use front_end::{TextError, read_app, read_system};
use oil_system::System;
use osek_io::Shelf;
use osek_standard::App;
use std::alloc::Global;

/// The system that the OIL text in a file declares.
fn load_system<F: Shelf>(alloc: Global, shelf: &mut F, oil: &str) -> Result<System, Stop>
    ensures system { IfOk result (λ s. OfFile (F.contents shelf.old) oil.now (λ b. DeclaresSystem b s)) }
    ensures linkable { IfOk result IsLinkable }
    ensures stop { IfErr result (SystemStops (told F.Shelf shelf.old) (told F.Shelf shelf.new) oil.now) }
    ensures same { OnlyReads F.Shelf shelf.old shelf.new }
    ensures no_fault { OnOk result (Same (F.read_faults shelf.old) (F.read_faults shelf.new)) }
{
    let text = match load_input(alloc, shelf, Input::Oil, oil) {
        Ok(text) => text,
        Err(stop) => return Err(stop),
    };
    match read_system(alloc, &text) {
        Ok(system) => Ok(system),
        Err(TextError::Fault(refusal)) => Err(Stop::Refused(refusal)),
        Err(TextError::Memory) => Err(Stop::Memory),
    }
}

/// The application that the task code in a file gives beside a system.
fn load_code<F: Shelf>(
    alloc: Global,
    shelf: &mut F,
    system: System,
    code: &str,
) -> Result<App, Stop>
    requires { IsLinkable system }
    ensures app { IfOk result (λ a. OfFile (F.contents shelf.old) code.now (λ b. GivesApp system b a)) }
    ensures stop { IfErr result (CodeStops (told F.Shelf shelf.old) (told F.Shelf shelf.new) system code.now) }
    ensures same { OnlyReads F.Shelf shelf.old shelf.new }
    ensures no_fault { OnOk result (Same (F.read_faults shelf.old) (F.read_faults shelf.new)) }
{
    let text = match load_input(alloc, shelf, Input::Code, code) {
        Ok(text) => text,
        Err(stop) => {
            drop(system);
            return Err(stop);
        }
    };
    match read_app(alloc, system, &text) {
        Ok(app) => Ok(app),
        Err(TextError::Fault(refusal)) => Err(Stop::Refused(refusal)),
        Err(TextError::Memory) => Err(Stop::Memory),
    }
}

/// The application of the two texts. The OIL text is read and judged before the task code is read.
pub fn compile<F: Shelf>(alloc: Global, shelf: &mut F, oil: &str, code: &str) -> Result<App, Stop>
    ensures app { IfOk result (λ a. OfApp (F.contents shelf.old) oil.now code.now (λ app. app ≡ a)) }
    ensures stop { IfErr result (CompileStops (told F.Shelf shelf.old) (told F.Shelf shelf.new) oil.now code.now) }
    ensures same { OnlyReads F.Shelf shelf.old shelf.new }
    ensures no_fault { OnOk result (Same (F.read_faults shelf.old) (F.read_faults shelf.new)) }
{
    let system = match load_system(alloc, shelf, oil) {
        Ok(system) => system,
        Err(stop) => return Err(stop),
    };
    match load_code(alloc, shelf, system, code) {
        Ok(app) => Ok(app),
        Err(stop) => Err(stop),
    }
}
