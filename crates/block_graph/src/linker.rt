//! The application of a system and its code, or their least fault.
ghost use Rattle.std.specs.Prelude.{◌≡◌, ◌≤◌, All, IfOk, Result, Ok, Err};
ghost use Rattle.osek_standard.specs.declared.app.App.{App};
ghost use Rattle.oil_system.specs.declared.system.System.{System};
ghost use Rattle.oil_model.specs.Linkable.{IsLinkable};
ghost use Rattle.task_code.specs.{declared.tree.Code.{Code}, Fit.{IsFit, AreFit}};
ghost use Rattle.osek_values.specs.{declared.{refused.LineFault.{LineFault}, refusal.CodeRule.{CodeRule}}, Answers.{IsRight, Answers}};
ghost use Rattle.block_graph.specs.{Answers.{IsAnswer}, Generated.{IsGenerated, Generates}, Blocks.{source_size as the_source_size, app_blocks as the_app_blocks}};

use crate::fault::LinkError;
use crate::layout::{lay_out_bodies, source_size};
use crate::least_fault::least_fault;
use crate::names::Declared;
use crate::tables::{counters, isrs, tasks};
use crate::ticks::lay_out_routines;
use oil_system::System;
use osek_standard::{App, Block, Counter, Isr, Task};
use osek_values::{Memory, Seq};
use std::alloc::Global;
use task_code::{Body, Code};

/// The blocks of the bodies, and behind them those of the tick routines.
fn app_blocks(alloc: Global, declared: &Declared, bodies: &[Body]) -> Result<Seq<Block>, Memory>
    requires linkable { IsLinkable declared.now }
    requires fit { All IsFit bodies.now }
    requires room { the_source_size bodies.now ≤ 1024 }
    ensures { IfOk result (λ blocks. blocks ≡ the_app_blocks declared.now bodies.now) }
{
    let mut blocks = Vec::new(alloc);
    lay_out_bodies(declared, bodies, &mut blocks)?;
    lay_out_routines(declared.system(), source_size(bodies), &mut blocks)?;
    Ok(Seq::of(blocks))
}

/// What is generated from the bodies: the blocks, and the objects that have blocks of their own.
#[derive(Drop)]
struct Generated {
    tasks: Seq<Task>,
    isrs: Seq<Isr>,
    counters: Seq<Counter>,
    blocks: Seq<Block>,
}

/// Generates what a system has of its bodies.
fn from_bodies(alloc: Global, declared: &Declared, bodies: &[Body]) -> Result<Generated, Memory>
    requires linkable { IsLinkable declared.now }
    requires fit { All IsFit bodies.now }
    requires room { the_source_size bodies.now ≤ 1024 }
    ensures { IfOk result (IsGenerated declared.now bodies.now) }
{
    let system = declared.system();
    let tasks = tasks(alloc, system, bodies)?;
    let isrs = isrs(alloc, system, bodies)?;
    let counters = counters(alloc, system, source_size(bodies))?;
    let blocks = app_blocks(alloc, declared, bodies)?;
    Ok(Generated {
        tasks,
        isrs,
        counters,
        blocks,
    })
}

/// What a system has of its task code where they have no fault, or their least fault.
fn judged(alloc: Global, declared: &Declared, code: &Code) -> Result<Generated, LinkError>
    requires linkable { IsLinkable declared.now }
    requires fit { AreFit code.now }
    ensures { IsRight (Generates declared.now code.now) result }
{
    match least_fault(declared, code) {
        Some(fault) => Err(LinkError::Fault(fault)),
        None => {
            let generated = from_bodies(alloc, declared, code.bodies.as_slice())?;
            Ok(generated)
        }
    }
}

/// The same of a system whose names have no numbers yet.
fn generate(alloc: Global, system: &System, code: &Code) -> Result<Generated, LinkError>
    requires linkable { IsLinkable system.now }
    requires fit { AreFit code.now }
    ensures { IsRight (Generates system.now code.now) result }
{
    let declared = Declared::of(alloc, system)?;
    judged(alloc, &declared, code)
}

fn answer(alloc: Global, system: System, code: &Code) -> Result<App, LinkError>
    requires linkable { IsLinkable system }
    requires fit { AreFit code.now }
    ensures { IsRight (λ r. IsAnswer r system code.now) result }
{
    let generated = generate(alloc, &system, code)?;
    Ok(App {
        hooks: system.hooks,
        tasks: generated.tasks,
        isrs: generated.isrs,
        counters: generated.counters,
        alarms: system.alarms,
        resources: system.resources,
        modes: system.modes,
        blocks: generated.blocks,
    })
}

/// The application of a system and its task code (this project's profile), or their least fault by rule and line. The
/// system is dropped where they have none.
pub fn link(alloc: Global, system: System, code: &Code) -> Result<App, LinkError>
    requires linkable { IsLinkable system }
    requires fit { AreFit code.now }

    // What is answered is right,
    ensures right { IsRight (λ r. IsAnswer r system code.now) result }

    // and what is right is answered, unless memory runs out.
    ensures exact { (expected : Result App (LineFault CodeRule)) → IsAnswer expected system code.now → Answers result expected }
{
    answer(alloc, system, code)
}

/// A law: each linkable system and fit code have an application or a least fault, and none has another answer. It does
/// nothing.
pub fn one_answer()
    ensures some { (s : System) (code : Code) → IsLinkable s → AreFit code → (answer : Result App (LineFault CodeRule)) × IsAnswer answer s code }
    ensures one { (s : System) (code : Code) (a b : Result App (LineFault CodeRule)) → IsAnswer a s code → IsAnswer b s code → a ≡ b }
{}
