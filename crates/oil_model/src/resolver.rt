//! The system of a tree, or its least fault.
ghost use Rattle.std.specs.Prelude.{◌≡◌, [], IfOk, Result, Ok, Err};
ghost use Rattle.oil_system.specs.declared.system.System.{System};
ghost use Rattle.oil_model.specs.Linkable.{IsLinkable};
ghost use Rattle.oil_tree.specs.declared.tree.Tree.{Tree};
ghost use Rattle.osek_values.specs.declared.{refused.LineFault.{LineFault}, refusal.OilRule.{OilRule}};
ghost use Rattle.oil_model.specs.Faults.{HasNoFault};
ghost use Rattle.osek_values.specs.Answers.{IsRight, Answers};
ghost use Rattle.oil_model.specs.{Answers.{IsAnswer}, Lists.{found_in}, Rules.{wrong_in, wrong_activations, late_times, beyond_limits}, Systems.{system_of}};

use crate::alarms::{alarms, counters};
use crate::events::events;
use crate::fault::ModelError;
use crate::hooks::hooks;
use crate::isrs::{category_1_isrs, isrs};
use crate::least_fault::least_fault;
use crate::modes::modes;
use crate::names::read_names;
use crate::resources::resources;
use crate::tasks::tasks;
use oil_system::System;
use oil_tree::{Object, Tree};
use osek_values::Memory;
use std::alloc::Global;

fn build(alloc: Global, objects: &[Object]) -> Result<System, Memory>
    requires allowed { found_in wrong_in objects.now ≡ [] }
    requires activated { wrong_activations objects.now ≡ [] }
    requires inside { late_times objects.now ≡ [] }
    requires room { beyond_limits objects.now ≡ [] }
    ensures { IfOk result (λ s. s ≡ system_of objects.now) }
{
    let modes = modes(alloc, objects)?;
    let events = events(alloc, objects)?;
    let resources = resources(alloc, objects)?;
    let tasks = tasks(
        alloc,
        objects,
        modes.as_slice(),
        events.as_slice(),
        resources.as_slice(),
    )?;
    let alarms = alarms(alloc, objects, modes.as_slice(), events.as_slice())?;
    let isrs = isrs(alloc, objects)?;
    let category_1_isrs = category_1_isrs(alloc, objects)?;
    let counters = counters(alloc, objects)?;
    Ok(System {
        hooks: hooks(objects),
        tasks,
        isrs,
        category_1_isrs,
        counters,
        alarms,
        resources,
        modes,
        events,
    })
}

fn system(alloc: Global, tree: &Tree) -> Result<System, Memory>
    requires { HasNoFault tree.now }
    ensures is { IfOk result (λ s. s ≡ system_of tree.now.objects) }
    ensures linkable { IfOk result IsLinkable }
{
    let objects = tree.objects.as_slice();
    read_names(objects);
    let system = build(alloc, objects)?;
    Ok(system)
}

fn answer(alloc: Global, tree: &Tree) -> Result<System, ModelError>
    ensures right { IsRight (λ r. IsAnswer r tree.now) result }
    ensures linkable { IfOk result IsLinkable }
{
    match least_fault(alloc, tree)? {
        Some(fault) => Err(ModelError::Fault(fault)),
        None => {
            let system = system(alloc, tree)?;
            Ok(system)
        }
    }
}

/// The system that an OIL tree declares (ISO 17356-6; what it reads and its rules are this project's profile), or its
/// least fault. What the tree declares besides is passed over.
pub fn resolve(alloc: Global, tree: &Tree) -> Result<System, ModelError>
    // What is answered is right,
    ensures right { IsRight (λ r. IsAnswer r tree.now) result }

    // and what is right is answered, unless memory runs out.
    ensures exact { (expected : Result System (LineFault OilRule)) → IsAnswer expected tree.now → Answers result expected }

    // Linking needs no more of it.
    ensures linkable { IfOk result IsLinkable }
{
    answer(alloc, tree)
}

/// A law: each tree has a system or a least fault, and no other. It does nothing.
pub fn one_answer()
    ensures some { (tree : Tree) → (answer : Result System (LineFault OilRule)) × IsAnswer answer tree }
    ensures one { (tree : Tree) (a b : Result System (LineFault OilRule)) → IsAnswer a tree → IsAnswer b tree → a ≡ b }
{}
