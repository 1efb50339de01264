//! INTERNAL resources, and the tasks that name them (ISO 17356-3, internal resources).
ghost use Rattle.std.specs.Prelude.{◌≡◌, ◌≤◌, length, map, filter, IfOk};
ghost use Rattle.oil_model.specs.{Lines.{least}, LookUp.{attr_line}, NameSets.{KnowsInternals}, Systems.{internal_from, internal_by, internal}};
ghost use Rattle.oil_model.specs.Rules as rules_of;

use crate::lines::sooner;
use crate::look_up::{is_named, word_of};
use crate::name_set::NameSet;
use crate::objects::{is_internal, is_kind};
use oil_system::Resource;
use oil_tree::{Attr, Object};
use osek_values::{Memory, ResNo};
use std::alloc::Global;

/// The names of the INTERNAL resources.
pub fn internal_names<'a>(alloc: Global, objects: &'a [Object]) -> Result<NameSet<'a>, Memory>
    ensures { IfOk result (λ names. KnowsInternals names objects.now) }
{
    let mut names = NameSet::new(alloc);
    for object in objects {
        if is_internal(object) {
            names.add(object.name.as_bytes())?;
        }
    }
    Ok(names)
}

fn names_internal(internals: &NameSet, objects: &[Object], attr: &Attr) -> bool
    requires { KnowsInternals internals.now objects.now }
    ensures { result ≡ rules_of.names_internal objects.now attr.now }
{
    is_named(b"RESOURCE", attr) && internals.has(word_of(&attr.value))
}

// The first INTERNAL resource that a task names; no bytes where it names none.
fn first_internal<'a>(internals: &NameSet, objects: &[Object], attrs: &'a [Attr]) -> &'a [u8]
    requires { KnowsInternals internals.now objects.now }
    ensures { result.now ≡ rules_of.first_internal objects.now attrs.now }
{
    for attr in attrs {
        if names_internal(internals, objects, attr) {
            return word_of(&attr.value);
        }
    }
    b""
}

fn names_another(internals: &NameSet, objects: &[Object], first: &[u8], attr: &Attr) -> bool
    requires { KnowsInternals internals.now objects.now }
    ensures { result ≡ rules_of.names_another objects.now first.now attr.now }
{
    names_internal(internals, objects, attr) && word_of(&attr.value) != first
}

#[tactic(auto, using(crate::proofs::Leasts::least_steps))]
fn least_other(internals: &NameSet, objects: &[Object], first: &[u8], attrs: &[Attr]) -> Option<u32>
    requires { KnowsInternals internals.now objects.now }
    ensures { result ≡ least (map attr_line (filter (rules_of.names_another objects.now first.now) attrs.now)) }
{
    let mut best = None;
    for attr in attrs {
        if names_another(internals, objects, first, attr) {
            best = sooner(best, Some(attr.line));
        }
    }
    best
}

fn second_internal_of(internals: &NameSet, objects: &[Object], task: &Object) -> Option<u32>
    requires { KnowsInternals internals.now objects.now }
    ensures { result ≡ least (rules_of.second_internals_of objects.now task.now) }
{
    let attrs = task.attrs.as_slice();
    let first = first_internal(internals, objects, attrs);
    least_other(internals, objects, first, attrs)
}

#[tactic(auto, using(crate::proofs::Leasts::least_steps))]
fn least_second(internals: &NameSet, objects: &[Object]) -> Option<u32>
    requires { KnowsInternals internals.now objects.now }
    ensures { result ≡ least (rules_of.second_internals objects.now) }
{
    let mut best = None;
    for object in objects {
        if is_kind(b"TASK", object) {
            best = sooner(best, second_internal_of(internals, objects, object));
        }
    }
    best
}

/// The least line of a RESOURCE that names an INTERNAL resource beside another one that the task names.
pub fn second_internal(alloc: Global, objects: &[Object]) -> Result<Option<u32>, Memory>
    ensures { IfOk result (λ line. line ≡ least (rules_of.second_internals objects.now)) }
{
    let internals = internal_names(alloc, objects)?;
    let line = least_second(&internals, objects);
    Ok(line)
}

// The number of the INTERNAL resource of a name, if there is one.
fn internal_named(name: &[u8], resources: &[Resource]) -> Option<ResNo>
    requires { length resources.now ≤ 8 }
    ensures { result ≡ internal_from 0 name.now resources.now }
{
    for i in 0..resources.len() {
        if resources[i].internal && resources[i].name.as_bytes() == name {
            return Some(ResNo(i as u8));
        }
    }
    None
}

fn internal_by(resources: &[Resource], attr: &Attr) -> Option<ResNo>
    requires { length resources.now ≤ 8 }
    ensures { result ≡ internal_by resources.now attr.now }
{
    if is_named(b"RESOURCE", attr) {
        internal_named(word_of(&attr.value), resources)
    } else {
        None
    }
}

/// The first INTERNAL resource that a task names, if it names one.
pub fn internal(resources: &[Resource], attrs: &[Attr]) -> Option<ResNo>
    requires { length resources.now ≤ 8 }
    ensures { result ≡ internal resources.now attrs.now }
{
    for attr in attrs {
        let named = internal_by(resources, attr);
        if let Some(resource) = named {
            return Some(resource);
        }
    }
    None
}
