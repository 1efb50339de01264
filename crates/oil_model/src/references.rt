//! What attributes may refer to.
ghost use Rattle.std.specs.Prelude.{◌≡◌, IfOk};
ghost use Rattle.oil_model.specs.{NameSets.{KnowsNames}, References.{KnowsObjects}};
ghost use Rattle.oil_model.specs.Rules as rules_of;

use crate::domain::Domain;
use crate::name_set::NameSet;
use crate::names::same;
use crate::objects::{has_scheduler, is_kind};
use crate::table::{Entry, Scope, entry_of};
use oil_tree::{Attr, Object, Value};
use osek_values::Memory;
use std::alloc::Global;

/// The names of the objects that attributes refer to.
#[derive(Drop)]
pub struct References<'a> {
    tasks: NameSet<'a>,
    events: NameSet<'a>,
    counters: NameSet<'a>,
    resources: NameSet<'a>,
    modes: NameSet<'a>,
    /// Whether RES_SCHEDULER exists.
    scheduler: bool,
}

fn names_of<'a>(alloc: Global, kind: &[u8], objects: &'a [Object]) -> Result<NameSet<'a>, Memory>
    ensures { IfOk result (λ names. KnowsNames names kind.now objects.now) }
{
    let mut names = NameSet::new(alloc);
    for object in objects {
        if is_kind(kind, object) {
            names.add(object.name.as_bytes())?;
        }
    }
    Ok(names)
}

impl<'a> References<'a> {
    /// What the objects declare.
    pub fn to(alloc: Global, objects: &'a [Object]) -> Result<References<'a>, Memory>
        ensures { IfOk result (λ references. KnowsObjects references objects.now) }
    {
        let tasks = names_of(alloc, b"TASK", objects)?;
        let events = names_of(alloc, b"EVENT", objects)?;
        let counters = names_of(alloc, b"COUNTER", objects)?;
        let resources = names_of(alloc, b"RESOURCE", objects)?;
        let modes = names_of(alloc, b"APPMODE", objects)?;
        Ok(References {
            tasks,
            events,
            counters,
            resources,
            modes,
            scheduler: has_scheduler(objects),
        })
    }

    fn is_declared(&self, objects: &[Object], domain: Domain, name: &[u8]) -> bool
        requires { KnowsObjects self.now objects.now }
        ensures { result ≡ rules_of.is_declared objects.now domain name.now }
    {
        match domain {
            Domain::TaskName => self.tasks.has(name),
            Domain::EventName => self.events.has(name),
            Domain::CounterName => self.counters.has(name),
            Domain::ResourceName => {
                self.resources.has(name) || (self.scheduler && same(name, b"RES_SCHEDULER"))
            }
            Domain::ModeName => { self.modes.has(name) || same(name, b"OSDEFAULTAPPMODE") }
            Domain::Truth
            | Domain::Status
            | Domain::Schedule
            | Domain::Action
            | Domain::Property
            | Domain::Number(_, _)
            | Domain::EventMask => true,
        }
    }

    fn names_nothing(&self, objects: &[Object], entry: Option<Entry>, value: &Value) -> bool
        requires { KnowsObjects self.now objects.now }
        ensures { result ≡ rules_of.names_nothing objects.now entry value.now }
    {
        match entry {
            Some(entry) => match value {
                Value::Word(name) => !self.is_declared(objects, entry.domain, name.as_bytes()),
                _ => false,
            },
            None => false,
        }
    }

    /// Whether an attribute refers to nothing declared.
    pub fn is_dangling(&self, objects: &[Object], scope: Scope, attr: &Attr) -> bool
        requires { KnowsObjects self.now objects.now }
        ensures { result ≡ rules_of.is_dangling objects.now scope attr.now }
    {
        self.names_nothing(objects, entry_of(scope, attr.name.as_bytes()), &attr.value)
    }
}
