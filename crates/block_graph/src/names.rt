//! What the names in task code stand for, by number.
ghost use Rattle.std.specs.{Prelude.{◌≡◌, List, ℕ, map, position, IfOk}, List.{IsDistinct}, Str.{bytes_eq}};
ghost use Rattle.oil_model.specs.Linkable.{IsLinkable};
ghost use Rattle.block_graph.specs.Names.{plain, task_of as the_task_of, isr_of as the_isr_of, alarm_of as the_alarm_of, resource_of as the_resource_of, event_of as the_event_of};

use indexmap::IndexSet;
use oil_system::{EventObject, IsrObject, System, TaskObject};
use osek_standard::{Alarm, Resource};
use osek_values::{Memory, Name};
use std::alloc::Global;
use std::marker::Model;

/// What is declared by a name.
trait Named {
    /// The name.
    ghost name: { Self → List ℕ };

    /// The name.
    fn name(&self) -> &[u8]
        ensures { result.now ≡ name self.now };
}

impl Named for TaskObject {
    ghost name = { λ task. task.name };

    fn name(&self) -> &[u8] {
        self.name.as_bytes()
    }
}

impl Named for IsrObject {
    ghost name = { λ isr. isr.name };

    fn name(&self) -> &[u8] {
        self.name.as_bytes()
    }
}

impl Named for Alarm {
    ghost name = { λ alarm. alarm.name };

    fn name(&self) -> &[u8] {
        self.name.as_bytes()
    }
}

impl Named for Resource {
    ghost name = { λ resource. resource.name };

    fn name(&self) -> &[u8] {
        self.name.as_bytes()
    }
}

impl Named for EventObject {
    ghost name = { λ event. event.name };

    fn name(&self) -> &[u8] {
        self.name.as_bytes()
    }
}

/// The names of objects, each with its number.
fn numbered<'a, T: Named>(alloc: Global, objects: &'a [T]) -> Result<IndexSet<&'a [u8]>, Memory>
    requires { IsDistinct bytes_eq (map T.name objects.now) }
    ensures { IfOk result (λ names. plain names.keys ≡ map T.name objects.now) }
{
    let mut names = IndexSet::new(alloc);
    for object in objects {
        names.insert(object.name())?;
    }
    Ok(names)
}

/// The number of a name.
fn number_of(names: &IndexSet<&[u8]>, name: &[u8]) -> Option<usize>
    ensures { result ≡ position (bytes_eq name.now) (plain names.now.keys) }
{
    names.get_index_of(name)
}

/// A system, with its names by number. Its limits keep these few, so that no names make a look-up long.
#[derive(Drop)]
pub struct Declared<'a> {
    system: &'a System,
    tasks: IndexSet<&'a [u8]>,
    isrs: IndexSet<&'a [u8]>,
    alarms: IndexSet<&'a [u8]>,
    resources: IndexSet<&'a [u8]>,
    events: IndexSet<&'a [u8]>,
}

impl<'a> Model for Declared<'a> {
    ghost use Rattle.oil_system.specs.declared.system.System.{System};
    ghost use Rattle.block_graph.specs.Names.{AreNumbered};

    ghost Value = { System };

    ghost view = { λ declared. declared.system.now };

    ghost invariant = { λ declared. AreNumbered declared.system.now declared.tasks.keys declared.isrs.keys declared.alarms.keys declared.resources.keys declared.events.keys };
}

impl<'a> Declared<'a> {
    /// The system with its names.
    pub fn of(alloc: Global, system: &'a System) -> Result<Declared<'a>, Memory>
        requires { IsLinkable system.now }
        ensures { IfOk result (λ declared. declared ≡ system.now) }
    {
        let tasks = numbered(alloc, system.tasks.as_slice())?;
        let isrs = numbered(alloc, system.isrs.as_slice())?;
        let alarms = numbered(alloc, system.alarms.as_slice())?;
        let resources = numbered(alloc, system.resources.as_slice())?;
        let events = numbered(alloc, system.events.as_slice())?;
        Ok(Declared {
            system,
            tasks,
            isrs,
            alarms,
            resources,
            events,
        })
    }

    /// The system.
    pub fn system(&self) -> &System
        ensures { result.now ≡ self.now }
    {
        self.system
    }

    /// The task of a name.
    pub fn task_of(&self, name: &Name) -> Option<usize>
        ensures { result ≡ the_task_of self.now name.now }
    {
        number_of(&self.tasks, name.as_bytes())
    }

    /// The category 2 ISR of a name.
    pub fn isr_of(&self, name: &Name) -> Option<usize>
        ensures { result ≡ the_isr_of self.now name.now }
    {
        number_of(&self.isrs, name.as_bytes())
    }

    /// The alarm of a name.
    pub fn alarm_of(&self, name: &Name) -> Option<usize>
        ensures { result ≡ the_alarm_of self.now name.now }
    {
        number_of(&self.alarms, name.as_bytes())
    }

    /// The resource of a name.
    pub fn resource_of(&self, name: &Name) -> Option<usize>
        ensures { result ≡ the_resource_of self.now name.now }
    {
        number_of(&self.resources, name.as_bytes())
    }

    /// The event of a name.
    pub fn event_of(&self, name: &Name) -> Option<usize>
        ensures { result ≡ the_event_of self.now name.now }
    {
        number_of(&self.events, name.as_bytes())
    }
}
