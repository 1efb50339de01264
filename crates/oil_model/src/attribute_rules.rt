//! The rules on each list of attributes: what is missing, doubled, of a wrong value, or refers to nothing.
ghost use Rattle.std.specs.{Prelude.{◌≡◌, ⊤, drop, map, filter, IfOk}, List.{list_any, flat_map}};
ghost use Rattle.oil_model.specs.{Table.{rows}, Lists.{found_in}, LookUp.{named, attr_line}, Lines.{least}, References.{KnowsObjects}};
ghost use Rattle.oil_model.specs.Rules as rules_of;
ghost use Rattle.oil_model.specs.Rules.{is_missing, missing_in, doubles_of, doubles_in, wrong_in, dangling_in};
ghost use Rattle.oil_model.specs.declared.table.Scope.TheVariants as scopes;

use crate::domain::allows;
use crate::lines::{line_if, sooner};
use crate::lists::{ListRule, least_in};
use crate::look_up::{has, is_named};
use crate::references::References;
use crate::table::{Entry, Scope, entry_of};
use oil_tree::{Attr, Object, Value};
use osek_values::Memory;
use std::alloc::Global;

fn lacks(scope: Scope, attrs: &[Attr]) -> bool
    ensures { result ≡ list_any (is_missing attrs.now) (rows scope) }
{
    match scope {
        Scope::Os | Scope::AppMode | Scope::Event | Scope::Resource | Scope::TaskStart => false,
        Scope::Task => !has(b"PRIORITY", attrs),
        Scope::Isr => !has(b"CATEGORY", attrs),
        Scope::Counter => !has(b"MAXALLOWEDVALUE", attrs),
        Scope::Alarm => !has(b"COUNTER", attrs) || !has(b"ACTION", attrs),
        Scope::AlarmStart => !has(b"ALARMTIME", attrs) || !has(b"CYCLETIME", attrs),
        Scope::Activation => !has(b"TASK", attrs),
        Scope::EventSetting => !has(b"TASK", attrs) || !has(b"EVENT", attrs),
    }
}

struct Missing;

impl ListRule for Missing {
    ghost Knows = { λ _ _. ⊤ };

    ghost found = { λ _. missing_in };

    fn least_found(
        &self,
        _objects: &[Object],
        scope: Scope,
        line: u32,
        attrs: &[Attr],
    ) -> Option<u32> {
        line_if(lacks(scope, attrs), line)
    }
}

/// The least line of a list that lacks a required attribute.
pub fn missing_attribute(objects: &[Object]) -> Option<u32>
    ensures { result ≡ least (found_in missing_in objects.now) }
{
    least_in(&Missing, objects)
}

/// The least line on which an attribute stands once more.
#[tactic(auto, using(crate::proofs::Leasts::least_steps))]
fn double(name: &[u8], attrs: &[Attr]) -> Option<u32>
    ensures { result ≡ least (map attr_line (drop 1 (named name.now attrs.now))) }
{
    let mut best = None;
    let mut seen = false;
    for attr in attrs {
        if is_named(name, attr) {
            best = sooner(best, line_if(seen, attr.line));
            seen = true;
        }
    }
    best
}

// The least line on which an attribute of the OS object stands once more.
#[tactic(auto, using(crate::proofs::Leasts::least_steps))]
fn double_in_os(attrs: &[Attr]) -> Option<u32>
    ensures { result ≡ least (flat_map (doubles_of attrs.now) (rows scopes.Os)) }
{
    let status = double(b"STATUS", attrs);
    let startup = double(b"STARTUPHOOK", attrs);
    let error = double(b"ERRORHOOK", attrs);
    let shutdown = double(b"SHUTDOWNHOOK", attrs);
    let pre_task = double(b"PRETASKHOOK", attrs);
    let post_task = double(b"POSTTASKHOOK", attrs);
    let scheduler = double(b"USERESSCHEDULER", attrs);
    let behind_error = sooner(shutdown, sooner(pre_task, sooner(post_task, scheduler)));
    sooner(status, sooner(startup, sooner(error, behind_error)))
}

// The least line on which one of the attributes that may stand once stands once more.
#[tactic(auto, using(crate::proofs::Leasts::least_steps))]
fn least_double(scope: Scope, attrs: &[Attr]) -> Option<u32>
    ensures { result ≡ least (flat_map (doubles_of attrs.now) (rows scope)) }
{
    match scope {
        Scope::AppMode | Scope::TaskStart => None,
        Scope::Os => double_in_os(attrs),
        Scope::Task => sooner(
            double(b"PRIORITY", attrs),
            sooner(
                double(b"SCHEDULE", attrs),
                sooner(double(b"ACTIVATION", attrs), double(b"AUTOSTART", attrs)),
            ),
        ),
        Scope::Isr => sooner(double(b"CATEGORY", attrs), double(b"PRIORITY", attrs)),
        Scope::Counter => sooner(
            double(b"MAXALLOWEDVALUE", attrs),
            sooner(double(b"TICKSPERBASE", attrs), double(b"MINCYCLE", attrs)),
        ),
        Scope::Alarm => sooner(
            double(b"COUNTER", attrs),
            sooner(double(b"ACTION", attrs), double(b"AUTOSTART", attrs)),
        ),
        Scope::Event => double(b"MASK", attrs),
        Scope::Resource => double(b"RESOURCEPROPERTY", attrs),
        Scope::AlarmStart => sooner(double(b"ALARMTIME", attrs), double(b"CYCLETIME", attrs)),
        Scope::Activation => double(b"TASK", attrs),
        Scope::EventSetting => sooner(double(b"TASK", attrs), double(b"EVENT", attrs)),
    }
}

struct Doubled;

impl ListRule for Doubled {
    ghost Knows = { λ _ _. ⊤ };

    ghost found = { λ _. doubles_in };

    fn least_found(
        &self,
        _objects: &[Object],
        scope: Scope,
        _line: u32,
        attrs: &[Attr],
    ) -> Option<u32> {
        least_double(scope, attrs)
    }
}

/// The least line on which an attribute that may stand once stands once more.
pub fn doubled_attribute(objects: &[Object]) -> Option<u32>
    ensures { result ≡ least (found_in doubles_in objects.now) }
{
    least_in(&Doubled, objects)
}

fn forbids(entry: Option<Entry>, value: &Value) -> bool
    ensures { result ≡ rules_of.forbids entry value.now }
{
    match entry {
        Some(entry) => !allows(entry.domain, value),
        None => false,
    }
}

fn is_wrong(scope: Scope, attr: &Attr) -> bool
    ensures { result ≡ rules_of.is_wrong scope attr.now }
{
    forbids(entry_of(scope, attr.name.as_bytes()), &attr.value)
}

#[tactic(auto, using(crate::proofs::Leasts::least_steps))]
fn least_wrong(scope: Scope, attrs: &[Attr]) -> Option<u32>
    ensures { result ≡ least (map attr_line (filter (rules_of.is_wrong scope) attrs.now)) }
{
    let mut best = None;
    for attr in attrs {
        if is_wrong(scope, attr) {
            best = sooner(best, Some(attr.line));
        }
    }
    best
}

struct Wrong;

impl ListRule for Wrong {
    ghost Knows = { λ _ _. ⊤ };

    ghost found = { λ _. wrong_in };

    fn least_found(
        &self,
        _objects: &[Object],
        scope: Scope,
        _line: u32,
        attrs: &[Attr],
    ) -> Option<u32> {
        least_wrong(scope, attrs)
    }
}

/// The least line of an attribute whose value the table doesn't allow.
pub fn wrong_value(objects: &[Object]) -> Option<u32>
    ensures { result ≡ least (found_in wrong_in objects.now) }
{
    least_in(&Wrong, objects)
}

#[tactic(auto, using(crate::proofs::Leasts::least_steps))]
fn least_dangling(
    references: &References,
    objects: &[Object],
    scope: Scope,
    attrs: &[Attr],
) -> Option<u32>
    requires { KnowsObjects references.now objects.now }
    ensures { result ≡ least (map attr_line (filter (rules_of.is_dangling objects.now scope) attrs.now)) }
{
    let mut best = None;
    for attr in attrs {
        if references.is_dangling(objects, scope, attr) {
            best = sooner(best, Some(attr.line));
        }
    }
    best
}

impl<'a> ListRule for References<'a> {
    ghost Knows = { KnowsObjects };

    ghost found = { dangling_in };

    fn least_found(
        &self,
        objects: &[Object],
        scope: Scope,
        _line: u32,
        attrs: &[Attr],
    ) -> Option<u32> {
        least_dangling(self, objects, scope, attrs)
    }
}

/// The least line of an attribute that refers to nothing declared.
pub fn dangling_reference(alloc: Global, objects: &[Object]) -> Result<Option<u32>, Memory>
    ensures { IfOk result (λ line. line ≡ least (found_in (dangling_in objects.now) objects.now)) }
{
    let references = References::to(alloc, objects)?;
    let line = least_in(&references, objects);
    Ok(line)
}
