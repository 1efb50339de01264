//! The rules on each object of a kind by itself: what its attributes say.
ghost use Rattle.std.specs.Prelude.{◌≡◌, map, filter};
ghost use Rattle.oil_model.specs.{Lines.{least}, Objects.{objects_of, line_at}, KindRules.{kind_of, attribute_of, is_violated, violations}};
ghost use Rattle.oil_model.specs.Rules as rules_of;

use crate::lines::sooner;
use crate::look_up::{has, number, says};
use crate::objects::{activation, is_called, is_internal, is_kind, line_at, maximum, minimum};
use oil_tree::Object;

/// A rule on each object of a kind.
#[derive(Clone, Copy)]
pub enum KindRule {
    /// ACTIVATION outside 1 to 255, or other than 1 beside an EVENT.
    WrongActivation,
    /// RESOURCEPROPERTY that is LINKED.
    LinkedResource,
    /// ACTION that is ALARMCALLBACK.
    Callback,
    /// MINCYCLE above MAXALLOWEDVALUE.
    ReversedCounter,
    /// CATEGORY other than 1 and 2.
    OtherCategory,
    /// RESOURCEPROPERTY of RES_SCHEDULER that is INTERNAL.
    InternalScheduler,
}

/// The kind of the objects that a rule judges.
fn kind_of(rule: KindRule) -> &'static [u8]
    ensures { result.now ≡ kind_of rule }
{
    match rule {
        KindRule::WrongActivation => b"TASK",
        KindRule::LinkedResource => b"RESOURCE",
        KindRule::Callback => b"ALARM",
        KindRule::ReversedCounter => b"COUNTER",
        KindRule::OtherCategory => b"ISR",
        KindRule::InternalScheduler => b"RESOURCE",
    }
}

/// The attribute on whose line a rule is violated.
fn attribute_of(rule: KindRule) -> &'static [u8]
    ensures { result.now ≡ attribute_of rule }
{
    match rule {
        KindRule::WrongActivation => b"ACTIVATION",
        KindRule::LinkedResource => b"RESOURCEPROPERTY",
        KindRule::Callback => b"ACTION",
        KindRule::ReversedCounter => b"MINCYCLE",
        KindRule::OtherCategory => b"CATEGORY",
        KindRule::InternalScheduler => b"RESOURCEPROPERTY",
    }
}

fn is_activation(extended: bool, number: u64) -> bool
    ensures { result ≡ rules_of.is_activation extended number }
{
    if extended {
        number == 1
    } else {
        1 <= number && number <= 255
    }
}

fn is_wrongly_activated(object: &Object) -> bool
    ensures { result ≡ rules_of.is_wrongly_activated object.now }
{
    !is_activation(has(b"EVENT", object.attrs.as_slice()), activation(object))
}

fn is_linked(object: &Object) -> bool
    ensures { result ≡ rules_of.is_linked object.now }
{
    says(b"RESOURCEPROPERTY", b"LINKED", object.attrs.as_slice())
}

fn is_internal_scheduler(object: &Object) -> bool
    ensures { result ≡ rules_of.is_internal_scheduler object.now }
{
    is_internal(object) && is_called(b"RES_SCHEDULER", object)
}

fn is_callback(object: &Object) -> bool
    ensures { result ≡ rules_of.is_callback object.now }
{
    says(b"ACTION", b"ALARMCALLBACK", object.attrs.as_slice())
}

fn is_other_category(object: &Object) -> bool
    ensures { result ≡ rules_of.is_other_category object.now }
{
    let category = number(b"CATEGORY", object.attrs.as_slice(), 1);
    category != 1 && category != 2
}

fn is_reversed(counter: &Object) -> bool
    ensures { result ≡ rules_of.is_reversed counter.now }
{
    let attrs = counter.attrs.as_slice();
    maximum(attrs) < minimum(attrs)
}

/// Whether an object violates a rule.
fn is_violated(rule: KindRule, object: &Object) -> bool
    ensures { result ≡ is_violated rule object.now }
{
    match rule {
        KindRule::WrongActivation => is_wrongly_activated(object),
        KindRule::LinkedResource => is_linked(object),
        KindRule::Callback => is_callback(object),
        KindRule::ReversedCounter => is_reversed(object),
        KindRule::OtherCategory => is_other_category(object),
        KindRule::InternalScheduler => is_internal_scheduler(object),
    }
}

#[tactic(auto, using(crate::proofs::Leasts::least_steps))]
fn least_marked(kind: &[u8], attribute: &[u8], rule: KindRule, objects: &[Object]) -> Option<u32>
    ensures { result ≡ least (map (line_at attribute.now) (filter (is_violated rule) (objects_of kind.now objects.now))) }
{
    let mut best = None;
    for object in objects {
        if is_kind(kind, object) && is_violated(rule, object) {
            best = sooner(best, Some(line_at(attribute, object)));
        }
    }
    best
}

/// The least line on which an object violates a rule.
pub fn least_violation(rule: KindRule, objects: &[Object]) -> Option<u32>
    ensures { result ≡ least (violations rule objects.now) }
{
    least_marked(kind_of(rule), attribute_of(rule), rule, objects)
}
