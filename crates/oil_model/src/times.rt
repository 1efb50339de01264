//! The times of counters and alarms.
ghost use Rattle.std.specs.{Prelude.{◌≡◌, codes}, List.{flat_map}};
ghost use Rattle.oil_model.specs.{Lines.{least}, Objects.{objects_of, line_at, alarm_time, cycle_time}};
ghost use Rattle.oil_model.specs.Rules as rules_of;

use crate::kind_rules::{KindRule, least_violation};
use crate::lines::{line_if, sooner};
use crate::look_up::{line, number, word};
use crate::objects::{attrs_named, is_kind, line_at, maximum, minimum, start};
use oil_tree::{Attr, Object};

/// ALARMTIME, from the attributes in AUTOSTART; 0 where it isn't there.
pub fn alarm_time(start: &[Attr]) -> u64
    ensures { result ≡ alarm_time start.now }
{
    number(b"ALARMTIME", start, 0)
}

/// CYCLETIME, from the attributes in AUTOSTART; 0 where it isn't there.
pub fn cycle_time(start: &[Attr]) -> u64
    ensures { result ≡ cycle_time start.now }
{
    number(b"CYCLETIME", start, 0)
}

fn is_off_cycle(counter: &[Attr], cycle: u64) -> bool
    ensures { result ≡ rules_of.is_off_cycle counter.now cycle }
{
    cycle != 0 && (cycle < minimum(counter) || maximum(counter) < cycle)
}

#[tactic(auto, using(crate::proofs::Leasts::least_append))]
fn late_time_by(counter: &[Attr], at: u32, start: &[Attr]) -> Option<u32>
    ensures { result ≡ least (rules_of.late_times_by counter.now at start.now) }
{
    let late = maximum(counter) < alarm_time(start);
    let off = is_off_cycle(counter, cycle_time(start));
    sooner(
        line_if(late, line(b"ALARMTIME", start, at)),
        line_if(off, line(b"CYCLETIME", start, at)),
    )
}

fn late_time_of(objects: &[Object], alarm: &Object) -> Option<u32>
    ensures { result ≡ least (rules_of.late_times_of objects.now alarm.now) }
{
    let attrs = alarm.attrs.as_slice();
    let counter = attrs_named(b"COUNTER", word(b"COUNTER", attrs), objects);
    late_time_by(counter, line_at(b"AUTOSTART", alarm), start(attrs))
}

// Few alarms and counters are left where this rule is judged, so the search for a counter is short.
#[tactic(auto, using(crate::proofs::Leasts::least_steps))]
fn late_alarm(objects: &[Object]) -> Option<u32>
    ensures { result ≡ least (flat_map (rules_of.late_times_of objects.now) (objects_of (codes "ALARM") objects.now)) }
{
    let mut best = None;
    for object in objects {
        if is_kind(b"ALARM", object) {
            best = sooner(best, late_time_of(objects, object));
        }
    }
    best
}

/// The least line of a time outside the range of its counter.
#[tactic(auto, using(crate::proofs::Leasts::least_append))]
pub fn late_time(objects: &[Object]) -> Option<u32>
    ensures { result ≡ least (rules_of.late_times objects.now) }
{
    sooner(
        least_violation(KindRule::ReversedCounter, objects),
        late_alarm(objects),
    )
}
