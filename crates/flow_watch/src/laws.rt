//! Laws of watches and records.
ghost use Rattle.std.specs.Prelude.{◌≡◌, List, Option};
ghost use Rattle.osek_standard.specs.declared.{app.App.{App}, point.Point.{Point}};
ghost use Rattle.abstract_state.specs.Tables.{Sets};
ghost use Rattle.flow_watch.specs.{declared.alarm.Alarm.{Alarm}, Records.{IsAlarmOf}, Watches.{WatchState, IsWatchOf, all_seen}};

/// A watch that sees all points of a record has its first alarm, or none where it has none.
pub fn a_watch_finds_the_first_alarm()
    ensures { (app : App) (table : Sets) (w : WatchState) (points : List Point) → IsWatchOf app table w → IsAlarmOf app table points (all_seen w points).alarm }
{}

/// A record has one first alarm, or none.
pub fn a_record_has_one_first_alarm()
    ensures { (app : App) (table : Sets) (points : List Point) (one other : Option Alarm) → IsAlarmOf app table points one → IsAlarmOf app table points other → one ≡ other }
{}
