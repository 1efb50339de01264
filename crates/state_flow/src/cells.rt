//! Points that were reached, with what is known of each, in the order of the points.
ghost use Rattle.std.specs.Prelude.{IfSome, IfNone};
ghost use Rattle.state_flow.specs.Cells.{IsWaitingCell, NoneWaits};

use crate::agenda::{Agenda, Growth, Urgent};
use crate::kept::Kept;
use crate::lattice::Lattice;
use crate::places::Places;
use osek_standard::Point;
use osek_values::{Memory, Seq};
use std::alloc::Global;
use table_rows::{BareExit, Keyed, place_of};

/// A point that was reached, and what the states there can be like.
#[derive(Drop)]
pub struct Cell<E> {
    pub point: Point,
    /// The point's number, by which cells are looked for.
    pub number: u32,
    /// It is to be evaluated: it is new, or its entry grew since it was.
    pub waiting: bool,
    pub entry: E,
    /// What the entry was when the point was last evaluated, where that is kept.
    pub before: Option<Kept<E>>,
    /// The exits of the states there, where the point was evaluated with all its values and none came in since.
    pub exits: Option<Seq<BareExit>>,
    pub growth: Growth,
}

impl<E: Lattice + Drop> Cell<E> {
    ghost use Rattle.std.specs.Prelude.{◌≡◌, IfOk};
    ghost use Rattle.state_flow.specs.Cells.{reached_cell};

    /// That of a point that was reached just now, and waits.
    fn new(alloc: Global, point: Point, entry: &E) -> Result<Kept<Cell<E>>, Memory>
        ensures { IfOk result (λ cell. cell ≡ reached_cell point entry.now) }
    {
        let entry = entry.copy(alloc)?;
        Kept::new(
            alloc,
            Cell {
                point,
                number: point.number(),
                waiting: true,
                entry,
                before: None,
                exits: None,
                growth: Growth::new(),
            },
        )
    }
}

impl<E: Lattice> Cell<E> {
    ghost use Rattle.std.specs.Prelude.{OnOk};
    ghost use Rattle.state_flow.specs.Cells.{IsRaised};

    /// Joins another entry in. The cell waits where its entry grew. It answers what is to be put on the agenda then.
    fn raise(&mut self, other: &E) -> Result<Option<Urgent>, Memory>
        requires element { E.is_element self.old.entry }
        requires of_element { E.is_element other.now }
        requires alike { E.alike self.old.entry other.now }
        ensures { OnOk result (IsRaised E.is_element E.alike E.is_below E.rank self.old other.now self.new) }
    {
        let added = self.entry.join_into(other)?;
        if added == 0 {
            return Ok(None);
        }
        self.waiting = true;
        self.exits = None;
        if !self.growth.add(added) {
            return Ok(None);
        }
        Ok(Some(self.growth.urgent(self.number)))
    }
}

impl<E> Keyed for Kept<Cell<E>> {
    ghost key = { λ cell. cell.number };

    fn key(&self) -> u32 {
        self.get().number
    }
}

/// The points that were reached, in their order, and which of those that wait is to be evaluated next.
#[derive(Drop)]
pub struct Cells<E> {
    pub list: Vec<Kept<Cell<E>>>,
    agenda: Agenda,
    places: Places,
}

impl<E> Cells<E> {
    ghost use Rattle.std.specs.Prelude.{◌≡◌, [], IfSome, IfNone, IfOk, IfErr};
    ghost use Rattle.table_rows.specs.Order.{IsPlaceBy, IsGapBy};
    ghost use Rattle.state_flow.specs.Cells.{AreCellsInOrder, IsWaitingCell, NoneWaits};

    /// No point.
    pub fn new(alloc: Global) -> Cells<E>
        ensures { result.list.items ≡ [] }
    {
        Cells {
            list: Vec::new(alloc),
            agenda: Agenda::new(alloc),
            places: Places::new(alloc),
        }
    }

    /// The place of the cell that is to be evaluated next, of those that wait.
    pub fn next(&mut self) -> Option<usize>
        requires { AreCellsInOrder self.old.list.items }
        ensures same { self.new.list.items ≡ self.old.list.items }
        ensures waits { IfSome result (IsWaitingCell self.new.list.items) }
        ensures none { IfNone result (NoneWaits self.new.list.items) }
    {
        match self.most_urgent() {
            Some(place) => Some(place),
            None => first_waiting(self.list.as_slice()),
        }
    }

    // the place of the most urgent cell on the agenda that waits
    fn most_urgent(&mut self) -> Option<usize>
        requires { AreCellsInOrder self.old.list.items }
        ensures same { self.new.list.items ≡ self.old.list.items }
        ensures waits { IfSome result (IsWaitingCell self.new.list.items) }
    {
        for _point in 0..self.agenda.len() {
            let urgent = self.agenda.pop()?;
            if let Some(place) = self.waiting_as(urgent) {
                return Some(place);
            }
        }
        None
    }

    // the place of a point's cell, or the one where it belongs: mostly it stands where it stood when it was looked for last
    fn place(&self, number: u32) -> Result<usize, usize>
        requires { AreCellsInOrder self.now.list.items }
        ensures place { IfOk result (IsPlaceBy (λ cell. cell.number) self.now.list.items number) }
        ensures gap { IfErr result (IsGapBy (λ cell. cell.number) self.now.list.items number) }
    {
        let place = self.places.last(number);
        if place < self.list.len() && self.list[place].get().number == number {
            return Ok(place);
        }
        place_of(self.list.as_slice(), number)
    }

    // the place of a point that was put on the agenda, if it waits and wasn't evaluated since
    fn waiting_as(&self, urgent: Urgent) -> Option<usize>
        requires { AreCellsInOrder self.now.list.items }
        ensures { IfSome result (IsWaitingCell self.now.list.items) }
    {
        let Ok(place) = self.place(urgent.number()) else {
            return None;
        };
        let cell = self.list[place].get();
        if cell.waiting && cell.growth.is_as(urgent) {
            return Some(place);
        }
        None
    }
}

impl<E: Lattice + Drop> Cells<E> {
    ghost use Rattle.std.specs.Prelude.{OnOk};
    ghost use Rattle.state_flow.specs.Cells.{AreCellsInOrder, MayJoin, IsJoined};

    /// Joins an entry into the cell of its point, or puts the point in with it.
    pub fn join(&mut self, alloc: Global, point: Point, entry: &E) -> Result<(), Memory>
        requires order { AreCellsInOrder self.old.list.items }
        requires may { MayJoin E.is_element E.alike self.old.list.items point entry.now }
        ensures { OnOk result (IsJoined E.is_element E.alike E.is_below E.rank self.old.list.items point entry.now self.new.list.items) }
    {
        match self.place(point.number()) {
            Ok(place) => {
                self.places.note(point.number(), place)?;
                if let Some(urgent) = self.list[place].get_mut().raise(entry)? {
                    self.agenda.push(urgent)?;
                }
            }
            Err(gap) => {
                let cell = Cell::new(alloc, point, entry)?;
                self.agenda.push(cell.get().growth.urgent(point.number()))?;
                self.list.insert(gap, cell)?
            }
        }
        Ok(())
    }
}

fn first_waiting<E>(cells: &[Kept<Cell<E>>]) -> Option<usize>
    ensures waits { IfSome result (IsWaitingCell cells.now) }
    ensures none { IfNone result (NoneWaits cells.now) }
{
    for place in 0..cells.len() {
        if cells[place].get().waiting {
            return Some(place);
        }
    }
    None
}
