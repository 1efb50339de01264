//! The places of a shelf in memory, by their names.
ghost use Rattle.std.specs.Prelude.{◌≡◌, ◌≤◌, ◌+◌, ◌++◌, [], length, Some, None, OnOk, OnErr, IfSome, IfNone, IsSome, IsSomeAnd, is_some, option_map, option_copied, unwrap_or};
ghost use Rattle.std.specs.{List.{position, find}, FinMap.{get, insert}};
ghost use Rattle.osek_io.specs.{Files.{with_or_without}, Place.{is_named, files_of, rooms_of}};

use crate::place::Place;
use osek_values::Memory;

/// Where the first place of a name is.
fn position_of(places: &[Place], name: &str) -> Option<usize>
    ensures { result ≡ position (is_named name.now) places.now }
{
    places.iter().position(|place| place.is(name))
}

/// The first place of a name.
fn find_place<'a>(places: &'a [Place], name: &str) -> Option<&'a Place>
    ensures { option_copied result ≡ find (is_named name.now) places.now }
{
    places.iter().find(|place| place.is(name))
}

/// The bytes of a file, where it is there.
#[tactic(auto, using(crate::proofs::PlaceMaps::files_at))]
pub fn bytes_of<'a>(places: &'a [Place], name: &str) -> Option<&'a [u8]>
    ensures { option_map (λ b. b.now) result ≡ get (files_of places.now) name.now }
{
    match find_place(places, name) {
        Some(place) => place.bytes(),
        None => None,
    }
}

/// How many bytes a file has, where it is there, and the room of its place.
#[tactic(auto, using(crate::proofs::PlaceMaps::files_at, crate::proofs::PlaceMaps::rooms_at))]
pub fn size_of(places: &[Place], name: &str) -> Option<(usize, usize)>
    ensures some { IfSome result (λ s. IsSomeAnd (get (files_of places.now) name.now) (λ b. IsSomeAnd (get (rooms_of places.now) name.now) (λ room. (length b ≡ s.0) × (room ≡ s.1) × (s.0 ≤ s.1)))) }
    ensures none { IfNone result (get (files_of places.now) name.now ≡ None) }
{
    let place = find_place(places, name)?;
    let bytes = place.bytes()?;
    Some((bytes.len(), place.room()))
}

/// Whether the name has a place.
#[tactic(auto, using(crate::proofs::PlaceMaps::rooms_at))]
pub fn has_place(places: &[Place], name: &str) -> bool
    ensures { result ≡ is_some (get (rooms_of places.now) name.now) }
{
    find_place(places, name).is_some()
}

/// Makes a file hold no bytes, at the place of its name.
pub fn clear_file(places: &mut Vec<Place>, name: &str)
    requires { IsSome (get (rooms_of places.old.items) name.now) }
    ensures files { files_of places.new.items ≡ insert (files_of places.old.items) name.now [] }
    ensures rooms { rooms_of places.new.items ≡ rooms_of places.old.items }
{
    if let Some(at) = position_of(places, name) {
        places[at].clear();
    }
}

/// Adds bytes to a file that is there, whose place has room for them.
pub fn add_to_file(places: &mut Vec<Place>, name: &str, piece: &[u8])
    requires { IsSomeAnd (get (files_of places.old.items) name.now) (λ b. IsSomeAnd (get (rooms_of places.old.items) name.now) (λ room. length b + length piece.now ≤ room)) }
    ensures files { files_of places.new.items ≡ insert (files_of places.old.items) name.now (unwrap_or (get (files_of places.old.items) name.now) [] ++ piece.now) }
    ensures rooms { rooms_of places.new.items ≡ rooms_of places.old.items }
{
    if let Some(at) = position_of(places, name) {
        places[at].add(piece);
    }
}

/// Puts a place where the first of its name is, or at the end.
pub fn put_place(places: &mut Vec<Place>, name: &str, place: Place) -> Result<(), Memory>
    requires { name.now ≡ place.name }
    ensures files { OnOk result (files_of places.new.items ≡ with_or_without (files_of places.old.items) place.name place.bytes) }
    ensures rooms { OnOk result (rooms_of places.new.items ≡ insert (rooms_of places.old.items) place.name place.room) }
    ensures err { OnErr result (places.new.items ≡ places.old.items) }
{
    match position_of(places, name) {
        Some(at) => places[at] = place,
        None => places.push(place)?,
    }
    Ok(())
}
