//! Whole files.
ghost use Rattle.std.specs.Prelude.{◌≡◌, ◌≤◌, ◌<◌, ◌+◌, ◌⊎◌, ℕ, List, length, max, IfOk, OnOk, IsErrOf};
ghost use Rattle.osek_io.specs.{Counts.{RoseSomewhere, Same}, Files.{Holds, IsMissing}, Reads.{OnlyReads}, declared.loading.LoadError.TheVariants.{Memory}};

use crate::shelf::Shelf;
use std::alloc::{AllocError, Global};
use std::error::Error;
use std::fmt;

/// How many bytes are read at once.
const PIECE: usize = 65_536;

/// Why a file was not loaded.
#[derive(Clone, Copy, Debug, PartialEq, Eq)]
pub enum LoadError {
    /// A read failed, or the shelf tells that the file isn't there.
    Read,
    /// The file has more bytes than were asked for.
    TooLong,
    /// Memory ran out.
    Memory,
}

impl fmt::Display for LoadError {
    fn fmt<W: fmt::Write>(&self, f: &mut fmt::Formatter<W>) -> fmt::Result {
        match self {
            LoadError::Read => write!(f, "read"),
            LoadError::TooLong => write!(f, "too long"),
            LoadError::Memory => write!(f, "memory"),
        }
    }
}

impl Error for LoadError {}

impl From<AllocError> for LoadError {
    ghost from_gives = { λ _ e. e ≡ Memory };

    fn from(_e: AllocError) -> LoadError {
        LoadError::Memory
    }
}

/// How many bytes a turn asks for, behind those that were taken: one at least, and with them at most one
/// more than `most` in all.
fn bytes_to_ask(taken: u64, most: u64) -> usize
    requires { taken ≤ most }
    ensures some { 0 < result }
    ensures piece { result ≤ 65536 }
    ensures within { taken + result ≤ most + 1 }
{
    (most - taken).saturating_add(1).min(PIECE as u64) as usize
}

/// Loads all the bytes of a file that has at most `most`.
pub fn load<F: Shelf>(
    alloc: Global,
    shelf: &mut F,
    name: &str,
    most: u64,
) -> Result<Vec<u8>, LoadError>
    ensures bytes { IfOk result (λ v. (bytes : List ℕ) → Holds (F.contents shelf.old) name.now bytes → v.items ≡ bytes) }
    ensures within { IfOk result (λ v. length v.items ≤ most) }

    ensures read { IsErrOf result LoadError.Read → RoseSomewhere (F.read_faults shelf.old name.now) (F.read_faults shelf.new name.now) ⊎ IsMissing (F.contents shelf.old) name.now }
    ensures missing { IsMissing (F.contents shelf.old) name.now → IsErrOf result LoadError.Read }
    ensures uncounted { IsMissing (F.contents shelf.old) name.now → Same (F.read_faults shelf.old) (F.read_faults shelf.new) }
    ensures too_long { IsErrOf result LoadError.TooLong → ((bytes : List ℕ) → Holds (F.contents shelf.old) name.now bytes → most < length bytes) × Same (F.read_faults shelf.old) (F.read_faults shelf.new) }
    ensures no_fault { OnOk result (Same (F.read_faults shelf.old) (F.read_faults shelf.new)) }

    // It asks for one byte beyond the limit at most.
    ensures asked { F.asked shelf.new ≤ max (F.asked shelf.old) (most + 1) }
    ensures same { OnlyReads F.Shelf shelf.old shelf.new }
{
    let mut bytes: Vec<u8> = Vec::new(alloc);
    let mut piece = [0u8; PIECE];
    loop {
        let taken = bytes.len() as u64;
        let want = bytes_to_ask(taken, most);
        let Ok(count) = shelf.read(name, taken, &mut piece[..want]) else {
            return Err(LoadError::Read);
        };
        if count == 0 {
            return Ok(bytes);
        }
        if most - taken < count as u64 {
            return Err(LoadError::TooLong);
        }
        bytes.extend_from_slice(&piece[..count])?;
    }
}
