//! What is told on err: the text that goes with an answer.
ghost use Rattle.std.specs.{Prelude.{◌++◌, codes}, Fmt.{decimal}};
ghost use Rattle.osek_io.specs.Sunk.{sunk};
ghost use Rattle.command_runs.specs.Telling.{TellsText, fault_text};

use itoa::Buffer;
use osek_io::{PutError, Sink, put_all};

/// Tells a word and what is said of it.
pub fn put_two<E: Sink>(err: &mut E, first: &[u8], second: &[u8]) -> Result<(), PutError>
    ensures { TellsText (sunk E.Sink err.old) (sunk E.Sink err.new) (first.now ++ second.now) result }
{
    put_all(err, first)?;
    put_all(err, second)
}

/// Writes three pieces.
pub fn put_three<E: Sink>(
    err: &mut E,
    first: &[u8],
    second: &[u8],
    third: &[u8],
) -> Result<(), PutError>
    ensures { TellsText (sunk E.Sink err.old) (sunk E.Sink err.new) (first.now ++ second.now ++ third.now) result }
{
    put_two(err, first, second)?;
    put_all(err, third)
}

/// Tells `FILE:PLACE`.
fn put_place<E: Sink>(err: &mut E, file: &[u8], place: u64) -> Result<(), PutError>
    ensures { TellsText (sunk E.Sink err.old) (sunk E.Sink err.new) (file.now ++ codes ":" ++ decimal place) result }
{
    let mut digits = Buffer::new();
    put_three(err, file, b":", digits.format(place).as_bytes())
}

/// Tells `FILE:PLACE: RULE`.
pub fn tell_fault<E: Sink>(
    err: &mut E,
    file: &[u8],
    place: u64,
    rule: &[u8],
) -> Result<(), PutError>
    ensures { TellsText (sunk E.Sink err.old) (sunk E.Sink err.new) (fault_text file.now place rule.now) result }
{
    put_place(err, file, place)?;
    put_three(err, b": ", rule, b"\n")
}
