//! Reading the header of an image.
ghost use Rattle.std.specs.{Prelude.{◌≡◌, ◌+◌, ◌≤◌, ◌<◌, IfOk, ◌&&◌, nat_lt, nat_le}, Int.{w16}};
ghost use Rattle.image_fields.specs.Reading.{Gives, byte_below_at, tested_at, tested_byte_at};
ghost use Rattle.image_fields.specs.TableReading.{HasFew, version_of as version_of_front, version_at, header_at};
ghost use Rattle.image_fields.specs.Magic.{magic as magic_of};
ghost use Rattle.image_fields.specs.declared.fault.ImageRule.TheVariants.{I3};

use crate::fault::{ImageRule, ReadError};
use crate::parts::Header;
use crate::reader::{Reader, fault};
use image_model::Version;
use osek_values::HookSet;
use osek_values::limits::{
    MAX_ALARMS, MAX_BLOCKS, MAX_COUNTERS, MAX_ISRS, MAX_MODES, MAX_RESOURCES, MAX_TASKS,
};

/// OSEKFIT and the version.
pub fn magic(version: Version) -> &'static [u8]
    ensures { result.now ≡ magic_of version }
{
    match version {
        Version::One => b"OSEKFIT\x01",
        Version::Two => b"OSEKFIT\x02",
    }
}

/// How many entries a table has, at most so many.
fn entry_count(reader: &mut Reader, most: usize) -> Result<u8, ReadError>
    requires { most < 255 }
    ensures gives { Gives (λ x. x) result reader.new (byte_below_at (most + 1) reader.old) }
    ensures few { IfOk result (λ n. n ≤ most) }
{
    reader.byte_below(most as u8 + 1)
}

/// How many modes there are.
#[tactic(auto, unfolding(crate::specs::Reading::tested_byte_at))]
fn mode_count(reader: &mut Reader) -> Result<u8, ReadError>
    ensures gives { Gives (λ x. x) result reader.new (tested_byte_at (λ n. nat_lt 0 n && nat_le n MAX_MODES) I3 reader.old) }
    ensures few { IfOk result (λ n. n ≤ MAX_MODES) }
{
    let left = reader.left();
    let modes = reader.byte()?;
    if modes == 0 || modes as usize > MAX_MODES {
        return Err(fault(ImageRule::I3, left));
    }
    Ok(modes)
}

/// How many blocks there are.
#[tactic(auto, unfolding(crate::specs::Reading::tested_at))]
fn block_count(reader: &mut Reader) -> Result<u16, ReadError>
    ensures { Gives (λ x. x) result reader.new (tested_at w16 (λ n. nat_le n MAX_BLOCKS) I3 reader.old) }
{
    let left = reader.left();
    let blocks = reader.number_16()?;
    if blocks as usize > MAX_BLOCKS {
        return Err(fault(ImageRule::I3, left));
    }
    Ok(blocks)
}

/// The version that the first eight bytes name.
fn version_of(front: &[u8]) -> Option<Version>
    ensures { result ≡ version_of_front front.now }
{
    if front == magic(Version::One) {
        Some(Version::One)
    } else if front == magic(Version::Two) {
        Some(Version::Two)
    } else {
        None
    }
}

/// The magic and the version.
#[tactic(auto, unfolding(crate::specs::TableReading::version_at))]
fn version(reader: &mut Reader) -> Result<Version, ReadError>
    ensures { Gives (λ x. x) result reader.new (version_at reader.old) }
{
    let left = reader.left();
    let front = reader.text(8, left)?;
    match version_of(front) {
        None => Err(fault(ImageRule::I2, left)),
        Some(version) => Ok(version),
    }
}

/// The header of an image.
#[tactic(auto, unfolding(crate::specs::TableReading::header_at))]
pub fn header(reader: &mut Reader) -> Result<Header, ReadError>
    ensures gives { Gives (λ x. x) result reader.new (header_at reader.old) }
    ensures few { IfOk result HasFew }
{
    let version = version(reader)?;
    let hooks = HookSet(reader.byte_below(32)?);
    let tasks = entry_count(reader, MAX_TASKS)?;
    let isrs = entry_count(reader, MAX_ISRS)?;
    let counters = entry_count(reader, MAX_COUNTERS)?;
    let alarms = entry_count(reader, MAX_ALARMS)?;
    let resources = entry_count(reader, MAX_RESOURCES)?;
    let modes = mode_count(reader)?;
    let blocks = block_count(reader)?;
    Ok(Header {
        version,
        hooks,
        tasks,
        isrs,
        counters,
        alarms,
        resources,
        modes,
        blocks,
    })
}
