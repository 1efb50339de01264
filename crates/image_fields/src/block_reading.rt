//! Reading the blocks of an image.
ghost use Rattle.std.specs.{Prelude.{◌≡◌, length, IfOk}, List.{zip}};
ghost use Rattle.image_fields.specs.{Reading.{Gives}, BlockReading.{AreSmall, kind_at, block_at, blocks_at}};

use crate::fault::{ImageRule, ReadError};
use crate::numbers::blank_kind;
use crate::operands::operands;
use crate::parts::Tables;
use crate::placing::is_allowed;
use crate::reader::{Reader, fault};
use crate::sites::site;
use crate::ways::ways;
use image_model::{Site, Version};
use osek_standard::{Block, Kind};
use osek_values::{BlockNo, Seq};
use std::alloc::Global;

#[tactic(auto, unfolding(crate::specs::BlockReading::kind_at))]
fn kind(
    reader: &mut Reader,
    version: Version,
    tables: &Tables,
    block: u16,
) -> Result<Kind, ReadError>
    requires { AreSmall tables.now }
    ensures { Gives (λ x. x) result reader.new (kind_at tables.now block version reader.old) }
{
    let left = reader.left();
    let number = reader.byte()?;
    match blank_kind(number) {
        None => Err(fault(ImageRule::I3, left)),
        Some(kind) => {
            if is_allowed(version, tables, block, kind) {
                Ok(kind)
            } else {
                Err(fault(ImageRule::I5, left))
            }
        }
    }
}

#[tactic(auto, unfolding(crate::specs::BlockReading::block_at))]
fn block(
    reader: &mut Reader,
    version: Version,
    tables: &Tables,
    blocks: u16,
    block: u16,
) -> Result<(Block, Option<Site>), ReadError>
    requires { AreSmall tables.now }
    ensures { Gives (λ x. x) result reader.new (block_at tables.now blocks block version reader.old) }
{
    let blank = kind(reader, version, tables, block)?;
    let locked = reader.flag()?;
    let line = reader.number_32()?;
    let filled = operands(reader, tables, block, blank)?;
    let (kind, next) = ways(reader, tables, blocks, block, filled)?;
    let site = site(reader, version, tables, block, kind)?;
    let block = Block {
        kind,
        locked,
        line,
        next: BlockNo(next),
    };
    Ok((block, site))
}

/// The blocks in order, and what stands for each of them among the sites.
pub fn blocks(
    alloc: Global,
    reader: &mut Reader,
    version: Version,
    tables: &Tables,
    count: u16,
) -> Result<(Seq<Block>, Seq<Option<Site>>), ReadError>
    requires { AreSmall tables.now }
    ensures gives { Gives (λ x. zip x.0 x.1) result reader.new (blocks_at version tables.now count reader.old) }
    ensures same { IfOk result (λ x. length x.0 ≡ length x.1) }
{
    let mut blocks = Seq::new(alloc);
    let mut sites = Seq::new(alloc);
    for number in 0..count {
        let (block, site) = block(reader, version, tables, count, number)?;
        blocks.push(block)?;
        sites.push(site)?;
    }
    Ok((blocks, sites))
}
