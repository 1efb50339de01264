//! Images from bytes.
ghost use Rattle.std.specs.Prelude.{◌≡◌, IfOk};
ghost use Rattle.image_codec.specs.{Spelling.{spelling}, Fits.{FitsFormat}, ImageReading.{parts_at, all_at, AnswersParts, IsAnswered, read_image}};
ghost use Rattle.image_fields.specs.Reading.{Gives};
ghost use Rattle.image_model.specs.declared.image.Image.{Image as AnImage};

use crate::fault::{ImageError, ImageFault};
use crate::parts::Parts;
use image_fields::{Fault, ImageRule, ReadError, Reader, blocks, header, tables};
use image_model::Image;
use osek_standard::App;
use std::alloc::Global;

/// An image at the front of the bytes.
#[tactic(auto, unfolding(crate::specs::ImageReading::parts_at))]
fn parts(alloc: Global, reader: &mut Reader) -> Result<Parts, ReadError>
    ensures { Gives (λ x. x) result reader.new (parts_at reader.old) }
{
    let header = header(reader)?;
    let tables = tables(alloc, reader, header)?;
    match blocks(alloc, reader, header.version, &tables, header.blocks) {
        Ok((blocks, sites)) => Ok(Parts {
            version: header.version,
            hooks: header.hooks,
            tables,
            blocks,
            sites,
        }),
        Err(error) => {
            drop(tables);
            Err(error)
        }
    }
}

/// An image that is all of the bytes.
#[tactic(auto, unfolding(crate::specs::ImageReading::all_at))]
fn all(alloc: Global, reader: &mut Reader) -> Result<Parts, ReadError>
    ensures { Gives (λ x. x) result reader.new (all_at reader.old) }
{
    let parts = parts(alloc, reader)?;
    let left = reader.left();
    if left != 0 {
        drop(parts);
        return Err(ReadError::Fault(Fault {
            rule: ImageRule::I6,
            left,
        }));
    }
    Ok(parts)
}

/// The image that the bytes spell, all of the bytes, or their first fault.
pub fn decode(alloc: Global, bytes: &[u8]) -> Result<Image, ImageError>
    // What is answered is spelled so.
    ensures spelled { IfOk result (λ i. spelling i ≡ bytes.now) }
    ensures fits { IfOk result FitsFormat }
    // What is spelled so is answered.
    ensures complete { (i : AnImage) → FitsFormat i → spelling i ≡ bytes.now → IsAnswered i result }
    // A fault is the first one.
    ensures first { AnswersParts result (read_image bytes.now) }
{
    let mut reader = Reader::new(bytes);
    match all(alloc, &mut reader) {
        Ok(parts) => {
            let tables = parts.tables;
            let app = App {
                hooks: parts.hooks,
                tasks: tables.tasks,
                isrs: tables.isrs,
                counters: tables.counters,
                alarms: tables.alarms,
                resources: tables.resources,
                modes: tables.modes,
                blocks: parts.blocks,
            };
            Ok(Image {
                version: parts.version,
                app,
                sites: parts.sites,
            })
        }
        Err(ReadError::Memory) => Err(ImageError::Memory),
        Err(ReadError::Fault(fault)) => Err(ImageError::Fault(ImageFault {
            rule: fault.rule,
            offset: bytes.len().saturating_sub(fault.left),
        })),
    }
}
