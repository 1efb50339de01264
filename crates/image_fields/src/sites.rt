//! Reading what is stated of a call site.
ghost use Rattle.std.specs.Prelude.{◌≤◌};
ghost use Rattle.image_fields.specs.{Reading.{Gives}, BlockReading.{AreSmall, form_at, known_at, stated_at, site_at}};

use crate::fault::{ImageRule, ReadError};
use crate::numbers::{form_of, known_of};
use crate::parts::Tables;
use crate::reader::{Reader, fault};
use image_model::{Form, Known, Site, Version, is_site};
use osek_standard::Kind;

/// A site's form, where there are so many tasks.
#[tactic(auto, unfolding(crate::specs::BlockReading::form_at))]
fn form(reader: &mut Reader, tasks: usize) -> Result<Form, ReadError>
    requires { tasks ≤ 255 }
    ensures { Gives (λ x. x) result reader.new (form_at tasks reader.old) }
{
    let left = reader.left();
    let number = reader.number_16()?;
    match form_of(number, tasks) {
        None => Err(fault(ImageRule::I3, left)),
        Some(form) => Ok(form),
    }
}

/// What is known of a site's status: nothing in version 1.
#[tactic(auto, unfolding(crate::specs::BlockReading::known_at))]
fn known(reader: &mut Reader, version: Version) -> Result<Known, ReadError>
    ensures { Gives (λ x. x) result reader.new (known_at version reader.old) }
{
    match version {
        Version::One => Ok(Known::Any),
        Version::Two => {
            let left = reader.left();
            let number = reader.byte()?;
            match known_of(number) {
                None => Err(fault(ImageRule::I3, left)),
                Some(known) => Ok(known),
            }
        }
    }
}

/// A site, where there are so many tasks.
#[tactic(auto, unfolding(crate::specs::BlockReading::stated_at))]
fn stated(reader: &mut Reader, version: Version, tasks: usize) -> Result<Site, ReadError>
    requires { tasks ≤ 255 }
    ensures { Gives (λ x. x) result reader.new (stated_at version tasks reader.old) }
{
    let form = form(reader, tasks)?;
    let known = known(reader, version)?;
    Ok(Site { form, known })
}

/// A block's site, if it is one.
#[tactic(auto, unfolding(crate::specs::BlockReading::site_at))]
pub(crate) fn site(
    reader: &mut Reader,
    version: Version,
    tables: &Tables,
    block: u16,
    kind: Kind,
) -> Result<Option<Site>, ReadError>
    requires { AreSmall tables.now }
    ensures { Gives (λ x. x) result reader.new (site_at tables.now block version kind reader.old) }
{
    if !is_site(tables.tasks.as_slice(), block, kind) {
        return Ok(None);
    }
    Ok(Some(stated(reader, version, tables.tasks.len())?))
}
