//! The image of an application by a table.
ghost use Rattle.std.specs.Prelude.{◌≡◌, ◌<◌, ℕ, List, length, map, IfOk};
ghost use Rattle.osek_values.specs.declared.{event.Event.{Event}, numbers.ModeNo.{ModeNo}};
ghost use Rattle.image_model.specs.declared.image.Version.TheVariants as version;
ghost use Rattle.image_model.specs.Laws.{IsKernelsRun};
ghost use Rattle.abstract_state.specs.{Tables.{Inductive, sets_of}, Written.{IsWritten}};
ghost use Rattle.table_rows.specs.BareExits.{AreKnownExits};
ghost use Rattle.dictated_forms.specs.Forms.{HasDictatedForms, HasDictatedStatuses};
ghost use Rattle.call_tailor.specs.Tailored.{site_of as site_by};

use flow_check::{Findings, findings};
use image_model::{Image, Site, Version};
use numbered_sets::Table;
use osek_standard::App;
use osek_values::{Memory, Seq};
use std::alloc::Global;
use table_rows::PointExits;

/// The image, of version 2, whose sites have the forms that a table dictates and know of their statuses what it says. Where
/// the table is inductive it runs as the kernel.
pub fn tailor(alloc: Global, app: App, table: &Table) -> Result<Image, Memory>
    requires written { IsWritten app table.now }
    ensures version { IfOk result (λ i. i.version ≡ version.Two) }
    ensures app { IfOk result (λ i. i.app ≡ app) }
    ensures forms { IfOk result (HasDictatedForms (sets_of table.now)) }
    ensures statuses { IfOk result (HasDictatedStatuses (sets_of table.now)) }
    ensures kernel { IfOk result (λ i. Inductive app (sets_of table.now) → (mode : ModeNo) (es : List Event) → mode.0 < length app.modes → IsKernelsRun i mode es) }
{
    tailor_with(alloc, app, table, &[])
}

/// The same image, where exits are known of points, so that these needn't be evaluated again.
pub fn tailor_with(
    alloc: Global,
    app: App,
    table: &Table,
    known: &[PointExits],
) -> Result<Image, Memory>
    requires written { IsWritten app table.now }
    requires known { AreKnownExits app table.now.rows known.now }
    ensures version { IfOk result (λ i. i.version ≡ version.Two) }
    ensures app { IfOk result (λ i. i.app ≡ app) }
    ensures forms { IfOk result (HasDictatedForms (sets_of table.now)) }
    ensures statuses { IfOk result (HasDictatedStatuses (sets_of table.now)) }
    ensures kernel { IfOk result (λ i. Inductive app (sets_of table.now) → (mode : ModeNo) (es : List Event) → mode.0 < length app.modes → IsKernelsRun i mode es) }
{
    let found = findings(alloc, &app, table, known)?;
    let sites = sites(alloc, found.as_slice())?;
    Ok(Image {
        version: Version::Two,
        app,
        sites: Seq::of(sites),
    })
}

fn sites(alloc: Global, found: &[Option<Findings>]) -> Result<Vec<Option<Site>>, Memory>
    ensures { IfOk result (λ sites. sites.items ≡ map site_by found.now) }
{
    let mut sites = Vec::new(alloc);
    for site in found {
        sites.push(site_of(*site))?;
    }
    Ok(sites)
}

fn site_of(found: Option<Findings>) -> Option<Site>
    ensures { result ≡ site_by found }
{
    match found {
        None => None,
        Some(found) => Some(Site {
            form: found.outcome.form(),
            known: found.known(),
        }),
    }
}
