//! The image of an application, fitted to it by its least table of possible states.
ghost use Rattle.std.specs.Prelude.{◌≡◌, ◌<◌, IfOk};
ghost use Rattle.dictated_forms.specs.Forms.{HasDictatedForms, HasDictatedStatuses};
ghost use Rattle.abstract_state.specs.Tables.{sets_of};
ghost use Rattle.commands.specs.Fitting.{IsLeastExplored, IsFitted};

use crate::ranges::read_numbers;
use call_tailor::tailor_with;
use image_model::Image;
use osek_standard::App;
use osek_values::{Memory, Steps};
use state_flow::{Explored, explore};
use std::alloc::Global;
use std::marker::Brand;
use std::sync::ledger::{Blank, Ledger};

/// The least table of an application, its evaluations counted in a ledger.
fn explored<L: Ledger>(alloc: Global, app: &App, blank: Blank) -> Result<Explored, Memory>
    requires name { blank.name ≡ L.name }
    requires parts { blank.parts ≡ L.parts }
    requires some { 0 < L.parts }
    ensures { IfOk result (IsLeastExplored app.now) }
{
    let mut steps = Steps::<L>::of(blank);
    let least = explore(alloc, app, &mut steps)?;
    Ok(least)
}

/// The least table of possible states of an application, and the exits that are known of its points.
pub fn least_table(alloc: Global, app: &App) -> Result<Explored, Memory>
    ensures { IfOk result (IsLeastExplored app.now) }
{
    explored::<Brand>(alloc, app, Blank::new(1))
}

/// The image of an application in which each call site has the form and the known status that the least table dictates.
pub fn fitted(alloc: Global, app: App, least: &Explored) -> Result<Image, Memory>
    requires least { IsLeastExplored app least.now }
    ensures fitted { IfOk result (IsFitted app) }
    ensures forms { IfOk result (HasDictatedForms (sets_of least.now.table)) }
    ensures statuses { IfOk result (HasDictatedStatuses (sets_of least.now.table)) }
{
    let image = tailor_with(alloc, app, &least.table, least.exits.as_slice())?;
    read_numbers(&image);
    Ok(image)
}
