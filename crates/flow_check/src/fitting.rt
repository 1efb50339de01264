//! Whether the sites of an image fit what is found over the rows of a table.
ghost use Rattle.std.specs.{Prelude.{◌≡◌, length, IfSome, IfNone}, Bool.{OnTrue, OnFalse}};
ghost use Rattle.flow_check.specs.Fitting.{IsFormFit, IsKnownFit, AreFormsFit, AreKnownsFit, IsFirstFormUnfit, IsFirstKnownUnfit, IsSaidBy};

use crate::found::{Findings, Found};
use crate::verdict::Verdict;
use image_model::{Form, Image, Known, Site};
use osek_values::BlockNo;

/// What is said of an image where its table is inductive: the first site that doesn't fit, or that all fit.
pub(crate) fn verdict_by(image: &Image, found: &[Option<Findings>]) -> Verdict
    requires { length found.now ≡ length image.now.app.blocks }
    ensures { IsSaidBy image.now found.now result }
{
    if let Some(block) = first_form_unfit(image, found) {
        return Verdict::N3(block);
    }
    if let Some(block) = first_known_unfit(image, found) {
        return Verdict::N4(block);
    }
    Verdict::Yes
}

fn first_form_unfit(image: &Image, found: &[Option<Findings>]) -> Option<BlockNo>
    requires { length found.now ≡ length image.now.app.blocks }
    ensures some { IfSome result (λ block. IsFirstFormUnfit image.now.sites found.now block.0) }
    ensures none { IfNone result (AreFormsFit image.now.sites found.now (length image.now.app.blocks)) }
{
    for block in 0..image.app.blocks.len() {
        if !is_form_fit(found[block], *image.sites.at(block)) {
            return Some(BlockNo(block as u16));
        }
    }
    None
}

fn first_known_unfit(image: &Image, found: &[Option<Findings>]) -> Option<BlockNo>
    requires { length found.now ≡ length image.now.app.blocks }
    ensures some { IfSome result (λ block. IsFirstKnownUnfit image.now.sites found.now block.0) }
    ensures none { IfNone result (AreKnownsFit image.now.sites found.now (length image.now.app.blocks)) }
{
    for block in 0..image.app.blocks.len() {
        if !is_known_fit(found[block], *image.sites.at(block)) {
            return Some(BlockNo(block as u16));
        }
    }
    None
}

// any form fits where no state stands, and the general one everywhere
fn is_form_fit(found: Option<Findings>, site: Option<Site>) -> bool
    ensures fit { OnTrue result (IsFormFit found site) }
    ensures unfit { OnFalse result (IsFormFit found site → ⊥) }
{
    match (found, site) {
        (Some(found), Some(site)) => {
            found.outcome == Found::None
                || site.form == Form::General
                || site.form == found.outcome.form()
        }
        (None, _) | (_, None) => true,
    }
}

// any status fits where no state stands, and to know nothing does everywhere
fn is_known_fit(found: Option<Findings>, site: Option<Site>) -> bool
    ensures fit { OnTrue result (IsKnownFit found site) }
    ensures unfit { OnFalse result (IsKnownFit found site → ⊥) }
{
    match (found, site) {
        (Some(found), Some(site)) => {
            found.outcome == Found::None || site.known == Known::Any || site.known == found.known()
        }
        (None, _) | (_, None) => true,
    }
}
