//! The sites of an image.
ghost use Rattle.std.specs.Prelude.{◌≡◌, ◌<◌, ◌↔◌, length, not, IsTrue, None, IfOk};
ghost use Rattle.osek_standard.specs.Apps.{is_site as is_site_of};
ghost use Rattle.image_model.specs.{Sites.{general_site as general_site_if}, ImageStep.{site_at as site_of, form_at}, ImageTrace.{AreGeneral}};
ghost use Rattle.image_model.specs.declared.image.Version.TheVariants as version;

use crate::image::{Image, Version};
use crate::site::{Form, Known, Site, is_site};
use osek_standard::App;
use osek_values::{BlockNo, Memory, Seq};
use std::alloc::Global;

/// A block's site.
pub fn site_at(image: &Image, block: BlockNo) -> Option<Site>
    requires { block.0 < length image.now.app.blocks }
    ensures site { result ≡ site_of image.now block.0 }
    ensures none { (result ≡ None) ↔ IsTrue (not (is_site_of image.now.app block.0)) }
{
    *image.sites.at(block.index())
}

/// The form of a block's site.
pub fn form(image: &Image, block: BlockNo) -> Option<Form>
    requires { block.0 < length image.now.app.blocks }
    ensures form { result ≡ form_at image.now block.0 }
    ensures none { (result ≡ None) ↔ IsTrue (not (is_site_of image.now.app block.0)) }
{
    site_at(image, block).map(|site| site.form)
}

/// The site that a block has with the general form and of which nothing is known, if it is a site.
fn general_site(app: &App, block: BlockNo) -> Option<Site>
    requires { block.0 < length app.now.blocks }
    ensures { result ≡ general_site_if (is_site_of app.now block.0) }
{
    if is_site(app.tasks.as_slice(), block.0, app.block(block).kind) {
        Some(Site {
            form: Form::General,
            known: Known::Any,
        })
    } else {
        None
    }
}

/// The image of an application, of version 2, in which each site has the general form and nothing is known of its status.
pub fn general(alloc: Global, app: App) -> Result<Image, Memory>
    ensures version { IfOk result (λ i. i.version ≡ version.Two) }
    ensures app { IfOk result (λ i. i.app ≡ app) }
    ensures forms { IfOk result (λ i. AreGeneral i.sites) }
{
    let mut sites = Vec::new(alloc);
    for block in 0..app.blocks.len() {
        sites.push(general_site(&app, BlockNo(block as u16)))?;
    }
    Ok(Image {
        version: Version::Two,
        app,
        sites: Seq::of(sites),
    })
}
