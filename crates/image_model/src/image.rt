//! Images.
ghost use Rattle.image_model.specs.{Sites.{AreSites, AreSites-prop}, Versions.{FitsAlone, FitsAlone-prop}};

use crate::site::Site;
use osek_standard::App;
use osek_values::Seq;

/// The versions of the image format.
#[derive(Clone, Copy)]
pub enum Version {
    /// It has no place for known statuses, further activations, INTERNAL resources, and priorities and resources of ISRs, and
    /// wants distinct priorities of tasks.
    One,
    /// It has a place for each of these, and tasks may share a priority.
    Two,
}

/// An application and its sites, of a version of the format. There are as many sites as blocks: one for each block that
/// is a site, and `None` for each other.
#[derive(Drop)]
pub struct Image {
    pub version: Version,
    pub app: App,
    pub sites: Seq<Option<Site>>,
    pub ghost its_version: { FitsAlone version app sites } by { FitsAlone-prop version app sites },
    pub ghost valid: { AreSites app sites } by { AreSites-prop app sites },
}
