//! The parts of an image while it is read.
use image_fields::Tables;
use image_model::{Site, Version};
use osek_standard::Block;
use osek_values::{HookSet, Seq};

/// All that an image's bytes hold.
#[derive(Drop)]
pub(crate) struct Parts {
    pub version: Version,
    pub hooks: HookSet,
    pub tables: Tables,
    pub blocks: Seq<Block>,
    pub sites: Seq<Option<Site>>,
}
