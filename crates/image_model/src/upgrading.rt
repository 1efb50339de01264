//! From version 1 of the format to version 2.
ghost use Rattle.std.specs.Prelude.{OnOk, OnErr};
ghost use Rattle.image_model.specs.Upgrades.{IsUpgraded, IsNew};

use crate::image::{Image, Version};
use std::error::Error;
use std::fmt;

/// The image is of version 2 already.
#[derive(Clone, Copy, PartialEq, Eq, Debug)]
pub struct AlreadyNew;

impl fmt::Display for AlreadyNew {
    fn fmt<W: fmt::Write>(&self, f: &mut fmt::Formatter<W>) -> fmt::Result {
        write!(f, "version 2")
    }
}

impl Error for AlreadyNew {}

/// Makes an image of version 1 one of version 2, which knows no more. It takes no memory.
pub fn upgrade(image: &mut Image) -> Result<(), AlreadyNew>
    ensures upgraded { OnOk result (IsUpgraded image.old image.new) }
    ensures already { OnErr result (IsNew image.old image.new) }
{
    match image.version {
        Version::One => {
            image.version = Version::Two;
            Ok(())
        }
        Version::Two => Err(AlreadyNew),
    }
}
