//! Why bytes are no image.
use image_fields::ImageRule;
use osek_values::Refused;
use thiserror::Error;

/// The first fault of the bytes: the rule, and the offset of the field's first byte.
#[derive(Clone, Copy, Debug, Error)]
#[error("{offset}: {rule:?}")]
pub struct ImageFault {
    pub rule: ImageRule,
    pub offset: usize,
}

/// Why no image was read.
pub type ImageError = Refused<ImageFault>;
