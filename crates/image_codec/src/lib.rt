//! The bytes of images, of the format's versions 1 and 2.
#![tactic(auto)]

mod decoding;
mod encoding;
mod fault;
mod laws;
mod numbers;
mod parts;

pub use decoding::decode;
pub use encoding::encode;
pub use fault::{ImageError, ImageFault};
pub use image_fields::ImageRule;
pub use image_model::{
    AlreadyNew, Form, Image, Known, Site, Version, form, general, general_is_the_kernel, site_at,
    upgrade,
};
pub use laws::{first_fault_by_fields, one_answer, one_spelling};
