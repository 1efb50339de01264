//! Images: an application with the form of each of its sites and what is known of its status, a step of an image, and its
//! trace.
#![tactic(auto)]

mod forms;
mod image;
mod laws;
mod site;
mod upgrading;

pub use forms::{form, general, site_at};
pub use image::{Image, Version};
pub use laws::{general_is_the_kernel, the_upgraded_runs_as_before};
pub use site::{Form, Known, Site, is_site, is_task_block, is_within, status_number};
pub use upgrading::{AlreadyNew, upgrade};
