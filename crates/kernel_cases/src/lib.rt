//! Cases of the kernel, of images and of what lies outside, worked by hand: that the calls answer where memory is there,
//! which no clause says, and what rows of the profile come to.
#![tactic(auto)]

#[cfg(test)]
mod applications;
#[cfg(test)]
mod changed_images;
#[cfg(test)]
mod event_feeds;
#[cfg(test)]
mod files_of_the_system;
#[cfg(test)]
mod full_lines;
#[cfg(test)]
mod image_bytes;
#[cfg(test)]
mod kernel_runs;
#[cfg(test)]
mod lists;
#[cfg(test)]
mod machines;
#[cfg(test)]
mod points;
#[cfg(test)]
mod real_files;
#[cfg(test)]
mod shelves_and_sinks;
#[cfg(test)]
mod stored_images;
#[cfg(test)]
mod tied_tasks;
#[cfg(test)]
mod trace_lines;
#[cfg(test)]
mod version_2_bytes;
