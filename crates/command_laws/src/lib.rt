//! Laws over commands and the images that they make and read, which no proof below needs. Each stands on a function that does
//! nothing.
#![tactic(auto)]

pub mod answers;
pub mod images;
