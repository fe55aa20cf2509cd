//! The report of an image: a text from which the image, its map and its bounds can be read back. And images read from
//! text and written as text, a word a line.
#![tactic(auto)]

mod law;
mod locations;
mod names;
mod reading;
mod writing;

pub use law::report_determines_image;
pub use reading::{ImageEnd, read_image};
pub use writing::{put_words, report};
