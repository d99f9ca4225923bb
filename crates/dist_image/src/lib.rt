//! Images: what a distilled program tells the master, and the file format that holds it.
//!
//! An image has a task limit and a few tables. Nothing about an image is trusted: it need not fit any
//! program, and a machine that runs beside it gives the same result whatever it says.
//!
//! The format has two versions. Only in the second may tasks print, and may a load be taken to load one
//! value alone.
#![tactic(auto)]

mod entry;
mod error;
mod header;
mod image;
mod lookup;
mod reading;
mod writing;

pub use entry::KIND;
pub use error::{ImageErr, Table};
pub use image::{Anchor, Assumption, Image, Note, Slot, empty_image};
pub use lookup::{anchor_at, keyed, lists, prints_at, slot_of};
pub use reading::read_image;
pub use writing::write_image;
