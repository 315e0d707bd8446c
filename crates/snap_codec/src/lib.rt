//! Snapshots of a run, and their bytes.
//!
//! Contracts see a `Blob` as the list of its bytes. `encode` gives the bytes of an image, and `decode` gives the
//! image that bytes are those of, or the first fault from left to right.
#![tactic(auto)]

mod blob;
mod fault;
mod fields;
mod image;
mod lists;
mod ordering;
mod reading;
mod stored;
mod values;
mod writing;

pub use blob::Blob;
pub use fault::SnapFault;
pub use image::{Image, Item, Items, Open, Opens, Stores, Times};
pub use reading::decode;
pub use writing::encode;
