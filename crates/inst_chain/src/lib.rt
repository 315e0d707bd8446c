//! Chains whose beads are made ahead of time, so that linking them takes no memory.
//!
//! Contracts see a `Bead` as its value, a `Chain` as the list of its values from the front, a `Look`
//! as the list of the values that it has still to give, and a `Walk` as the values that it passed
//! and its chain, which is the list of the values from where it stands.
//!
//! A chain is doubly linked, and keeps both ends. Each bead is a box that leads on to the next one and
//! back to the one before it. A walk is two chains, the beads that it passed and those ahead, so a bead
//! comes and goes at an end alone: `link`, `append`, `unlink` and the end of a walk touch at most two
//! beads, and `step` three. Nothing reads the way back yet. It is kept so that a bead in the middle can
//! be taken out by its place.
//!
//! A link is the pointer to a neighbour's box, and null where there is no neighbour, so the two links of a
//! bead take 16 bytes. A chain takes its boxes from the heap alone, where a box starts a block. Hence no
//! box lies at null, and each link may be compared with null: `pop` and `read` ask `NonNull::new`.
//!
//! A chain's boxes belong to a `Held`, which takes no space. While it is there, each of its boxes lies
//! where its contracts say and has a value, and no one else reads, writes or frees it. How the boxes lead to one
//! another is a fact of lists, which the safe code of `run` keeps. The functions with a pointer are
//! proved by hand. They are few, and this is why each is sound:
//!
//! - `lodge` takes a box apart, and the `Held` owns what the box did.
//! - `unlodge` makes a box of a pointer. The first box that the `Held` owns lies there, is of that type and
//!   is freed by that handle. The `Held` that comes back has all the others, so the box is freed once.
//! - `show_start` reads and writes nothing, and gives the `Held` back as it was. That has the right to free
//!   its first box, and the heap frees by the pointer to the start of a block alone.
//! - `end` lets a `Held` go that has no box left, so no box is lost.
//! - `lead_on` writes into the last box of a `Held` that it was given by value, so no one reads or writes it
//!   meanwhile. What both owned goes to the one that comes back.
//! - `lead_back` writes into the first box of a `Held` in the same way.
//! - `see` makes of a borrow of a `Held` a `Seen`. While the borrow lasts, no box is written, moved or
//!   freed.
//! - `first` reads the first box of a `Seen`, by a reference that lives no longer than that borrow.
#![tactic(auto)]

mod bead;
mod boxes;
mod chain;
mod look;
mod node;
mod run;
mod seen;
mod sight;
mod walk;

pub use bead::Bead;
pub use chain::Chain;
pub use look::Look;
pub use walk::{Passed, Walk, WalkOn, Walked};
