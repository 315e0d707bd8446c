//! Scalars, predicates and projections over an event and a binding, and what they mean there.
//!
//! Contracts see a `Scalar` and a `Pred` as terms (`sc_of`, `pr_of`), a `Conj` as the list of its parts
//! as terms, which ascend in the canonical order, a `Part` as its class (`class_of_part`), and a `Map` as its
//! width and its scalars as terms.
#![tactic(auto)]

mod alike;
mod arithmetic;
mod canonical;
mod conjunction;
mod copying;
mod following;
mod hashing;
mod kinding;
mod laws;
mod ordering;
mod part;
mod predicate;
mod projection;
mod scalar;
mod truth;
mod valuation;
mod values;

pub use alike::{KeyPlaces, can_follow_alike};
pub use canonical::normal;
pub use conjunction::Conj;
pub use event_types::Cmp;
pub use following::{can_follow, join, rebind};
pub use kinding::{alike_kind, kind_of, product_kind};
pub use laws::{
    canonical_form_keeps_truth, nexts_of_a_bag, nexts_start_later, parts_keep_truth, runs_end,
    same_parts_have_one_form, typed_has_its_kind,
};
pub use part::Part;
pub use predicate::Pred;
pub use projection::{Map, apply, evaluate};
pub use scalar::{Scalar, Scalars};
pub use truth::{compares, holds};
pub use valuation::value_of;
