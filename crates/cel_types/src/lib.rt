//! Types of statements: the schema of a declaration, and the schema and the expression of a query.
#![tactic(auto)]

mod aggregates;
mod attributes;
mod conditions;
mod declaring;
mod elaborating;
mod fault;
mod items;
mod laws;
mod reading;
mod scalars;
mod scope;
mod source_laws;
mod sources;
mod unions;

pub use declaring::declare;
pub use elaborating::elaborate;
pub use fault::TypeFault;
pub use laws::{
    declaration_has_one_schema, predicate_has_one_type, scalar_has_one_type, terms_are_typed,
};
pub use reading::names_read;
pub use source_laws::{queries_are_typed, query_has_one_type};
