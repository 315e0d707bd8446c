//! The results of all queries, in order.
ghost use Rattle.std.specs.Prelude.{◌≡◌, ◌++◌, IfOk, IsPermutation, OnOk, map};
ghost use Rattle.explanation.specs.Explained.{result_of, results_from, results_in_order};

use crate::ordering::put_results_in_order;
use derivations::{Derived, Deriveds, Table};
use event_types::{List, Memory};
use std::alloc::Global;

/// A result: the number of its query, and the tuple with its derivation.
#[derive(Drop)]
pub struct Explained {
    pub query: usize,
    pub derived: Derived,
}

/// Results one after another.
pub type Results = List<Explained>;

/// The results of all queries, in order: by detection, then by their queries, then by the tuple and its derivation.
pub(crate) fn in_order(alloc: Global, mut table: Table) -> Result<Results, Memory>
    ensures { IfOk result (λ results. results ≡ results_in_order table) }
{
    let mut results = List::new(alloc);
    'queries: while let Some(found) = table.pop() {
        move_results(table.len(), found, &mut results)?;
    }
    put_results_in_order(&mut results);
    Ok(results)
}

// Moves what was found for a query behind the results.
fn move_results(query: usize, mut found: Deriveds, results: &mut Results) -> Result<(), Memory>
    ensures { OnOk result (IsPermutation (map (result_of query) found ++ results.old) results.new) }
{
    'tuples: while let Some(derived) = found.pop() {
        results.add(Explained { query, derived })?;
    }
    Ok(())
}
