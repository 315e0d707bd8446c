//! What was heard, and the closing of an epoch.
ghost use Rattle.std.specs.Prelude.{◌≡◌, ℕ, ◌<◌, ◌∷◌, [], ◌++◌, List, length, map, IfOk, OnErr, OnOk};
ghost use Rattle.std.specs.List.{All};
ghost use Rattle.std.specs.List.Sorted.{IsPermutation};
ghost use Rattle.semantics.specs.Denotation.{streams_of};
ghost use Rattle.semantics.specs.Histories.{Event};
ghost use Rattle.algebra.specs.SuitedQueries.{SuitInTurn};
ghost use Rattle.reference.specs.Closing.{AreResultsOfEach};
ghost use Rattle.reference.specs.Hearing.{HasHeard};
ghost use Rattle.reference.specs.Views.{PublishNext, placed, query_of};

use crate::publishing::{Batch, batch_of};
use crate::query::Query;
use algebra::Env;
use event_types::{List, Memory, Numbers, StreamId, Tuple};
use std::alloc::Global;
use std::marker::Model;
use steps::{Ledger, Steps};

/// The tuples that were heard on the declared streams, over which queries are evaluated afresh at the
/// end of each epoch.
#[derive(Drop)]
pub struct Evaluator {
    lists: Env,
}

impl Model for Evaluator {
    ghost use Rattle.std.specs.Prelude.{List};
    ghost use Rattle.event_types.specs.Tuple.{TupleView};

    ghost Value = { List (List TupleView) };

    ghost view = { λ e. e.lists };
}

impl Evaluator {
    /// An evaluator of so many declared streams, which has heard nothing.
    pub fn make(alloc: Global, declared: usize) -> Result<Evaluator, Memory>
        ensures { IfOk result (λ evaluator. HasHeard declared [] evaluator) }
    {
        let mut lists = List::new(alloc);
        for _ in 0..declared {
            lists.add(List::new(alloc))?;
        }
        Ok(Evaluator { lists })
    }

    /// Hears an event of a declared stream. Want of memory drops the event.
    pub fn note_tuple(&mut self, stream: StreamId, tuple: Tuple) -> Result<(), Memory>
        requires { stream < length self.old }
        ensures ok { OnOk result ((declared : ℕ) (history : List Event) → HasHeard declared history self.old → HasHeard declared (history ++ record { stream = stream; tuple = tuple } ∷ []) self.new) }
        ensures kept { OnErr result (self.new ≡ self.old) }
        ensures as_many { length self.new ≡ length self.old }
    {
        self.lists.get_mut(stream).add(tuple)?;
        Ok(())
    }

    /// The results of the epoch of a time, the last that was heard: a list for each query, in the
    /// order of the queries.
    ///
    /// The order of work has the place of each query, counted from 0. What the queries publish is
    /// dropped.
    pub fn close<L: Ledger>(
        &mut self,
        alloc: Global,
        queries: &[Query<'_>],
        order: &Numbers,
        time: u64,
        steps: &mut Steps<L>,
    ) -> Result<Batch, Memory>
        requires places { All (λ place. place < length queries.now) order.now }
        requires same_queries { IsPermutation (map query_of queries.now) (placed queries.now order.now) }
        requires next { PublishNext (length self.old) (placed queries.now order.now) }
        requires suited { SuitInTurn (streams_of self.old) (placed queries.now order.now) }
        ensures value { IfOk result (AreResultsOfEach queries.now order.now time self.old) }
        ensures kept { self.new ≡ self.old }
    {
        let declared = self.lists.len();
        let batch = batch_of(
            alloc,
            &mut self.lists,
            queries,
            order.as_slice(),
            time,
            steps,
        );
        self.lists.truncate(declared);
        batch
    }
}
