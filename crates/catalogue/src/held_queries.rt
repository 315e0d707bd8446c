//! The queries of a catalogue, in the order of work.
ghost use Rattle.std.specs.Prelude.{◌≡◌, ◌-◌, Some, IfOk, OnErr, OnOk, length, slice_get};
ghost use Rattle.catalogue.specs.HeldParts.{first_queries, with_last};

use crate::numbering::Published;
use event_types::{List, Memory};
use expressions::Expr;
use long_lists::LongList;
use std::alloc::Global;
use work_order::WorkOrder;

/// The numbers of queries in the order of work, and in this order what the queries publish, and their expressions.
pub struct HeldQueries {
    pub order: WorkOrder,
    pub published: LongList<Published>,
    pub expressions: LongList<Expr>,
}

// As of a catalogue.
impl Drop for HeldQueries {
    fn drop(self) {
        let HeldQueries {
            order: _order,
            published: _published,
            expressions: _expressions,
        } = self;
    }
}

impl HeldQueries {
    /// Queries of which these are the numbers, publications and expressions. Want of memory drops them.
    pub fn of(
        alloc: Global,
        order: WorkOrder,
        published: List<Published>,
        expressions: List<Expr>,
    ) -> Result<HeldQueries, Memory>
        ensures { IfOk result (λ held. held ≡ record { order = order; published = published; expressions = expressions }) }
    {
        let published = LongList::of(alloc, published)?;
        let expressions = LongList::of(alloc, expressions)?;
        Ok(HeldQueries {
            order,
            published,
            expressions,
        })
    }

    /// Puts a query last in number and in the order of work.
    pub fn put(&mut self, publication: Published, expr: Expr) -> Result<(), Memory>
        ensures ok { OnOk result (self.new ≡ with_last self.old publication expr) }
        ensures kept { OnErr result (self.new ≡ self.old) }
    {
        self.order.add()?;
        let many = self.published.len();
        if let Err(_) = self.published.add(publication) {
            self.order.pop();
            return Err(Memory);
        }
        if let Err(_) = self.expressions.add(expr) {
            self.order.pop();
            self.published.truncate(many);
            return Err(Memory);
        }
        Ok(())
    }

    /// Takes the last query out again, which has the greatest number. Takes no memory.
    pub fn take_back(&mut self)
        requires { slice_get self.old.order (length self.old.order - 1) ≡ Some (length self.old.order - 1) }
        ensures { self.new ≡ first_queries self.old (length self.old.order - 1) }
    {
        let last = self.order.len() - 1;
        self.order.pop();
        self.published.truncate(last);
        self.expressions.truncate(last);
    }
}
