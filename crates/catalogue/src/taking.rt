//! Queries that come to a catalogue.
ghost use Rattle.std.specs.Prelude.{◌≡◌, IfErr, IfOk, OnErr, OnOk};
ghost use Rattle.catalogue.specs.Adding.{JudgesAdded, NotTaken, Taken};
ghost use Rattle.catalogue.specs.Coming.{HasCome, IsAdded, IsLatest, IsTold, TellsAdded, coming};
ghost use Rattle.catalogue.specs.Fitting.{MayTell};
ghost use Rattle.catalogue.specs.Standing.{StandsInOrder};
ghost use Rattle.catalogue.specs.Taking.{IsFit, added_of};

use crate::accepted::Catalogue;
use crate::adding::{Added, Coming, as_added, judge};
use crate::fault::AddFault;
use crate::growing::{lines_of_one, numbers_from, publish, size_of};
use crate::numbering::Published;
use crate::statements::name;
use event_types::Memory;
use std::alloc::Global;

// The most lines of a query, with the hops on them.
const MOST_OF_ONE: usize = 1_048_576;

impl Catalogue {
    /// Brings the query of a text, which is the last one then and reads what is detected after `since`. Else the first fault
    /// of the text: of its length, its tokens, its statement, its name, the names that it reads, or its types.
    pub fn add(&mut self, alloc: Global, text: &[u8], since: Option<u64>) -> Result<Added, AddFault>
        requires { IsLatest since self.old }
        ensures ok { IfOk result (IsAdded text.now since self.old self.new) }
        ensures bad { IfErr result (TellsAdded (λ line why. JudgesAdded self.old.streams text.now (NotTaken line why))) }
        ensures kept { OnErr result (self.new ≡ self.old) }
    {
        let query = self.judge(alloc, text)?;
        let added = self.take(alloc, query, since)?;
        Ok(added)
    }

    /// The query of a text, which may be taken as long as no query comes or leaves; or the first fault of the text, as `add`
    /// tells it.
    pub fn judge(&self, alloc: Global, text: &[u8]) -> Result<Coming, AddFault>
        ensures taken { IfOk result (λ query. JudgesAdded self.now.streams text.now (Taken (added_of query))) }
        ensures fit { IfOk result (λ query. IsFit self.now.streams (added_of query)) }
        ensures bad { IfErr result (TellsAdded (λ line why. JudgesAdded self.now.streams text.now (NotTaken line why))) }
    {
        match judge(alloc, &self.streams, text) {
            Ok(query) => Ok(query),
            Err(fault) => Err(as_added(fault)),
        }
    }

    /// Puts a judged query behind those that are there, of which it is the last one then and reads what is detected
    /// after `since`. Want of memory drops the query.
    pub fn take(
        &mut self,
        alloc: Global,
        query: Coming,
        since: Option<u64>,
    ) -> Result<Added, Memory>
        requires fit { IsFit self.old.streams (added_of query) }
        requires born { IsLatest since self.old }
        ensures come { OnOk result (HasCome self.old (added_of query) since self.new) }
        ensures told { IfOk result (IsTold self.old (coming self.old (added_of query) since) self.new) }
        ensures stands { OnOk result (StandsInOrder self.new) }
        ensures kept { OnErr result (self.new ≡ self.old) }
    {
        let told = self.told(alloc, &query)?;
        let statement = query.statement;
        let schema = query.schema;
        let before = self.chains.sizes();
        let queries = self.work.order.len();
        let stream = before.sizes.all;
        let hidden = told.growth.kinds.len() - 1;
        let publication = Published {
            stream,
            hidden: stream + 1,
            birth: since,
        };
        self.chains.put(alloc, &told)?;
        if let Err(_) = self.work.put(publication, query.expr) {
            self.chains.take_back(before);
            return Err(Memory);
        }
        let published = publish(
            &mut self.streams,
            &mut self.reads,
            self.work.expressions.get(queries),
            name(&statement),
            schema,
            hidden,
        );
        if let Err(_) = published {
            self.chains.take_back(before);
            self.work.take_back();
            return Err(Memory);
        }
        self.next_end += told.lines.len();
        self.size += size_of(told.lines.as_slice());
        Ok(told)
    }

    // What is told of a typed query that comes; its streams are laid out and taken back.
    fn told(&mut self, alloc: Global, query: &Coming) -> Result<Added, Memory>
        requires { IsFit self.old.streams (added_of query.now) }
        ensures told { IfOk result (MayTell self.old (added_of query.now)) }
        ensures same { self.new ≡ self.old }
    {
        if self.size > usize::MAX - MOST_OF_ONE {
            return Err(Memory);
        }
        let lined = lines_of_one(alloc, &mut self.chains.layout, &query.schema, &query.expr)?;
        let many = lined.lines.len();
        if self.next_end > usize::MAX - many {
            return Err(Memory);
        }
        let ends = numbers_from(alloc, self.next_end, many)?;
        Ok(Added {
            query: self.work.order.len(),
            lines: lined.lines,
            ends,
            growth: lined.growth,
        })
    }
}
