//! The order of the queries of a file.
ghost use Rattle.std.specs.Prelude.{◌≡◌, ◌<◌, [], IfErr, IfOk, OnOk, length, map, slice_index_or};
ghost use Rattle.std.specs.List.{All};
ghost use Rattle.cel_grammar.specs.Views.{statement_of};
ghost use Rattle.resubscribe.specs.Order.{IsOrder};
ghost use Rattle.stream_schema.specs.Streams.{AreThere, stream_names};
ghost use Rattle.catalogue.specs.Arranging.{AreSound, FailInNames, HaveCycle};
ghost use Rattle.catalogue.specs.First.{HaveNone};
ghost use Rattle.catalogue.specs.Naming.{name_fault_at};
ghost use Rattle.catalogue.specs.Reading.{reads_in};
ghost use Rattle.catalogue.specs.Tables.{AreNamed};
ghost use Rattle.catalogue.specs.Telling.{AreOfCycle, Tells, TellsCycle};

use crate::fault::LoadFault;
use crate::naming::{Named, name_all};
use crate::reading::read_all;
use cel_parser::File;
use event_types::{List, Memory, Names, Numbers, Text};
use resubscribe::{OrderFault, Reads, order};
use std::alloc::Global;
use stream_schema::Streams;

// The order in which the queries of a file are worked on, by their numbers; a query's number is its place
// among the queries of the file, from 0. Else the first fault of a name, or the names of a cycle.
pub(crate) fn arrange(alloc: Global, file: &File) -> Result<Numbers, LoadFault>
    ensures ok { IfOk result (IsOrder (reads_in (map statement_of file.now.statements))) }
    ensures sound { OnOk result (AreSound (map statement_of file.now.statements)) }
    ensures err { IfErr result (Tells (FailInNames (map statement_of file.now.statements) file.now.lines) (HaveCycle (map statement_of file.now.statements))) }
{
    let named = name_all(alloc, file)?;
    arrange_named(alloc, file, &named)
}

// The same, where no statement's own name has a fault.
fn arrange_named(alloc: Global, file: &File, named: &Named) -> Result<Numbers, LoadFault>
    requires named { AreNamed (map statement_of file.now.statements) named.now }
    requires none { HaveNone (name_fault_at (map statement_of file.now.statements)) (length file.now.statements) }
    requires there { AreThere named.now.queries }
    ensures ok { IfOk result (IsOrder (reads_in (map statement_of file.now.statements))) }
    ensures sound { OnOk result (AreSound (map statement_of file.now.statements)) }
    ensures err { IfErr result (Tells (FailInNames (map statement_of file.now.statements) file.now.lines) (HaveCycle (map statement_of file.now.statements))) }
{
    let reads = read_all(alloc, file, named)?;
    order_of(alloc, &named.queries, &reads)
}

// The order of queries that read one another so, or the names of their cycle.
fn order_of(alloc: Global, queries: &Streams, reads: &Reads) -> Result<Numbers, LoadFault>
    requires small { All (λ numbers. All (λ number. number < length reads.now) numbers) reads.now }
    requires as_many { length reads.now ≡ length queries.now }
    requires there { AreThere queries.now }
    ensures ok { IfOk result (IsOrder reads.now) }
    ensures err { IfErr result (TellsCycle (AreOfCycle reads.now (stream_names queries.now))) }
{
    match order(alloc, reads) {
        Ok(numbers) => Ok(numbers),
        Err(OrderFault::Cycle(cycle)) => {
            let names = names_of(alloc, queries, cycle.as_slice())?;
            Err(LoadFault::Cycle(names))
        }
        Err(OrderFault::Memory) => Err(LoadFault::Memory),
    }
}

// The names of queries with these numbers.
fn names_of(alloc: Global, queries: &Streams, numbers: &[usize]) -> Result<Names, Memory>
    requires within { All (λ number. number < length queries.now) numbers.now }
    requires there { AreThere queries.now }
    ensures { IfOk result (λ names. names ≡ map (λ number. slice_index_or (stream_names queries.now) number []) numbers.now) }
{
    let mut names: Names = List::new(alloc);
    for number in numbers {
        let name = Text::make(alloc, queries.name(*number))?;
        names.add(name)?;
    }
    Ok(names)
}
