//! Sessions.
ghost use Rattle.std.specs.Prelude.{◌≡◌, ℕ, [], List, None, false, true, IfErr, IfOk, OnErr, OnOk, take};
ghost use Rattle.semantics.specs.Histories.{Event};
ghost use Rattle.splitter.specs.Chains.{lines_of};
ghost use Rattle.cay_host.specs.Calls.{FailedLast};
ghost use Rattle.cay_host.specs.Output.{SameButOutput};
ghost use Rattle.prefix_merge.specs.Counts.{CountsPlain, CountsStates};
ghost use Rattle.epoch_engine.specs.EngineStandsFor as engines;
ghost use Rattle.catalogue.specs.Catalogued as catalogues;
ghost use Rattle.catalogue.specs.Coming.{IsLatest};
ghost use Rattle.catalogue.specs.Loaded.{IsUnchanged};
ghost use Rattle.catalogue.specs.Standing.{IsLayoutOver};
ghost use Rattle.change_laws.specs.AtOne.{AreAtOne};
ghost use Rattle.courses.specs.Course.{Course};
ghost use Rattle.courses.specs.QuerySet.{QuerySet, set_in};
ghost use Rattle.session.specs.Feeds.{BlamesWriting, BreaksAtPiece, failed_in, HearsEnd, HearsPiece};
ghost use Rattle.session.specs.RunWork.{FinishesWithin, FeedsWithin};
ghost use Rattle.session.specs.SessionView.{CountsWaiting, SessionStandsFor, StandsForPast, TrimsEngine, WorksFor, program_in};
ghost use Rattle.session.specs.Standing.{lines_over};

use crate::counting::{hops_of, root_states};
use crate::fault::SessionFault;
use crate::fronts::Fronts;
use crate::lines::{work_on_lines, work_on_rest};
use crate::work::Work;
use catalogue::Catalogue;
use cay_host::{Host, Ledger, Steps};
use epoch_engine::Engine;
use event_csv::Feed;
use event_types::Memory;
use prefix_merge::Merged;
use result_text::{Rows, Tails};
use std::alloc::Global;
use std::marker::Model;

/// The work of queries on one event text, which may come behind events that the engine has heard: the
/// text is fed piece by piece, and the rows of each epoch are written once a later event, a control line
/// or the end of the text has closed it. A control line adds a query or drops one between epochs.
pub struct Session {
    catalogue: Catalogue,
    work: Work,
    limit: u64,
    feed: Feed,
    fed: u64,
    ended: bool,
}

// A caller that lets a session go makes one call, where a derive would take each part apart at each place.
impl Drop for Session {
    fn drop(self) {
        let Session {
            catalogue: _catalogue,
            work: _work,
            limit: _,
            feed: _feed,
            fed: _,
            ended: _,
        } = self;
    }
}

impl Model for Session {
    ghost use Rattle.session.specs.SessionCode.{session_code};
    ghost use Rattle.session.specs.SessionView.{SessionView};

    ghost Value = { SessionView };

    ghost coded = { session_code };

    ghost view = { λ s. record { catalogue = s.catalogue; engine = s.work.engine; limit = s.limit; feed = s.feed; fed = s.fed; ended = s.ended } };

    ghost use Rattle.std.specs.Prelude.{◌≡◌, false};
    ghost use Rattle.session.specs.Standing.{IsGoing};

    ghost invariant = { λ s. s.ended ≡ false → IsGoing s.catalogue s.limit s.feed s.fed s.work };
}

impl Session {
    /// A session of these queries, which takes at most so many bytes of an event text. Want of memory
    /// drops the catalogue.
    pub fn make(alloc: Global, catalogue: Catalogue, limit: u64) -> Result<Session, Memory>
        requires { IsUnchanged catalogue }
        ensures queries { IfOk result (λ session. session.catalogue ≡ catalogue) }
        ensures limit { IfOk result (λ session. session.limit ≡ limit) }
        ensures stands { IfOk result (λ session. SessionStandsFor session (set_in catalogue) [] []) }
    {
        let engine = engine_of(alloc, &catalogue)?;
        Ok(Session::over(alloc, catalogue, engine, limit))
    }

    /// Goes on with an engine that may have been offered events before, whenever the queries came. Takes no
    /// memory.
    pub fn over(alloc: Global, catalogue: Catalogue, engine: Engine, limit: u64) -> Session
        requires at_one { AreAtOne catalogue engine }
        requires born { IsLatest engine.closed_time catalogue }
        ensures queries { result.catalogue ≡ catalogue }
        ensures limit { result.limit ≡ limit }
        ensures engine { result.engine ≡ engine }
        ensures going { result.ended ≡ false }
        ensures stands { StandsForPast catalogue engine result }
    {
        // The queries of a catalogue stand in order.
        let _queries = catalogue.queries();
        let born = engine.last_closed();
        Session {
            catalogue,
            work: Work {
                engine,
                rows: Rows::new(alloc),
                tails: Tails::new(alloc),
                fronts: Fronts::new(alloc),
                near: 0,
                born,
            },
            limit,
            feed: Feed::new(alloc),
            fed: 0,
            ended: false,
        }
    }

    /// Whether the session has ended: a fault was answered, or its event text has ended.
    pub fn ended(&self) -> bool
        ensures { result ≡ self.now.ended }
    {
        self.ended
    }

    /// The number of states of the merged network of the queries. Takes no memory.
    pub fn states(&self) -> usize
        ensures counted { (history : List Event) → WorksFor self.now history → CountsStates (lines_of (program_in self.now)) result }
    {
        self.work.engine.network().states()
    }

    /// The number of states that the queries would have if their lines shared no waiting state. Takes no
    /// memory.
    pub fn plain_states(&self) -> usize
        ensures counted { (history : List Event) → WorksFor self.now history → CountsPlain (lines_of (program_in self.now)) result }
    {
        root_states(self.work.engine.network()).saturating_add(hops_of(self.catalogue.lines()))
    }

    /// The number of bindings that wait after the closed epochs and that a later event can still match, as far
    /// as the bounds on DUR tell, or 2^64-1 where there are more. Takes the other bindings out of the stores,
    /// and no memory.
    pub fn live(&mut self) -> u64
        ensures counted { CountsWaiting self.old result }
        ensures trimmed { TrimsEngine self.old self.new }
        ensures works { (history : List Event) → WorksFor self.old history → WorksFor self.new history }
        ensures stands { (set : QuerySet) (past : Course) (text : List ℕ) → SessionStandsFor self.old set past text → SessionStandsFor self.new set past text }
    {
        self.work.engine.trim();
        self.work.engine.live()
    }

    /// Hears more bytes of the event text, and writes the rows of the epochs that they close. Any fault
    /// ends the session.
    pub fn feed<H: Host, L: Ledger>(
        &mut self,
        alloc: Global,
        host: &mut H,
        piece: &[u8],
        steps: &mut Steps<L>,
    ) -> Result<(), SessionFault>
        requires { self.old.ended ≡ false }
        ensures fed { OnOk result (HearsPiece self.old self.new piece.now (H.told host.old) (H.told host.new)) }
        ensures broken { IfErr result (BreaksAtPiece self.old piece.now (H.told host.old) (H.told host.new)) }
        ensures going { OnOk result (self.new.ended ≡ false) }
        ensures ended { OnErr result (self.new.ended ≡ true) }
        ensures limit { self.new.limit ≡ self.old.limit }
        ensures quiet { BlamesWriting result (H.told host.old) (H.told host.new) }
        ensures last { FailedLast (failed_in result) (H.told host.old) (H.told host.new) }
        ensures same { SameButOutput (H.told host.old) (H.told host.new) }
        ensures tests { FeedsWithin self.old piece.now steps.old steps.new }
    {
        self.ended = true;
        let within = front_of(piece, self.limit - self.fed);
        if self.feed.push(within).is_err() {
            return Err(SessionFault::Memory);
        }
        work_on_lines(
            alloc,
            host,
            &mut self.catalogue,
            &mut self.feed,
            &mut self.work,
            steps,
        )?;
        if within.len() < piece.len() {
            return Err(SessionFault::TooMuch { limit: self.limit });
        }
        self.fed += within.len() as u64;
        self.ended = false;
        Ok(())
    }

    /// Ends the event text, whose last line may lack its LF. Where no line is refused, the last epoch is
    /// closed, and its rows are written. The session ends, whatever the answer.
    pub fn finish<H: Host, L: Ledger>(
        &mut self,
        alloc: Global,
        host: &mut H,
        steps: &mut Steps<L>,
    ) -> Result<(), SessionFault>
        requires { self.old.ended ≡ false }
        ensures finished { HearsEnd self.old self.new (H.told host.old) (H.told host.new) result }
        ensures ended { self.new.ended ≡ true }
        ensures limit { self.new.limit ≡ self.old.limit }
        ensures quiet { BlamesWriting result (H.told host.old) (H.told host.new) }
        ensures last { FailedLast (failed_in result) (H.told host.old) (H.told host.new) }
        ensures same { SameButOutput (H.told host.old) (H.told host.new) }
        ensures tests { FinishesWithin self.old steps.old steps.new }
    {
        self.ended = true;
        work_on_rest(
            alloc,
            host,
            &mut self.catalogue,
            &self.feed,
            &mut self.work,
            steps,
        )
    }
}

/// An engine over the merged network of the queries, which has heard nothing.
pub(crate) fn engine_of(alloc: Global, catalogue: &Catalogue) -> Result<Engine, Memory>
    requires { IsUnchanged catalogue.now }
    ensures at_one { IfOk result (AreAtOne catalogue.now) }
    ensures none_closed { IfOk result (λ engine. engine.closed_time ≡ None) }
    ensures none_open { IfOk result (λ engine. engine.time ≡ None) }
    ensures laid { IfOk result (λ engine. IsLayoutOver catalogue.now.streams (catalogues.program_in catalogue.now) engine.layout) }
    ensures stands { IfOk result (λ engine. engines.EngineStandsFor engine (lines_over catalogue.now) []) }
{
    // The queries of a catalogue stand in order.
    let _queries = catalogue.queries();
    let merged = Merged::of(alloc, catalogue.lines())?;
    let layout = catalogue.layout().copy(alloc)?;
    Engine::make(alloc, merged, layout)
}

// The first so many bytes, or all.
fn front_of(bytes: &[u8], many: u64) -> &[u8]
    ensures { result.now ≡ take many bytes.now }
{
    if (bytes.len() as u64) < many {
        bytes
    } else {
        &bytes[..many as usize]
    }
}
