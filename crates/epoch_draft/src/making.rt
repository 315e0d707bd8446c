//! The tuples of an epoch, stream by stream.
ghost use Rattle.std.specs.Prelude.{◌≡◌, ◌+◌, ◌<◌, ◌≤◌, [], Contains, OnOk, length, slice_index_or};
ghost use Rattle.std.specs.List.{All};
ghost use Rattle.semantics.specs.Denotation.{streams_of};
ghost use Rattle.epoch_draft.specs.Deriving.{AreOpened, CanDraw, Derives, DrawnUpTo};
ghost use Rattle.epoch_draft.specs.Agenda.{AreTurns};
ghost use Rattle.epoch_draft.specs.Drafts.{Grows, IsDraftOf};
ghost use Rattle.epoch_draft.specs.Drawings.{IsStill};
ghost use Rattle.epoch_draft.specs.Held.{held};
ghost use Rattle.epoch_draft.specs.StoredNetworks.{CanRead, IsStoredNetwork};
ghost use Rattle.epoch_draft.specs.Meeting.{ListsAll, moves_of_all};
ghost use Rattle.epoch_draft.specs.Readying.{HaveKeys};
ghost use Rattle.epoch_draft.specs.Suits.{TupleSuits};
ghost use Rattle.epoch_draft.specs.EpochWork.{HeardTakesNoMore, TakesNoMore, derived_work, draw_work};
ghost use Rattle.epoch_draft.specs.Tests.{stream_work, streams_work};

use crate::agenda::plan;
use crate::draft::Lists;
use crate::drawing::Drawing;
use crate::meeting::meet_stream;
use crate::stored_network::StoredNetwork;
use event_types::{Memory, StreamId, Tuple};
use steps::{Ledger, Steps};

/// Makes all that comes of the open tuples of an epoch. Nothing but the drawing is changed, and after want of
/// memory it is of no more use.
pub fn draw<L: Ledger>(
    stored: &StoredNetwork<'_>,
    opened: &Lists,
    touched: &[usize],
    drawing: &mut Drawing,
    steps: &mut Steps<L>,
) -> Result<(), Memory>
    requires can_draw { CanDraw stored.now.network.now stored.now.layout.now stored.now.stores.now opened.now }
    requires can_read { CanRead stored.now }
    requires touched { AreOpened opened.now touched.now }
    requires still { IsStill (length stored.now.layout.now.kinds) (length stored.now.network.now) drawing.old }
    ensures drawn { OnOk result (DrawnUpTo stored.now.network.now stored.now.layout.now stored.now.stores.now opened.now stored.now.layout.now.order drawing.new.draft drawing.new.pairs) }
    ensures keys { OnOk result (HaveKeys stored.now.stores.now drawing.new.draft.beads) }
    ensures takes { OnOk result (TakesNoMore stored.now.network.now stored.now.layout.now stored.now.stores.now opened.now drawing.new.draft.made drawing.new.pairs) }
    ensures ticks { steps.new ≤ steps.old + draw_work stored.now.network.now stored.now.layout.now (held stored.now.stores.now) (streams_of opened.now) }
{
    meet_opened(stored, opened, touched, drawing, steps)?;
    derive(stored, opened, drawing, steps)
}

// Makes what comes of the open tuples themselves.
fn meet_opened<L: Ledger>(
    stored: &StoredNetwork<'_>,
    opened: &Lists,
    touched: &[usize],
    drawing: &mut Drawing,
    steps: &mut Steps<L>,
) -> Result<(), Memory>
    requires can_draw { CanDraw stored.now.network.now stored.now.layout.now stored.now.stores.now opened.now }
    requires can_read { CanRead stored.now }
    requires touched { AreOpened opened.now touched.now }
    requires still { IsStill (length stored.now.layout.now.kinds) (length stored.now.network.now) drawing.old }
    ensures drawn { OnOk result (DrawnUpTo stored.now.network.now stored.now.layout.now stored.now.stores.now opened.now [] drawing.new.draft drawing.new.pairs) }
    ensures takes { OnOk result (HeardTakesNoMore stored.now.network.now stored.now.layout.now stored.now.stores.now opened.now drawing.new.draft.made drawing.new.pairs) }
    ensures due { OnOk result (All (Contains stored.now.layout.now.order) drawing.new.draft.due.numbers) }
    ensures agenda { drawing.new.agenda.entries ≡ drawing.old.agenda.entries }
    ensures ticks { steps.new ≤ steps.old + streams_work stored.now.network.now (held stored.now.stores.now) opened.now touched.now }
{
    for stream in touched {
        meet_read(
            stored,
            drawing,
            *stream,
            opened.get(*stream).as_slice(),
            steps,
        )?;
    }
    Ok(())
}

// Makes what comes of the open tuples of a stream; nothing comes of them where no state reads it.
fn meet_read<L: Ledger>(
    stored: &StoredNetwork<'_>,
    drawing: &mut Drawing,
    stream: StreamId,
    tuples: &[Tuple],
    steps: &mut Steps<L>,
) -> Result<(), Memory>
    requires stored { IsStoredNetwork stored.now }
    requires turns { AreTurns stored.now.network.now stored.now.layout.now.order (length stored.now.layout.now.kinds) stored.now.turns.now }
    requires stream { stream < length stored.now.layout.now.kinds }
    requires draft { IsDraftOf stored.now.network.now drawing.old.draft }
    requires suits { All (TupleSuits stored.now.network.now (held stored.now.stores.now) stream) tuples.now }
    ensures grows { OnOk result (Grows stored.now.network.now (moves_of_all stored.now.network.now (held stored.now.stores.now) stream tuples.now) drawing.old.draft drawing.new.draft) }
    ensures lists { OnOk result (ListsAll stored.now.network.now (held stored.now.stores.now) stream tuples.now drawing.old.pairs drawing.new.pairs) }
    ensures agenda { drawing.new.agenda.entries ≡ drawing.old.agenda.entries }
    ensures ticks { steps.new ≤ steps.old + stream_work stored.now.network.now (held stored.now.stores.now) stream tuples.now }
{
    if !*stored.turns.read.get(stream) {
        return Ok(());
    }
    meet_stream(stored, drawing, stream, tuples, steps)
}

// Puts the tuples of each derived stream that is due and read in order, in the order of work, and makes what comes of
// them; then those of the others too.
fn derive<L: Ledger>(
    stored: &StoredNetwork<'_>,
    opened: &Lists,
    drawing: &mut Drawing,
    steps: &mut Steps<L>,
) -> Result<(), Memory>
    requires can_draw { CanDraw stored.now.network.now stored.now.layout.now stored.now.stores.now opened.now }
    requires can_read { CanRead stored.now }
    requires drawn { DrawnUpTo stored.now.network.now stored.now.layout.now stored.now.stores.now opened.now [] drawing.old.draft drawing.old.pairs }
    requires takes { HeardTakesNoMore stored.now.network.now stored.now.layout.now stored.now.stores.now opened.now drawing.old.draft.made drawing.old.pairs }
    requires due { All (Contains stored.now.layout.now.order) drawing.old.draft.due.numbers }
    requires none_planned { drawing.old.agenda.entries ≡ [] }
    ensures drawn { OnOk result (DrawnUpTo stored.now.network.now stored.now.layout.now stored.now.stores.now opened.now stored.now.layout.now.order drawing.new.draft drawing.new.pairs) }
    ensures takes { OnOk result (TakesNoMore stored.now.network.now stored.now.layout.now stored.now.stores.now opened.now drawing.new.draft.made drawing.new.pairs) }
    ensures ticks { steps.new ≤ steps.old + derived_work stored.now.network.now stored.now.layout.now.order (held stored.now.stores.now) (streams_of opened.now) }
{
    let mut last = 0;
    let due = drawing.draft.due.numbers.as_slice();
    plan(&mut drawing.agenda, stored, due, last)?;
    while let Some((turn, stream)) = drawing.agenda.pop_first() {
        let known = drawing.draft.due.numbers.len();
        derive_stream(stored, stream, drawing, steps)?;
        last = turn;
        let fresh = &drawing.draft.due.numbers.as_slice()[known..];
        plan(&mut drawing.agenda, stored, fresh, last)?;
    }
    drawing.draft.put_in_order()
}

// Puts the tuples of a derived stream in order, and makes what comes of them.
fn derive_stream<L: Ledger>(
    stored: &StoredNetwork<'_>,
    stream: StreamId,
    drawing: &mut Drawing,
    steps: &mut Steps<L>,
) -> Result<(), Memory>
    requires stored { IsStoredNetwork stored.now }
    requires stream { stream < length drawing.old.draft.made }
    requires draft { IsDraftOf stored.now.network.now drawing.old.draft }
    requires suits { All (TupleSuits stored.now.network.now (held stored.now.stores.now) stream) (slice_index_or drawing.old.draft.made stream []) }
    ensures derives { OnOk result (Derives stored.now.network.now (held stored.now.stores.now) stream drawing.old.draft drawing.new.draft drawing.old.pairs drawing.new.pairs) }
    ensures agenda { drawing.new.agenda.entries ≡ drawing.old.agenda.entries }
    ensures ticks { steps.new ≤ steps.old + stream_work stored.now.network.now (held stored.now.stores.now) stream (slice_index_or drawing.old.draft.made stream []) }
{
    let mut tuples = drawing.draft.take_made(stream)?;
    tuples.sort_unstable();
    meet_stream(stored, drawing, stream, tuples.as_slice(), steps)?;
    drawing.draft.put_made(stream, tuples)
}
