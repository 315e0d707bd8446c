//! The closing of an epoch.
ghost use Rattle.std.specs.Prelude.{◌≡◌, ◌+◌, ◌≤◌, IsSome, OnErr, OnOk, length};
ghost use Rattle.epoch_draft.specs.Held.{SameStored};
ghost use Rattle.epoch_draft.specs.Led.{AreLed};
ghost use Rattle.epoch_draft.specs.Readying.{HaveRoom};
ghost use Rattle.epoch_draft.specs.Typed.{IsTyped};
ghost use Rattle.epoch_draft.specs.Watching.{Watches};
ghost use Rattle.epoch_engine.specs.Batches.{ArePrinted, IsBatch};
ghost use Rattle.epoch_engine.specs.Running.{FitsPlan, IsRunning, IsStillFor};
ghost use Rattle.epoch_engine.specs.Taking.{IsDrawn, IsSettled, TakesEpoch, TakesWithin, closing_work, drawing_work, results_in, settling_work};

use crate::epoch::Epoch;
use crate::holdings::Holdings;
use crate::plan::Plan;
use crate::room::Room;
use epoch_draft::{ClosingEpoch, Drawing, StoredNetwork, draw, make_room, settle};
use event_types::Memory;
use steps::{Ledger, Steps};

/// Takes what is held over the open epoch, and leaves its results in the room. Want of memory leaves all instances as
/// they were, and the room is then of no more use.
pub(crate) fn take_epoch<L: Ledger>(
    plan: &Plan,
    holdings: &mut Holdings,
    epoch: &Epoch,
    room: &mut Room,
    steps: &mut Steps<L>,
) -> Result<(), Memory>
    requires running { IsRunning plan.now holdings.old.stores epoch.now }
    requires led { AreLed plan.now.merged holdings.old.keys holdings.old.stores }
    requires watches { Watches holdings.old.deadlines holdings.old.stores }
    requires opened { IsSome epoch.now.time }
    requires still { IsStillFor plan.now room.old.drawing }
    ensures taken { OnOk result (TakesEpoch plan.now epoch.now holdings.old.stores holdings.new.stores (results_in room.new)) }
    ensures batch { OnOk result (IsBatch room.new) }
    ensures typed { OnOk result (IsTyped plan.now.merged plan.now.layout.kinds holdings.new.stores) }
    ensures kept { OnErr result (SameStored holdings.old.stores holdings.new.stores) }
    ensures led { AreLed plan.now.merged holdings.new.keys holdings.new.stores }
    ensures watches { Watches holdings.new.deadlines holdings.new.stores }
    ensures ticks { steps.new ≤ steps.old + closing_work plan.now holdings.old.stores epoch.now }
{
    draw_epoch(plan, holdings, epoch, room, steps)?;
    settle_epoch(plan, holdings, epoch, &mut room.drawing, steps);
    Ok(())
}

// Makes all that comes of the open tuples, lists the streams of its results, and makes room in the stores, of which no
// instance changes.
fn draw_epoch<L: Ledger>(
    plan: &Plan,
    holdings: &mut Holdings,
    epoch: &Epoch,
    room: &mut Room,
    steps: &mut Steps<L>,
) -> Result<(), Memory>
    requires running { IsRunning plan.now holdings.old.stores epoch.now }
    requires led { AreLed plan.now.merged holdings.old.keys holdings.old.stores }
    requires watches { Watches holdings.old.deadlines holdings.old.stores }
    requires still { IsStillFor plan.now room.old.drawing }
    ensures drawn { OnOk result (IsDrawn plan.now holdings.new.stores epoch.now room.new.drawing) }
    ensures room { OnOk result (HaveRoom holdings.new.stores room.new.drawing.draft.beads) }
    ensures same { SameStored holdings.old.stores holdings.new.stores }
    ensures led { AreLed plan.now.merged holdings.new.keys holdings.new.stores }
    ensures watches { Watches holdings.new.deadlines holdings.new.stores }
    ensures listed { OnOk result (ArePrinted plan.now.layout.outs room.new.drawing.draft.made room.new.streams) }
    ensures takes { OnOk result (TakesWithin plan.now holdings.new.stores epoch.now room.new.drawing) }
    ensures ticks { steps.new ≤ steps.old + drawing_work plan.now holdings.old.stores epoch.now }
{
    let Some(readers) = plan.merged.readers() else {
        return Err(Memory);
    };
    let stored = StoredNetwork {
        network: plan.merged.network(),
        layout: &plan.layout,
        readers,
        turns: &plan.turns,
        keys: &holdings.keys,
        stores: &holdings.stores,
    };
    let touched = epoch.touched.numbers.as_slice();
    draw(&stored, &epoch.tuples, touched, &mut room.drawing, steps)?;
    room.list(plan)?;
    make_room(
        plan.merged.network(),
        &mut holdings.keys,
        &mut holdings.stores,
        &room.drawing.draft,
    )?;
    Ok(())
}

// Puts what was drawn in place, and tidies the keys. Takes no memory.
fn settle_epoch<L: Ledger>(
    plan: &Plan,
    holdings: &mut Holdings,
    epoch: &Epoch,
    drawing: &mut Drawing,
    steps: &mut Steps<L>,
)
    requires running { IsRunning plan.now holdings.old.stores epoch.now }
    requires led { AreLed plan.now.merged holdings.old.keys holdings.old.stores }
    requires watches { Watches holdings.old.deadlines holdings.old.stores }
    requires opened { IsSome epoch.now.time }
    requires drawn { IsDrawn plan.now holdings.old.stores epoch.now drawing.old }
    requires room { HaveRoom holdings.old.stores drawing.old.draft.beads }
    ensures led { AreLed plan.now.merged holdings.new.keys holdings.new.stores }
    ensures watches { Watches holdings.new.deadlines holdings.new.stores }
    ensures settled { IsSettled plan.now epoch.now drawing.old holdings.old.stores holdings.new.stores }
    ensures made { drawing.new.draft.made ≡ drawing.old.draft.made }
    ensures fits { FitsPlan plan.now drawing.new }
    ensures ticks { steps.new ≤ steps.old + settling_work plan.now holdings.old.stores epoch.now drawing.old }
{
    let time = match epoch.time {
        Some(time) => time,
        None => unreachable!(),
    };
    let closing = ClosingEpoch {
        network: plan.merged.network(),
        layout: &plan.layout,
        time,
    };
    settle(
        &closing,
        &mut holdings.deadlines,
        &mut holdings.stores,
        &epoch.tuples,
        drawing,
        steps,
    );
    holdings.keys.tidy(holdings.stores.as_slice());
}
