//! The stats line of a run.
ghost use Rattle.std.specs.Prelude.{◌≡◌, IfOk, List, None, string_bytes, true};
ghost use Rattle.semantics.specs.Histories.{Event};
ghost use Rattle.cay_host.specs.Output.{SameButOutput};
ghost use Rattle.catalogue.specs.Catalogued.{program_in};
ghost use Rattle.session.specs.SessionView.{WorksFor};
ghost use Rattle.cayuga_run.specs.Blaming.{BlamesHost};
ghost use Rattle.cayuga_run.specs.Stats.{ComesBehind};
ghost use Rattle.cayuga_run.specs.StatsOutcome.{StatsOutcome};

use crate::status::Status;
use crate::writing::write_text;
use cay_host::Host;
use event_types::Memory;
use session::Session;
use std::alloc::Global;

/// Writes the stats line of a session with no open epoch.
pub fn write_stats<H: Host>(alloc: Global, host: &mut H, session: &mut Session) -> Status
    requires { session.old.engine.time ≡ None }
    ensures writes { (history : List Event) → WorksFor session.old history → StatsOutcome (program_in session.old.catalogue) history (H.told host.old) (H.told host.new) result }
    ensures blames { BlamesHost (H.told host.old) (H.told host.new) result }
    ensures same { SameButOutput (H.told host.old) (H.told host.new) }
{
    match stats_line(alloc, session) {
        Ok(line) => write_text(host, line.as_str()),
        Err(_) => Status::Memory,
    }
}

// The stats line: `# states 3, plain 4, live 2` and an LF.
fn stats_line(alloc: Global, session: &mut Session) -> Result<String, Memory>
    requires { session.old.engine.time ≡ None }
    ensures { IfOk result (λ line. (history : List Event) → WorksFor session.old history → ComesBehind true (program_in session.old.catalogue) history (string_bytes line)) }
{
    let states = session.states();
    let plain = session.plain_states();
    let live = session.live();
    Ok(format!(in alloc; "# states {states}, plain {plain}, live {live}\n")?)
}
