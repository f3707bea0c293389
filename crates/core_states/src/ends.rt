//! The law of the end of a run of the core.

ghost use Rattle.std.specs.Prelude.{◌≡◌, ℕ, ◌-◌, List, [], length, slice_get, unwrap_or};
ghost use Rattle.core_events.specs.Events.{CoreEvent, IsSession, Opening};
ghost use Rattle.core_states.specs.Endings.{HasEnded, IsScriptedHistory};
ghost use Rattle.core_program.specs.CoreFits.{CoreEntry};
ghost use Rattle.core_records.specs.CoreRecords.{RunScripts, record_of};
ghost use Rattle.cube_core.specs.declared.cell.CoreCell.{CoreCell};
ghost use Rattle.cube_journal.specs.declared.reply.Reply.{Reply};
ghost use Rattle.played_scripts.specs.PlayedRuns.{HavePlayed};

use crate::besides::Besides;
use cube_core::LinkedShard;

/// Where each session has played its script and its end has left its entries, the run is played.
pub fn the_end_completes_a_run<S: LinkedShard, B: Besides>()
    ensures { (asked : B) (cells : List (CoreCell S)) (o : Opening) (given : RunScripts)
        (log : List CoreEntry) (events : List CoreEvent) (replies : List (List Reply))
        → IsScriptedHistory S.fits S.stands S.says cells o given log events
        → B.claim asked o given events → length replies ≡ o.sessions
        → ((session : ℕ) → IsSession o session
        → HasEnded S.fits S.stands S.says cells o given log (B.claim asked) session
        (unwrap_or (slice_get replies (session - 1)) []))
        → HavePlayed (record_of o given events) replies }
{}
