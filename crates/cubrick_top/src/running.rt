//! The run of the program by its words.
ghost use Rattle.std.specs.Prelude.{◌≡◌, ◌↔◌, ◌≤◌, IsSome, Some, length, map, string_bytes};
ghost use Rattle.outside_disk.specs.Views.{IsSynced};
ghost use Rattle.run_words.specs.Words.{AreWordsOf, HaveFault};
ghost use Rattle.run_words.specs.declared.command.Command.TheVariants as asked;
ghost use Rattle.run_words.specs.declared.command.GenerateCommand.{GenerateCommand};
ghost use Rattle.run_words.specs.declared.command.RunCommand.{RunCommand};
ghost use Rattle.run_words.specs.declared.fault.WordsFault.{WordsFault};
ghost use Rattle.cubrick_top.specs.Generated.{GeneratedEnds};
ghost use Rattle.cubrick_top.specs.PlayedEnds.{OutputRises};
ghost use Rattle.cubrick_top.specs.RunEnds.{RunEnds};
ghost use Rattle.cubrick_top.specs.ServedRuns.{FailsOnlyForMemory, InputsAreInOrder, NoFaultCountRose};
ghost use Rattle.cubrick_top.specs.Statuses.{status_of};
ghost use Rattle.cubrick_top.specs.WordsEnds.{AreRefused};
ghost use Rattle.cubrick_top.specs.declared.fault.Fault.TheVariants.{Words};

use crate::fault::{Fault, finish_unplayed};
use crate::generating::run_generator;
use crate::reading::run_command;
use crate::surroundings::{Ended, Outside};
use cube_schema::a_text_declares_or_has_one_fault;
use cube_values::CallError;
use outside::{Shelf, Sink};
use outside_disk::{Disk, Gate};
use run_files::files_decide_their_end;
use run_words::{Command, read_words, words_ask_for_a_command_or_have_one_fault};
use std::alloc::Global;
use std::sync::Wait;
use std::thread::Threads;
use threaded_callers::ThreadStarter;

/// Runs the program by its words, those behind its name.
///
/// `--cubes FILE [--store FILE] [--new] [--shards N] [--round-every N] SCRIPT..` reads the cubes file and then the scripts
/// through the first shelf. Script i is that of session i, which has a thread of its own and loads through shelf i, beside
/// one worker for each shard and the flusher. The store of `--store FILE` is FILE on `disk` and FILE with `.2` at its end
/// on `other`; `--new` creates it, and else it is opened, and its cubes have to be those of the cubes file. What is written
/// are the replies, session by session, then the journal, and the last counters.
///
/// `--generate N [--shards N] [--round-every N]` runs over N generated rows in four files in memory. A script loads one
/// after the other and asks for the sums of a region. What is written is N, the lines of that answer, and the last
/// counters. The shelves and the disks are not used.
///
/// The status and the fault of the answer belong together ([`Fault`]). Of several faults the first counts: of the words; of
/// the cubes file, and of each script in order; of the store; and after the sessions, that one stopped for want of memory,
/// of the output, of a round that was lost to the disk, and of memory in the last round. Without a fault the sink gained
/// the whole text; so it did where it is of a round. After an output fault it gained a part of it, and after every other
/// fault nothing. Want of memory may be answered at any time.
pub fn run<
    R: Threads + Wait + Sync,
    H: Shelf + Send + Drop,
    K: Sink,
    D: Disk + Send + Drop,
    G: Gate + Sync,
>(
    rt: &R,
    alloc: Global,
    starter: ThreadStarter,
    words: &[String],
    outside: Outside<H, D>,
    sink: &mut K,
    gate: &G,
) -> Ended<H, D>
    requires shelves { 16 ≤ length outside.shelves.items }
    requires first_synced { IsSynced (D.view outside.disk) }
    requires second_synced { IsSynced (D.view outside.other) }
    requires both { IsSome (D.view outside.disk).told ↔ IsSome (D.view outside.other).told }
    ensures status { result.finish.status ≡ status_of result.finish.fault }
    ensures output { OutputRises result.finish.fault
        (K.fault_count sink.old) (K.fault_count sink.new) }
    ensures same { map H.told result.outside.shelves.items ≡ map H.told outside.shelves.items }

    // The words that ask for nothing are refused with their cause, and no others.
    ensures words { (fault : WordsFault) → result.finish.fault ≡ Some (Words fault)
        → HaveFault (map string_bytes words.now) fault }
    ensures refused { (fault : WordsFault) → HaveFault (map string_bytes words.now) fault
        → AreRefused outside (K.taken sink.old) (K.taken sink.new) fault result.outside
        result.finish }

    // How a run of scripts ended, and what it wrote.
    ensures run { (command : RunCommand)
        → AreWordsOf (map string_bytes words.now) (asked.Run command)
        → RunEnds H.told H.call_list H.fault_count H.absence_count D.view command outside
        result.outside (K.taken sink.old) (K.taken sink.new) result.finish }

    // A run whose files and store are in order is served: where no count of faults rose, its
    // status is 0, or 8.
    ensures served { (command : RunCommand)
        → AreWordsOf (map string_bytes words.now) (asked.Run command)
        → InputsAreInOrder H.told D.view command outside
        → NoFaultCountRose H.fault_count D.view outside result.outside
        (K.fault_count sink.old) (K.fault_count sink.new)
        → FailsOnlyForMemory result.finish.fault }

    // How a run over generated rows ended, and what it wrote.
    ensures generated { (command : GenerateCommand)
        → AreWordsOf (map string_bytes words.now) (asked.Generate command)
        → (result.outside ≡ outside) × GeneratedEnds command (K.taken sink.old)
        (K.taken sink.new) result.finish result.finish.fault }
{
    words_ask_for_a_command_or_have_one_fault();
    files_decide_their_end();
    a_text_declares_or_has_one_fault();
    match read_words(alloc, words) {
        Ok(Command::Run(command)) => {
            run_command(rt, alloc, starter, command, outside, gate, sink)
        }
        Ok(Command::Generate(command)) => Ended {
            finish: run_generator(rt, alloc, starter, command, gate, sink),
            outside,
        },
        Err(CallError::Fault(fault)) => Ended {
            finish: finish_unplayed(alloc, Fault::Words { fault }),
            outside,
        },
        Err(CallError::NoMemory) => Ended {
            finish: finish_unplayed(alloc, Fault::NoMemory),
            outside,
        },
    }
}
