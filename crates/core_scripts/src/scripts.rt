//! A script, text by text, and its end.
ghost use Rattle.std.specs.Bool.{OnTrue};
ghost use Rattle.std.specs.List.{AllByRecursion};
ghost use Rattle.std.specs.Prelude.{◌≡◌, ◌+◌, ◌≤◌, List, length, map, vec_capacity};
ghost use Rattle.core_scripts.specs.PlayedWhole.{CountsOn, PlaysOnToTheEnd};
ghost use Rattle.core_scripts.specs.PlayingSessions.{IsInScript, IsPlaying, PlaysThrough, holder_kept};
ghost use Rattle.script_sentences.specs.GivenTexts.{IsProperSaid};
ghost use Rattle.core_watches.specs.BoundReaders.{OpenWithRowsOfCubes};
ghost use Rattle.cube_run.specs.RunRecords.{Sentence};
ghost use Rattle.script_sentences.specs.Sentences.{sentence_of};
ghost use Rattle.scripted_pasts.specs.Performed.{every_of};
ghost use Rattle.scripted_pasts.specs.Served.{IsServed};
ghost use Rattle.turn_board.specs.Passes.{callers_of};

use crate::player::ScriptPlayer;
use crate::playing::play_said;
use board_callers::CellCaller;
use core_endings::end_script;
use core_program::CoreSize;
use core_watches::CoreWatch;
use cube_journal::Reply;
use cube_language::MOST_STATEMENTS;
use linked_shards::ShardCells;
use outside::Shelf;
use outside_disk::Gate;
use script_sentences::Said;
use session_desk::Answered;
use std::alloc::{AllocError, Global};
use std::sync::Wait;
use turn_board::Board;

/// Plays texts behind what a session has played, in their order, each once the gate lets it begin, and adds their replies,
/// for which there is room. Each LOAD reads its file from the shelf. False where a statement stopped for want of memory;
/// nothing is played behind it.
pub(crate) fn play_texts<R: Wait, P: CellCaller<ShardCells>, H: Shelf, G: Gate>(
    rt: &R,
    board: &Board<ShardCells>,
    caller: &mut P,
    size: &CoreSize,
    player: &mut ScriptPlayer,
    script: Vec<Said>,
    shelf: &mut H,
    replies: &mut Vec<Reply>,
    gate: &G,
    alloc: Global,
) -> bool
    requires board { P.calls_on board.now caller.old }
    requires callers { size.now.sessions + 2 + size.now.shards ≤ callers_of board.now }
    requires served { IsServed (P.opening caller.old) (P.number caller.old)
        player.old.session.number size.now.shards }
    requires number { player.old.session.number ≤ size.now.sessions }
    requires rows { OpenWithRowsOfCubes (P.opening caller.old) }
    requires few { player.old.session.statements + length script.items ≤ MOST_STATEMENTS }
    requires proper { AllByRecursion IsProperSaid script.items }
    requires room { length replies.old.items + length script.items ≤ vec_capacity replies.old }
    requires playing { (before : List Sentence) × IsPlaying (H.told shelf.old)
        (P.opening caller.old) (P.number caller.old) player.old (P.own caller.old) before
        replies.old.items }
    ensures board { P.calls_on board.now caller.new }
    ensures opening { P.opening caller.new ≡ P.opening caller.old }
    ensures number { P.number caller.new ≡ P.number caller.old }
    ensures others { P.others caller.new ≡ P.others caller.old }
    ensures same { H.told shelf.new ≡ H.told shelf.old }
    ensures later { H.fault_count shelf.old ≤ H.fault_count shelf.new }
    ensures counts { OnTrue result (CountsOn (map sentence_of script.items) replies.old.items
        replies.new.items (H.fault_count shelf.old) (H.fault_count shelf.new)
        (H.absence_count shelf.old) (H.absence_count shelf.new)) }
    ensures few { player.new.session.statements ≤ MOST_STATEMENTS }
    ensures session { player.new.session.number ≡ player.old.session.number }
    ensures every { every_of player.new.session ≡ every_of player.old.session }
    ensures more { OnTrue result (player.new.session.statements
        ≡ player.old.session.statements + length script.items) }
    ensures answered { OnTrue result (length replies.new.items
        ≡ length replies.old.items + length script.items) }
    ensures capacity { vec_capacity replies.new ≡ vec_capacity replies.old }
    ensures in_script { OnTrue result (IsInScript (P.opening caller.new) (P.number caller.new)
        player.new (P.own caller.new)) }
    ensures played { OnTrue result (PlaysThrough (H.told shelf.old) (P.opening caller.new)
        (P.number caller.new) player.old (P.own caller.old) replies.old.items
        (map sentence_of script.items) player.new (P.own caller.new) replies.new.items) }
{
    'script: for said in script {
        gate.before(player.session.number, player.session.statements + 1);
        match play_said(rt, board, caller, size, player, said, shelf, alloc) {
            Answered::Replied(reply) => replies.push_reserved(reply),
            Answered::Stopped => return false,
        }
    }
    true
}

// The number under which the reader of a watch is held.
fn holder_of(watch: &Option<CoreWatch>) -> Option<u32>
    ensures { result ≡ holder_kept watch.now }
{
    match watch {
        Some(kept) => Some(kept.watch.holder),
        None => None,
    }
}

/// Plays the last texts of a script behind what its session has played, in their order, each with its reply, for which
/// there is room; then a transaction that is open is rolled back, and the reader of a watch is closed. Each LOAD reads its
/// file from the shelf. The gate may hold each text up before it is played. False where a statement or the end stopped for
/// want of memory; nothing is done behind it.
pub fn play_to_the_end<R: Wait, P: CellCaller<ShardCells>, H: Shelf, G: Gate>(
    rt: &R,
    board: &Board<ShardCells>,
    caller: &mut P,
    size: &CoreSize,
    player: &mut ScriptPlayer,
    script: Vec<Said>,
    shelf: &mut H,
    replies: &mut Vec<Reply>,
    gate: &G,
    alloc: Global,
) -> bool
    requires board { P.calls_on board.now caller.old }
    requires callers { size.now.sessions + 2 + size.now.shards ≤ callers_of board.now }
    requires served { IsServed (P.opening caller.old) (P.number caller.old)
        player.old.session.number size.now.shards }
    requires number { player.old.session.number ≤ size.now.sessions }
    requires rows { OpenWithRowsOfCubes (P.opening caller.old) }
    requires few { player.old.session.statements + length script.items ≤ MOST_STATEMENTS }
    requires proper { AllByRecursion IsProperSaid script.items }
    requires room { length replies.old.items + length script.items ≤ vec_capacity replies.old }
    requires playing { (before : List Sentence) × IsPlaying (H.told shelf.old)
        (P.opening caller.old) (P.number caller.old) player.old (P.own caller.old) before
        replies.old.items }
    ensures board { P.calls_on board.now caller.new }
    ensures opening { P.opening caller.new ≡ P.opening caller.old }
    ensures number { P.number caller.new ≡ P.number caller.old }
    ensures others { P.others caller.new ≡ P.others caller.old }
    ensures same { H.told shelf.new ≡ H.told shelf.old }
    ensures later { H.fault_count shelf.old ≤ H.fault_count shelf.new }
    ensures counts { OnTrue result (CountsOn (map sentence_of script.items) replies.old.items
        replies.new.items (H.fault_count shelf.old) (H.fault_count shelf.new)
        (H.absence_count shelf.old) (H.absence_count shelf.new)) }
    ensures ended { OnTrue result (PlaysOnToTheEnd (H.told shelf.old) (P.opening caller.old)
        (P.number caller.old) player.old (P.own caller.old) replies.old.items
        (map sentence_of script.items) replies.new.items (P.own caller.new)) }
{
    if !play_texts(
        rt, board, caller, size, player, script, shelf, replies, gate, alloc,
    ) {
        return false;
    }
    let holder = holder_of(&player.watch);
    match end_script(rt, board, caller, size, &player.session, holder, alloc) {
        Ok(()) => true,
        Err(AllocError) => false,
    }
}
