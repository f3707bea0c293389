//! A session that plays its script, as the work of a caller on a thread.
ghost use Rattle.std.specs.Prelude.{◌≡◌, ◌+◌, ◌≤◌, IfOk, length, vec_capacity};
ghost use Rattle.std.specs.List.{AllByRecursion};
ghost use Rattle.core_scripts.specs.GivenScripts.{IsPlayRoom, IsReadyWork};
ghost use Rattle.core_scripts.specs.PlayedWhole.{MayPlay};
ghost use Rattle.script_sentences.specs.GivenTexts.{IsProperSaid};
ghost use Rattle.core_scripts.specs.ScriptWorks.{HasPlayedOut};

use crate::player::ScriptPlayer;
use crate::scripts::{play_texts, play_to_the_end};
use board_callers::CellCaller;
use core_program::CoreSize;
use core_states::CoreSession;
use core_watches::watches_are_kept;
use cube_journal::Reply;
use cube_language::MOST_STATEMENTS;
use linked_shards::{CoreShard, ShardCells};
use outside::Shelf;
use outside_disk::Gate;
use script_sentences::Said;
use session_replies::SessionMode;
use session_snapshots::sessions_begin_with_nothing;
use session_texts::SessionTexts;
use std::alloc::{AllocError, Global};
use std::sync::Wait;
use threaded_callers::CallerWork;
use turn_board::Board;

/// Room for what a session keeps while it plays: the texts that it knows, and its replies.
#[derive(Drop)]
pub struct PlayRoom {
    pub texts: SessionTexts,
    pub replies: Vec<Reply>,
}

impl PlayRoom {
    /// Room for the replies to so many statements. No text is known yet. The only error is out of memory.
    pub fn new(alloc: Global, statements: usize) -> Result<PlayRoom, AllocError>
        ensures { IfOk result (IsPlayRoom statements) }
    {
        let texts = SessionTexts::new(alloc)?;
        let replies = Vec::with_capacity(alloc, statements)?;
        Ok(PlayRoom { texts, replies })
    }
}

/// A session with its script and its shelf, and what its statements were answered.
#[derive(Drop)]
pub struct ScriptWork<'g, H, G> {
    pub size: CoreSize,
    pub player: ScriptPlayer,
    /// What is to be played yet.
    pub script: Vec<Said>,
    /// What is played behind it, once all sessions have played their scripts.
    pub closing: Vec<Said>,
    /// Whether the script was played, and the closing part is left.
    pub halfway: bool,
    pub shelf: H,
    pub replies: Vec<Reply>,
    /// Whether all was played to its end. If not, it was not begun, or it is halfway, or memory ran out.
    pub whole: bool,
    pub alloc: Global,
    /// What may hold it up before a statement.
    pub gate: &'g G,
}

impl<'g, H, G> ScriptWork<'g, H, G> {
    /// The work of the session of this number, from 1 on, with its room: a script, and what is played behind it once all
    /// sessions have played theirs. After so many of its commits a round follows, if after any.
    pub fn new(
        alloc: Global,
        size: CoreSize,
        number: u32,
        round_every: Option<u32>,
        script: Vec<Said>,
        closing: Vec<Said>,
        shelf: H,
        room: PlayRoom,
        gate: &'g G,
    ) -> ScriptWork<'g, H, G>
        requires few { length script.items + length closing.items ≤ MOST_STATEMENTS }
        requires proper { AllByRecursion IsProperSaid script.items }
        requires proper_closing { AllByRecursion IsProperSaid closing.items }
        requires room { IsPlayRoom (length script.items + length closing.items) room }
        ensures ready { IsReadyWork size number result }
        ensures every { result.player.session.round_every ≡ round_every }
        ensures script { result.script ≡ script }
        ensures closing { result.closing ≡ closing }
        ensures shelf { result.shelf ≡ shelf }
    {
        let session = CoreSession {
            number,
            mode: SessionMode::Idle,
            statements: 0,
            commits: 0,
            round_every,
        };
        let PlayRoom { texts, replies } = room;
        ScriptWork {
            size,
            player: ScriptPlayer {
                session,
                watch: None,
                texts,
            },
            script,
            closing,
            halfway: false,
            shelf,
            replies,
            whole: false,
            alloc,
            gate,
        }
    }
}

impl<'g, H: Shelf, G: Gate> CallerWork<ShardCells> for ScriptWork<'g, H, G> {
    ghost may_begin = { λ w callers cells caller. MayPlay w.size.shards w.size.sessions w.player
        w.script.items w.closing.items w.replies.items (vec_capacity w.replies) callers cells
        caller };

    ghost has_done = { λ before after cells caller own. HasPlayedOut H.told H.fault_count
        H.absence_count before after cells caller own };

    fn work<R: Wait, P: CellCaller<ShardCells>>(
        &mut self,
        rt: &R,
        board: &Board<ShardCells>,
        caller: &mut P,
    ) {
        sessions_begin_with_nothing::<CoreShard>();
        watches_are_kept();
        let script = std::mem::replace(&mut self.script, Vec::new(self.alloc));
        let last = self.closing.is_empty();
        if last {
            self.halfway = false;
            self.whole = play_to_the_end(
                rt,
                board,
                caller,
                &self.size,
                &mut self.player,
                script,
                &mut self.shelf,
                &mut self.replies,
                self.gate,
                self.alloc,
            );
        } else {
            self.whole = false;
            self.halfway = play_texts(
                rt,
                board,
                caller,
                &self.size,
                &mut self.player,
                script,
                &mut self.shelf,
                &mut self.replies,
                self.gate,
                self.alloc,
            );
        }
    }

    fn finish<R: Wait, P: CellCaller<ShardCells>>(
        &mut self,
        rt: &R,
        board: &Board<ShardCells>,
        caller: &mut P,
    ) {
        let halfway = self.halfway;
        if halfway {
            self.halfway = false;
            let closing = std::mem::replace(&mut self.closing, Vec::new(self.alloc));
            self.whole = play_to_the_end(
                rt,
                board,
                caller,
                &self.size,
                &mut self.player,
                closing,
                &mut self.shelf,
                &mut self.replies,
                self.gate,
                self.alloc,
            );
        }
    }
}
