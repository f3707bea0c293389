//! The shelves of sessions: they go into the works of these, and come back.
ghost use Rattle.std.specs.Prelude.{◌≡◌, ◌+◌, ◌≤◌, ◌++◌, ◌↔◌, [], IsTrue, length, map, vec_capacity};
ghost use Rattle.std.specs.List.{AllByRecursion};
ghost use Rattle.core_scripts.specs.GivenScripts.{AreReadyWorks};
ghost use Rattle.core_scripts.specs.ScriptWorks.{script_in};
ghost use Rattle.played_runs.specs.ReadySessions.{HasRounds, IsReadyScript, IsWhole, replies_of, script_ready, shelf_of};

use crate::rooms::ReadyScript;
use core_program::CoreSize;
use core_scripts::ScriptWork;
use cube_journal::Reply;
use outside::Shelf;
use outside_disk::Gate;
use std::alloc::Global;

/// The works of sessions, and the shelves that none of them has.
#[derive(Drop)]
pub(crate) struct GivenShelves<'g, H, G> {
    pub(crate) works: Vec<ScriptWork<'g, H, G>>,
    pub(crate) rest: Vec<H>,
}

/// What sessions leave: their replies, all shelves, and whether each script was played to its end.
#[derive(Drop)]
pub(crate) struct ReturnedShelves<H> {
    pub(crate) replies: Vec<Vec<Reply>>,
    pub(crate) shelves: Vec<H>,
    pub(crate) whole: bool,
}

/// The work of each session has the next script, with its closing part, and the next shelf. The list of works has room.
pub(crate) fn give_shelves<'g, H: Shelf + Drop, G: Gate>(
    alloc: Global,
    size: CoreSize,
    round_every: Option<u32>,
    scripts: Vec<ReadyScript>,
    shelves: Vec<H>,
    works: Vec<ScriptWork<'g, H, G>>,
    gate: &'g G,
) -> GivenShelves<'g, H, G>
    requires scripts { length scripts.items ≡ size.sessions }
    requires ready { AllByRecursion IsReadyScript scripts.items }
    requires shelves { size.sessions ≤ length shelves.items }
    requires empty { works.items ≡ [] }
    requires room { size.sessions ≤ vec_capacity works }
    ensures long { length result.works.items ≡ size.sessions }
    ensures ready { AreReadyWorks size 1 result.works.items }
    ensures rounds { AllByRecursion (HasRounds round_every) result.works.items }
    ensures scripts { map script_in result.works.items ≡ map script_ready scripts.items }
    ensures shelves { map shelf_of result.works.items ++ result.rest.items ≡ shelves.items }
    ensures capacity { vec_capacity result.rest ≡ vec_capacity shelves }
{
    let mut left = scripts;
    let mut rest = shelves;
    let mut works = works;
    'sessions: for number in 0..size.sessions {
        let ReadyScript {
            script,
            closing,
            room,
        } = left.remove(0);
        let shelf = rest.remove(0);
        works.push_reserved(ScriptWork::new(
            alloc,
            size,
            number + 1,
            round_every,
            script,
            closing,
            shelf,
            room,
            gate,
        ));
    }
    GivenShelves { works, rest }
}

// What a work leaves: its shelf, its replies, and whether all was played to its end.
fn left_by<'g, H: Drop, G>(work: ScriptWork<'g, H, G>) -> (H, Vec<Reply>, bool)
    ensures shelf { result.0 ≡ shelf_of work.entry }
    ensures replies { result.1 ≡ replies_of work.entry }
    ensures whole { result.2 ≡ work.entry.whole }
{
    let ScriptWork {
        shelf,
        replies,
        whole,
        ..
    } = work;
    (shelf, replies, whole)
}

/// The shelves of works come back before the rest, and the replies of each. The lists have room.
pub(crate) fn return_shelves<'g, H: Drop, G>(
    works: Vec<ScriptWork<'g, H, G>>,
    rest: Vec<H>,
    replies: Vec<Vec<Reply>>,
    count: u32,
) -> ReturnedShelves<H>
    requires many { length works.items ≡ count }
    requires empty { replies.items ≡ [] }
    requires room { count ≤ vec_capacity replies }
    requires places { length rest.items + count ≤ vec_capacity rest }
    ensures shelves { result.shelves.items ≡ map shelf_of works.entry.items ++ rest.items }
    ensures replies { result.replies.items ≡ map replies_of works.entry.items }
    ensures whole { IsTrue result.whole ↔ AllByRecursion IsWhole works.entry.items }
{
    let mut left = works;
    let mut shelves = rest;
    let mut replies = replies;
    let mut whole = true;
    'works: for _number in 0..count {
        let (shelf, said, played) = left_by(left.remove(0));
        shelves.push_reserved(shelf);
        replies.push_reserved(said);
        whole = whole && played;
    }
    shelves.rotate_right(count as usize);
    ReturnedShelves {
        replies,
        shelves,
        whole,
    }
}
