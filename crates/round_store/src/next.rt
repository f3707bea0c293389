//! What the next round needs, with all the memory that it wants.

ghost use Rattle.std.specs.Prelude.{◌≡◌, ◌+◌, ◌-◌, ◌<◌, ◌≤◌, ◌^◌, ◌++◌, ◌∷◌, [], true, not, List, length, take, drop, IfOk};
ghost use Rattle.cube_language.specs.Cubes.{cubes_text};
ghost use Rattle.cube_language.specs.CubesText.{Declares};
ghost use Rattle.cube_rounds.specs.Bytes.{round_bytes};
ghost use Rattle.cube_rounds.specs.Headers.{shut_gate};
ghost use Rattle.cube_rounds.specs.Stands.{Kept, kept_of_cubes};
ghost use Rattle.round_store.specs.Counts.{data_with};
ghost use Rattle.round_store.specs.States.{wants_whole, header_cubes, place_behind, whole_place, IsStoreOf, MayFollowKept};
ghost use Rattle.round_store.specs.Wholes.{IsWholeFile};
ghost use Rattle.sha2.specs.Sha256.{sha256};

use crate::data::StoreData;
use crate::store::Store;
use cube_rounds::Round;
use cube_schema::{Schema, print_cubes};
use gate_writes::OPEN_GATE;
use round_text::{write_header, write_round};
use std::alloc::{AllocError, Global};
use store_reading::StorePlace;

/// The bytes that are to be written, and what the store is then.
#[derive(Drop)]
pub(crate) struct NextRound {
    pub bytes: Vec<u8>,
    pub data: StoreData,
    pub place: StorePlace,
    pub rounds: u64,
}

/// Bytes without the first and the last.
fn middle_of(bytes: &[u8]) -> &[u8]
    requires { 2 ≤ length bytes.now }
    ensures { result.now ≡ take (length bytes.now - 2) (drop 1 bytes.now) }
{
    let (_, behind) = bytes.split_at(1);
    let (middle, _) = behind.split_at(bytes.len() - 2);
    middle
}

/// What a whole file has behind its first gate: a header, an open gate, a round and a gate that is shut.
fn whole_bytes(
    alloc: Global,
    generation: u64,
    cubes: &[Schema],
    round: &Round,
) -> Result<Vec<u8>, AllocError>
    requires first { 1 ≤ generation }
    requires small { generation ≤ 2 ^ 62 }
    requires declared { Declares (cubes_text cubes.now) cubes.now }
    requires long { length (cubes_text cubes.now) < 2 ^ 32 }
    requires follows { MayFollowKept (kept_of_cubes cubes.now) round.now }
    ensures { IfOk result (λ bytes. IsWholeFile generation cubes.now round.now bytes.items) }
{
    let text = print_cubes(alloc, cubes)?;
    let header = write_header(alloc, generation, text.as_slice())?;
    let written = write_round(alloc, round, cubes)?;
    let mut bytes = Vec::with_capacity(alloc, header.len().saturating_add(written.len()))?;
    bytes.extend_from_slice(middle_of(header.as_slice()))?;
    bytes.push(OPEN_GATE)?;
    bytes.extend_from_slice(written.as_slice())?;
    Ok(bytes)
}

impl Store {
    /// A round behind those of the current file.
    pub(crate) fn next_behind(&self, round: &Round) -> Result<NextRound, AllocError>
        requires { (kept : Kept) × IsStoreOf self.now kept × MayFollowKept kept round.now }
        ensures bytes { IfOk result (λ n. n.bytes.items
            ≡ round_bytes sha256 self.now.cubes round.now ++ shut_gate ∷ []) }
        ensures data { IfOk result (λ n.
            n.data ≡ data_with self.now.cubes self.now.counts round.now) }
        ensures place { IfOk result (λ n.
            n.place ≡ place_behind self.now.place (length n.bytes.items)) }
        ensures rounds { IfOk result (λ n. n.rounds ≡ self.now.rounds + 1) }
        ensures small { IfOk result (λ n. self.now.place.end + 1 < 2 ^ 64) }
    {
        let data = self.data.with_round(self.alloc, round)?;
        let bytes = write_round(self.alloc, round, self.data.cubes())?;
        let Some(end) = self.place.end.checked_add(bytes.len() as u64) else {
            return Err(AllocError);
        };
        let Some(rounds) = self.rounds.checked_add(1) else {
            return Err(AllocError);
        };
        let place = StorePlace {
            second: self.place.second,
            generation: self.place.generation,
            end,
        };
        Ok(NextRound {
            bytes,
            data,
            place,
            rounds,
        })
    }

    /// A whole round in the other file.
    pub(crate) fn next_whole(&self, round: &Round) -> Result<NextRound, AllocError>
        requires wants { wants_whole self.now ≡ true }
        requires follows { (kept : Kept) × IsStoreOf self.now kept
            × MayFollowKept (kept_of_cubes (header_cubes kept)) round.now }
        ensures bytes { IfOk result (λ n. IsWholeFile (self.now.place.generation + 1)
            (take self.now.declared self.now.cubes) round.now n.bytes.items) }
        ensures data { IfOk result (λ n.
            n.data ≡ data_with (take self.now.declared self.now.cubes) [] round.now) }
        ensures place { IfOk result (λ n. n.place ≡ whole_place (not self.now.place.second)
            (self.now.place.generation + 1) n.bytes.items) }
        ensures rounds { IfOk result (λ n. n.rounds ≡ 1) }
    {
        let declared = self.declared as usize;
        let data = self.data.with_whole(self.alloc, declared, round)?;
        let (cubes, _) = self.data.cubes().split_at(declared);
        let generation = self.place.generation + 1;
        let bytes = whole_bytes(self.alloc, generation, cubes, round)?;
        let place = StorePlace {
            second: !self.place.second,
            generation,
            end: bytes.len() as u64,
        };
        Ok(NextRound {
            bytes,
            data,
            place,
            rounds: 1,
        })
    }

    /// The store once the bytes are written.
    pub(crate) fn go_on(&mut self, next: NextRound, shut: bool)
        ensures { self.new ≡ record {
          cubes = next.data.cubes;
          declared = self.old.declared;
          rounds = next.rounds;
          counts = next.data.counts;
          place = next.place;
          shut = shut;
        } }
    {
        let NextRound {
            bytes: _,
            data,
            place,
            rounds,
        } = next;
        self.data = data;
        self.place = place;
        self.rounds = rounds;
        self.shut = shut;
    }
}
