//! The desk.
ghost use Rattle.std.specs.Prelude.{◌≡◌, ◌≢◌, ℕ, ◌^◌, ◌≤◌, false, None, Some, IfOk, OnOk, OnErr, List, length, drop};
ghost use Rattle.cube_journal.specs.declared.journal_entry.JournalEntry.TheVariants as entry;
ghost use Rattle.cube_journal.specs.Counters.{held_by, counters};
ghost use Rattle.cube_journal.specs.Entries.{note_entry};
ghost use Rattle.cube_journal.specs.Legal.{CountersAllow, HoldsReader, MayAskRound, RefusalFits};
ghost use Rattle.cube_journal.specs.Order.{IsInOrder};
ghost use Rattle.cube_language.specs.Cubes.{IsStorable, first_repeated};
ghost use Rattle.linked_roll.specs.Members.{items};
ghost use Rattle.aosi_desk.specs.Holds.{Rise};
ghost use Rattle.aosi_desk.specs.State.{state_of, writer_snapshot, reader_snapshot, IsWriting, round_answer, end_entry, answer_entry, after_begin, after_read, after_commit, after_abort};
ghost use Rattle.aosi_desk.specs.Desks.{opening_desk, desk_over, desk_with_entry, decl_names, IsFound, desk_after_search, cube_answer, desk_after_answer, speaks_of_cubes, IsLegalDesk, AreCubes};

use crate::cube::{CubeAnswer, CubeFound};
use crate::search::{copy_decls, decls_of, find, place_of};
use crate::{MOST_HOLDERS, MOST_SESSIONS, Register, RoundAnswer, RoundEnd};
use cube_journal::{AbortCause, Counters, JournalEntry, Note, OpenSnapshot};
use cube_language::{Decl, MOST_CUBES};
use cube_schema::Schema;
use cube_values::{Sequence, Snapshot};
use linked_roll::Roll;
use std::alloc::{AllocError, Global};
use std::marker::Model;

// The numbers of the refusals that speak of the list of cubes.
const UNKNOWN_CUBE: u32 = 2;

const CUBE_EXISTS: u32 = 19;

const TOO_MANY_CUBES: u32 = 21;

/// Declarations in order.
pub type Decls = Sequence<Decl>;

/// The register and the list of cubes. Contracts see both, and the cubes of the opening. Each call takes constant
/// time, but what gives the pending epochs, looks for a name or copies declarations. It lies on the heap, so it is
/// cheap to move.
#[derive(Drop)]
pub struct Desk {
    register: Box<Register>,
    cubes: Vec<Decl>,
    // How many of the cubes are of the opening.
    opened: usize,
}

impl Model for Desk {
    ghost use Rattle.std.specs.Prelude.{◌≤◌, length, take};
    ghost use Rattle.aosi_desk.specs.Desks.{DeskState, KeepsCubes, AreCubes};

    ghost Value = { DeskState };

    ghost view = { λ d. record {
      register = d.register.value;
      cubes = d.cubes.items;
      opening = take d.opened d.cubes.items;
    } };

    ghost invariant = { λ d.
        KeepsCubes (record {
          register = d.register.value;
          cubes = d.cubes.items;
          opening = take d.opened d.cubes.items;
        })
        × AreCubes d.cubes.items
        × (d.opened ≤ length d.cubes.items) };
}

impl Desk {
    /// A desk of so many sessions, with these cubes, over a store that keeps all up to `safe`. The only error
    /// is want of memory.
    pub fn new(
        alloc: Global,
        sessions: u32,
        cubes: &[Schema],
        safe: u64,
    ) -> Result<Desk, AllocError>
        requires some { 1 ≤ sessions }
        requires most { sessions ≤ MOST_SESSIONS }
        requires safe { safe ≤ 2 ^ 61 }
        requires few { length cubes.now ≤ MOST_CUBES }
        requires differ { first_repeated (decl_names cubes.now) ≡ None }
        ensures { IfOk result (λ d. d ≡ opening_desk safe sessions cubes.now) }
    {
        let register = Register::new(alloc, sessions, safe)?;
        Ok(Desk {
            register: Box::new(alloc, register)?,
            cubes: decls_of(alloc, cubes)?,
            opened: cubes.len(),
        })
    }

    /// Opens the writer of a session. Its memory is also that of the entry that ends it.
    pub fn open_write(&mut self, session: u32, statement: u32) -> Result<Snapshot, AllocError>
        requires low { 1 ≤ session }
        requires high { session ≤ self.old.register.sessions }
        requires free { held_by (state_of self.old.register).snapshots session ≡ None }
        ensures snapshot { IfOk result (λ s. s ≡ writer_snapshot (state_of self.old.register)) }
        ensures desk { IfOk result (λ s. self.new
            ≡ desk_over self.old (after_begin self.old.register session statement s)) }
        ensures same { OnErr result (self.new ≡ self.old) }
    {
        let snapshot = self.register.open_write(session, statement)?;
        Ok(snapshot)
    }

    /// Opens the reader of a session or a holder number. Its memory is also that of the entry that ends it.
    pub fn open_read(&mut self, session: u32, statement: u32) -> Result<Snapshot, AllocError>
        requires low { 1 ≤ session }
        requires high { session ≤ MOST_HOLDERS }
        requires free { held_by (state_of self.old.register).snapshots session ≡ None }
        ensures snapshot { IfOk result (λ s. s ≡ reader_snapshot (state_of self.old.register)) }
        ensures desk { IfOk result (λ s. self.new
            ≡ desk_over self.old (after_read self.old.register session statement s)) }
        ensures same { OnErr result (self.new ≡ self.old) }
    {
        let snapshot = self.register.open_read(session, statement)?;
        Ok(snapshot)
    }

    /// Ends the writer of a session; what it wrote stays.
    pub fn commit(&mut self, session: u32, statement: u32)
        requires { IsWriting (state_of self.old.register) session }
        ensures { self.new ≡ desk_over self.old (after_commit self.old.register session statement) }
    {
        self.register.commit(session, statement);
    }

    /// Ends the writer of a session; nothing that it wrote stays.
    pub fn abort_end(&mut self, session: u32, statement: u32, cause: AbortCause)
        requires { IsWriting (state_of self.old.register) session }
        ensures { self.new
            ≡ desk_over self.old (after_abort self.old.register session statement cause) }
    {
        self.register.abort_end(session, statement, cause);
    }

    /// Ends the reader of a session or a holder number.
    pub fn close_read(&mut self, session: u32, statement: u32)
        requires { HoldsReader (state_of self.old.register) session }
        ensures { self.new ≡ desk_with_entry self.old (entry.ReadEnd session statement) }
    {
        self.register.close_read(session, statement);
    }

    /// Adds the entry of a note, and gives the counters at its place. The refusals that speak of the list of
    /// cubes are added by `create_cube` and `find_cube` alone.
    pub fn note(&mut self, note: &Note) -> Result<Counters, AllocError>
        requires allowed { CountersAllow self.old.register.safe self.old.register.journal
            (note_entry note.now) }
        requires other { speaks_of_cubes (note_entry note.now) ≡ false }
        ensures counters { IfOk result (λ c. c
            ≡ counters self.old.register.safe self.old.register.journal) }
        ensures desk { IfOk result (λ c. self.new
            ≡ desk_with_entry self.old (note_entry note.now)) }
        ensures same { OnErr result (self.new ≡ self.old) }
    {
        let counters = self.register.note(note)?;
        Ok(counters)
    }

    /// Makes a cube, or adds the refusal that says why it is not made.
    pub fn create_cube(
        &mut self,
        session: u32,
        statement: u32,
        decl: Decl,
    ) -> Result<CubeAnswer, AllocError>
        requires free { held_by (state_of self.old.register).snapshots session ≡ None }
        requires storable { IsStorable decl }
        ensures answer { IfOk result (λ a. a ≡ cube_answer self.old decl.name) }
        ensures desk { IfOk result (λ a. self.new
            ≡ desk_after_answer self.old session statement decl a) }
        ensures same { OnErr result (self.new ≡ self.old) }
    {
        if place_of(self.cubes.as_slice(), decl.name.as_bytes()).is_some() {
            self.refuse(session, statement, CUBE_EXISTS)?;
            return Ok(CubeAnswer::Exists);
        }
        if self.cubes.len() == MOST_CUBES {
            self.refuse(session, statement, TOO_MANY_CUBES)?;
            return Ok(CubeAnswer::TooMany);
        }
        self.cubes.reserve(1)?;
        let place = self.cubes.len() as u32;
        let epoch = self.register.take_epoch(session, statement)?;
        self.cubes.push_reserved(decl);
        Ok(CubeAnswer::Created { epoch, place })
    }

    /// Looks for the cube of a name. Where none has it, an entry says so.
    pub fn find_cube(
        &mut self,
        session: u32,
        statement: u32,
        name: &str,
    ) -> Result<CubeFound, AllocError>
        ensures found { IfOk result (λ f. IsFound self.old.cubes name.now f) }
        ensures desk { IfOk result (λ f. self.new
            ≡ desk_after_search self.old session statement name.now f) }
        ensures same { OnErr result (self.new ≡ self.old) }
    {
        match find(self.cubes.as_slice(), name.as_bytes())? {
            CubeFound::Found { place, decl } => Ok(CubeFound::Found { place, decl }),
            CubeFound::Unknown => {
                self.refuse(session, statement, UNKNOWN_CUBE)?;
                Ok(CubeFound::Unknown)
            }
        }
    }

    /// The cubes from a place on.
    pub fn cubes_from(&self, alloc: Global, place: u32) -> Result<Decls, AllocError>
        requires { place ≤ length self.now.cubes }
        ensures { IfOk result (λ decls. decls ≡ drop place self.now.cubes) }
    {
        let decls = copy_decls(alloc, &self.cubes[place as usize..])?;
        Ok(Decls::from_vec(decls))
    }

    /// Opens a round up to the target, where that is above the latest safe epoch. Its memory is also that of
    /// the entry that closes it.
    pub fn round_open(&mut self) -> Result<RoundAnswer, AllocError>
        requires { MayAskRound (state_of self.old.register) }
        ensures answer { IfOk result (λ a. a ≡ round_answer (state_of self.old.register)) }
        ensures desk { IfOk result (λ answer. self.new
            ≡ desk_with_entry self.old (answer_entry answer)) }
        ensures same { OnErr result (self.new ≡ self.old) }
    {
        let answer = self.register.round_open()?;
        Ok(answer)
    }

    /// Closes the open round.
    pub fn round_close(&mut self, epoch: u64, end: RoundEnd)
        requires { (state_of self.old.register).round ≡ Some epoch }
        ensures { self.new ≡ desk_with_entry self.old (end_entry epoch end) }
    {
        self.register.round_close(epoch, end);
    }

    /// The counters.
    pub fn counters(&self) -> Counters
        ensures { result ≡ counters self.now.register.safe self.now.register.journal }
    {
        self.register.counters()
    }

    /// Whether a round was lost to the disk.
    pub fn store_failed(&self) -> bool
        ensures { result ≡ (state_of self.now.register).store_failed }
    {
        self.register.store_failed()
    }

    /// The journal.
    pub fn journal(&self) -> &[JournalEntry]
        ensures journal { result.now ≡ self.now.register.journal }
        ensures legal { IsLegalDesk self.now }
    {
        self.register.journal()
    }

    /// Hands the journal out.
    pub fn into_journal(self) -> Vec<JournalEntry>
        ensures { result.items ≡ self.register.journal }
    {
        Box::into_inner(self.register).into_journal()
    }

    /// The open snapshots in the order of opening.
    pub fn open_roll(&self) -> &Roll<OpenSnapshot>
        ensures { items result.now.members ≡ (state_of self.now.register).snapshots }
    {
        self.register.open_roll()
    }

    /// The pending epochs in the order of opening. They rise.
    pub fn pending_roll(&self) -> &Roll<u64>
        ensures items { items result.now.members ≡ (state_of self.now.register).pending }
        ensures rise { Rise 0 (items result.now.members) (state_of self.now.register).ec }
    {
        self.register.pending_roll()
    }

    /// A law: EC is above LCE; from LSE over the bounds of the open snapshots, in the order of opening, up to
    /// LCE no number falls; the open round's target is not above them; and the cubes are few, of different
    /// names, and can be stored.
    pub fn is_in_order(&self)
        ensures counters { IsInOrder (state_of self.now.register) }
        ensures cubes { AreCubes self.now.cubes }
    {
        self.register.is_in_order();
    }

    // Adds a refusal that speaks of the list of cubes.
    fn refuse(&mut self, session: u32, statement: u32, code: u32) -> Result<(), AllocError>
        requires fits { (name : List ℕ) × RefusalFits (decl_names self.old.cubes) name code }
        requires store { code ≢ 17 }
        ensures desk { OnOk result (self.new
            ≡ desk_with_entry self.old (entry.Refused session statement code)) }
        ensures same { OnErr result (self.new ≡ self.old) }
    {
        let _counters = self.register.note(&Note::Refused {
            session,
            statement,
            code,
        })?;
        Ok(())
    }
}
