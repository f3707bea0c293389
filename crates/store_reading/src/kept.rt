//! What a store keeps.

ghost use Rattle.std.specs.Prelude.{◌≡◌, ◌++◌, map, All, IfOk};
ghost use Rattle.cube_language.specs.Cubes.{IsStorable};
ghost use Rattle.cube_rounds.specs.Demands.{no_names, FitsRound};
ghost use Rattle.cube_rounds.specs.Stands.{kept_of_cubes, kept_with};
ghost use Rattle.store_reading.specs.Parts.{HaveNameLists};

use crate::names::names_behind;
use cube_language::Decl;
use cube_rounds::Round;
use cube_schema::{Schema, Schemas, check};
use cube_values::{CallError, NameLists, Sequence};
use round_reading::no_names_of;
use std::alloc::{AllocError, Global};
use std::marker::Model;

/// Rounds in order.
pub type Rounds = Sequence<Round>;

/// The cubes, those of the header first, the epoch up to which everything is kept, the names, and the
/// rounds that the rows are in.
#[derive(Debug, Drop)]
pub struct Kept {
    pub cubes: Schemas,
    /// How many of the cubes are the header's.
    pub declared: u32,
    pub epoch: u64,
    pub names: NameLists,
    pub rounds: Rounds,
}

impl Model for Kept {
    ghost use Rattle.cube_rounds.specs.Stands.{Kept as KeptData};

    ghost Value = { KeptData };

    ghost view = { λ k. record {
      cubes = k.cubes;
      declared = k.declared;
      epoch = k.epoch;
      names = k.names;
      rounds = k.rounds;
    } };
}

/// A declaration that can be stored as a schema.
fn schema_of(alloc: Global, cube: &Decl) -> Result<Schema, AllocError>
    requires { IsStorable cube.now }
    ensures { IfOk result (λ schema. schema ≡ cube.now) }
{
    match check(alloc, cube) {
        Ok(schema) => Ok(schema),
        Err(CallError::Fault(_)) => unreachable!(),
        Err(CallError::NoMemory) => Err(AllocError),
    }
}

/// The cubes with more behind them, which can be stored.
pub fn with_cubes(alloc: Global, cubes: Schemas, made: &[Decl]) -> Result<Schemas, AllocError>
    requires { All IsStorable made.now }
    ensures { IfOk result (λ all. all ≡ cubes ++ made.now) }
{
    let mut all = cubes;
    'cubes: for cube in made {
        all.push(schema_of(alloc, cube)?)?;
    }
    Ok(all)
}

impl Kept {
    /// What a store of these cubes keeps without rounds.
    pub fn of_cubes(alloc: Global, cubes: Schemas) -> Result<Kept, AllocError>
        ensures { IfOk result (λ kept. kept ≡ kept_of_cubes cubes) }
    {
        let names = no_names_of(alloc, cubes.as_slice())?;
        // A number of 32 bits counts all cubes that memory holds.
        let Ok(declared) = u32::try_from(cubes.len()) else {
            return Err(AllocError);
        };
        Ok(Kept {
            cubes,
            declared,
            epoch: 0,
            names,
            rounds: Rounds::new(alloc),
        })
    }

    /// What is kept with one round more.
    pub fn with_round(self, alloc: Global, round: Round) -> Result<Kept, AllocError>
        requires storable { All IsStorable round.made }
        requires names { HaveNameLists (self.names ++ map no_names round.made) round.cubes }
        ensures { IfOk result (λ kept. kept ≡ kept_with self round) }
    {
        let Kept {
            cubes,
            declared,
            epoch: _,
            names,
            mut rounds,
        } = self;
        let names = names_behind(alloc, names, round.made.as_slice(), round.cubes.as_slice())?;
        let cubes = with_cubes(alloc, cubes, round.made.as_slice())?;
        let epoch = round.epoch;
        rounds.push(round)?;
        Ok(Kept {
            cubes,
            declared,
            epoch,
            names,
            rounds,
        })
    }
}
