//! The command that words ask for.

ghost use Rattle.std.specs.Prelude.{◌≡◌, ◌↔◌, IfOk, IfErr, IsTrue, None, Some, map, string_bytes, true};
ghost use Rattle.cube_values.specs.Faults.{IfFault};
ghost use Rattle.run_words.specs.Commands.{AskFor, AskForRows, AskForRun, AskForSettings, AskForStore, GiveNoFile};
ghost use Rattle.run_words.specs.Numbers.{IsBadNumber, IsNumberIf, IsNumberOr};
ghost use Rattle.run_words.specs.Words.{AreWordsOf, HaveFault, IsFirstWrong, words_faults};
ghost use Rattle.run_words.specs.declared.fault.WordsFault.TheVariants.{BadRoundEvery, BadShards, NewWithoutStore};

use crate::command::{Command, GenerateCommand, RunCommand, Settings, StoreName};
use crate::command_line::given_by;
use crate::fault::WordsFault;
use crate::given::Given;
use crate::number::number_up_to;
use cube_values::{CallError, Text};
use std::alloc::Global;

/// The most shards.
pub const MOST_SHARDS: u32 = 64;

/// How many shards there are where no word says so.
pub const DEFAULT_SHARDS: u32 = 4;

/// The most commits to a round that is made besides.
pub const MOST_ROUND_EVERY: u32 = 1_000_000;

/// The most rows that are generated.
pub const MOST_GENERATED: u32 = 1_000_000;

/// The most scripts of a run.
pub const MOST_SCRIPTS: usize = 16;

// How many shards are asked for.
fn shards_of(given: &Given) -> Result<u32, WordsFault>
    ensures number { IfOk result (IsNumberOr DEFAULT_SHARDS MOST_SHARDS given.now.shards) }
    ensures fault { IfErr result (λ fault.
        (fault ≡ BadShards) × IsBadNumber MOST_SHARDS given.now.shards) }
{
    match &given.shards {
        Some(text) => number_up_to(MOST_SHARDS, text.as_str()).ok_or(WordsFault::BadShards),
        None => Ok(DEFAULT_SHARDS),
    }
}

// After how many commits a round is asked for.
fn round_every_of(given: &Given) -> Result<Option<u32>, WordsFault>
    ensures number { IfOk result (IsNumberIf MOST_ROUND_EVERY given.now.round_every) }
    ensures fault { IfErr result (λ fault.
        (fault ≡ BadRoundEvery) × IsBadNumber MOST_ROUND_EVERY given.now.round_every) }
{
    match &given.round_every {
        Some(text) => match number_up_to(MOST_ROUND_EVERY, text.as_str()) {
            Some(commits) => Ok(Some(commits)),
            None => Err(WordsFault::BadRoundEvery),
        },
        None => Ok(None),
    }
}

// The settings that are asked for.
fn settings_of(given: &Given) -> Result<Settings, WordsFault>
    ensures settings { IfOk result (AskForSettings given.now) }
    ensures fault { IfErr result (IsFirstWrong given.now words_faults) }
{
    let shards = shards_of(given)?;
    let round_every = round_every_of(given)?;
    Ok(Settings {
        shards,
        round_every,
    })
}

// Whether no file, no script and no new store is given.
fn gives_no_file(given: &Given) -> bool
    ensures { IsTrue result ↔ GiveNoFile given.now }
{
    given.cubes.is_none() && given.store.is_none() && !given.is_new && given.scripts.is_empty()
}

// The run over generated rows that is asked for, with these settings.
fn rows_of(given: &Given, text: &Text, settings: Settings) -> Result<GenerateCommand, WordsFault>
    requires number { given.now.generate ≡ Some text.now }
    requires settings { AskForSettings given.now settings }
    ensures rows { IfOk result (AskForRows given.now) }
    ensures fault { IfErr result (IsFirstWrong given.now words_faults) }
{
    let Some(rows) = number_up_to(MOST_GENERATED, text.as_str()) else {
        return Err(WordsFault::BadRows);
    };
    if !gives_no_file(given) {
        return Err(WordsFault::NotAlone);
    }
    Ok(GenerateCommand { rows, settings })
}

// The store that is asked for.
fn store_of(name: Option<Text>, is_new: bool) -> Result<Option<StoreName>, WordsFault>
    ensures store { IfOk result (AskForStore name is_new) }
    ensures fault { IfErr result (λ fault.
        (fault ≡ NewWithoutStore) × (is_new ≡ true) × (name ≡ None)) }
{
    match name {
        Some(name) => Ok(Some(StoreName { name, is_new })),
        None if is_new => Err(WordsFault::NewWithoutStore),
        None => Ok(None),
    }
}

// The run of scripts that is asked for, with these settings.
fn run_of(given: Given, settings: Settings) -> Result<RunCommand, WordsFault>
    requires no_rows { given.generate ≡ None }
    requires settings { AskForSettings given settings }
    ensures run { IfOk result (AskForRun given) }
    ensures fault { IfErr result (IsFirstWrong given words_faults) }
{
    let Given {
        cubes,
        store,
        is_new,
        scripts,
        ..
    } = given;
    let Some(cubes) = cubes else {
        return Err(WordsFault::NoCubes);
    };
    let store = store_of(store, is_new)?;
    if scripts.is_empty() {
        return Err(WordsFault::NoScripts);
    }
    if scripts.len() > MOST_SCRIPTS {
        return Err(WordsFault::TooManyScripts);
    }
    Ok(RunCommand {
        cubes,
        store,
        settings,
        scripts,
    })
}

// The command that is asked for.
fn command_of(given: Given) -> Result<Command, WordsFault>
    ensures command { IfOk result (AskFor given) }
    ensures fault { IfErr result (IsFirstWrong given words_faults) }
{
    let settings = settings_of(&given)?;
    match &given.generate {
        Some(text) => Ok(Command::Generate(rows_of(&given, text, settings)?)),
        None => Ok(Command::Run(run_of(given, settings)?)),
    }
}

/// The command that the words ask for, or the first cause for which they ask for none.
pub fn read_words(alloc: Global, words: &[String]) -> Result<Command, CallError<WordsFault>>
    ensures command { IfOk result (AreWordsOf (map string_bytes words.now)) }
    ensures fault { IfFault result (HaveFault (map string_bytes words.now)) }
{
    match command_of(given_by(alloc, words)?) {
        Ok(command) => Ok(command),
        Err(fault) => Err(CallError::Fault(fault)),
    }
}
