//! The run over generated rows.
ghost use Rattle.std.specs.Prelude.{◌≡◌, ◌≤◌, ◌++◌, ◌∷◌, [], IfOk, None, Some, codes, decimal, length, map, string_bytes, true};
ghost use Rattle.std.specs.Bool.{OnTrue};
ghost use Rattle.std.specs.List.{AllByRecursion};
ghost use Rattle.std.specs.Option.{option_copied};
ghost use Rattle.script_sentences.specs.GivenTexts.{MayBeSaid};
ghost use Rattle.cube_gen.specs.Generated.{part_name, part_text, script_text};
ghost use Rattle.cube_journal.specs.Counters.{counters};
ghost use Rattle.cube_journal.specs.JournalLines.{end_text};
ghost use Rattle.cube_journal.specs.Replies.{table_text};
ghost use Rattle.cube_schema.specs.Texts.{AreDeclared};
ghost use Rattle.played_runs.specs.ReadySessions.{said_in};
ghost use Rattle.played_runs.specs.RunsOnRecord.{has_saved};
ghost use Rattle.cubrick_top.specs.Generated.{GeneratedEnds, HasClosingLines, IsWrittenFirst, PlaysGenerated, ReadsGenerated, closing_lines, files_told, first_script, generated_files, generated_shelves, is_stored, lines_at, part_file, script_name, script_names};
ghost use Rattle.cubrick_top.specs.PlayedEnds.{OutputRises};
ghost use Rattle.cubrick_top.specs.Statuses.{status_of};

use crate::fault::{Fault, Finish, finish_unplayed, status_of};
use crate::writing::put_text;
use core_program::CoreSize;
use cube_gen::{part, script};
use cube_journal::{Counters, Reply};
use cube_language::put_u64;
use cube_values::{Line, Text};
use flush_loop::{NoStore, RoundResult};
use opened_rounds::a_core_without_a_store_keeps_no_rounds;
use opened_store::kept_at_start;
use outside::{ShelfMemory, Sink};
use outside_disk::Gate;
use played_runs::{PlayedRun, play_run};
use report_text::{put_end, put_table};
use run_inputs::{RunInput, read_run_files, scripts_that_were_read_may_be_given};
use run_words::GenerateCommand;
use std::alloc::{AllocError, Global};
use std::sync::Wait;
use std::thread::Threads;
use threaded_callers::ThreadStarter;

/// The name of the cubes file.
const CUBES: &str = "visits.cubes";

/// The query that the first session asks once all have loaded their files.
const CLOSING_QUERY: &[u8] = b"SELECT region, SUM(likes), COUNT(*) FROM visits GROUP BY region";

// The name of a session's script.
fn script_name(alloc: Global, session: u32) -> Result<String, AllocError>
    ensures { IfOk result (λ name. string_bytes name ≡ script_name session) }
{
    format!(in alloc; "session{session}.sql")
}

// The script of the first session, which loads its file, and asks in the end.
fn first_script(alloc: Global) -> Result<Vec<u8>, AllocError>
    ensures { IfOk result (λ text. text.items ≡ first_script) }
{
    let mut out = script(alloc, 1)?;
    out.extend_from_slice(CLOSING_QUERY)?;
    Ok(out)
}

// The script of another session, by its name.
fn script_file(alloc: Global, session: u32) -> Result<(String, Vec<u8>), AllocError>
    ensures name { IfOk result (λ file. string_bytes file.0 ≡ script_name session) }
    ensures text { IfOk result (λ file. file.1.items ≡ script_text session) }
{
    Ok((script_name(alloc, session)?, script(alloc, session)?))
}

// The file of a part of the rows.
fn part_file(alloc: Global, rows: u64, number: u32) -> Result<(String, Vec<u8>), AllocError>
    ensures name { IfOk result (λ file. string_bytes file.0 ≡ part_name number) }
    ensures text { IfOk result (λ file. file.1.items ≡ part_text rows number) }
{
    Ok((
        format!(in alloc; "part{number}.csv")?,
        part(alloc, rows, number)?,
    ))
}

// The shelf of the first session: the cubes file, the scripts, and its part of so many rows.
fn first_shelf(alloc: Global, rows: u64) -> Result<ShelfMemory, AllocError>
    ensures { IfOk result (λ shelf. shelf.files ≡ generated_files rows) }
{
    let mut files = Vec::with_capacity(alloc, 6)?;
    let cubes = Vec::from_slice(alloc, cube_gen::cubes_text().as_bytes())?;
    files.push((String::from_str(alloc, CUBES)?, cubes))?;
    files.push((script_name(alloc, 1)?, first_script(alloc)?))?;
    files.push(script_file(alloc, 2)?)?;
    files.push(script_file(alloc, 3)?)?;
    files.push(script_file(alloc, 4)?)?;
    files.push(part_file(alloc, rows, 1)?)?;
    Ok(ShelfMemory::new(files, Vec::new(alloc)))
}

// The shelf of another session, with its part of so many rows.
fn part_shelf(alloc: Global, rows: u64, session: u32) -> Result<ShelfMemory, AllocError>
    ensures { IfOk result (λ shelf. shelf.files ≡ part_file rows session ∷ []) }
{
    let mut files = Vec::with_capacity(alloc, 1)?;
    files.push(part_file(alloc, rows, session)?)?;
    Ok(ShelfMemory::new(files, Vec::new(alloc)))
}

// The names of the scripts.
fn script_names(alloc: Global) -> Result<Vec<Text>, AllocError>
    ensures { IfOk result (λ names. names.items ≡ script_names) }
{
    let mut names = Vec::with_capacity(alloc, 4)?;
    names.push(Text::from_string(script_name(alloc, 1)?))?;
    names.push(Text::from_string(script_name(alloc, 2)?))?;
    names.push(Text::from_string(script_name(alloc, 3)?))?;
    names.push(Text::from_string(script_name(alloc, 4)?))?;
    Ok(names)
}

// Whether a session stored its file.
fn is_stored(replies: &[Reply]) -> bool
    ensures { result ≡ is_stored replies.now }
{
    match replies {
        [Reply::Loaded { .. }] => true,
        _ => false,
    }
}

// The lines of the closing query, where the first session stored its file, and then read at this epoch.
fn lines_at(latest: u64, replies: &[Reply]) -> Option<&[Line]>
    ensures { option_copied result ≡ lines_at latest replies.now }
{
    match replies {
        [Reply::Loaded { .. }, Reply::Rows { epoch, table }] => {
            if *epoch == latest {
                Some(table.as_slice())
            } else {
                None
            }
        }
        _ => None,
    }
}

// The lines of the closing query at an epoch, where all four files were stored.
fn closing_lines(latest: u64, replies: &[Vec<Reply>]) -> Option<&[Line]>
    ensures { option_copied result ≡ closing_lines latest (map said_in replies.now) }
{
    let [first, second, third, fourth] = replies else {
        return None;
    };
    if is_stored(second.as_slice()) && is_stored(third.as_slice()) && is_stored(fourth.as_slice()) {
        lines_at(latest, first.as_slice())
    } else {
        None
    }
}

// The text over these lines and the final counters.
fn text_bytes(
    alloc: Global,
    rows: u64,
    lines: &[Line],
    counters: &Counters,
) -> Result<Vec<u8>, AllocError>
    ensures { IfOk result (λ text. text.items ≡ codes "generated " ++ (decimal rows
        ++ (codes "\n" ++ (table_text lines.now ++ end_text counters.now)))) }
{
    let mut out = Vec::from_slice(alloc, b"generated ")?;
    put_u64(&mut out, rows)?;
    out.push(b'\n')?;
    put_table(&mut out, lines)?;
    put_end(&mut out, counters)?;
    Ok(out)
}

// What a run over generated rows reads: its cubes and its scripts, and the shelves from which it loads.
#[derive(Drop)]
struct GeneratedInput {
    input: RunInput,
    shelves: Vec<ShelfMemory>,
}

// Reads the cubes file and the scripts of a run over so many rows from the first shelf, and gives that back.
fn read_first_shelf<R: Threads + Sync>(
    rt: &R,
    alloc: Global,
    rows: u64,
) -> Result<(RunInput, ShelfMemory), AllocError>
    ensures read { IfOk result (λ r. ReadsGenerated rows r.0) }
    ensures cubes { IfOk result (λ r. AreDeclared r.0.cubes.items) }
    ensures said { IfOk result (λ r. AllByRecursion MayBeSaid r.0.scripts.items) }
    ensures four { IfOk result (λ r. length r.0.scripts.items ≡ 4) }
    ensures shelf { IfOk result (λ r. r.1.files ≡ generated_files rows) }
{
    scripts_that_were_read_may_be_given();
    let names = script_names(alloc)?;
    let mut shelf = first_shelf(alloc, rows)?;
    match read_run_files(rt, alloc, &mut shelf, CUBES, names.as_slice()) {
        Ok(input) => Ok((input, shelf)),
        // The files are in order, so that memory ran out.
        Err(_) => Err(AllocError),
    }
}

// Reads what a run over so many rows plays, and gives each session its shelf.
fn read_generated<R: Threads + Sync>(
    rt: &R,
    alloc: Global,
    rows: u64,
) -> Result<GeneratedInput, AllocError>
    ensures read { IfOk result (λ g. ReadsGenerated rows g.input) }
    ensures cubes { IfOk result (λ g. AreDeclared g.input.cubes.items) }
    ensures said { IfOk result (λ g. AllByRecursion MayBeSaid g.input.scripts.items) }
    ensures four { IfOk result (λ g. length g.input.scripts.items ≡ 4) }
    ensures shelves { IfOk result (λ g.
        map files_told g.shelves.items ≡ generated_shelves rows) }
{
    let mut shelves = Vec::with_capacity(alloc, 4)?;
    let (input, shelf) = read_first_shelf(rt, alloc, rows)?;
    shelves.push(shelf)?;
    shelves.push(part_shelf(alloc, rows, 2)?)?;
    shelves.push(part_shelf(alloc, rows, 3)?)?;
    shelves.push(part_shelf(alloc, rows, 4)?)?;
    Ok(GeneratedInput { input, shelves })
}

// Plays the scripts over the files of so many rows. The closing query waits until all files are loaded.
fn play_generated<R: Threads + Wait + Sync, G: Gate + Sync>(
    rt: &R,
    alloc: Global,
    starter: ThreadStarter,
    command: GenerateCommand,
    gate: &G,
) -> Result<PlayedRun<ShelfMemory, NoStore>, AllocError>
    requires some_shards { 1 ≤ command.settings.shards }
    requires few_shards { command.settings.shards ≤ 64 }
    ensures played { IfOk result (λ ran. OnTrue ran.whole (PlaysGenerated command
        (map said_in ran.replies.items) ran.names ran.journal.items
        (has_saved ran.last_round) ran.shards.items)) }
    ensures counters { IfOk result (λ ran. ran.counters ≡ counters 0 ran.journal.items) }
{
    a_core_without_a_store_keeps_no_rounds();
    let GeneratedInput { input, shelves } = read_generated(rt, alloc, command.rows as u64)?;
    let kept = kept_at_start(alloc, input.cubes.as_slice())?;
    let size = CoreSize::new(command.settings.shards, 4);
    match play_run(
        rt,
        alloc,
        starter,
        size,
        command.settings.round_every,
        &kept,
        input.scripts,
        1,
        shelves,
        NoStore,
        gate,
    ) {
        Ok(ran) => Ok(ran),
        // Nothing is kept, so that memory ran out.
        Err(_) => Err(AllocError),
    }
}

// The text over what the scripts have left, where they were played whole and all files were stored.
fn generated_bytes(
    alloc: Global,
    rows: u64,
    ran: &PlayedRun<ShelfMemory, NoStore>,
) -> Result<Vec<u8>, AllocError>
    requires counters { ran.now.counters ≡ counters 0 ran.now.journal.items }
    ensures whole { IfOk result (λ text. ran.now.whole ≡ true) }
    ensures text { IfOk result (λ text. HasClosingLines rows (map said_in ran.now.replies.items)
        ran.now.journal.items text.items) }
{
    if !ran.whole {
        return Err(AllocError);
    }
    // The files are in order and so is the query, which waits for all loads: where they were not stored, memory ran out.
    match closing_lines(ran.counters.lce, ran.replies.as_slice()) {
        Some(lines) => text_bytes(alloc, rows, lines, &ran.counters),
        None => Err(AllocError),
    }
}

// Writes the text, and ends the run.
fn finish_generated<K: Sink>(
    sink: &mut K,
    text: &[u8],
    ran: PlayedRun<ShelfMemory, NoStore>,
) -> Finish
    ensures status { result.status ≡ status_of result.fault }
    ensures journal { result.journal.items ≡ ran.journal.items }
    ensures names { result.names ≡ ran.names }
    ensures output { OutputRises result.fault (K.fault_count sink.old) (K.fault_count sink.new) }
    ensures shards { result.shards ≡ ran.shards }
    ensures saved { result.fault ≡ None → has_saved ran.last_round ≡ true }
    ensures written { IsWrittenFirst (K.taken sink.old) text.now (K.taken sink.new) result.fault }
{
    let PlayedRun {
        journal,
        names,
        shards,
        last_round,
        ..
    } = ran;
    let fault = match put_text(sink, text) {
        None => match last_round {
            Some(RoundResult::Safe(_)) => None,
            Some(RoundResult::Idle(_)) => None,
            _ => Some(Fault::NoMemory),
        },
        Some(fault) => Some(fault),
    };
    Finish {
        status: status_of(&fault),
        fault,
        journal,
        names,
        shards,
    }
}

// Writes the text of what was played.
fn write_generated<K: Sink>(
    alloc: Global,
    command: GenerateCommand,
    ran: PlayedRun<ShelfMemory, NoStore>,
    sink: &mut K,
) -> Finish
    requires played { OnTrue ran.whole (PlaysGenerated command
        (map said_in ran.replies.items) ran.names ran.journal.items (has_saved ran.last_round)
        ran.shards.items) }
    requires counters { ran.counters ≡ counters 0 ran.journal.items }
    ensures status { result.status ≡ status_of result.fault }
    ensures output { OutputRises result.fault (K.fault_count sink.old) (K.fault_count sink.new) }
    ensures ended { GeneratedEnds command (K.taken sink.old) (K.taken sink.new) result
        result.fault }
{
    match generated_bytes(alloc, command.rows as u64, &ran) {
        Ok(text) => finish_generated(sink, text.as_slice(), ran),
        Err(_) => finish_unplayed(alloc, Fault::NoMemory),
    }
}

/// Plays the scripts over the files of so many rows, and writes the text.
pub(crate) fn run_generator<R: Threads + Wait + Sync, K: Sink, G: Gate + Sync>(
    rt: &R,
    alloc: Global,
    starter: ThreadStarter,
    command: GenerateCommand,
    gate: &G,
    sink: &mut K,
) -> Finish
    requires some_shards { 1 ≤ command.settings.shards }
    requires few_shards { command.settings.shards ≤ 64 }
    ensures status { result.status ≡ status_of result.fault }
    ensures output { OutputRises result.fault (K.fault_count sink.old) (K.fault_count sink.new) }
    ensures ended { GeneratedEnds command (K.taken sink.old) (K.taken sink.new) result
        result.fault }
{
    match play_generated(rt, alloc, starter, command, gate) {
        Ok(ran) => write_generated(alloc, command, ran, sink),
        Err(_) => finish_unplayed(alloc, Fault::NoMemory),
    }
}
