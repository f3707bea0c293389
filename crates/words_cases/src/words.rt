//! Words with the command that they ask for, or the fault that they have.

use cube_values::{CallError, Texts};
use run_words::{Command, Settings, read_words, words_ask_for_a_command_or_have_one_fault};
use std::alloc::{AllocError, Global};
use std::test::Fail;

const USAGE: &str =
    "usage: cubrick --cubes FILE [--store FILE] [--new] [--shards N] [--round-every N] SCRIPT..";

// Each option, and each more of clap's rules, with words that are taken.
const ACCEPTED: [(&[&str], &str); 21] = [
    // A value is the next word, or stands after `=`.
    (&["--cubes", "c", "s"], "cubes c shards 4 scripts s,"),
    (&["--cubes=c", "s"], "cubes c shards 4 scripts s,"),
    (
        &["--cubes", "c", "--store", "d", "s"],
        "cubes c open d shards 4 scripts s,",
    ),
    (
        &["--cubes", "c", "--store=d", "--new", "s"],
        "cubes c make d shards 4 scripts s,",
    ),
    // Options come in any order, also between and behind the scripts.
    (
        &[
            "a",
            "--shards",
            "64",
            "b",
            "--new",
            "--round-every=1000000",
            "--cubes",
            "c",
            "--store",
            "d",
        ],
        "cubes c make d shards 64 round 1000000 scripts a,b,",
    ),
    (
        &["--round-every", "1", "--shards=1", "s", "--cubes", "c"],
        "cubes c shards 1 round 1 scripts s,",
    ),
    // Behind `--` each word is a script.
    (
        &["--cubes", "c", "--", "--new"],
        "cubes c shards 4 scripts --new,",
    ),
    (
        &["--cubes", "c", "a", "--", "--", "-x"],
        "cubes c shards 4 scripts a,--,-x,",
    ),
    // A hyphen alone and an empty word are names.
    (&["--cubes", "-", "-"], "cubes - shards 4 scripts -,"),
    (&["--cubes", "", ""], "cubes  shards 4 scripts ,"),
    (&["--cubes=", "s"], "cubes  shards 4 scripts s,"),
    // After `=` a value may be anything.
    (&["--cubes=a=b", "s"], "cubes a=b shards 4 scripts s,"),
    (&["--cubes=--new", "s"], "cubes --new shards 4 scripts s,"),
    (
        &["--cubes", "c=d", "e=f"],
        "cubes c=d shards 4 scripts e=f,",
    ),
    // Names are no more than names.
    (&["--cubes", "s", "s", "s"], "cubes s shards 4 scripts s,s,"),
    (&["--cubes", "é", "日本"], "cubes é shards 4 scripts 日本,"),
    (
        &[
            "--cubes", "c", "1", "2", "3", "4", "5", "6", "7", "8", "9", "10", "11", "12", "13",
            "14", "15", "16",
        ],
        "cubes c shards 4 scripts 1,2,3,4,5,6,7,8,9,10,11,12,13,14,15,16,",
    ),
    // Generated rows.
    (&["--generate", "1"], "rows 1 shards 4"),
    (&["--generate=1000000"], "rows 1000000 shards 4"),
    (
        &["--shards", "2", "--generate", "10", "--round-every", "7"],
        "rows 10 shards 2 round 7",
    ),
    (&["--generate", "100000", "--"], "rows 100000 shards 4"),
];

// What clap refuses.
const NOT_TAKEN: [&[&str]; 24] = [
    // An option stands twice.
    &["--cubes", "c", "--cubes", "c", "s"],
    &["--cubes", "c", "--shards=1", "s", "--shards=1"],
    &["--cubes", "c", "--store", "d", "--new", "--new", "s"],
    &["--generate", "1", "--generate", "1"],
    // It has no value: words are at their end, or a word with a hyphen follows.
    &["--cubes"],
    &["s", "--cubes", "c", "--store"],
    &["--cubes", "--new", "s"],
    &["--cubes", "--", "c", "s"],
    &["--generate", "-1"],
    &["--cubes", "-c", "s"],
    // A flag has a value.
    &["--cubes", "c", "--store", "d", "--new=", "s"],
    &["--cubes", "c", "--store", "d", "--new=true", "s"],
    // There is no such option.
    &["--help"],
    &["-h"],
    &["--version"],
    &["-V"],
    &["help", "--help"],
    &["--cube", "c", "s"],
    &["--CUBES", "c", "s"],
    &["-c", "c", "s"],
    &["-cubes", "c", "s"],
    &["--=c", "s"],
    &["---", "s"],
    &["--scripts", "s", "--cubes", "c"],
];

// What clap takes and asks for nothing.
const REFUSED: [(&[&str], &str); 34] = [
    (&[], "--cubes is missing"),
    (&["--"], "--cubes is missing"),
    (&["c", "s"], "--cubes is missing"),
    (&["--new"], "--cubes is missing"),
    (&["--store", "d", "--new", "s"], "--cubes is missing"),
    (&["--cubes", "c"], "no script is given"),
    (&["--cubes", "c", "--"], "no script is given"),
    (
        &[
            "--cubes", "c", "1", "2", "3", "4", "5", "6", "7", "8", "9", "10", "11", "12", "13",
            "14", "15", "16", "17",
        ],
        "more than 16 scripts are given",
    ),
    (&["--cubes", "c", "--new", "s"], "--new needs --store"),
    (&["--cubes", "c", "--new"], "--new needs --store"),
    (
        &["--cubes", "c", "--shards", "0", "s"],
        "--shards wants a number from 1 to 64",
    ),
    (
        &["--cubes", "c", "--shards", "65", "s"],
        "--shards wants a number from 1 to 64",
    ),
    (
        &["--cubes", "c", "--shards", "04", "s"],
        "--shards wants a number from 1 to 64",
    ),
    (
        &["--cubes", "c", "--shards", "+4", "s"],
        "--shards wants a number from 1 to 64",
    ),
    (
        &["--cubes", "c", "--shards=-4", "s"],
        "--shards wants a number from 1 to 64",
    ),
    (
        &["--cubes", "c", "--shards", " 4", "s"],
        "--shards wants a number from 1 to 64",
    ),
    (
        &["--cubes", "c", "--shards", "4.", "s"],
        "--shards wants a number from 1 to 64",
    ),
    (
        &["--cubes", "c", "--shards", "", "s"],
        "--shards wants a number from 1 to 64",
    ),
    (
        &["--cubes", "c", "--shards", "4294967297", "s"],
        "--shards wants a number from 1 to 64",
    ),
    (
        &["--cubes", "c", "--round-every", "0", "s"],
        "--round-every wants a number from 1 to 1000000",
    ),
    (
        &["--cubes", "c", "--round-every", "1000001", "s"],
        "--round-every wants a number from 1 to 1000000",
    ),
    (
        &["--cubes", "c", "--round-every", "1e3", "s"],
        "--round-every wants a number from 1 to 1000000",
    ),
    (
        &["--generate", "0"],
        "--generate wants a number from 1 to 1000000",
    ),
    (
        &["--generate", "01"],
        "--generate wants a number from 1 to 1000000",
    ),
    (
        &["--generate", "1000001"],
        "--generate wants a number from 1 to 1000000",
    ),
    (
        &["--generate", "s"],
        "--generate wants a number from 1 to 1000000",
    ),
    (
        &["--generate", "1", "s"],
        "--generate goes with no file, no script and no --new",
    ),
    (
        &["--generate", "1", "--cubes", "c"],
        "--generate goes with no file, no script and no --new",
    ),
    (
        &["--generate", "1", "--store", "d"],
        "--generate goes with no file, no script and no --new",
    ),
    (
        &["--generate", "1", "--new"],
        "--generate goes with no file, no script and no --new",
    ),
    // Of several faults the first in the order of `WordsFault` is told.
    (
        &["--generate", "0", "--shards", "0", "--round-every", "0"],
        "--shards wants a number from 1 to 64",
    ),
    (
        &["--generate", "0", "--round-every", "0", "--cubes", "c"],
        "--round-every wants a number from 1 to 1000000",
    ),
    (
        &["--generate", "0", "--cubes", "c"],
        "--generate wants a number from 1 to 1000000",
    ),
    (&["--new", "--shards", "4"], "--cubes is missing"),
];

fn settings_shown(alloc: Global, settings: Settings) -> Result<String, AllocError> {
    match settings.round_every {
        Some(commits) => format!(in alloc; "shards {} round {commits}", settings.shards),
        None => format!(in alloc; "shards {}", settings.shards),
    }
}

fn names_shown(alloc: Global, names: &Texts) -> Result<String, AllocError> {
    let mut shown = String::new(alloc);
    for name in names.as_slice() {
        shown.push_str(name.as_str())?;
        shown.push_str(",")?;
    }
    Ok(shown)
}

fn command_shown(alloc: Global, command: &Command) -> Result<String, AllocError> {
    match command {
        Command::Run(run) => {
            let store = match &run.store {
                None => String::new(alloc),
                Some(store) if store.is_new => format!(in alloc; " make {}", store.name)?,
                Some(store) => format!(in alloc; " open {}", store.name)?,
            };
            let settings = settings_shown(alloc, run.settings)?;
            let scripts = names_shown(alloc, &run.scripts)?;
            format!(in alloc; "cubes {}{store} {settings} scripts {scripts}", run.cubes)
        }
        Command::Generate(rows) => {
            let settings = settings_shown(alloc, rows.settings)?;
            format!(in alloc; "rows {} {settings}", rows.rows)
        }
    }
}

// The command that the words ask for, or the text of their fault.
fn words_shown(alloc: Global, texts: &[&str]) -> Result<String, AllocError> {
    let mut words = Vec::new(alloc);
    for text in texts {
        words.push(String::from_str(alloc, text)?)?;
    }
    match read_words(alloc, words.as_slice()) {
        Ok(command) => command_shown(alloc, &command),
        Err(CallError::Fault(fault)) => format!(in alloc; "{fault}"),
        Err(CallError::NoMemory) => Err(AllocError),
    }
}

#[test]
fn words_ask_for_their_command(rt: HostRuntime) -> Result<(), Fail> {
    words_ask_for_a_command_or_have_one_fault();
    for (words, shown) in &ACCEPTED {
        assert_eq!(rt; words_shown(rt.alloc(), words)?.as_str(), *shown);
    }
    Ok(())
}

#[test]
fn words_are_not_taken(rt: HostRuntime) -> Result<(), Fail> {
    for (place, words) in NOT_TAKEN.iter().enumerate() {
        assert_eq!(rt;
            words_shown(rt.alloc(), words)?.as_str(),
            USAGE,
            "row {place}"
        );
    }
    Ok(())
}

#[test]
fn words_ask_for_nothing(rt: HostRuntime) -> Result<(), Fail> {
    for (words, shown) in &REFUSED {
        assert_eq!(rt; words_shown(rt.alloc(), words)?.as_str(), *shown);
    }
    Ok(())
}
