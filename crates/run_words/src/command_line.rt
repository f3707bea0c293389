//! The command as `clap` reads it, and what words give by it.

ghost use Rattle.std.specs.Prelude.{◌≡◌, [], IfOk, OnOk, false, map, string_bytes, unwrap_or};
ghost use Rattle.clap.specs.Matches.{found_of};
ghost use Rattle.clap.specs.Simple.{app_of, matches_of, with_rule};
ghost use Rattle.clap.specs.Takes.{is_given};
ghost use Rattle.clap.specs.Walk.{all_of, first_of, rows_of, rule_of};
ghost use Rattle.cube_values.specs.Faults.{IfFault};
ghost use Rattle.run_words.specs.CommandLine.{AreTaken, bare_command, command_line, flag_rule, given_by, given_in, option_rule, rest_rule};
ghost use Rattle.run_words.specs.declared.fault.WordsFault.TheVariants.{NotTaken};

use crate::fault::WordsFault;
use crate::given::Given;
use clap::error::ErrorKind;
use clap::parser::ValueSource;
use clap::{Arg, ArgAction, ArgMatches, Command};
use cube_values::{CallError, Text, Texts};
use std::alloc::{AllocError, Global};

// `--name VALUE`.
fn option<'a>(alloc: Global, name: &'a str) -> Arg<'a>
    ensures rule { rule_of result ≡ option_rule name.entry.now }
    ensures own { result.global ≡ false }
{
    Arg::new(alloc, name).long(name).action(ArgAction::Set)
}

// `--name`.
fn flag<'a>(alloc: Global, name: &'a str) -> Arg<'a>
    ensures rule { rule_of result ≡ flag_rule name.entry.now }
    ensures own { result.global ≡ false }
{
    Arg::new(alloc, name).long(name).action(ArgAction::SetTrue)
}

// Words that belong to no option.
fn rest<'a>(alloc: Global, name: &'a str) -> Arg<'a>
    ensures rule { rule_of result ≡ rest_rule name.entry.now }
    ensures own { result.global ≡ false }
{
    Arg::new(alloc, name).action(ArgAction::Append)
}

// The command before it has options.
fn bare_command<'a>(alloc: Global) -> Command<'a>
    ensures { app_of result ≡ bare_command }
{
    Command::new(alloc, "cubrick")
        .no_binary_name(true)
        .disable_help_flag(true)
}

// One more argument.
fn with_arg<'a>(command: Command<'a>, arg: Arg<'a>) -> Result<Command<'a>, AllocError>
    requires { arg.global ≡ false }
    ensures { IfOk result (λ more. app_of more
        ≡ with_rule (app_of command.entry) (rule_of arg.entry)) }
{
    command.arg(arg)
}

// The whole command.
fn command_line<'a>(alloc: Global) -> Result<Command<'a>, AllocError>
    ensures { IfOk result (λ command. app_of command ≡ command_line) }
{
    let command = with_arg(bare_command(alloc), option(alloc, "cubes"))?;
    let command = with_arg(command, option(alloc, "store"))?;
    let command = with_arg(command, flag(alloc, "new"))?;
    let command = with_arg(command, option(alloc, "shards"))?;
    let command = with_arg(command, option(alloc, "round-every"))?;
    let command = with_arg(command, option(alloc, "generate"))?;
    with_arg(command, rest(alloc, "scripts"))
}

// What `clap` finds in the words.
fn matches<'a>(alloc: Global, words: &'a [String]) -> Result<ArgMatches<'a>, CallError<WordsFault>>
    ensures taken { OnOk result (AreTaken (map string_bytes words.now)) }
    ensures found { IfOk result (λ matches. rows_of (found_of matches)
        ≡ matches_of command_line (map string_bytes words.now)) }
    ensures refused { IfFault result (λ fault. (fault ≡ NotTaken)
        × (AreTaken (map string_bytes words.now) → ⊥)) }
{
    let command = command_line(alloc)?;
    match command.try_get_matches_from(words) {
        Ok(matches) => Ok(matches),
        Err(error) => match error.kind() {
            ErrorKind::OutOfMemory => Err(CallError::NoMemory),
            _ => Err(CallError::Fault(WordsFault::NotTaken)),
        },
    }
}

// The value of an option.
fn value_of(alloc: Global, matches: &ArgMatches<'_>, name: &str) -> Result<Option<Text>, AllocError>
    ensures { IfOk result (λ value. value ≡ first_of name.now (rows_of (found_of matches.now))) }
{
    match matches.get_str(name) {
        Some(value) => Ok(Some(Text::new(alloc, value)?)),
        None => Ok(None),
    }
}

// Whether a flag stands among the words.
fn is_given(matches: &ArgMatches<'_>, name: &str) -> bool
    ensures { result ≡ is_given name.now (rows_of (found_of matches.now)) }
{
    match matches.value_source(name) {
        Some(ValueSource::CommandLine) => true,
        Some(ValueSource::DefaultValue) => false,
        None => matches.contains_id(name),
    }
}

// Copies of words.
fn texts_of(alloc: Global, words: &[&str]) -> Result<Texts, AllocError>
    ensures { IfOk result (λ texts. texts ≡ map (λ word. word.now) words.now) }
{
    let mut texts = Vec::new(alloc);
    'words: for word in words {
        texts.push(Text::new(alloc, word)?)?;
    }
    Ok(Texts::from_vec(texts))
}

// All values of an argument.
fn values_of(alloc: Global, matches: &ArgMatches<'_>, name: &str) -> Result<Texts, AllocError>
    ensures { IfOk result (λ values.
        values ≡ unwrap_or (all_of name.now (rows_of (found_of matches.now))) []) }
{
    match matches.get_strs(name) {
        Some(words) => texts_of(alloc, words),
        None => Ok(Texts::new(alloc)),
    }
}

// What was found, by the names.
fn given_in(alloc: Global, matches: &ArgMatches<'_>) -> Result<Given, AllocError>
    ensures { IfOk result (λ given. given ≡ given_in (rows_of (found_of matches.now))) }
{
    Ok(Given {
        cubes: value_of(alloc, matches, "cubes")?,
        store: value_of(alloc, matches, "store")?,
        is_new: is_given(matches, "new"),
        shards: value_of(alloc, matches, "shards")?,
        round_every: value_of(alloc, matches, "round-every")?,
        generate: value_of(alloc, matches, "generate")?,
        scripts: values_of(alloc, matches, "scripts")?,
    })
}

/// What the words give, where `clap` takes them.
pub(crate) fn given_by(alloc: Global, words: &[String]) -> Result<Given, CallError<WordsFault>>
    ensures taken { OnOk result (AreTaken (map string_bytes words.now)) }
    ensures given { IfOk result (λ given. given ≡ given_by (map string_bytes words.now)) }
    ensures refused { IfFault result (λ fault. (fault ≡ NotTaken)
        × (AreTaken (map string_bytes words.now) → ⊥)) }
{
    let matches = matches(alloc, words)?;
    Ok(given_in(alloc, &matches)?)
}
