// The words of a command line, read.

ghost use Rattle.std.specs.Prelude.{◌≡◌, ◌≢◌, IsSome, IsNone, IsErr, map, true, IfOk, Some, None, string_bytes, option_map, unwrap_or};
ghost use Rattle.std.specs.List.{list_all};
ghost use Rattle.clap.specs.Words.{app_of, subcommand_rows_of};
ghost use Rattle.command_words.specs.CommandGrammar.{Given, is_word};
ghost use Rattle.command_words.specs.Commands.{CommandRule, make_of, shared_of, solo_of, weave_of, run_of, command_of, names_run};
ghost use Rattle.command_words.specs.Parser.{AreTaken, taken_rows};
ghost use Rattle.command_words.specs.Spelling.{IsCommandLine, IsNoCommandLine};
ghost use Rattle.command_words.specs.ArgumentsShown.{shown_name, shown_value, Shows, ShowsReading, asked_by};

use crate::command::{Command, Make, Run, Solo, Weave};
use crate::error::WordsError;
use crate::parser::{jm_command, parse};
use crate::value::{Shared, make_from, run_from, shared_from, solo_from, weave_from};
use clap::ArgMatches;
use std::alloc::Global;

/// Whether a word can stand in a command line at all.
fn is_word(word: &String) -> bool
    ensures { result ≡ is_word (string_bytes word.now) }
{
    match word.as_bytes() {
        [] => false,
        [b'-', b'-', _, ..] => true,
        [b'-', ..] => false,
        _ => true,
    }
}

/// Whether each word can.
fn are_words(words: &[String]) -> bool
    ensures { result ≡ list_all is_word (map string_bytes words.now) }
{
    words.iter().all(is_word)
}

/// What `clap` reads in the words.
fn parsed<'a>(alloc: Global, words: &'a [String]) -> Result<ArgMatches<'a>, WordsError>
    ensures ok { IfOk result (λ m. AreTaken (map string_bytes words.now)
        × (subcommand_rows_of m ≡ taken_rows (map string_bytes words.now))) }
    ensures bad { result ≡ Err WordsError.BadWords → ¬ (AreTaken (map string_bytes words.now)) }
{
    let Ok(command) = jm_command(alloc) else {
        return Err(WordsError::NoMemory);
    };
    match parse(command, words) {
        Ok(matches) => Ok(matches),
        Err(WordsError::BadWords) => Err(WordsError::BadWords),
        Err(WordsError::NoMemory) => Err(WordsError::NoMemory),
    }
}

/// What the words give by the grammar, before the values of options are read.
fn asked<'a>(alloc: Global, words: &'a [String]) -> Result<ArgMatches<'a>, WordsError>
    requires { list_all is_word (map string_bytes words.now) ≡ true }
    ensures ok { IfOk result (λ m. ShowsReading m (map string_bytes words.now)) }
    ensures bad { result ≡ Err WordsError.BadWords → asked_by (map string_bytes words.now) ≡ None }
{
    match parsed(alloc, words) {
        Ok(matches) => Ok(matches),
        Err(WordsError::BadWords) => Err(WordsError::BadWords),
        Err(WordsError::NoMemory) => Err(WordsError::NoMemory),
    }
}

/// The value of an option, where it is given.
fn option_value<'a>(matches: &ArgMatches<'a>, name: &str) -> Option<&'a str>
    ensures { option_map (λ s. s.now) result ≡ shown_value matches.now name.now }
{
    let (_, inner) = matches.subcommand()?;
    inner.get_str(name)
}

/// The value of an option, or what stands for it.
fn value_or<'a>(matches: &ArgMatches<'a>, name: &str, default: &'a str) -> &'a str
    ensures { result.now ≡ unwrap_or (shown_value matches.now name.now) default.now }
{
    match option_value(matches, name) {
        Some(value) => value,
        None => default,
    }
}

/// The option of `make`.
fn make(matches: &ArgMatches) -> Option<Make>
    ensures { result ≡ make_of (shown_value matches.now) }
{
    make_from(option_value(matches, "size")?)
}

/// The options that `solo`, `weave` and `run` share.
fn shared(alloc: Global, matches: &ArgMatches) -> Result<Shared, WordsError>
    ensures ok { IfOk result (λ s. shared_of (shown_value matches.now) ≡ Some s) }
    ensures bad { result ≡ Err WordsError.BadWords → shared_of (shown_value matches.now) ≡ None }
{
    let seed = value_or(matches, "seed", "0");
    let props = value_or(matches, "props", "");
    let samples = value_or(matches, "samples", "65536");
    match shared_from(alloc, seed, props, samples) {
        Ok(shared) => Ok(shared),
        Err(WordsError::BadWords) => Err(WordsError::BadWords),
        Err(WordsError::NoMemory) => Err(WordsError::NoMemory),
    }
}

/// The options of `solo`.
fn solo(alloc: Global, matches: &ArgMatches) -> Result<Solo, WordsError>
    ensures ok { IfOk result (λ s. solo_of (shown_value matches.now) ≡ Some s) }
    ensures bad { result ≡ Err WordsError.BadWords → solo_of (shown_value matches.now) ≡ None }
{
    match shared(alloc, matches) {
        Ok(shared) => match solo_from(shared, value_or(matches, "thread", "0")) {
            Some(solo) => Ok(solo),
            None => Err(WordsError::BadWords),
        },
        Err(WordsError::BadWords) => Err(WordsError::BadWords),
        Err(WordsError::NoMemory) => Err(WordsError::NoMemory),
    }
}

/// The options of `weave`.
fn weave(alloc: Global, matches: &ArgMatches) -> Result<Weave, WordsError>
    ensures ok { IfOk result (λ w. weave_of (shown_value matches.now) ≡ Some w) }
    ensures bad { result ≡ Err WordsError.BadWords → weave_of (shown_value matches.now) ≡ None }
{
    match shared(alloc, matches) {
        Ok(shared) => weave_from(alloc, shared, value_or(matches, "schedule", "")),
        Err(WordsError::BadWords) => Err(WordsError::BadWords),
        Err(WordsError::NoMemory) => Err(WordsError::NoMemory),
    }
}

/// The options of `run`.
fn run(alloc: Global, matches: &ArgMatches) -> Result<Run, WordsError>
    ensures ok { IfOk result (λ r. run_of (shown_value matches.now) ≡ Some r) }
    ensures bad { result ≡ Err WordsError.BadWords → run_of (shown_value matches.now) ≡ None }
{
    let every = value_or(matches, "every", "1000");
    let limit = value_or(matches, "limit", "18446744073709551615");
    match shared(alloc, matches) {
        Ok(shared) => match run_from(shared, every, limit) {
            Some(run) => Ok(run),
            None => Err(WordsError::BadWords),
        },
        Err(WordsError::BadWords) => Err(WordsError::BadWords),
        Err(WordsError::NoMemory) => Err(WordsError::NoMemory),
    }
}

/// The name of the command.
fn command_name<'a>(matches: &ArgMatches<'a>) -> Option<&'a str>
    ensures { option_map (λ s. s.now) result ≡ shown_name matches.now }
{
    let (name, _) = matches.subcommand()?;
    Some(name)
}

/// The command with its options.
fn command(alloc: Global, matches: &ArgMatches) -> Result<Command, WordsError>
    ensures ok { IfOk result (λ c. (q : CommandRule × Given) → Shows matches.now q → q.0.meaning (shown_value matches.now) ≡ Some c) }
    ensures bad { result ≡ Err WordsError.BadWords → (q : CommandRule × Given) → Shows matches.now q → q.0.meaning (shown_value matches.now) ≡ None }
{
    match command_name(matches) {
        Some("check") => Ok(Command::Check),
        Some("make") => match make(matches) {
            Some(make) => Ok(Command::Make(make)),
            None => Err(WordsError::BadWords),
        },
        Some("solo") => match solo(alloc, matches) {
            Ok(solo) => Ok(Command::Solo(solo)),
            Err(WordsError::BadWords) => Err(WordsError::BadWords),
            Err(WordsError::NoMemory) => Err(WordsError::NoMemory),
        },
        Some("weave") => match weave(alloc, matches) {
            Ok(weave) => Ok(Command::Weave(weave)),
            Err(WordsError::BadWords) => Err(WordsError::BadWords),
            Err(WordsError::NoMemory) => Err(WordsError::NoMemory),
        },
        Some("run") => match run(alloc, matches) {
            Ok(run) => Ok(Command::Run(run)),
            Err(WordsError::BadWords) => Err(WordsError::BadWords),
            Err(WordsError::NoMemory) => Err(WordsError::NoMemory),
        },
        _ => Err(WordsError::BadWords),
    }
}

/// Whether the first word is `run`.
pub fn names_run(words: &[String]) -> bool
    ensures { result ≡ names_run (map string_bytes words.now) }
{
    match words {
        [word, ..] => word.as_str() == "run",
        [] => false,
    }
}

/// What the words of a command line ask for. The program's own name is not among them. docs/use/COMMANDS.md has the
/// commands with their options.
pub fn read_words(alloc: Global, words: &[String]) -> Result<Command, WordsError>
    ensures command { IfOk result (λ c. command_of (map string_bytes words.now) ≡ Some c) }
    ensures bad_words { result ≡ Err WordsError.BadWords → command_of (map string_bytes words.now) ≡ None }

    // And the other way round: a command line is not refused, and what is not one is not taken.
    ensures not_refused { IsSome (command_of (map string_bytes words.now)) → result ≢ Err WordsError.BadWords }
    ensures not_taken { IsNone (command_of (map string_bytes words.now)) → IsErr result }

    // And by how command lines are spelled.
    ensures spelled { IfOk result (λ c. IsCommandLine (map string_bytes words.now) c) }
    ensures not_spelled { result ≡ Err WordsError.BadWords → IsNoCommandLine (map string_bytes words.now) }
{
    if !are_words(words) {
        return Err(WordsError::BadWords);
    }
    match asked(alloc, words) {
        Ok(matches) => match command(alloc, &matches) {
            Ok(command) => Ok(command),
            Err(WordsError::BadWords) => Err(WordsError::BadWords),
            Err(WordsError::NoMemory) => Err(WordsError::NoMemory),
        },
        Err(WordsError::BadWords) => Err(WordsError::BadWords),
        Err(WordsError::NoMemory) => Err(WordsError::NoMemory),
    }
}
