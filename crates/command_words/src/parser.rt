// The commands and their options, as the crate `clap` is told of them.

ghost use Rattle.std.specs.Prelude.{◌≡◌, [], map, false, true, IfOk, Some, codes, string_bytes};
ghost use Rattle.clap.specs.Words.{app_of, rule_of, shape_of, subcommand_rows_of, with_rule, with_subcommand, fault_of, subcommand_of, is_simple_and_free};
ghost use Rattle.clap.specs.Simple.{is_simple};
ghost use Rattle.clap.specs.declared.builder.command.Command.TheViews.{out-Command as fields_of};
ghost use Rattle.command_words.specs.Parser.{option_rule, make_app, solo_app, weave_app, run_app, bare_app, plain_app, jm_app};

use crate::error::WordsError;
use clap::builder::ValueParser;
use clap::error::ErrorKind;
use clap::{Arg, ArgAction, ArgMatches, Command};
use std::alloc::{AllocError, Global};

/// An option with one value that is not empty.
fn text_option<'a>(alloc: Global, name: &'static str) -> Arg<'a>
    ensures rule { rule_of result ≡ option_rule name.entry.now }
    ensures own { result.global ≡ false }
{
    Arg::new(alloc, name)
        .long(name)
        .action(ArgAction::Set)
        .value_parser(ValueParser::NonEmptyString)
}

/// The command with one more option.
fn with_option<'a>(
    alloc: Global,
    command: Command<'a>,
    name: &'static str,
) -> Result<Command<'a>, AllocError>
    requires { (fields_of command).has_globals ≡ false }
    ensures app { IfOk result (λ c. app_of c ≡ with_rule (app_of command.entry) (option_rule name.entry.now)) }
    ensures globals { IfOk result (λ c. (fields_of c).has_globals ≡ false) }
{
    let command = command.arg(text_option(alloc, name))?;
    Ok(command)
}

/// The program with one more command.
fn with_command<'a>(program: Command<'a>, command: Command<'a>) -> Result<Command<'a>, AllocError>
    requires { (fields_of command).has_globals ≡ false }
    ensures app { IfOk result (λ c. app_of c ≡ with_subcommand (app_of program.entry) (shape_of command.entry)) }
{
    program.subcommand(command)
}

/// `make` with its option, which must be given.
fn make_command<'a>(alloc: Global) -> Result<Command<'a>, AllocError>
    ensures app { IfOk result (λ c. app_of c ≡ make_app) }
    ensures globals { IfOk result (λ c. (fields_of c).has_globals ≡ false) }
{
    Command::new(alloc, "make").arg(text_option(alloc, "size").required(true))
}

/// `solo` with its options.
fn solo_command<'a>(alloc: Global) -> Result<Command<'a>, AllocError>
    ensures app { IfOk result (λ c. app_of c ≡ solo_app) }
    ensures globals { IfOk result (λ c. (fields_of c).has_globals ≡ false) }
{
    let command = Command::new(alloc, "solo");
    let command = with_option(alloc, command, "seed")?;
    let command = with_option(alloc, command, "props")?;
    let command = with_option(alloc, command, "samples")?;
    with_option(alloc, command, "thread")
}

/// `weave` with its options.
fn weave_command<'a>(alloc: Global) -> Result<Command<'a>, AllocError>
    ensures app { IfOk result (λ c. app_of c ≡ weave_app) }
    ensures globals { IfOk result (λ c. (fields_of c).has_globals ≡ false) }
{
    let command = Command::new(alloc, "weave");
    let command = with_option(alloc, command, "seed")?;
    let command = with_option(alloc, command, "props")?;
    let command = with_option(alloc, command, "samples")?;
    with_option(alloc, command, "schedule")
}

/// `run` with its options.
fn run_command<'a>(alloc: Global) -> Result<Command<'a>, AllocError>
    ensures app { IfOk result (λ c. app_of c ≡ run_app) }
    ensures globals { IfOk result (λ c. (fields_of c).has_globals ≡ false) }
{
    let command = Command::new(alloc, "run");
    let command = with_option(alloc, command, "seed")?;
    let command = with_option(alloc, command, "props")?;
    let command = with_option(alloc, command, "samples")?;
    let command = with_option(alloc, command, "every")?;
    with_option(alloc, command, "limit")
}

/// The program without a command: one is asked for, and there is no help.
fn bare_command<'a>(alloc: Global) -> Command<'a>
    ensures { app_of result ≡ bare_app }
{
    Command::new(alloc, "jm")
        .no_binary_name(true)
        .disable_help_flag(true)
        .disable_help_subcommand(true)
        .subcommand_required(true)
}

/// The program with the commands of one thread at most.
fn plain_program<'a>(alloc: Global) -> Result<Command<'a>, AllocError>
    ensures { IfOk result (λ c. app_of c ≡ plain_app) }
{
    let command = bare_command(alloc);
    let command = with_command(command, Command::new(alloc, "check"))?;
    let command = with_command(command, make_command(alloc)?)?;
    with_command(command, solo_command(alloc)?)
}

/// The program with all of its commands.
pub(crate) fn jm_command<'a>(alloc: Global) -> Result<Command<'a>, AllocError>
    ensures { IfOk result (λ c. app_of c ≡ jm_app) }
{
    let command = plain_program(alloc)?;
    let command = with_command(command, weave_command(alloc)?)?;
    with_command(command, run_command(alloc)?)
}

/// What a program's commands read in words.
pub(crate) fn parse<'a>(
    program: Command<'a>,
    words: &'a [String],
) -> Result<ArgMatches<'a>, WordsError>
    requires { is_simple_and_free (app_of program) ≡ true }
    ensures ok { IfOk result (λ m. (fault_of (app_of program.entry) (map string_bytes words.now) ≡ [])
        × (is_simple (app_of program.entry) ≡ true → subcommand_rows_of m ≡ subcommand_of (app_of program.entry) (map string_bytes words.now))) }
    ensures bad { result ≡ Err WordsError.BadWords → ¬ (fault_of (app_of program.entry) (map string_bytes words.now) ≡ []) }
{
    match program.try_get_matches_from(words) {
        Ok(matches) => Ok(matches),
        Err(error) if error.kind() == ErrorKind::OutOfMemory => Err(WordsError::NoMemory),
        Err(_) => Err(WordsError::BadWords),
    }
}
