// What the words of a command line are read as.

use crate::show::print_sink;
use crate::texts::words_of;
use command_words::{Command, Run, Solo, Weave, WordsError, read_words};
use jm_base::{M, NoMemory, Outcome, Outside, Request, Text};
use schedule_text::{Schedule, Token};
use std::alloc::Global;
use template_text::{Template, parse_template};
use var_functions::{FnState, Props, UserState, Vars, expand};

/// Reads words and prints the command with its options, or the error. Of the properties it prints the values of `a` and
/// `b`, which is `1` where there is none.
pub fn print_words(rt: &impl Print, alloc: Global, line: &str) -> anyhow::Result<()> {
    match read_words(alloc, &words_of(alloc, line)?) {
        Ok(Command::Check) => println!(rt; "check")?,
        Ok(Command::Make(make)) => println!(rt; "make size={}", make.size)?,
        Ok(Command::Solo(solo)) => print_solo(rt, alloc, &solo)?,
        Ok(Command::Weave(weave)) => print_weave_options(rt, alloc, &weave)?,
        Ok(Command::Run(run)) => print_run_options(rt, alloc, &run)?,
        Err(error) => println!(rt; "error: {error}")?,
    }
    Ok(())
}

fn print_solo(rt: &impl Print, alloc: Global, solo: &Solo) -> anyhow::Result<()> {
    println!(rt;
        "solo seed={} samples={} thread={}",
        solo.seed, solo.samples, solo.thread
    )?;
    print_props(rt, alloc, &solo.props)
}

fn print_weave_options(rt: &impl Print, alloc: Global, weave: &Weave) -> anyhow::Result<()> {
    println!(rt;
        "weave seed={} samples={} schedule={}",
        weave.seed,
        weave.samples,
        tokens_text(alloc, &weave.schedule)?
    )?;
    print_props(rt, alloc, &weave.props)
}

// The tokens of a schedule, parted by commas.
fn tokens_text(alloc: Global, schedule: &Schedule) -> anyhow::Result<String> {
    let mut text = String::new(alloc);
    for token in schedule.tokens() {
        let comma = if text.is_empty() { "" } else { "," };
        let token = token_text(alloc, *token)?;
        text.push_str(format!(in alloc; "{comma}{token}")?.as_str())?;
    }
    Ok(text)
}

fn token_text(alloc: Global, token: Token) -> anyhow::Result<String> {
    match token {
        Token::Turn(thread) => Ok(format!(in alloc; "{thread}")?),
        Token::Turns(thread) => Ok(format!(in alloc; "{thread}x")?),
        Token::Reporter => Ok(format!(in alloc; "r")?),
        Token::Reporters => Ok(format!(in alloc; "R")?),
    }
}

fn print_run_options(rt: &impl Print, alloc: Global, run: &Run) -> anyhow::Result<()> {
    println!(rt;
        "run seed={} samples={} every={} limit={}",
        run.seed, run.samples, run.every, run.limit
    )?;
    print_props(rt, alloc, &run.props)
}

fn print_props(rt: &impl Print, alloc: Global, props: &Props) -> anyhow::Result<()> {
    let first = property(alloc, props, &parse_template(alloc, b"${__P(a)}")?)?;
    print_sink(rt, alloc, "a", first.bytes())?;
    let second = property(alloc, props, &parse_template(alloc, b"${__P(b)}")?)?;
    print_sink(rt, alloc, "b", second.bytes())
}

// What a call of `__P` gives.
fn property(alloc: Global, props: &Props, call: &Template) -> anyhow::Result<Text> {
    let mut state = UserState {
        vars: Vars::new(alloc),
        fns: FnState::new(alloc, props, 1, 0, 0)?,
    };
    Ok(expand(alloc, call, &mut state, &mut Silence)?)
}

/// Prints the errors of words that are not read.
pub fn print_errors(rt: &impl Print) -> anyhow::Result<()> {
    for error in [WordsError::BadWords, WordsError::NoMemory] {
        println!(rt; "{error:?}: {error}")?;
    }
    Ok(())
}

// An outside that nothing is asked of.
#[derive(Drop)]
struct Silence;

impl Outside for Silence {
    ghost use Rattle.std.specs.Prelude.{None};

    ghost account = { λ _. record { origin = None; value = None; told = None; faults = 0 } };

    fn now(&mut self) -> M<u64> {
        Err(NoMemory)
    }

    fn pause(&mut self, _ms: u32) -> M<()> {
        Err(NoMemory)
    }

    fn ask(&mut self, _sampler: u16, _request: &Request) -> M<Outcome> {
        Err(NoMemory)
    }
}
