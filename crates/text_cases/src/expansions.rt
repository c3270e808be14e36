// What templates expand to, over the variables, properties and numbers of a thread.

use crate::templates::read;
use crate::texts::Shown;
use jm_base::{M, NoMemory, Outcome, Outside, Request, Text};
use std::alloc::{AllocError, Global};
use template_text::Template;
use var_functions::{FnState, Props, PropsError, UserState, VarError, Vars, expand};

/// An outside with a clock alone, which is at 1,000 first and goes on by 7 at each reading. It keeps its readings.
#[derive(Drop)]
pub struct Clock {
    next: u64,
    readings: Vec<u64>,
}

impl Outside for Clock {
    ghost use Rattle.std.specs.Prelude.{None};

    ghost account = { λ _. record { origin = None; value = None; told = None; faults = 0 } };

    fn now(&mut self) -> M<u64> {
        let now = self.next;
        self.readings.push(now)?;
        self.next = now.wrapping_add(7);
        Ok(now)
    }

    fn pause(&mut self, _ms: u32) -> M<()> {
        Err(NoMemory)
    }

    fn ask(&mut self, _sampler: u16, _request: &Request) -> M<Outcome> {
        Err(NoMemory)
    }
}

impl Clock {
    /// A clock before its first reading.
    pub fn new(alloc: Global) -> Clock {
        Clock {
            next: 1000,
            readings: Vec::new(alloc),
        }
    }
}

/// What each new thread begins with.
#[derive(Drop)]
pub struct Beginning {
    /// The names and values of its variables.
    pub given: Vec<(Vec<u8>, Vec<u8>)>,
    /// The properties of the run.
    pub props: Props,
    /// The thread's number in its group.
    pub thread: u16,
    /// The stream of its random words.
    pub stream: u64,
    /// The seed of its random words.
    pub seed: u64,
}

impl Beginning {
    /// No variables and no properties, the thread's number 1, stream 0 and seed 0.
    pub fn new(alloc: Global) -> anyhow::Result<Beginning> {
        Ok(Beginning {
            given: Vec::new(alloc),
            props: Props::read(alloc, b"")?,
            thread: 1,
            stream: 0,
            seed: 0,
        })
    }

    /// The state of a new thread.
    pub fn state(&self, alloc: Global) -> anyhow::Result<UserState> {
        let mut vars = Vars::new(alloc);
        for (name, value) in &self.given {
            put(alloc, &mut vars, name, value)?;
        }
        let fns = FnState::new(alloc, &self.props, self.thread, self.stream, self.seed)?;
        Ok(UserState { vars, fns })
    }
}

/// Sets a variable.
pub fn put(alloc: Global, vars: &mut Vars, name: &[u8], value: &[u8]) -> Result<(), VarError> {
    vars.put(Text::new(alloc, name)?, Text::new(alloc, value)?)
}

/// Reads properties.
pub fn properties(alloc: Global, text: &[u8]) -> anyhow::Result<Result<Props, PropsError>> {
    if text.len() > 65536 {
        anyhow::bail!("the properties have more than 65,536 bytes");
    }
    Ok(Props::read(alloc, text))
}

// The expansion alone. What it promises is left out here, so that no proof above carries it along.
fn expanded(
    alloc: Global,
    template: &Template,
    state: &mut UserState,
    clock: &mut Clock,
) -> Result<Text, VarError> {
    expand(alloc, template, state, clock)
}

fn write_text(text: Result<Text, VarError>, out: &mut String) -> Result<(), AllocError> {
    match text {
        Ok(text) => write!(out, " => '{}'", Shown(text.bytes())),
        Err(error) => write!(out, " => {error}"),
    }
}

fn write_readings(readings: &[u64], out: &mut String) -> Result<(), AllocError> {
    if !readings.is_empty() {
        out.push_str(", clock read at")?;
    }
    for reading in readings {
        write!(out, " {reading}")?;
    }
    Ok(())
}

/// What a text expands to, and the readings of the clock.
pub fn answer(
    alloc: Global,
    text: &[u8],
    state: &mut UserState,
    out: &mut String,
) -> anyhow::Result<()> {
    let template = read(alloc, text)?;
    let mut clock = Clock::new(alloc);
    write_text(expanded(alloc, &template, state, &mut clock), out)?;
    write_readings(&clock.readings, out)?;
    Ok(())
}

// Expands the template that many times and gives the bytes of all texts.
fn expand_often(
    alloc: Global,
    template: &Template,
    state: &mut UserState,
    count: u32,
) -> Result<u64, VarError> {
    let mut clock = Clock::new(alloc);
    let mut bytes = 0u64;
    for _ in 0..count {
        let text = expanded(alloc, template, state, &mut clock)?;
        bytes = bytes.wrapping_add(text.bytes().len() as u64);
    }
    Ok(bytes)
}

/// How many bytes the texts have together that a text expands to when it is expanded that many times.
pub fn often(
    alloc: Global,
    text: &[u8],
    state: &mut UserState,
    count: u32,
    out: &mut String,
) -> anyhow::Result<()> {
    let template = read(alloc, text)?;
    let bytes = expand_often(alloc, &template, state, count)?;
    write!(out, " => {bytes} bytes")?;
    Ok(())
}

/// The value of a variable.
pub fn value(vars: &Vars, name: &[u8], out: &mut String) -> anyhow::Result<()> {
    match vars.get(name) {
        Some(value) => write!(out, " => '{}'", Shown(value.bytes()))?,
        None => out.push_str(" => not defined")?,
    }
    Ok(())
}

/// The next random words, as many as the count says.
pub fn words(count: u32, fns: &mut FnState, out: &mut String) -> anyhow::Result<()> {
    out.push_str(" =>")?;
    for _ in 0..count {
        write!(out, " {}", fns.draw())?;
    }
    Ok(())
}
