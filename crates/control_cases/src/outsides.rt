// Cases of the outside over a plan's own replies, and outsides that find no memory.

use crate::scenes::plan_of;
use crate::settings::Settings;
use crate::show::{Came, write_heard};
use jm_base::{M, NoMemory, Outcome, Outside, Request, Text};
use outside_world::ScriptOutside;
use std::alloc::Global;

/// An outside that answers nothing.
#[derive(Drop)]
pub struct Silence;

impl Outside for Silence {
    ghost use Rattle.std.specs.Prelude.{None};

    ghost account = { λ _. record { origin = None; value = None; told = None; faults = 0 } };

    fn now(&mut self) -> M<u64> {
        Err(NoMemory)
    }

    fn pause(&mut self, _ms: u32) -> M<()> {
        Err(NoMemory)
    }

    fn ask(&mut self, _sampler: u16, _request: &Request) -> M<Outcome> {
        Err(NoMemory)
    }
}

/// An outside that finds memory for this many calls and then for none.
#[derive(Drop)]
pub struct Scarce {
    pub inner: ScriptOutside,
    pub calls: u32,
}

fn spend(calls: &mut u32) -> M<()> {
    if *calls == 0 {
        return Err(NoMemory);
    }
    *calls -= 1;
    Ok(())
}

impl Outside for Scarce {
    ghost account = { λ o. o.inner };

    fn now(&mut self) -> M<u64> {
        spend(&mut self.calls)?;
        self.inner.now()
    }

    fn pause(&mut self, ms: u32) -> M<()> {
        spend(&mut self.calls)?;
        self.inner.pause(ms)
    }

    fn ask(&mut self, sampler: u16, request: &Request) -> M<Outcome> {
        spend(&mut self.calls)?;
        self.inner.ask(sampler, request)
    }
}

fn request_of(alloc: Global, call: &str, text: &str) -> M<Request> {
    let text = Text::new(alloc, text.as_bytes())?;
    if call == "ask-http" {
        return Ok(Request::Http {
            host: Text::new(alloc, b"localhost")?,
            port: 80,
            bytes: text,
        });
    }
    Ok(Request::Script(text))
}

fn ask(outside: &mut ScriptOutside, sampler: u16, request: &Request, out: &mut String) -> M<()> {
    let outcome = outside.ask(sampler, request)?;
    write!(out, "= {}\n", Came(&outcome))?;
    Ok(())
}

fn ask_text(
    alloc: Global,
    outside: &mut ScriptOutside,
    call: &str,
    rest: &str,
    out: &mut String,
) -> anyhow::Result<()> {
    let (sampler, text) = rest.split_once(' ').unwrap_or((rest, ""));
    let sampler = sampler.parse::<u16>()?;
    let request = request_of(alloc, call, text)?;
    ask(outside, sampler, &request, out)?;
    Ok(())
}

// What a call gives: `now`, `pause MS`, `ask SAMPLER TEXT` or `ask-http SAMPLER TEXT`.
fn write_answer(
    alloc: Global,
    outside: &mut ScriptOutside,
    call: &str,
    out: &mut String,
) -> anyhow::Result<()> {
    let (word, rest) = call.split_once(' ').unwrap_or((call, ""));
    if word == "now" {
        let clock = outside.now()?;
        write!(out, "= {clock}\n")?;
    } else if word == "pause" {
        outside.pause(rest.parse::<u32>()?)?;
        out.push_str("= paused\n")?;
    } else {
        ask_text(alloc, outside, word, rest, out)?;
    }
    Ok(())
}

fn tell(alloc: Global, outside: &ScriptOutside, out: &mut String) -> M<()> {
    let Some(told) = outside.told(alloc)? else {
        out.push_str("tells nothing\n")?;
        return Ok(());
    };
    for heard in &told {
        write_heard(heard, out)?;
    }
    Ok(())
}

fn write_answers(
    alloc: Global,
    outside: &mut ScriptOutside,
    calls: &str,
    out: &mut String,
) -> anyhow::Result<()> {
    for call in calls.split(", ") {
        write_answer(alloc, outside, call, out)?;
    }
    tell(alloc, outside, out)?;
    Ok(())
}

/// What a case `script` prints: the answers to its calls, and what the outside tells of them.
pub fn answers(
    alloc: Global,
    settings: &Settings,
    rest: &str,
    out: &mut String,
) -> anyhow::Result<()> {
    let plan = plan_of(alloc, settings.text("plan"))?;
    let (keep, calls) = rest.split_once(' ').unwrap_or((rest, ""));
    let mut outside = ScriptOutside::new(alloc, &plan, keep == "told")?;
    write_answers(alloc, &mut outside, calls, out)
}
