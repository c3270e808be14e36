// A thread of a plan, a sampler at a time, over the plan's own replies.

use crate::calls;
use crate::shown::{Shown, ending};
use config_elements::ConfigState;
use element_tree::Plan;
use jm_base::{Heard, M, Request, Sample};
use outside_world::ScriptOutside;
use sampler_pipeline::Done;
use std::alloc::{AllocError, Global};
use var_functions::{UserState, VarError, Vars};

/// The first thread of a plan, and what it keeps from round to round and from sampler to sampler.
#[derive(Drop)]
pub struct Scene {
    plan: Plan,
    config: ConfigState,
    pub user: UserState,
    outside: ScriptOutside,
    order: Vec<u16>,
}

impl Scene {
    /// The thread before its first round, with these variables.
    pub fn new(alloc: Global, text: &str, vars: Vars) -> anyhow::Result<Scene> {
        let plan = calls::plan(alloc, text)?;
        let fns = calls::functions(alloc)?;
        Ok(Scene {
            config: calls::config(alloc, &plan)?,
            user: UserState { vars, fns },
            outside: ScriptOutside::new(alloc, &plan, true)?,
            order: Vec::new(alloc),
            plan,
        })
    }

    /// A round begins.
    pub fn round(&mut self, alloc: Global) -> &'static str {
        let user = &mut self.user;
        match calls::round(alloc, &mut self.config, &self.plan, user, &mut self.outside) {
            Ok(true) => "true",
            Ok(false) => "false",
            Err(error) => ending(Err(error)),
        }
    }

    /// The sampler of this number runs.
    pub fn sampler(&mut self, alloc: Global, number: u16, out: &mut String) -> anyhow::Result<()> {
        let done = calls::sampler(
            alloc,
            &self.plan,
            number,
            &mut self.user,
            &mut self.outside,
            &mut self.order,
        );
        write_done(done, out)?;
        write_order(&self.order, out)?;
        Ok(())
    }

    /// What the outside was asked so far.
    pub fn told(&self, alloc: Global, out: &mut String) -> M<()> {
        out.push_str("told")?;
        for heard in &calls::told(alloc, &self.outside)? {
            write_heard(heard, out)?;
        }
        Ok(())
    }

    /// The requests that the outside was asked for so far.
    pub fn asked(&self, alloc: Global, out: &mut String) -> M<()> {
        out.push_str("asked")?;
        for heard in &calls::told(alloc, &self.outside)? {
            if let Heard::Asked { request, .. } = heard {
                write_request(request, out)?;
            }
        }
        Ok(())
    }
}

fn write_request(request: &Request, out: &mut String) -> Result<(), AllocError> {
    match request {
        Request::Script(text) => write!(out, "\tscript {}", text.bytes().escape_ascii()),
        Request::Http { host, port, bytes } => write!(
            out,
            "\thttp {} {port} {}",
            host.bytes().escape_ascii(),
            bytes.bytes().escape_ascii()
        ),
    }
}

fn write_heard(heard: &Heard, out: &mut String) -> Result<(), AllocError> {
    match heard {
        Heard::Reading(clock) => write!(out, "\tread {clock}"),
        Heard::Paused(ms) => write!(out, "\tpause {ms}"),
        Heard::Asked { sampler, .. } => write!(out, "\task {sampler}"),
    }
}

/// Stamp, elapsed time, label, code, message, success, failure text, bytes and listeners, and the pause before the sample.
fn write_sample(sample: &Sample, paused: u32, out: &mut String) -> Result<(), AllocError> {
    write!(
        out,
        "{},{},{},{},{},{},{},{},{}\tpaused {paused}",
        sample.stamp,
        sample.elapsed,
        sample.label,
        sample.code,
        Shown(sample.message.bytes()),
        sample.ok,
        sample.failure.bytes().escape_ascii(),
        sample.bytes,
        sample.listeners
    )
}

/// The sample or that there is none, and the pause before it.
fn write_sampled(done: &Done, out: &mut String) -> Result<(), AllocError> {
    match &done.sample {
        Some(sample) => write_sample(sample, done.paused, out),
        None => write!(out, "null\tpaused {}", done.paused),
    }
}

/// What the sampler came to, or why it was refused.
fn write_done(done: Result<Done, VarError>, out: &mut String) -> Result<(), AllocError> {
    match done {
        Ok(done) => write_sampled(&done, out),
        Err(error) => out.push_str(ending(Err(error))),
    }
}

/// The elements that took part.
fn write_order(order: &[u16], out: &mut String) -> Result<(), AllocError> {
    out.push_str("\torder")?;
    for number in order {
        write!(out, " {number}")?;
    }
    Ok(())
}
