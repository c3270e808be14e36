// The elements of a plan, as JSON has them.

ghost use Rattle.std.specs.Prelude.{◌≡◌, IfOk, map};
ghost use Rattle.plan_json.specs.TreeSeen.{raw_view};
ghost use Rattle.plan_maker.specs.Generated.{numbers_below};
ghost use Rattle.plan_maker.specs.Raws.{sampler_raw, loop_raw, group_raw, plan_raw};

use crate::values::{loop_name, loop_props, no_props, sampler_name, sampler_props};
use jm_base::{M, Text};
use plan_json::RawElement;
use std::alloc::Global;

fn sampler(alloc: Global, place: u16) -> M<RawElement>
    ensures { IfOk result (λ e. raw_view e ≡ sampler_raw place) }
{
    Ok(RawElement {
        kind: Text::new(alloc, b"Script")?,
        name: sampler_name(alloc, place)?,
        enabled: true,
        props: sampler_props(alloc, place)?,
        children: Vec::new(alloc),
    })
}

fn loop_over_sampler(alloc: Global, place: u16) -> M<RawElement>
    ensures { IfOk result (λ e. raw_view e ≡ loop_raw place) }
{
    Ok(RawElement {
        kind: Text::new(alloc, b"Loop")?,
        name: loop_name(alloc, place)?,
        enabled: true,
        props: loop_props(alloc, place)?,
        children: vec![in alloc; sampler(alloc, place)?]?,
    })
}

#[tactic(auto, using(crate::proofs::LoopLaws::one_more))]
fn loops(alloc: Global, size: u16) -> M<Vec<RawElement>>
    ensures { IfOk result (λ v. map raw_view v.items ≡ map loop_raw (numbers_below size)) }
{
    let mut loops = Vec::new(alloc);
    for place in 0..size {
        loops.push(loop_over_sampler(alloc, place)?)?;
    }
    Ok(loops)
}

fn group(alloc: Global, size: u16) -> M<RawElement>
    ensures { IfOk result (λ e. raw_view e ≡ group_raw size) }
{
    Ok(RawElement {
        kind: Text::new(alloc, b"ThreadGroup")?,
        name: Text::new(alloc, b"TG")?,
        enabled: true,
        props: no_props(alloc),
        children: loops(alloc, size)?,
    })
}

/// The tree of a plan with that many loops.
pub fn plan_tree(alloc: Global, size: u16) -> M<RawElement>
    ensures { IfOk result (λ e. raw_view e ≡ plan_raw size) }
{
    Ok(RawElement {
        kind: Text::new(alloc, b"TestPlan")?,
        name: Text::new(alloc, b"TestPlan")?,
        enabled: true,
        props: no_props(alloc),
        children: vec![in alloc; group(alloc, size)?]?,
    })
}
