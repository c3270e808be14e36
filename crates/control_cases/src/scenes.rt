// Cases of controllers: their turns, pass after pass.

use crate::controllers::Controller;
use crate::outsides::Silence;
use crate::settings::Settings;
use crate::show::plain;
use anyhow::bail;
use element_tree::{BuildError, Plan, RegexPatterns, Turn, build};
use jm_base::Text;
use plan_json::{RawElement, TreeError, read_tree};
use std::alloc::{AllocError, Global};
use template_text::{Template, parse_template};
use var_functions::{FnState, Props, UserState, Vars, expand};

// The tree that a text is.
fn tree_of(alloc: Global, text: &str) -> Result<RawElement, TreeError> {
    read_tree(alloc, text.as_bytes())
}

// The plan of a tree.
fn built(alloc: Global, tree: &RawElement) -> Result<Plan, BuildError> {
    let mut patterns = RegexPatterns::new(Vec::new(alloc));
    build(alloc, tree, &mut patterns)
}

/// The plan that a text is.
pub fn plan_of(alloc: Global, text: &str) -> anyhow::Result<Plan> {
    let tree = tree_of(alloc, text)?;
    let plan = built(alloc, &tree)?;
    Ok(plan)
}

/// The properties that a text is.
pub fn props_of(alloc: Global, text: &str) -> anyhow::Result<Props> {
    if text.len() > 65_536 {
        bail!("long properties");
    }
    let props = Props::read(alloc, text.as_bytes())?;
    Ok(props)
}

// Writes a child: `timer`, a sampler that is disabled, `off`, or a sampler of this name.
fn write_child(word: &str, out: &mut String) -> Result<(), AllocError> {
    match word {
        "timer" => out.push_str(r#"{"type":"ConstantTimer","props":{"delay":"5"}}"#),
        "off" => out.push_str(r#"{"type":"Script","enabled":false,"props":{"replies":[{}]}}"#),
        _ => write!(
            out,
            "{{\"type\":\"Script\",\"name\":\"{word}\",\"props\":{{\"replies\":[{{}}]}}}}"
        ),
    }
}

fn write_children(words: &str, out: &mut String) -> Result<(), AllocError> {
    let mut is_first = true;
    for word in words.split(' ') {
        if !word.is_empty() {
            if !is_first {
                out.push_str(",")?;
            }
            write_child(word, out)?;
            is_first = false;
        }
    }
    Ok(())
}

// The plan of one controller, which is element 2 and named L.
fn plan_with(alloc: Global, kind: &str, members: &str, words: &str) -> anyhow::Result<Plan> {
    let mut text = String::new(alloc);
    text.push_str(r#"{"type":"TestPlan","children":[{"type":"ThreadGroup","children":["#)?;
    write!(
        text,
        "{{\"type\":\"{kind}\",\"name\":\"L\",\"props\":{{{members}}},\"children\":["
    )?;
    write_children(words, &mut text)?;
    text.push_str("]}]}]}")?;
    plan_of(alloc, text.as_str())
}

// The value that a word gives: as it is, or as many letters x as `*` says.
fn value(alloc: Global, word: &str) -> anyhow::Result<Text> {
    let bytes = match word.strip_prefix('*') {
        Some(count) => vec![in alloc; b'x'; count.parse::<usize>()?]?,
        None => Vec::from_slice(alloc, word.as_bytes())?,
    };
    Ok(Text::of(bytes))
}

// Sets variables, as `a=1 b=2`.
fn put_all(alloc: Global, words: &str, vars: &mut Vars) -> anyhow::Result<()> {
    for word in words.split(' ') {
        if let Some((name, text)) = word.split_once('=') {
            let name = Text::new(alloc, name.as_bytes())?;
            let text = value(alloc, text)?;
            vars.put(name, text)?;
        }
    }
    Ok(())
}

// The state of the functions of a thread, with the random words of this stream and seed.
fn functions_of(alloc: Global, stream: u64, seed: u64) -> anyhow::Result<FnState> {
    let props = props_of(alloc, "")?;
    let fns = FnState::new(alloc, &props, 1, stream, seed)?;
    Ok(fns)
}

// The state of a thread with the variables, and the random words, of the settings.
fn state_of(alloc: Global, settings: &Settings) -> anyhow::Result<UserState> {
    let seed = settings.number("seed", 0)?;
    let stream = settings.number("stream", 0)?;
    let fns = functions_of(alloc, stream, seed)?;
    let mut vars = Vars::new(alloc);
    put_all(alloc, settings.text("variables"), &mut vars)?;
    Ok(UserState { vars, fns })
}

// A controller at work: its plan, the state of a thread, and where the controller stands.
#[derive(Drop)]
struct Scene {
    plan: Plan,
    state: UserState,
    controller: Controller,
}

// The controller that the plan's element 2 is.
fn controller_of(plan: &Plan) -> anyhow::Result<Controller> {
    match plan.element(2) {
        Some(element) => Controller::new(2, &element.kind),
        None => bail!("no element"),
    }
}

fn scene_of(alloc: Global, settings: &Settings, rest: &str) -> anyhow::Result<Scene> {
    let (kind, members) = rest.split_once(' ').unwrap_or((rest, ""));
    let state = state_of(alloc, settings)?;
    let plan = plan_with(alloc, kind, members, settings.text("children"))?;
    let controller = controller_of(&plan)?;
    Ok(Scene {
        plan,
        state,
        controller,
    })
}

// The template that a text is.
fn template_of(alloc: Global, text: &str) -> anyhow::Result<Template> {
    if text.len() > 65_536 {
        bail!("a long template");
    }
    let template = parse_template(alloc, text.as_bytes())?;
    Ok(template)
}

// What a template stands for now.
fn expanded(alloc: Global, text: &str, state: &mut UserState) -> anyhow::Result<Text> {
    let template = template_of(alloc, text)?;
    let text = expand(alloc, &template, state, &mut Silence)?;
    Ok(text)
}

// Writes the place of a child, with what a template stands for then.
fn write_place(
    alloc: Global,
    shown: &str,
    place: u16,
    state: &mut UserState,
    out: &mut String,
) -> anyhow::Result<()> {
    if shown.is_empty() {
        write!(out, " {place}")?;
    } else {
        let value = expanded(alloc, shown, state)?;
        write!(out, " {place}({})", plain(&value))?;
    }
    Ok(())
}

// Begins a pass.
fn begin(alloc: Global, scene: &mut Scene) -> anyhow::Result<()> {
    match scene.controller.enter(alloc, &scene.plan, &mut scene.state) {
        Some(entered) => Ok(entered?),
        None => bail!("another kind"),
    }
}

// What the controller does next, in a round of this index around it.
fn next_turn(alloc: Global, scene: &mut Scene, round: u64) -> anyhow::Result<Turn> {
    match scene
        .controller
        .next(alloc, &scene.plan, round, &mut scene.state)
    {
        Some(turn) => Ok(turn?),
        None => bail!("no turn"),
    }
}

// Writes a turn. After a child the template of the setting `shown` is expanded, and the variables of the setting `after` are set.
fn take_turn(
    alloc: Global,
    settings: &Settings,
    turn: Turn,
    state: &mut UserState,
    out: &mut String,
) -> anyhow::Result<()> {
    match turn {
        Turn::Child(place) => {
            write_place(alloc, settings.text("shown"), place, state, out)?;
            put_all(alloc, settings.text("after"), &mut state.vars)?;
        }
        Turn::Round => out.push_str(" round")?,
        Turn::Over => out.push_str(" over")?,
    }
    Ok(())
}

// The turns of one pass, at most as many as the setting `turns` says.
fn pass(
    alloc: Global,
    settings: &Settings,
    scene: &mut Scene,
    out: &mut String,
) -> anyhow::Result<()> {
    let round = settings.number("round", 0)?;
    begin(alloc, scene)?;
    for _ in 0..settings.number("turns", 6)? {
        let turn = next_turn(alloc, scene, round)?;
        take_turn(alloc, settings, turn, &mut scene.state, out)?;
        if turn == Turn::Over {
            break;
        }
    }
    Ok(())
}

// Writes what the template of the setting `then` stands for after the passes, and the random word that is drawn then.
fn write_rest(
    alloc: Global,
    settings: &Settings,
    state: &mut UserState,
    out: &mut String,
) -> anyhow::Result<()> {
    let then = settings.text("then");
    let word = state.fns.draw();
    if !then.is_empty() {
        let value = expanded(alloc, then, state)?;
        write!(out, ", then '{}'", plain(&value))?;
    }
    write!(out, ", next word {word}\n")?;
    Ok(())
}

// Writes the turns of each pass, or why there are no more, and what comes then.
fn write_passes(
    alloc: Global,
    settings: &Settings,
    scene: &mut Scene,
    out: &mut String,
) -> anyhow::Result<()> {
    out.push_str("=")?;
    for _ in 0..settings.number("passes", 1)? {
        if let Err(error) = pass(alloc, settings, scene, out) {
            write!(out, " refused: {error}")?;
        }
    }
    write_rest(alloc, settings, &mut scene.state, out)
}

/// What a case `run` prints: the turns of each pass, or why there are no more, and what comes then.
pub fn turns(
    alloc: Global,
    settings: &Settings,
    rest: &str,
    out: &mut String,
) -> anyhow::Result<()> {
    let mut scene = scene_of(alloc, settings, rest)?;
    write_passes(alloc, settings, &mut scene, out)
}
