// Names with the texts of their templates.

ghost use Rattle.std.specs.Prelude.{◌≡◌, ◌++◌, ◌∷◌, [], List, IfOk, OnOk};
ghost use Rattle.jm_base.specs.Run.{over};
ghost use Rattle.var_functions.specs.Came.{CameTo};
ghost use Rattle.trials.specs.CutShort.{StandsLater};
ghost use Rattle.trials.specs.Tried.{fine, past_limit};
ghost use Rattle.http_settings.specs.RequestSettings.{named, texts_after, texts_of, pairs_seen};

use element_props::Pair;
use http_text::NamedText;
use jm_base::{Items, M, Outside, Text};
use std::alloc::Global;
use var_functions::{UserState, VarError, expand};

fn named(alloc: Global, pair: &Pair, value: Text) -> M<NamedText>
    ensures { IfOk result (λ n. n ≡ named pair.now value) }
{
    Ok(NamedText {
        name: pair.name.copy(alloc)?,
        value,
    })
}

fn push_text(alloc: Global, pair: &Pair, value: Text, texts: &mut Vec<NamedText>) -> M<()>
    ensures { OnOk result (texts.new.items ≡ texts.old.items ++ named pair.now value ∷ []) }
{
    texts.push(named(alloc, pair, value)?)?;
    Ok(())
}

// Adds the name and the text of a pair.
fn add_text<O: Outside>(
    alloc: Global,
    pair: &Pair,
    texts: &mut Vec<NamedText>,
    state: &mut UserState,
    outside: &mut O,
) -> Result<(), VarError>
    ensures came { (more : List Pair) → CameTo (O.account outside.old) (texts_after texts.old.items (pair.now ∷ more) state.old) (O.account outside.new)
        (λ u. texts_after texts.new.items more state.new) (over (past_limit state.new)) result }
    ensures stands { StandsLater state.old state.new }
{
    let value = expand(alloc, &pair.value, state, outside)?;
    push_text(alloc, pair, value, texts)?;
    Ok(())
}

/// The names and the texts of pairs, each expanded when its turn comes.
pub(crate) fn texts_of<O: Outside>(
    alloc: Global,
    pairs: &[&Pair],
    state: &mut UserState,
    outside: &mut O,
) -> Result<Items<NamedText>, VarError>
    ensures came { CameTo (O.account outside.old) (texts_of (pairs_seen pairs.now) state.old) (O.account outside.new)
        (λ texts. over (fine texts state.new)) (over (past_limit state.new)) result }
    ensures stands { StandsLater state.old state.new }
{
    let mut texts = Vec::new(alloc);
    'pairs: for pair in pairs {
        add_text(alloc, *pair, &mut texts, state, outside)?;
    }
    Ok(Items::of(texts))
}
