// The labels and the locks of a plan: distinct names in order of first appearance.

ghost use Rattle.std.specs.Prelude.{◌≡◌, ◌≤◌, ◌<◌, IfOk, IfSome, OnOk, MatchOption, length, map, position, unwrap_or, []};
ghost use Rattle.std.specs.List.{list_any};
ghost use Rattle.std.specs.Option.{option_copied};
ghost use Rattle.jm_base.specs.Outside.{same_bytes};
ghost use Rattle.element_tree.specs.Names.{gives_samples, sample_name, lock_name, name_by, with_text, with_name, names_of, number_in, looked_up};

use crate::kinds::{Element, Kind};
use jm_base::{M, Text};
use std::alloc::Global;

/// The most labels, and the most locks, that a plan may have.
pub const NAME_LIMIT: usize = 256;

/// What an element has a name for.
#[derive(Clone, Copy, PartialEq, Eq, Debug)]
pub enum Naming {
    /// Its samples.
    Label,
    /// Its lock.
    Lock,
}

fn same_bytes(a: &[u8], b: &[u8]) -> bool
    ensures { result ≡ same_bytes a.now b.now }
{
    a == b
}

fn gives_samples(kind: &Kind) -> bool
    ensures { result ≡ gives_samples kind.now }
{
    match kind {
        Kind::Script { .. } => true,
        Kind::Http { .. } => true,
        Kind::Transaction => true,
        _ => false,
    }
}

/// The name under which an element gives its samples.
fn sample_name(element: &Element) -> Option<&Text>
    ensures { option_copied result ≡ sample_name element.now }
{
    if gives_samples(&element.kind) {
        Some(&element.name)
    } else {
        None
    }
}

/// The name of the lock of a critical section.
fn lock_name(element: &Element) -> Option<&Text>
    ensures { option_copied result ≡ lock_name element.now }
{
    match &element.kind {
        Kind::CriticalSection { lock } => Some(lock),
        _ => None,
    }
}

fn name_by(naming: Naming, element: &Element) -> Option<&Text>
    ensures { option_copied result ≡ name_by naming element.now }
{
    match naming {
        Naming::Label => sample_name(element),
        Naming::Lock => lock_name(element),
    }
}

fn has_text(texts: &[Text], text: &Text) -> bool
    ensures { result ≡ list_any (same_bytes text.now) texts.now }
{
    texts
        .iter()
        .any(|known| same_bytes(text.bytes(), known.bytes()))
}

fn add_text(alloc: Global, texts: &mut Vec<Text>, text: &Text) -> M<()>
    ensures { OnOk result (texts.new.items ≡ with_text texts.old.items text.now) }
{
    if has_text(texts, text) {
        return Ok(());
    }
    texts.push(text.copy(alloc)?)?;
    Ok(())
}

fn add_name(alloc: Global, naming: Naming, texts: &mut Vec<Text>, element: &Element) -> M<()>
    ensures { OnOk result (texts.new.items ≡ with_name texts.old.items (name_by naming element.now)) }
{
    match name_by(naming, element) {
        Some(name) => add_text(alloc, texts, name),
        None => Ok(()),
    }
}

/// The distinct names of these elements, where there are at most 256.
#[tactic(auto, using(crate::proofs::NameLaws::names_step, crate::proofs::NameLaws::too_many))]
pub(crate) fn names_of(alloc: Global, naming: Naming, elements: &[Element]) -> M<Option<Vec<Text>>>
    ensures { IfOk result (λ o. MatchOption o (NAME_LIMIT < length (names_of naming elements.now)) (λ names. (names.items ≡ names_of naming elements.now) × (length names.items ≤ NAME_LIMIT))) }
{
    let mut names = Vec::new(alloc);
    'elements: for element in elements {
        add_name(alloc, naming, &mut names, element)?;
        if names.len() > NAME_LIMIT {
            return Ok(None);
        }
    }
    Ok(Some(names))
}

fn place_of(texts: &[Text], text: &[u8]) -> Option<usize>
    ensures place { result ≡ position (same_bytes text.now) texts.now }
    ensures within { IfSome result (λ i. i < length texts.now) }
{
    texts
        .iter()
        .position(|known| same_bytes(text, known.bytes()))
}

fn number_in(names: &[Text], name: &[u8]) -> u16
    requires { length names.now ≤ NAME_LIMIT }
    ensures { result ≡ number_in names.now name.now }
{
    match place_of(names, name) {
        Some(place) => place as u16,
        None => 0,
    }
}

fn looked_up(naming: Naming, element: &Element) -> &[u8]
    ensures { result.now ≡ looked_up naming element.now }
{
    match naming {
        Naming::Label => element.name.bytes(),
        Naming::Lock => match lock_name(element) {
            Some(lock) => lock.bytes(),
            None => &[],
        },
    }
}

/// The number of each element among these names.
pub(crate) fn numbers_in(
    alloc: Global,
    naming: Naming,
    elements: &[Element],
    names: &[Text],
) -> M<Vec<u16>>
    requires { length names.now ≤ NAME_LIMIT }
    ensures { IfOk result (λ v. v.items ≡ map (λ e. number_in names.now (looked_up naming e)) elements.now) }
{
    let mut numbers = Vec::new(alloc);
    'elements: for element in elements {
        numbers.push(number_in(names, looked_up(naming, element)))?;
    }
    Ok(numbers)
}
