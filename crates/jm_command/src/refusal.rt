// Why a plan is refused, and the line that says so.

ghost use Rattle.std.specs.Prelude.{◌≡◌, IfOk};
ghost use Rattle.std.specs.Option.{option_map};
ghost use Rattle.jm_command.specs.Refusals.{tree_title, build_title, title_of, tree_path, build_path, where_text, where_of, what_text, build_what, what_of, refusal_line};

use element_props::{BuildError, What};
use jm_base::{M, Text};
use plan_json::{Path, TreeError};
use std::alloc::Global;

/// Why a plan is refused.
#[derive(Drop)]
pub enum Refusal {
    /// The plan has more bytes than its limit.
    TooLong,
    /// The bytes are not a tree of elements.
    Shape(TreeError),
    /// The tree is not a plan.
    Build(BuildError),
    /// A condition of the command does not hold.
    Unfit(BuildError),
}

#[tactic(auto, unfolding(crate::specs::Refusals::refusal_line))]
/// The line that names a refusal: its number, its name, its path, and what there is too much of.
pub fn refusal_line(alloc: Global, refusal: &Refusal) -> M<Vec<u8>>
    ensures { IfOk result (λ line. line.items ≡ refusal_line refusal.now) }
{
    let place = where_of(alloc, refusal)?;
    let mut line = Vec::new(alloc);
    line.extend_from_slice(b"refused ")?;
    line.extend_from_slice(title_of(refusal))?;
    line.extend_from_slice(place.bytes())?;
    line.extend_from_slice(what_of(refusal))?;
    line.push(b'\n')?;
    Ok(line)
}

fn title_of(refusal: &Refusal) -> &'static [u8]
    ensures { result.now ≡ title_of refusal.now }
{
    match refusal {
        Refusal::TooLong => b"8 TooMany ",
        Refusal::Shape(error) => tree_title(error),
        Refusal::Build(error) | Refusal::Unfit(error) => build_title(error),
    }
}

fn tree_title(error: &TreeError) -> &'static [u8]
    ensures { result.now ≡ tree_title error.now }
{
    match error {
        TreeError::NotUtf8 => b"1 NotUtf8 ",
        TreeError::NotJson => b"2 NotJson ",
        TreeError::NotElement { .. } => b"3 NotElement ",
        TreeError::UnknownKey { .. } => b"4 UnknownKey ",
        TreeError::NoMemory => b"",
    }
}

fn build_title(error: &BuildError) -> &'static [u8]
    ensures { result.now ≡ build_title error.now }
{
    match error {
        BuildError::UnknownType { .. } => b"5 UnknownType ",
        BuildError::MissingProp { .. } => b"6 MissingProp ",
        BuildError::BadProp { .. } => b"7 BadProp ",
        BuildError::TooMany { .. } => b"8 TooMany ",
        BuildError::TooDeep { .. } => b"9 TooDeep ",
        BuildError::WrongPlace { .. } => b"10 WrongPlace ",
        BuildError::BadPattern { .. } => b"11 BadPattern ",
        BuildError::BadCond { .. } => b"12 BadCond ",
        BuildError::NoReplies { .. } => b"13 NoReplies ",
        BuildError::NoThread => b"14 NoThread ",
        BuildError::NoMemory => b"",
    }
}

fn where_of(alloc: Global, refusal: &Refusal) -> M<Text>
    ensures { IfOk result (λ text. text ≡ where_of refusal.now) }
{
    match refusal {
        Refusal::TooLong => Text::new(alloc, b"/"),
        Refusal::Shape(error) => where_text(alloc, tree_path(error)),
        Refusal::Build(error) | Refusal::Unfit(error) => where_text(alloc, build_path(error)),
    }
}

fn where_text(alloc: Global, path: Option<&Path>) -> M<Text>
    ensures { IfOk result (λ text. text ≡ where_text (option_map (λ p. p.now) path.entry)) }
{
    match path {
        Some(path) => path.text(alloc),
        None => Text::new(alloc, b"-"),
    }
}

fn tree_path(error: &TreeError) -> Option<&Path>
    ensures { option_map (λ p. p.now) result ≡ tree_path error.now }
{
    match error {
        TreeError::NotElement { path } | TreeError::UnknownKey { path } => Some(path),
        TreeError::NotUtf8 | TreeError::NotJson | TreeError::NoMemory => None,
    }
}

fn build_path(error: &BuildError) -> Option<&Path>
    ensures { option_map (λ p. p.now) result ≡ build_path error.now }
{
    match error {
        BuildError::UnknownType { path }
        | BuildError::MissingProp { path }
        | BuildError::BadProp { path }
        | BuildError::TooMany { path, .. }
        | BuildError::TooDeep { path }
        | BuildError::WrongPlace { path }
        | BuildError::BadPattern { path, .. }
        | BuildError::BadCond { path, .. }
        | BuildError::NoReplies { path } => Some(path),
        BuildError::NoThread | BuildError::NoMemory => None,
    }
}

fn what_of(refusal: &Refusal) -> &'static [u8]
    ensures { result.now ≡ what_of refusal.now }
{
    match refusal {
        Refusal::TooLong => what_text(What::Bytes),
        Refusal::Build(error) | Refusal::Unfit(error) => build_what(error),
        Refusal::Shape(_) => b"",
    }
}

fn build_what(error: &BuildError) -> &'static [u8]
    ensures { result.now ≡ build_what error.now }
{
    match error {
        BuildError::TooMany { what, .. } => what_text(*what),
        _ => b"",
    }
}

fn what_text(what: What) -> &'static [u8]
    ensures { result.now ≡ what_text what }
{
    match what {
        What::Bytes => b" bytes",
        What::Elements => b" elements",
        What::Threads => b" threads",
        What::Labels => b" labels",
        What::Locks => b" locks",
        What::Samples => b" samples",
        What::Text => b" text",
    }
}
