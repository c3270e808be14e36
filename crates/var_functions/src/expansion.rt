// The expansion of a template.

ghost use Rattle.std.specs.Prelude.{◌≡◌, ◌≤◌, ◌++◌, [], All, IfOk, IfSome, OnOk, Some, None, length};
ghost use Rattle.std.specs.Option.{option_and_then, option_map};
ghost use Rattle.jm_base.specs.Run.{over};
ghost use Rattle.template_text.specs.Pieces.{variable, call, reference_spelling};
ghost use Rattle.template_text.specs.View.{arguments_of};
ghost use Rattle.thread_vars.specs.Vars.{most_text};
ghost use Rattle.var_functions.specs.Functions.{function_named};
ghost use Rattle.var_functions.specs.Texts.{value_bytes};
ghost use Rattle.var_functions.specs.Came.{CameTo};
ghost use Rattle.var_functions.specs.FunctionState.{Functions, IsLater};
ghost use Rattle.var_functions.specs.Stops.{OutOfMemory, moment, StopsIn, StopsInReference, StopsInTexts, StopsInPiece};
ghost use Rattle.var_functions.specs.Expansion.{expanded, and_then, appended, limited, taking, function_of_name, referred, after_piece, after_pieces, after_texts, expansion, Grows};

use crate::function::{Function, function_named};
use crate::state::{FnState, UserState};
use crate::texts::{Argument, Value};
use crate::value::value;
use itoa::Buffer;
use jm_base::{Outside, Text};
use smallvec::SmallVec;
use std::alloc::Global;
use template_text::{Piece, Template, spell_call, spell_variable};
use thread_vars::{MOST_TEXT, VarError, Vars};

// Most expansions are no longer than this, and take memory once.
const USUAL_LENGTH: usize = 64;

/// Whether the text is within the limit.
fn check_length(out: &[u8]) -> Result<(), VarError>
    ensures grown { Grows out.now out.now result }
    ensures short { OnOk result (length out.now ≤ most_text) }
{
    if out.len() > MOST_TEXT {
        return Err(VarError::ValueLimit);
    }
    Ok(())
}

/// Writes a text at the end, where that is within the limit.
fn append(bytes: &[u8], out: &mut Vec<u8>) -> Result<(), VarError>
    ensures grown { Grows (out.old.items ++ bytes.now) out.new.items result }
    ensures short { OnOk result (length out.new.items ≤ most_text) }
{
    match out.extend_from_slice(bytes) {
        Ok(()) => check_length(out),
        Err(_) => Err(VarError::NoMemory),
    }
}

/// Writes the text of a value at the end, where that is within the limit.
fn append_value(value: &Value, out: &mut Vec<u8>) -> Result<(), VarError>
    ensures grown { Grows (out.old.items ++ value_bytes value.now) out.new.items result }
    ensures short { OnOk result (length out.new.items ≤ most_text) }
{
    match value {
        Value::Number(number) => append(Buffer::new().format(*number).as_bytes(), out),
        Value::Lent(text) => append(text, out),
        Value::Formed(text) => append(text.bytes(), out),
    }
}

/// Writes the spelling of a variable reference at the end, where that is within the limit.
fn append_variable(alloc: Global, name: &Text, out: &mut Vec<u8>) -> Result<(), VarError>
    ensures grown { Grows (out.old.items ++ reference_spelling (variable name.now)) out.new.items result }
    ensures short { OnOk result (length out.new.items ≤ most_text) }
{
    match spell_variable(alloc, name) {
        Ok(spelling) => append(spelling.bytes(), out),
        Err(_) => Err(VarError::NoMemory),
    }
}

/// Writes the spelling of a call at the end, where that is within the limit.
fn append_call(
    alloc: Global,
    name: &Text,
    args: &[Template],
    out: &mut Vec<u8>,
) -> Result<(), VarError>
    ensures grown { Grows (out.old.items ++ reference_spelling (call name.now (arguments_of args.now))) out.new.items result }
    ensures short { OnOk result (length out.new.items ≤ most_text) }
{
    match spell_call(alloc, name, args) {
        Ok(spelling) => append(spelling.bytes(), out),
        Err(_) => Err(VarError::NoMemory),
    }
}

/// The function whose name stands after `__`.
fn function_of_name(name: &[u8]) -> Option<Function>
    ensures { result ≡ function_of_name name.now }
{
    if name.starts_with(b"__") {
        return function_named(&name[2..]);
    }
    None
}

/// The function of a name, where it takes that many arguments.
fn taking(function: Option<Function>, count: usize) -> Option<Function>
    ensures { result ≡ option_and_then (taking count) function }
{
    match function {
        Some(function) if function.takes(count) => Some(function),
        _ => None,
    }
}

/// Writes what a variable reference stands for at the end.
fn write_named<O: Outside>(
    alloc: Global,
    name: &Text,
    vars: &Vars,
    fns: &mut FnState,
    outside: &mut O,
    out: &mut Vec<u8>,
) -> Result<(), VarError>
    ensures came { CameTo (O.account outside.old) (and_then (referred (variable name.now) vars.now fns.old) (appended out.old.items)) (O.account outside.new)
        (λ _. over (expanded (Some out.new.items) fns.new)) (over (expanded None fns.new)) result }
    ensures stops { OutOfMemory result (StopsInReference (variable name.now) vars.now (moment fns.old (O.account outside.old)) (moment fns.new (O.account outside.new))) }
    ensures later { IsLater fns.old fns.new }
    ensures short { OnOk result (length out.new.items ≤ most_text) }
{
    let named = function_of_name(name.bytes());
    if named.is_none() {
        return match vars.get(name.bytes()) {
            Some(value) => append(value.bytes(), out),
            None => append_variable(alloc, name, out),
        };
    }
    match taking(named, 0) {
        Some(function) => match value(alloc, function, &[], vars, fns, outside) {
            Ok(Some(value)) => append_value(&value, out),
            Ok(None) => append_variable(alloc, name, out),
            Err(_) => Err(VarError::NoMemory),
        },
        None => append_variable(alloc, name, out),
    }
}

/// Writes what a call stands for at the end.
#[cycle(expansion)]
fn write_called<O: Outside>(
    alloc: Global,
    name: &Text,
    args: &[Template],
    vars: &Vars,
    fns: &mut FnState,
    outside: &mut O,
    out: &mut Vec<u8>,
) -> Result<(), VarError>
    ensures came { CameTo (O.account outside.old) (and_then (referred (call name.now (arguments_of args.now)) vars.now fns.old) (appended out.old.items)) (O.account outside.new)
        (λ _. over (expanded (Some out.new.items) fns.new)) (over (expanded None fns.new)) result }
    ensures stops { OutOfMemory result (StopsInReference (call name.now (arguments_of args.now)) vars.now (moment fns.old (O.account outside.old)) (moment fns.new (O.account outside.new))) }
    ensures later { IsLater fns.old fns.new }
    ensures short { OnOk result (length out.new.items ≤ most_text) }
{
    let Some(function) = taking(function_named(name.bytes()), args.len()) else {
        return append_call(alloc, name, args, out);
    };
    match argument_texts(alloc, args, vars, fns, outside) {
        Ok(texts) => match value(alloc, function, texts.as_slice(), vars, fns, outside) {
            Ok(Some(value)) => append_value(&value, out),
            Ok(None) => append_call(alloc, name, args, out),
            Err(_) => Err(VarError::NoMemory),
        },
        Err(error) => Err(error),
    }
}

/// The texts of arguments, from the left.
#[cycle(expansion)]
fn argument_texts<'a, O: Outside>(
    alloc: Global,
    args: &'a [Template],
    vars: &'a Vars,
    fns: &mut FnState,
    outside: &mut O,
) -> Result<SmallVec<Argument<'a>, 2>, VarError>
    ensures came { CameTo (O.account outside.old) (after_texts (arguments_of args.entry.now) vars.entry.now [] fns.old) (O.account outside.new)
        (λ v. over (expanded (Some v.items) fns.new)) (over (expanded None fns.new)) result }
    ensures stops { OutOfMemory result (StopsInTexts (arguments_of args.entry.now) vars.entry.now (moment fns.old (O.account outside.old)) (moment fns.new (O.account outside.new))) }
    ensures later { IsLater fns.old fns.new }
    ensures short { IfOk result (λ v. All (λ t. length t ≤ most_text) v.items) }
{
    let mut texts = SmallVec::new(alloc);
    for argument in args {
        match argument_text(alloc, argument, vars, fns, outside) {
            Ok(text) => {
                let Ok(()) = texts.push(text) else {
                    return Err(VarError::NoMemory);
                };
            }
            Err(error) => return Err(error),
        }
    }
    Ok(texts)
}

/// The text of an argument. It takes memory where it has to be formed.
#[cycle(expansion)]
fn argument_text<'a, O: Outside>(
    alloc: Global,
    argument: &'a Template,
    vars: &'a Vars,
    fns: &mut FnState,
    outside: &mut O,
) -> Result<Argument<'a>, VarError>
    ensures came { CameTo (O.account outside.old) (after_pieces argument.entry.now vars.entry.now [] fns.old) (O.account outside.new)
        (λ t. over (expanded (Some t) fns.new)) (over (expanded None fns.new)) result }
    ensures stops { OutOfMemory result (StopsIn argument.entry.now vars.entry.now [] (moment fns.old (O.account outside.old)) (moment fns.new (O.account outside.new))) }
    ensures later { IsLater fns.old fns.new }
    ensures short { IfOk result (λ t. length t ≤ most_text) }
{
    if let Some(text) = lent_text(argument, vars) {
        return Ok(Argument::lent(text));
    }
    let mut text = text_for(alloc, argument);
    match write_pieces(alloc, argument, vars, fns, outside, &mut text) {
        Ok(()) => Ok(Argument::formed(text)),
        Err(error) => Err(error),
    }
}

/// What a template stands for that is one text or the name of one variable, where that is within the limit.
fn lent_text<'a>(template: &'a Template, vars: &'a Vars) -> Option<&'a [u8]>
    ensures text { IfSome result (λ t. (fns : Functions) → after_pieces template.entry.now vars.entry.now [] fns ≡ over (expanded (Some t.now) fns)) }
    ensures short { IfSome result (λ t. length t.now ≤ most_text) }
{
    let [piece] = template.pieces.as_slice() else {
        return None;
    };
    match piece {
        Piece::Text(text) => limited(text.bytes()),
        Piece::Var(name) if function_of_name(name.bytes()).is_none() => {
            limited(vars.get(name.bytes())?.bytes())
        }
        _ => None,
    }
}

/// The text, where it is within the limit.
fn limited<'a>(text: &'a [u8]) -> Option<&'a [u8]>
    ensures { option_map (λ t. t.now) result ≡ limited text.entry.now }
{
    if text.len() > MOST_TEXT {
        return None;
    }
    Some(text)
}

// An empty text for what a template stands for, with room for one that is not long, where there is memory for it. A template
// without pieces needs none.
fn text_for(alloc: Global, template: &Template) -> Vec<u8>
    ensures { result.items ≡ [] }
{
    let mut text = Vec::new(alloc);
    if !template.pieces.is_empty() {
        let _wished = text.reserve(USUAL_LENGTH);
    }
    text
}

/// Writes what a piece stands for at the end.
#[cycle(expansion)]
fn write_piece<O: Outside>(
    alloc: Global,
    piece: &Piece,
    vars: &Vars,
    fns: &mut FnState,
    outside: &mut O,
    out: &mut Vec<u8>,
) -> Result<(), VarError>
    ensures came { CameTo (O.account outside.old) (after_piece piece.now vars.now out.old.items fns.old) (O.account outside.new)
        (λ _. over (expanded (Some out.new.items) fns.new)) (over (expanded None fns.new)) result }
    ensures stops { OutOfMemory result (StopsInPiece piece.now vars.now (moment fns.old (O.account outside.old)) (moment fns.new (O.account outside.new))) }
    ensures later { IsLater fns.old fns.new }
    ensures short { OnOk result (length out.new.items ≤ most_text) }
{
    match piece {
        Piece::Text(text) => append(text.bytes(), out),
        Piece::Var(name) => write_named(alloc, name, vars, fns, outside, out),
        Piece::Call { name, args } => write_called(alloc, name, args, vars, fns, outside, out),
    }
}

/// Writes what the pieces of a template stand for at the end, from the left.
#[cycle(expansion)]
fn write_pieces<O: Outside>(
    alloc: Global,
    template: &Template,
    vars: &Vars,
    fns: &mut FnState,
    outside: &mut O,
    out: &mut Vec<u8>,
) -> Result<(), VarError>
    requires { length out.old.items ≤ most_text }
    ensures came { CameTo (O.account outside.old) (after_pieces template.now vars.now out.old.items fns.old) (O.account outside.new)
        (λ _. over (expanded (Some out.new.items) fns.new)) (over (expanded None fns.new)) result }
    ensures stops { OutOfMemory result (StopsIn template.now vars.now out.old.items (moment fns.old (O.account outside.old)) (moment fns.new (O.account outside.new))) }
    ensures later { IsLater fns.old fns.new }
    ensures short { OnOk result (length out.new.items ≤ most_text) }
{
    for piece in &template.pieces {
        if let Err(error) = write_piece(alloc, piece, vars, fns, outside, out) {
            return Err(error);
        }
    }
    Ok(())
}

/// The text that a template stands for: plain text as it is, and each reference replaced by its value, from the left.
/// A reference without a value stands as it is spelled.
///
/// `ValueLimit` comes where the whole text, or an argument of a call, would have more than 65,536 bytes.
pub fn expand<O: Outside>(
    alloc: Global,
    template: &Template,
    state: &mut UserState,
    outside: &mut O,
) -> Result<Text, VarError>
    // The value, what functions keep, and the outside after it; past the limit what the evaluated part left of both;
    // and out of memory some rest of the run is left.
    ensures came { CameTo (O.account outside.old) (expansion template.now state.old.vars state.old.fns) (O.account outside.new)
        (λ t. over (expanded (Some t) state.new.fns)) (over (expanded None state.new.fns)) result }
    // Out of memory: functions keep what the evaluated part left.
    ensures stops { OutOfMemory result (StopsIn template.now state.old.vars [] (moment state.old.fns (O.account outside.old))
        (moment state.new.fns (O.account outside.new))) }
    // After every answer, out of memory included.
    ensures later { IsLater state.old.fns state.new.fns }
    ensures vars { state.new.vars ≡ state.old.vars }
{
    let mut text = text_for(alloc, template);
    match write_pieces(
        alloc,
        template,
        &state.vars,
        &mut state.fns,
        outside,
        &mut text,
    ) {
        Ok(()) => Ok(Text::of(text)),
        Err(error) => Err(error),
    }
}
