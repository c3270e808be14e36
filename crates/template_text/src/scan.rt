// Where references begin in a text, how far they reach, and how deep calls nest in them. One pass from the right
// to the left: what begins at a place is known before the places on its left ask for it, so no text is read again.

ghost use Rattle.std.specs.Prelude.{◌≡◌, ◌+◌, ◌^◌, ◌<◌, ◌≤◌, ℕ, length, drop, map, max, option_map, is_some, slice_index_or, IfOk, IfSome, None};
ghost use Rattle.template_text.specs.TemplateGrammar.{begins_with, opens, is_name_byte, is_letter_or_digit};
ghost use Rattle.std.specs.List.{list_all};
ghost use Rattle.template_text.specs.Scan.{token_of, step_of, first_at, arguments_at, name_length, variable_named, named, table, call_name, call_of, shape, extent_of, AreFound, MovesOn, found_length, found_depth, found_nesting};

use jm_base::M;
use std::alloc::Global;

/// The most calls that may stand in one another.
pub const DEEPEST: u32 = 16;

/// What stands at a place of a call's arguments.
#[derive(Clone, Copy)]
pub enum Token {
    /// `(`
    Open,
    /// `)`
    Close,
    /// `,`, which parts arguments.
    Separator,
    /// `\,`, a comma of plain text.
    Comma,
    /// `${`
    Start,
    /// Any other byte.
    Byte(u8),
}

/// A reference in a text.
#[derive(Clone, Copy)]
pub enum Found {
    /// A variable, in that many bytes.
    Variable {
        length: usize,
    },
    /// A call of a function with a name of that many bytes, and how deep calls nest in it.
    Call {
        name: usize,
        length: usize,
        depth: u32,
    },
}

/// A move through arguments, by one token.
#[derive(Clone, Copy)]
pub enum Step {
    /// The arguments end here.
    Ends,
    /// There are no arguments that go on like this.
    Fails,
    /// That many bytes further, with that many parentheses open there.
    Goes { by: usize, unclosed: usize },
}

/// How many bytes arguments take, and how deep calls nest in them.
#[derive(Clone, Copy)]
pub struct Extent {
    pub length: usize,
    pub depth: u32,
}

impl Found {
    /// How many bytes the reference takes.
    pub fn length(self) -> usize
        ensures { result ≡ found_length self }
    {
        match self {
            Found::Variable { length } => length,
            Found::Call { length, .. } => length,
        }
    }

    /// How deep calls nest in it, itself included.
    pub fn depth(self) -> u32
        ensures { result ≡ found_depth self }
    {
        match self {
            Found::Variable { .. } => 0,
            Found::Call { depth, .. } => depth,
        }
    }
}

/// What follows that many items.
pub fn after<T>(items: &[T], count: usize) -> &[T]
    requires { count ≤ length items.now }
    ensures { result.now ≡ drop count items.now }
{
    items.split_at(count).1
}

/// What is found at the first place.
pub fn first_found(found: &[Option<Found>]) -> Option<Found>
    requires { 0 < length found.now }
    ensures { result ≡ slice_index_or found.now 0 None }
{
    found[0]
}

/// Whether the second byte is this one.
fn next_is(text: &[u8], byte: u8) -> bool
    ensures { result ≡ begins_with byte (drop 1 text.now) }
{
    text.len() > 1 && text[1] == byte
}

/// The token that begins the text.
pub fn first_token(text: &[u8]) -> Token
    requires { 0 < length text.now }
    ensures { result ≡ token_of text.now }
{
    match text[0] {
        b'(' => Token::Open,
        b')' => Token::Close,
        b',' => Token::Separator,
        b'\\' if next_is(text, b',') => Token::Comma,
        b'$' if next_is(text, b'{') => Token::Start,
        byte => Token::Byte(byte),
    }
}

/// The move from the first token of the text, where that many parentheses are open.
pub fn next_step(text: &[u8], found: &[Option<Found>], unclosed: usize) -> Step
    requires some { 0 < length text.now }
    requires places { AreFound text.now found.now }
    requires room { unclosed + length text.now < 2 ^ 64 }
    ensures step { result ≡ step_of (token_of text.now) (first_at text.now) (begins_with 125 (drop 1 text.now)) unclosed }
    ensures on { MovesOn result unclosed (length text.now) }
{
    match first_token(text) {
        Token::Open => Step::Goes {
            by: 1,
            unclosed: unclosed + 1,
        },
        Token::Close => closing(text, unclosed),
        Token::Separator | Token::Byte(_) => Step::Goes { by: 1, unclosed },
        Token::Comma => Step::Goes { by: 2, unclosed },
        Token::Start => match first_found(found) {
            None => Step::Fails,
            Some(reference) => Step::Goes {
                by: reference.length(),
                unclosed,
            },
        },
    }
}

/// The move from a `)`.
fn closing(text: &[u8], unclosed: usize) -> Step
    ensures { result ≡ step_of Token.Close None (begins_with 125 (drop 1 text.now)) unclosed }
{
    if unclosed > 0 {
        Step::Goes {
            by: 1,
            unclosed: unclosed - 1,
        }
    } else if next_is(text, b'}') {
        Step::Ends
    } else {
        Step::Fails
    }
}

/// How far the arguments reach that begin the text, up to the `)` that ends them.
fn arguments_extent(text: &[u8], found: &[Option<Found>]) -> Option<Extent>
    requires { AreFound text.now found.now }
    ensures extent { result ≡ option_map extent_of (arguments_at text.now 0) }
    ensures within { IfSome result (λ e. e.length ≤ length text.now) }
{
    let mut at = 0;
    let mut unclosed = 0;
    let mut depth = 0;
    while at < text.len() {
        let places = after(found, at);
        match next_step(after(text, at), places, unclosed) {
            Step::Ends => return Some(Extent { length: at, depth }),
            Step::Fails => return None,
            Step::Goes { by, unclosed: then } => {
                depth = deeper(depth, first_found(places));
                at += by;
                unclosed = then;
            }
        }
    }
    None
}

/// The depth, or that of the reference where it is greater.
fn deeper(depth: u32, found: Option<Found>) -> u32
    ensures { result ≡ max depth (found_nesting found) }
{
    match found {
        None => depth,
        Some(reference) => depth.max(reference.depth()),
    }
}

/// Whether a byte may stand in the name of a variable.
#[tactic(auto, unfolding(crate::specs::TemplateGrammar::is_name_byte))]
fn is_name_byte(byte: u8) -> bool
    ensures { result ≡ is_name_byte byte }
{
    !matches!(byte, b'$' | b'{' | b'}' | b'(' | b')' | b',' | b'\\')
}

/// How many bytes at the start may stand in the name of a variable.
fn name_length(text: &[u8]) -> usize
    ensures length { result ≡ name_length text.now }
    ensures within { result ≤ length text.now }
{
    for (i, byte) in text.iter().enumerate() {
        if !is_name_byte(*byte) {
            return i;
        }
    }
    text.len()
}

/// Whether a byte may stand in the name of a function.
#[tactic(auto, unfolding(crate::specs::TemplateGrammar::is_letter_or_digit))]
fn is_letter_or_digit(byte: u8) -> bool
    ensures { result ≡ is_letter_or_digit byte }
{
    matches!(byte, b'0'..=b'9' | b'A'..=b'Z' | b'a'..=b'z')
}

/// Whether this is `__` and then the name of a function.
fn is_call_name(name: &[u8]) -> bool
    ensures { result ≡ is_some (call_name name.now) }
{
    name.len() > 2 && name[0] == b'_' && name[1] == b'_' && are_letters_or_digits(&name[2..])
}

/// Whether all these bytes may stand in the name of a function.
fn are_letters_or_digits(name: &[u8]) -> bool
    ensures { result ≡ list_all is_letter_or_digit name.now }
{
    name.iter().all(|byte| is_letter_or_digit(*byte))
}

/// The call whose name and arguments these are.
fn call(name: &[u8], text: &[u8], found: &[Option<Found>]) -> Option<Found>
    requires places { AreFound text.now found.now }
    requires room { length name.now + length text.now + 5 < 2 ^ 64 }
    ensures { result ≡ option_map shape (call_of name.now (arguments_at text.now 0)) }
{
    if !is_call_name(name) {
        return None;
    }
    let arguments = arguments_extent(text, found)?;
    if arguments.depth >= DEEPEST {
        return None;
    }
    Some(Found::Call {
        name: name.len() - 2,
        length: name.len() + arguments.length + 5,
        depth: arguments.depth + 1,
    })
}

/// Whether the text begins with `${`.
fn opens(text: &[u8]) -> bool
    ensures { result ≡ opens text.now }
{
    !text.is_empty() && text[0] == b'$' && next_is(text, b'{')
}

/// The reference with this name, and with this text after the name.
fn ended(name: &[u8], text: &[u8], found: &[Option<Found>]) -> Option<Found>
    requires places { AreFound text.now found.now }
    requires room { length name.now + length text.now + 5 < 2 ^ 64 }
    ensures { result ≡ option_map shape (named name.now text.now (table text.now)) }
{
    if text.is_empty() {
        return None;
    }
    match text[0] {
        b'}' => variable(name),
        b'(' => call(name, after(text, 1), after(found, 1)),
        _ => None,
    }
}

/// The variable of this name.
fn variable(name: &[u8]) -> Option<Found>
    requires { length name.now + 3 < 2 ^ 64 }
    ensures { result ≡ option_map shape (variable_named name.now) }
{
    if name.is_empty() {
        return None;
    }
    Some(Found::Variable {
        length: name.len() + 3,
    })
}

/// The reference that begins the text. What is found is what begins at each further place.
fn first(text: &[u8], found: &[Option<Found>]) -> Option<Found>
    requires { AreFound (drop 1 text.now) found.now }
    ensures { result ≡ option_map shape (first_at text.now) }
{
    if !opens(text) {
        return None;
    }
    let inside = after(text, 2);
    let (name, rest) = inside.split_at(name_length(inside));
    ended(name, rest, after(found, name.len() + 1))
}

/// What begins at each place of the text.
pub fn references(alloc: Global, text: &[u8]) -> M<Vec<Option<Found>>>
    ensures { IfOk result (λ v. AreFound text.now v.items) }
{
    let mut found = vec![in alloc; None; text.len()]?;
    let mut at = text.len();
    while at > 0 {
        at -= 1;
        let reference = first(after(text, at), after(&found, at + 1));
        found[at] = reference;
    }
    Ok(found)
}
