// The properties that a run is given.

ghost use Rattle.std.specs.Prelude.{◌≡◌, ◌≤◌, ◌↔◌, IfOk, false, length, option_map};
ghost use Rattle.var_functions.specs.RunProps.{is_pair, each_is_pair, pairs_of, property_of};

use crate::error::PropsError;
use form_urlencoded::parse;
use jm_base::{M, Text};
use std::alloc::Global;
use std::marker::Model;

/// Properties: pairs of a name and a value, in order. Of two with one name the later one counts.
#[derive(Drop)]
pub struct Props {
    pairs: Vec<(Text, Text)>,
}

impl Model for Props {
    ghost use Rattle.std.specs.Prelude.{List, ℕ};

    ghost Value = { List (List ℕ × List ℕ) };

    ghost view = { λ p. p.pairs.items };
}

/// Whether a piece between two `&` is empty or has an `=`.
fn is_pair(piece: &[u8]) -> bool
    ensures { result ≡ is_pair piece.now }
{
    piece.is_empty() || piece.contains(&b'=')
}

/// Whether each piece between `&` that is not empty has an `=`.
fn each_is_pair(text: &[u8]) -> bool
    ensures { result ≡ each_is_pair text.now }
{
    text.split(|b| *b == b'&').all(is_pair)
}

/// The pairs of a text, in order.
fn pairs(alloc: Global, text: &[u8]) -> M<Vec<(Text, Text)>>
    ensures { IfOk result (λ v. v.items ≡ pairs_of text.now) }
{
    let mut found = Vec::new(alloc);
    for pair in parse(alloc, text).into_owned() {
        let (name, value) = pair?;
        found.push((Text::of(name.into_bytes()), Text::of(value.into_bytes())))?;
    }
    Ok(found)
}

impl Props {
    /// Reads properties in the form of `application/x-www-form-urlencoded` (URL Standard, section 5): `name=value`,
    /// one `&` between two pairs. The text has at most 65,536 bytes.
    pub fn read(alloc: Global, text: &[u8]) -> Result<Props, PropsError>
        requires { length text.now ≤ 65536 }
        ensures pairs { IfOk result (λ props. props ≡ pairs_of text.now) }
        ensures bad { (result ≡ Err PropsError.BadProps) ↔ (each_is_pair text.now ≡ false) }
    {
        if !each_is_pair(text) {
            return Err(PropsError::BadProps);
        }
        match pairs(alloc, text) {
            Ok(pairs) => Ok(Props { pairs }),
            Err(_) => Err(PropsError::NoMemory),
        }
    }

    /// A second list of the same pairs.
    pub(crate) fn copy(&self, alloc: Global) -> M<Props>
        ensures { IfOk result (λ props. props ≡ self.now) }
    {
        let mut pairs = Vec::new(alloc);
        for (name, value) in &self.pairs {
            pairs.push((name.copy(alloc)?, value.copy(alloc)?))?;
        }
        Ok(Props { pairs })
    }

    /// The value of the last pair of this name.
    pub(crate) fn last(&self, name: &[u8]) -> Option<&[u8]>
        ensures { option_map (λ s. s.now) result ≡ property_of name.now self.now }
    {
        let mut found = None;
        for (other, value) in &self.pairs {
            if name == other.bytes() {
                found = Some(value.bytes());
            }
        }
        found
    }
}
