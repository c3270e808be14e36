// Texts as the output shows them.

use md5::{Digest, Md5};
use std::fmt;

/// The longest text that is shown whole.
const MOST_SHOWN: usize = 200;

/// A text with escapes as in Rust for quotes, backslashes and the bytes that do not print; a long one by its length and its MD5.
#[derive(Clone, Copy)]
pub struct Shown<'t>(pub &'t [u8]);

impl fmt::Display for Shown<'_> {
    fn fmt<W: fmt::Write>(&self, f: &mut fmt::Formatter<W>) -> fmt::Result {
        let text = self.0;
        if text.len() > MOST_SHOWN {
            let digest = u128::from_be_bytes(Md5::digest(text));
            return write!(f, "{} bytes, MD5 {digest:032x}", text.len());
        }
        write!(f, "{}", text.escape_ascii())
    }
}
