// Texts as they are shown.

use jm_base::Text;

/// A text, where it is UTF-8.
pub fn word(text: &Text) -> &str {
    match std::str::from_utf8(text.bytes()) {
        Ok(word) => word,
        Err(_) => "not UTF-8",
    }
}
