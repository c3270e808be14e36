// What extractors and assertions see of a reply.

ghost use Rattle.std.specs.Prelude.{◌≡◌, ◌≤◌, IsUtf8, length, take};
ghost use Rattle.reply_search.specs.Seen.{text_in, field_of};

use element_props::Field;
use itoa::Buffer;
use jm_base::Reply;

/// The longest prefix of the bytes that is UTF-8, which is what extractors and assertions see of them. The time is linear
/// in the bytes.
pub fn text_in(bytes: &[u8]) -> &str
    ensures { result.now ≡ text_in bytes.now }
{
    match std::str::from_utf8(bytes) {
        Ok(text) => text,
        Err(fault) => prefix(bytes, fault.valid_up_to()),
    }
}

/// The text before this byte.
fn prefix(bytes: &[u8], end: usize) -> &str
    requires bound { end ≤ length bytes.now }
    requires text { IsUtf8 (take end bytes.now) }
    ensures { result.now ≡ take end bytes.now }
{
    match std::str::from_utf8(&bytes[..end]) {
        Ok(text) => text,
        Err(_) => unreachable!(),
    }
}

/// The part of a reply that is looked at (the manual's "Field to check" of extractors, "Field to Test" of assertions): the
/// body, the headers or the message as they are, or the code by its decimal digits, which are written into `digits`.
pub fn field_of<'r>(field: Field, reply: &'r Reply, digits: &'r mut Buffer) -> &'r [u8]
    ensures { result.now ≡ field_of field reply.now }
{
    match field {
        Field::Body => reply.body.bytes(),
        Field::Headers => reply.headers.bytes(),
        Field::Code => digits.format(reply.code).as_bytes(),
        Field::Message => reply.message.bytes(),
    }
}
