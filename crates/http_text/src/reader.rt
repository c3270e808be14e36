// A response, read in whatever pieces it comes.

ghost use Rattle.std.specs.Prelude.{◌≡◌, ◌≢◌, ◌≤◌, ◌<◌, ◌++◌, ℕ, List, [], length, take, drop, IfOk, MatchResult, Some, None, Ok, Err};
ghost use Rattle.http_text.specs.ResponseReading.{Reading, Read, IsDone, IsOver, HasAnswered, HasFinished, Advances};

use crate::answers::Fed;
use crate::error::WireError;
use crate::state::State;
use jm_base::{M, Reply};
use std::alloc::Global;
use std::marker::Model;

/// Reads a response in whatever pieces it comes (RFC 9112).
///
/// Heads of codes 100 to 199 are passed over. All heads together, a trailer part and a chunk's size line have at most 65,536 bytes
/// each, a head and a trailer part at most 128 fields, and a body at most 1,048,576 bytes. A byte is looked at once, so the time is in
/// proportion to the bytes, however they are cut.
#[derive(Drop)]
pub struct ResponseReader {
    state: State,
}

impl Model for ResponseReader {
    ghost use Rattle.http_text.specs.ResponseReading.{Reading, reading_of};

    ghost Value = { Reading };

    ghost view = { λ r. reading_of r.state };
}

impl ResponseReader {
    /// A reader before the first byte. With `head_only` the response has no body, as one to `HEAD`.
    pub fn new(alloc: Global, head_only: bool) -> M<ResponseReader>
        ensures head_only { IfOk result (λ r. r.head_only ≡ head_only) }
        ensures read { IfOk result (λ r. Read r []) }
        ensures open { IfOk result (λ r. ¬ (IsDone r)) }
    {
        Ok(ResponseReader {
            state: State::new(alloc, head_only),
        })
    }

    /// Takes the next piece, which may be empty.
    ///
    /// `More` where the bytes so far are not a whole response yet, and `Done` where they are, with how many bytes of this piece belong
    /// to it; each later call uses none. A refusal comes with the first byte that settles it, and each later call gives the same one:
    /// `BadHead` for a whole head that is not one or whose framing is wrong, `BadChunk` for chunks that no further bytes can mend and
    /// for a trailer part that is not a header section, `TooLong` past a limit. Out of memory stays as a refusal does.
    pub fn feed(&mut self, piece: &[u8]) -> Result<Fed, WireError>
        ensures head_only { self.new.head_only ≡ self.old.head_only }

        // What the bytes so far come to, however they were cut.
        ensures answer { (bytes : List ℕ) → Read self.old bytes → HasAnswered self.new bytes piece.now result }

        // After a whole response nothing more is used.
        ensures done { IsDone self.old → result ≡ Ok (Fed.Done 0) }

        // A refusal stays, and so does out of memory.
        ensures again { (error : WireError) → IsOver self.old error → result ≡ Err error }
        ensures over { (error : WireError) → result ≡ Err error → IsOver self.new error }
    {
        let mut at = 0;
        while at < piece.len() && self.state.is_reading() {
            at += self.state.advance(&piece[at..]);
        }
        self.state.answer(at)
    }

    /// The reply, where the input ends here: `EndEarly` where the response is not whole. A body up to the end of input is whole.
    pub fn finish(self) -> Result<Reply, WireError>
        ensures answer { (bytes : List ℕ) → Read self bytes → HasFinished self.head_only bytes result }
        ensures done { IsDone self → result ≡ Ok self.reply }
        ensures again { (error : WireError) → IsOver self error → result ≡ Err error }
    {
        self.state.finish()
    }
}
