// Reading a schedule, byte after byte.

ghost use Rattle.std.specs.Prelude.{◌≡◌, ◌<◌, ◌≤◌, ◌*◌, ◌+◌, ◌++◌, [], ◌∷◌, ℕ, List, length, IfOk, OnOk, IfSome, Ok, Err};
ghost use Rattle.schedule_text.specs.declared.token.Token.{Token};
ghost use Rattle.schedule_text.specs.declared.schedule.ScheduleError.{ScheduleError};
ghost use Rattle.schedule_text.specs.Grammar.{IsSchedule, IsFaultOf};
ghost use Rattle.schedule_text.specs.Reading.{IsLow, IsLowMark, mark_of, after, tokens_at, ended_at, given_at, reading_of, Gives};

use crate::schedule::{Schedule, ScheduleError};
use crate::token::Token;
use jm_base::M;
use std::alloc::Global;

/// What a byte says.
#[derive(Clone, Copy)]
enum Mark {
    /// A digit of a thread's number.
    Digit(u8),
    Comma,
    /// `x`
    Times,
    /// `r`
    One,
    /// `R`
    Many,
    Other,
}

/// Where a byte stands.
#[derive(Clone, Copy)]
enum Place {
    /// At the start of the text.
    Start,
    /// After a comma.
    Comma,
    /// After the first digit of a thread's number.
    Digit(u8),
    /// After both digits of a thread's number.
    Digits(u8),
    /// After a token that goes on no further.
    Whole(Token),
}

fn mark_of(byte: u8) -> Mark
    ensures mark { result ≡ mark_of byte }
    ensures low { IsLowMark result }
{
    match byte {
        b'0'..=b'9' => Mark::Digit(byte - b'0'),
        b',' => Mark::Comma,
        b'x' => Mark::Times,
        b'r' => Mark::One,
        b'R' => Mark::Many,
        _ => Mark::Other,
    }
}

impl Place {
    /// Where the next byte stands, if this one can stand here.
    fn after(self, mark: Mark) -> Option<Place>
        requires low { IsLow self }
        requires low_mark { IsLowMark mark }
        ensures next { result ≡ after self mark }
        ensures low { IfSome result IsLow }
    {
        match (self, mark) {
            (Place::Start | Place::Comma, Mark::Digit(digit)) => Some(Place::Digit(digit)),
            (Place::Start | Place::Comma, Mark::One) => Some(Place::Whole(Token::Reporter)),
            (Place::Start | Place::Comma, Mark::Many) => Some(Place::Whole(Token::Reporters)),
            (Place::Digit(number), Mark::Digit(digit)) => Some(Place::Digits(10 * number + digit)),
            (Place::Digit(number) | Place::Digits(number), Mark::Times) => {
                Some(Place::Whole(Token::Turns(number)))
            }
            (Place::Digit(_) | Place::Digits(_) | Place::Whole(_), Mark::Comma) => {
                Some(Place::Comma)
            }
            _ => None,
        }
    }
}

// Appends the token that ends at this place, if one does.
fn push_token(tokens: &mut Vec<Token>, place: Place) -> M<()>
    ensures { OnOk result (tokens.new.items ≡ tokens.old.items ++ tokens_at place) }
{
    match place {
        Place::Start | Place::Comma => Ok(()),
        Place::Digit(number) | Place::Digits(number) => {
            tokens.push(Token::Turn(number))?;
            Ok(())
        }
        Place::Whole(token) => {
            tokens.push(token)?;
            Ok(())
        }
    }
}

// Whether the text may end at this place.
fn may_end(place: Place) -> bool
    ensures { result ≡ ended_at place }
{
    match place {
        Place::Comma => false,
        Place::Start | Place::Digit(_) | Place::Digits(_) | Place::Whole(_) => true,
    }
}

// Appends the token that a byte after this place ends, if it ends one.
fn push_ended(tokens: &mut Vec<Token>, place: Place, mark: Mark) -> M<()>
    ensures { OnOk result (tokens.new.items ≡ tokens.old.items ++ given_at place mark) }
{
    match mark {
        Mark::Comma => push_token(tokens, place),
        Mark::Digit(_) | Mark::Times | Mark::One | Mark::Many | Mark::Other => Ok(()),
    }
}

// The reading of a text, or the first place that can't stand.
fn read(alloc: Global, text: &[u8]) -> Result<Schedule, ScheduleError>
    requires { length text.now ≤ 65536 }
    ensures { Gives result (reading_of text.now) }
{
    let mut tokens = Vec::new(alloc);
    let mut place = Place::Start;
    let mut at = 0;
    while at < text.len() {
        let mark = mark_of(text[at]);
        let Some(next) = place.after(mark) else {
            return Err(ScheduleError::BadSchedule { at: at as u32 });
        };
        push_ended(&mut tokens, place, mark)?;
        place = next;
        at += 1;
    }
    if !may_end(place) {
        return Err(ScheduleError::BadSchedule {
            at: text.len() as u32,
        });
    }
    push_token(&mut tokens, place)?;
    Ok(Schedule { tokens })
}

/// Reads a schedule: tokens parted by commas, without spaces. A thread is one or two digits; docs/use/WEAVE.md has the tokens.
/// An empty text is a schedule without tokens. The text has at most 65,536 bytes.
///
/// `BadSchedule` comes exactly where the text is no schedule, with the first byte that can't stand there, or the text's length.
pub fn parse_schedule(alloc: Global, text: &[u8]) -> Result<Schedule, ScheduleError>
    requires { length text.now ≤ 65536 }
    // The tokens are the one reading of the text.
    ensures reading { IfOk result (λ s. IsSchedule text.now s) }
    ensures one_reading { IfOk result (λ s. (other : List Token) → IsSchedule text.now other → other ≡ s) }
    // A refused text has no reading, and the place is the first one that can't stand.
    ensures refused { (at : ℕ) → result ≡ Err (ScheduleError.BadSchedule at) → (ts : List Token) → IsSchedule text.now ts → ⊥ }
    ensures place { (at : ℕ) → result ≡ Err (ScheduleError.BadSchedule at) → IsFaultOf text.now at }
    // The same as a function of the text.
    ensures exact { Gives result (reading_of text.now) }
{
    read(alloc, text)
}
