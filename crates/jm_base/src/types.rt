// Samples, replies, requests, ends and what an outside told.

ghost use Rattle.std.specs.Prelude.{◌≡◌};

use crate::text::Text;

/// What a recorder counts of a sample.
#[derive(Clone, Copy, PartialEq, Eq, Debug)]
pub struct Entry {
    /// The number of the sampler's or transaction's label.
    pub label: u16,
    /// Whether the sample succeeded.
    pub ok: bool,
    /// Milliseconds from the first reading of the clock to the second.
    pub elapsed: u32,
    /// The length of the reply's body.
    pub bytes: u32,
}

/// What became of one sampler or one transaction (the manual's sample result).
#[derive(Drop)]
pub struct Sample {
    /// The clock before the request, in milliseconds.
    pub stamp: u64,
    /// Milliseconds from the first reading of the clock to the second.
    pub elapsed: u32,
    /// The number of the label, which is the name of the sampler or transaction.
    pub label: u16,
    /// The response code, 0 where no response came.
    pub code: u16,
    /// The response message, at most 256 bytes.
    pub message: Text,
    /// The failure message of the first assertion that failed, empty where none did.
    pub failure: Text,
    /// The length of the reply's body.
    pub bytes: u32,
    /// How many listeners were handed the sample.
    pub listeners: u16,
    /// Whether the sample succeeded.
    pub ok: bool,
}

impl Sample {
    /// The part of the sample that a recorder counts.
    pub fn entry(&self) -> Entry
        ensures { result ≡ record { label = self.now.label; ok = self.now.ok; elapsed = self.now.elapsed; bytes = self.now.bytes } }
    {
        Entry {
            label: self.label,
            ok: self.ok,
            elapsed: self.elapsed,
            bytes: self.bytes,
        }
    }
}

/// How a thread ended.
#[derive(Clone, Copy, PartialEq, Eq, Debug)]
pub enum End {
    /// The rounds are over.
    Completed,
    /// A failed sample or a data set without a row ended the thread.
    StopThread,
    /// A failed sample ended the test.
    StopTest,
    /// The thread saw that the test is to stop.
    Stopped,
    /// The sample budget is used up, and the next move needs a unit of it.
    SampleLimit,
    /// No round is left, and another would begin.
    RoundLimit,
    /// A value or the variables would pass their limit.
    ValueLimit,
    /// Out of memory.
    NoMemory,
}

/// An answer that came whole.
#[derive(Drop)]
pub struct Reply {
    pub code: u16,
    pub message: Text,
    pub headers: Text,
    pub body: Text,
}

/// Why a response was refused.
#[derive(Clone, Copy, PartialEq, Eq, Debug)]
pub enum Wire {
    BadHead,
    BadChunk,
    TooLong,
    EndEarly,
}

/// An HTTP request method.
#[derive(Clone, Copy, PartialEq, Eq, Debug)]
pub enum Method {
    Get,
    Post,
    Put,
    Delete,
    Head,
}

/// What came of asking.
#[derive(Drop)]
pub enum Outcome {
    /// An answer.
    Reply(Reply),
    /// No sample is to be made.
    Null,
    /// The call failed.
    Fault,
    /// What came is not a whole response.
    Broken(Wire),
}

/// What is asked.
#[derive(Drop)]
pub enum Request {
    /// A text for the replies of a plan.
    Script(Text),
    /// The bytes of an HTTP request, and where they go.
    Http { host: Text, port: u16, bytes: Text },
}

/// One call of an outside, with what it was given and what it answered.
#[derive(Drop)]
pub enum Heard {
    /// A reading of the clock, in milliseconds.
    Reading(u64),
    /// A pause of this many milliseconds.
    Paused(u32),
    /// A sampler's request and its outcome.
    Asked {
        sampler: u16,
        request: Request,
        outcome: Outcome,
    },
}

/// An answer that a plan keeps for a sampler.
#[derive(Drop)]
pub struct ScriptReply {
    /// The response code, 0 to 999.
    pub code: u16,
    pub message: Text,
    pub headers: Text,
    pub body: Text,
    /// Milliseconds that pass on the clock before the answer is there.
    pub ms: u32,
    /// Whether no sample is to be made.
    pub null: bool,
    /// Whether the call fails.
    pub fault: bool,
    /// Whether the body is the text of the request.
    pub echo: bool,
}
