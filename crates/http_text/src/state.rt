// How far a response was read.

ghost use Rattle.std.specs.Prelude.{◌≡◌, ◌≢◌, ◌==◌, if◌then◌else◌, ◌≤◌, ◌<◌, ◌++◌, ℕ, List, [], length, take, min, ◌-◌, ◌+◌, IfOk, OnOk, Some, None, ◌↔◌, IsTrue, IsFalse, ◌&&◌, nat_lt};
ghost use Rattle.jm_base.specs.declared.types.Reply.{Reply};
ghost use Rattle.httparse.specs.Grammar.{HasNoChunkLine, NeverHasChunkLine, MayBecomeChunkLine};
ghost use Rattle.http_text.specs.ResponseGrammar.{part_limit, body_limit, Heads, room};
ghost use Rattle.http_text.specs.ResponseReading.{reading_of, Advances, Stands, IsReading, Grows, GrowsBody, first_phase, next_head, Leads, answer_of, finish_of};
ghost use Rattle.http_lines.specs.SectionEnds.{section_end, before_head, before_trailer};
ghost use Rattle.http_text.specs.SizeLines.{before_size, is_known, scanned_size};

use crate::answers::Fed;
use crate::error::WireError;
use crate::fields::Framing;
use crate::head::{is_section, read_head};
use crate::sizes::{SIZE, SizeScan};
use http_lines::{HEAD, Scan, TRAILER};
use httparse::{Status, parse_chunk_size};
use jm_base::{M, NoMemory, Reply, Text, Wire};
use std::alloc::Global;

/// The most bytes of all heads together, of a trailer part and of a chunk's size line.
const PART_LIMIT: usize = 65_536;

/// The most bytes of a body.
const BODY_LIMIT: usize = 1_048_576;

/// The least code of a head that is not passed over.
const FINAL_CODE: u16 = 200;

/// Where a reader is in a response.
#[derive(Clone, Copy)]
pub(crate) enum Phase {
    /// In a head, after this many bytes of heads that are passed over.
    Head { passed: usize, scan: Scan },
    /// Before the last bytes of the body, this many.
    Sized { left: u64 },
    /// In a body up to the end of input.
    Rest,
    /// In a chunk's size line.
    SizeLine { scan: SizeScan },
    /// Before the last bytes of a chunk, this many.
    Chunk { left: u64 },
    /// After the bytes of a chunk, before the CR that ends it.
    ChunkReturn,
    /// Between the CR and the LF that end a chunk.
    ChunkFeed,
    /// In the trailer part.
    Trailer { scan: Scan },
    /// After the response.
    Done,
    /// The bytes are refused.
    Refused(Wire),
    /// Out of memory.
    OutOfMemory,
}

/// What was read of a response.
#[derive(Drop)]
pub(crate) struct State {
    pub(crate) alloc: Global,
    pub(crate) head_only: bool,
    pub(crate) phase: Phase,
    /// The bytes of the head, size line or trailer part that is being read.
    pub(crate) part: Vec<u8>,
    pub(crate) code: u16,
    pub(crate) message: Text,
    pub(crate) headers: Text,
    pub(crate) body: Vec<u8>,
}

/// What a piece adds to a part that ends with an empty line.
#[derive(Clone, Copy)]
pub(crate) enum Growth {
    /// This many bytes, with which the part is whole.
    Whole(usize),
    /// All of its bytes, and the part is not whole.
    Open(Scan),
    /// More than there is room for.
    Long,
}

impl State {
    /// Before the first byte.
    pub(crate) fn new(alloc: Global, head_only: bool) -> State
        ensures { reading_of result ≡ record { head_only = head_only; phase = Phase.Head 0 before_head; part = []; reply = record { code = 0; message = []; headers = []; body = [] } } }
    {
        State {
            alloc,
            head_only,
            phase: Phase::Head {
                passed: 0,
                scan: HEAD,
            },
            part: Vec::new(alloc),
            code: 0,
            message: Text::of(Vec::new(alloc)),
            headers: Text::of(Vec::new(alloc)),
            body: Vec::new(alloc),
        }
    }

    /// Whether more bytes may change the answer.
    pub(crate) fn is_reading(&self) -> bool
        ensures { IsTrue result ↔ IsReading self.now.phase }
    {
        match self.phase {
            Phase::Done | Phase::Refused(_) | Phase::OutOfMemory => false,
            _ => true,
        }
    }

    /// The answer where this many bytes of a piece were taken.
    pub(crate) fn answer(&self, used: usize) -> Result<Fed, WireError>
        ensures { result ≡ answer_of self.now.phase used }
    {
        match self.phase {
            Phase::Refused(wire) => Err(WireError::Wire(wire)),
            Phase::OutOfMemory => Err(WireError::NoMemory),
            Phase::Done => Ok(Fed::Done { used: used as u64 }),
            _ => Ok(Fed::More),
        }
    }

    /// The answer at the end of the input.
    pub(crate) fn finish(self) -> Result<Reply, WireError>
        ensures { result ≡ finish_of self.phase (reading_of self).reply }
    {
        match self.phase {
            Phase::Done | Phase::Rest => Ok(Reply {
                code: self.code,
                message: self.message,
                headers: self.headers,
                body: Text::of(self.body),
            }),
            Phase::Refused(wire) => Err(WireError::Wire(wire)),
            Phase::OutOfMemory => Err(WireError::NoMemory),
            _ => Err(WireError::Wire(Wire::EndEarly)),
        }
    }

    /// Reads on, and answers how many bytes it took: at least one of a piece that has one.
    pub(crate) fn advance(&mut self, piece: &[u8]) -> usize
        requires reading { IsReading self.old.phase }
        requires some { 0 < length piece.now }
        ensures used { (0 < result) × (result ≤ length piece.now) }
        ensures head_only { self.new.head_only ≡ self.old.head_only }
        ensures read { Stands (reading_of self.old) → Advances (reading_of self.old) (take result piece.now) (reading_of self.new) }
    {
        match self.take(piece) {
            // A piece with a byte is never left as it was.
            Ok(used) => used.max(1),
            Err(NoMemory) => {
                self.phase = Phase::OutOfMemory;
                piece.len()
            }
        }
    }

    /// Reads on in the phase.
    fn take(&mut self, piece: &[u8]) -> M<usize>
        requires reading { IsReading self.old.phase }
        requires some { 0 < length piece.now }
        ensures used { IfOk result (λ n. n ≤ length piece.now) }
        ensures moved { IfOk result (λ n. Stands (reading_of self.old) → 0 < n) }
        ensures head_only { self.new.head_only ≡ self.old.head_only }
        ensures read { IfOk result (λ n. Stands (reading_of self.old) → Advances (reading_of self.old) (take n piece.now) (reading_of self.new)) }
    {
        match self.phase {
            Phase::Head { passed, scan } => self.take_head(piece, passed, scan),
            Phase::Sized { left } => self.take_sized(piece, left),
            Phase::Rest => self.take_rest(piece),
            Phase::SizeLine { scan } => self.take_line(piece, scan),
            Phase::Chunk { left } => self.take_chunk(piece, left),
            Phase::ChunkReturn => Ok(self.take_return(piece)),
            Phase::ChunkFeed => Ok(self.take_feed(piece)),
            Phase::Trailer { scan } => self.take_trailer(piece, scan),
            Phase::Done | Phase::Refused(_) | Phase::OutOfMemory => Ok(piece.len()),
        }
    }

    /// Takes what of the piece belongs to the part that is being read.
    fn grow(&mut self, piece: &[u8], mut scan: Scan, room: usize) -> M<Growth>
        ensures grown { IfOk result (λ g. Grows self.old.part.items self.new.part.items piece.now scan room g) }
        ensures same { record self.new { part = self.old.part } ≡ self.old }
    {
        match scan.find_end(piece) {
            Some(used) if used <= room => {
                self.part.extend_from_slice(&piece[..used])?;
                Ok(Growth::Whole(used))
            }
            None if piece.len() < room => {
                self.part.extend_from_slice(piece)?;
                Ok(Growth::Open(scan))
            }
            _ => Ok(Growth::Long),
        }
    }

    /// Adds bytes to the part that is being read.
    fn add_to_part(&mut self, bytes: &[u8]) -> M<()>
        ensures items { OnOk result (self.new.part.items ≡ self.old.part.items ++ bytes.now) }
        ensures same { record self.new { part = self.old.part } ≡ self.old }
    {
        self.part.extend_from_slice(bytes)?;
        Ok(())
    }

    /// Reads on in a head.
    fn take_head(&mut self, piece: &[u8], passed: usize, scan: Scan) -> M<usize>
        requires phase { self.old.phase ≡ Phase.Head passed scan }
        requires some { 0 < length piece.now }
        ensures used { IfOk result (λ n. (0 < n) × (n ≤ length piece.now)) }
        ensures head_only { self.new.head_only ≡ self.old.head_only }
        ensures read { IfOk result (λ n. Stands (reading_of self.old) → Advances (reading_of self.old) (take n piece.now) (reading_of self.new)) }
    {
        let room = PART_LIMIT.saturating_sub(passed.saturating_add(self.part.len()));
        match self.grow(piece, scan, room)? {
            Growth::Whole(used) => {
                self.end_head(passed)?;
                Ok(used)
            }
            Growth::Open(scan) => {
                self.phase = Phase::Head { passed, scan };
                Ok(piece.len())
            }
            Growth::Long => Ok(self.refuse(piece, Wire::TooLong)),
        }
    }

    /// The part is a whole head.
    fn end_head(&mut self, passed: usize) -> M<()>
        ensures head_only { self.new.head_only ≡ self.old.head_only }
        ensures read { OnOk result (section_end before_head self.old.part.items ≡ Some (length self.old.part.items) → passed + length self.old.part.items ≤ part_limit
            → self.old.body.items ≡ [] → Leads self.old.head_only (Heads passed) self.old.part.items (reading_of self.new)) }
    {
        let passed = passed.saturating_add(self.part.len());
        let said = read_head(self.alloc, &self.part)?;
        self.part.clear();
        match said {
            None => self.phase = Phase::Refused(Wire::BadHead),
            Some((reply, framing)) if reply.code >= FINAL_CODE => self.begin_body(reply, framing),
            Some(_) => self.phase = next_head(passed),
        }
        Ok(())
    }

    /// Begins the body of a head that is not passed over.
    fn begin_body(&mut self, reply: Reply, framing: Framing)
        ensures reply { (reading_of self.new).reply ≡ record reply { body = self.old.body.items } }
        ensures phase { self.new.phase ≡ first_phase self.old.head_only reply.code framing }
        ensures part { self.new.part.items ≡ self.old.part.items }
        ensures head_only { self.new.head_only ≡ self.old.head_only }
    {
        self.phase = first_phase(self.head_only, reply.code, framing);
        self.code = reply.code;
        self.message = reply.message;
        self.headers = reply.headers;
    }

    /// Takes what of the piece belongs to the body, at most this many bytes, where there is room.
    fn grow_body(&mut self, piece: &[u8], left: u64) -> M<Option<usize>>
        ensures grown { IfOk result (λ o. GrowsBody self.old.body.items self.new.body.items piece.now left o) }
        ensures same { record self.new { body = self.old.body } ≡ self.old }
    {
        let room = BODY_LIMIT.saturating_sub(self.body.len());
        let count = (piece.len() as u64).min(left) as usize;
        if count > room {
            return Ok(None);
        }
        self.body.extend_from_slice(&piece[..count])?;
        Ok(Some(count))
    }

    /// Reads on in a body of a known length.
    fn take_sized(&mut self, piece: &[u8], left: u64) -> M<usize>
        requires phase { self.old.phase ≡ Phase.Sized left }
        requires some { 0 < length piece.now }
        ensures used { IfOk result (λ n. n ≤ length piece.now) }
        ensures moved { IfOk result (λ n. Stands (reading_of self.old) → 0 < n) }
        ensures head_only { self.new.head_only ≡ self.old.head_only }
        ensures read { IfOk result (λ n. Stands (reading_of self.old) → Advances (reading_of self.old) (take n piece.now) (reading_of self.new)) }
    {
        match self.grow_body(piece, left)? {
            None => Ok(self.refuse(piece, Wire::TooLong)),
            Some(count) if count as u64 == left => {
                self.phase = Phase::Done;
                Ok(count)
            }
            Some(count) => {
                self.phase = Phase::Sized {
                    left: left - count as u64,
                };
                Ok(count)
            }
        }
    }

    /// Reads on in a body up to the end of input.
    fn take_rest(&mut self, piece: &[u8]) -> M<usize>
        requires phase { self.old.phase ≡ Phase.Rest }
        ensures used { IfOk result (λ n. n ≡ length piece.now) }
        ensures head_only { self.new.head_only ≡ self.old.head_only }
        ensures read { IfOk result (λ n. Stands (reading_of self.old) → Advances (reading_of self.old) (take n piece.now) (reading_of self.new)) }
    {
        match self.grow_body(piece, piece.len() as u64)? {
            None => Ok(self.refuse(piece, Wire::TooLong)),
            Some(_) => Ok(piece.len()),
        }
    }

    /// Reads on in a chunk's size line.
    fn take_line(&mut self, piece: &[u8], scan: SizeScan) -> M<usize>
        requires phase { self.old.phase ≡ Phase.SizeLine scan }
        requires some { 0 < length piece.now }
        ensures used { IfOk result (λ n. n ≤ length piece.now) }
        ensures moved { IfOk result (λ n. Stands (reading_of self.old) → 0 < n) }
        ensures head_only { self.new.head_only ≡ self.old.head_only }
        ensures read { IfOk result (λ n. Stands (reading_of self.old) → Advances (reading_of self.old) (take n piece.now) (reading_of self.new)) }
    {
        let before = self.part.len();
        let room = PART_LIMIT.saturating_sub(before);
        let count = line_len(piece).min(room);
        self.add_to_part(&piece[..count])?;
        let scan = scan.after(&piece[..count]);
        if is_open(scan, count, room) {
            self.phase = Phase::SizeLine { scan };
            return Ok(count);
        }
        match parse_chunk_size(&self.part) {
            Ok(Status::Complete((len, size))) => {
                self.part.clear();
                self.phase = place_after_size(size);
                Ok(len.saturating_sub(before))
            }
            Ok(Status::Partial) if count < room => {
                self.phase = Phase::SizeLine { scan };
                Ok(count)
            }
            Ok(Status::Partial) => {
                let wire = long_line(&self.part);
                Ok(self.refuse(piece, wire))
            }
            Err(_) if count < room => Ok(self.refuse(piece, Wire::BadChunk)),
            Err(_) => {
                let wire = long_line(&self.part);
                Ok(self.refuse(piece, wire))
            }
        }
    }

    /// Reads on in a chunk.
    fn take_chunk(&mut self, piece: &[u8], left: u64) -> M<usize>
        requires phase { self.old.phase ≡ Phase.Chunk left }
        requires some { 0 < length piece.now }
        ensures used { IfOk result (λ n. n ≤ length piece.now) }
        ensures moved { IfOk result (λ n. Stands (reading_of self.old) → 0 < n) }
        ensures head_only { self.new.head_only ≡ self.old.head_only }
        ensures read { IfOk result (λ n. Stands (reading_of self.old) → Advances (reading_of self.old) (take n piece.now) (reading_of self.new)) }
    {
        match self.grow_body(piece, left)? {
            None => Ok(self.refuse(piece, Wire::TooLong)),
            Some(count) if count as u64 == left => {
                self.phase = Phase::ChunkReturn;
                Ok(count)
            }
            Some(count) => {
                self.phase = Phase::Chunk {
                    left: left - count as u64,
                };
                Ok(count)
            }
        }
    }

    /// Reads the CR that ends a chunk.
    fn take_return(&mut self, piece: &[u8]) -> usize
        requires phase { self.old.phase ≡ Phase.ChunkReturn }
        requires some { 0 < length piece.now }
        ensures used { result ≡ 1 }
        ensures head_only { self.new.head_only ≡ self.old.head_only }
        ensures read { Stands (reading_of self.old) → Advances (reading_of self.old) (take result piece.now) (reading_of self.new) }
    {
        if piece[0] == b'\r' {
            self.phase = Phase::ChunkFeed;
        } else {
            self.phase = Phase::Refused(Wire::BadChunk);
        }
        1
    }

    /// Reads the LF that ends a chunk.
    fn take_feed(&mut self, piece: &[u8]) -> usize
        requires phase { self.old.phase ≡ Phase.ChunkFeed }
        requires some { 0 < length piece.now }
        ensures used { result ≡ 1 }
        ensures head_only { self.new.head_only ≡ self.old.head_only }
        ensures read { Stands (reading_of self.old) → Advances (reading_of self.old) (take result piece.now) (reading_of self.new) }
    {
        if piece[0] == b'\n' {
            self.part.clear();
            self.phase = Phase::SizeLine { scan: SIZE };
        } else {
            self.phase = Phase::Refused(Wire::BadChunk);
        }
        1
    }

    /// Reads on in a trailer part.
    fn take_trailer(&mut self, piece: &[u8], scan: Scan) -> M<usize>
        requires phase { self.old.phase ≡ Phase.Trailer scan }
        requires some { 0 < length piece.now }
        ensures used { IfOk result (λ n. (0 < n) × (n ≤ length piece.now)) }
        ensures head_only { self.new.head_only ≡ self.old.head_only }
        ensures read { IfOk result (λ n. Stands (reading_of self.old) → Advances (reading_of self.old) (take n piece.now) (reading_of self.new)) }
    {
        let room = PART_LIMIT.saturating_sub(self.part.len());
        match self.grow(piece, scan, room)? {
            Growth::Whole(used) => {
                if is_section(&self.part) {
                    self.phase = Phase::Done;
                } else {
                    self.phase = Phase::Refused(Wire::BadChunk);
                }
                Ok(used)
            }
            Growth::Open(scan) => {
                self.phase = Phase::Trailer { scan };
                Ok(piece.len())
            }
            Growth::Long => Ok(self.refuse(piece, Wire::TooLong)),
        }
    }

    /// Refuses the response.
    fn refuse(&mut self, piece: &[u8], wire: Wire) -> usize
        ensures used { result ≡ length piece.now }
        ensures state { self.new ≡ record self.old { phase = Phase.Refused wire } }
    {
        self.phase = Phase::Refused(wire);
        piece.len()
    }
}

/// The phase after a head that is passed over: in a further head, or refused where the room for heads is used up.
fn next_head(passed: usize) -> Phase
    ensures { result ≡ next_head passed }
{
    if passed < PART_LIMIT {
        Phase::Head { passed, scan: HEAD }
    } else {
        Phase::Refused(Wire::TooLong)
    }
}

/// The phase after a head that is not passed over.
fn first_phase(head_only: bool, code: u16, framing: Framing) -> Phase
    ensures { result ≡ first_phase head_only code framing }
{
    if head_only || code == 204 || code == 304 {
        return Phase::Done;
    }
    if framing.chunked {
        return Phase::SizeLine { scan: SIZE };
    }
    match framing.size {
        None => Phase::Rest,
        Some(0) => Phase::Done,
        Some(left) => Phase::Sized { left },
    }
}

/// The phase after a size line.
fn place_after_size(size: u64) -> Phase
    ensures { result ≡ (if size == 0 then Phase.Trailer before_trailer else Phase.Chunk size) }
{
    if size == 0 {
        Phase::Trailer { scan: TRAILER }
    } else {
        Phase::Chunk { left: size }
    }
}

/// How many bytes there are up to the end of the line, or of the piece.
fn line_len(piece: &[u8]) -> usize
    requires { 0 < length piece.now }
    ensures { (0 < result) × (result ≤ length piece.now) }
{
    match piece.iter().position(|byte| *byte == b'\n') {
        Some(index) => index + 1,
        None => piece.len(),
    }
}

/// Whether a size line is open by its scan, where this many bytes were taken and there was room for `room`.
fn is_open(scan: SizeScan, count: usize, room: usize) -> bool
    ensures { result ≡ (nat_lt count room && is_known scan) }
{
    count < room && scan.is_known()
}

/// What a size line is that is not whole when the room for it is used up: bad before its last byte, or too long.
fn long_line(line: &[u8]) -> Wire
    ensures bad { result ≡ Wire.BadChunk → NeverHasChunkLine (take (length line.now - 1) line.now) }
    ensures long { result ≢ Wire.BadChunk → (result ≡ Wire.TooLong) }
    ensures may { result ≡ Wire.TooLong → HasNoChunkLine line.now → MayBecomeChunkLine (take (length line.now - 1) line.now) }
{
    match parse_chunk_size(&line[..line.len().saturating_sub(1)]) {
        Err(_) => Wire::BadChunk,
        Ok(Status::Partial) => Wire::TooLong,
        Ok(Status::Complete(_)) => Wire::TooLong,
    }
}
