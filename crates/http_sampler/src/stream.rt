// Streams to a peer, who dials them, and a clock.

ghost use Rattle.std.specs.Prelude.{◌≡◌, ◌<◌, ◌≤◌, ℕ, List, Option, length, take, IfOk, OnOk, OnErr};
ghost use Rattle.std.specs.Io.KnownBytes.{Appends, Consumes, IsAtEnd, Keeps};
ghost use Rattle.edge_io.specs.Memory.{one_more};
ghost use Rattle.jm_base.specs.FaultCounts.{Rose};
ghost use Rattle.jm_base.specs.declared.types.Heard.{Heard};
ghost use Rattle.http_sampler.specs.Streams.{Standing, told_more, IsFresh};

use jm_base::Failed;

/// Bytes to a peer and from it, as over a connection.
///
/// Contracts see the bytes that it was `sent`, those that it has `given` and those that it has `left` to give, where the stream tells
/// them, and how many `faults` it has had. The count of faults never falls, and stands still at the end of 64 bits.
pub trait Stream {
    // The bytes that it was sent, or `None` where the stream does not tell.
    ghost sent: { Self → Option (List ℕ) };

    // The bytes that it has given, or `None` where the stream does not tell.
    ghost given: { Self → Option (List ℕ) };

    // The bytes that it has left to give, or `None` where the stream does not tell.
    ghost left: { Self → Option (List ℕ) };

    // How many calls have failed.
    ghost faults: { Self → ℕ };

    /// Sends a prefix of the piece, and answers how long it is: at least one byte of a piece that has one. A call that fails has sent
    /// nothing and counts as a fault.
    fn send(&mut self, piece: &[u8]) -> Result<usize, Failed>
        ensures bound { IfOk result (λ n. n ≤ length piece.now) }
        ensures some { IfOk result (λ n. 0 < length piece.now → 0 < n) }
        ensures bytes { IfOk result (λ n. Appends (sent self.old) (sent self.new) (take n piece.now)) }
        ensures given { Keeps (given self.old) (given self.new) }
        ensures left { Keeps (left self.old) (left self.new) }
        ensures ok { OnOk result (faults self.new ≡ faults self.old) }

        ensures err { OnErr result (Keeps (sent self.old) (sent self.new)) }
        ensures cause { OnErr result (Rose (faults self.old) (faults self.new)) };

    /// Receives some of the bytes that are left into the start of the buffer, and answers how many. None into a buffer that has room is
    /// the end. A call that fails has received nothing and counts as a fault.
    fn receive(&mut self, into: &mut [u8]) -> Result<usize, Failed>
        ensures bound { IfOk result (λ n. n ≤ length into.new) }
        ensures bytes { IfOk result (λ n. Consumes (left self.old) (left self.new) (take n into.new)) }
        ensures given { IfOk result (λ n. Appends (given self.old) (given self.new) (take n into.new)) }
        ensures end { IfOk result (λ n. n ≡ 0 → 0 < length into.new → IsAtEnd (left self.new)) }
        ensures sent { Keeps (sent self.old) (sent self.new) }
        ensures ok { OnOk result (faults self.new ≡ faults self.old) }

        ensures err { OnErr result (Keeps (left self.old) (left self.new)) }
        ensures ungiven { OnErr result (Keeps (given self.old) (given self.new)) }
        ensures cause { OnErr result (Rose (faults self.old) (faults self.new)) };
}

/// Who dials streams, and takes them back.
///
/// Contracts see which hosts and ports were `dialed` and how each stream stood that was `spent`, in order, where the dialer tells them,
/// and how many `faults` it has had: one for each dial that failed, and one for each stream that was hung up after a fault of its own.
/// The count stands still at the end of 64 bits.
pub trait Dialer {
    /// What it dials.
    type S: Stream;

    // The hosts and ports that were dialed, or `None` where the dialer does not tell.
    ghost dialed: { Self → Option (List (List ℕ × ℕ)) };

    // How the streams stood that were hung up, or `None` where the dialer does not tell.
    ghost spent: { Self → Option (List Standing) };

    // How many dials have failed, and streams with a fault were hung up.
    ghost faults: { Self → ℕ };

    /// Dials a host, which is a name or an address, at a port. The stream was sent nothing and gave nothing yet, and has had no fault.
    /// Where no stream comes of it, that counts as a fault.
    fn dial(&mut self, host: &[u8], port: u16) -> Result<Self::S, Failed>
        ensures dialed { dialed self.new ≡ told_more (dialed self.old) (host.now, port) }
        ensures spent { spent self.new ≡ spent self.old }
        ensures fresh { IfOk result (λ s. IsFresh (record { sent = Self.S.sent s; given = Self.S.given s; left = Self.S.left s; faults = Self.S.faults s })) }
        ensures ok { OnOk result (faults self.new ≡ faults self.old) }

        ensures cause { OnErr result (faults self.new ≡ one_more (faults self.old)) };

    /// Takes a stream back and ends it. It takes no memory. A stream that has had a fault counts as one fault here.
    fn hang_up(&mut self, stream: Self::S)
        ensures spent { spent self.new ≡ told_more (spent self.old)
            (record { sent = Self.S.sent stream; given = Self.S.given stream; left = Self.S.left stream; faults = Self.S.faults stream }) }
        ensures dialed { dialed self.new ≡ dialed self.old }
        ensures kept { Self.S.faults stream ≡ 0 → faults self.new ≡ faults self.old }
        ensures counted { 0 < Self.S.faults stream → faults self.new ≡ one_more (faults self.old) };
}

/// A clock in milliseconds, which can also pause.
pub trait Clock {
    // Its readings and pauses so far, in order, or `None` where the clock does not tell.
    ghost heard: { Self → Option (List Heard) };

    /// A reading.
    fn now(&mut self) -> u64
        ensures { heard self.new ≡ told_more (heard self.old) (Heard.Reading result) };

    /// A pause of `ms` milliseconds.
    fn pause(&mut self, ms: u32)
        ensures { heard self.new ≡ told_more (heard self.old) (Heard.Paused ms) };
}
