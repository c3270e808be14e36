// What the bytes received so far come to.

ghost use Rattle.std.specs.Prelude.{◌≡◌, ◌≤◌, length, take, Some};
ghost use Rattle.http_lines.specs.SectionEnds.{section_end, before_head};
ghost use Rattle.mirror_server.specs.RequestReading.{Begins, Stands, Sees};

use crate::error::MirrorError;
use crate::head::read_head;
use http_lines::Scan;

/// The most bytes of a head.
const HEAD_LIMIT: usize = 65_536;

/// The most bytes of a request.
const REQUEST_LIMIT: usize = 1_048_576;

/// How far a request was received that is neither whole nor refused.
#[derive(Clone, Copy)]
pub(crate) enum Progress {
    /// Its head is not whole.
    Head(Scan),
    /// Its head is whole, and it has this many bytes in all.
    Body(usize),
}

/// What bytes come to.
#[derive(Clone, Copy)]
pub(crate) enum Seen {
    /// They are neither a request nor refused.
    Open(Progress),
    /// They begin with a request of this many bytes.
    Whole(usize),
    /// They are refused.
    Refused(MirrorError),
}

/// What bytes come to that begin with a head, the request having this many bytes in all.
fn look_at_body(bytes: &[u8], total: usize) -> Seen
    requires { Begins bytes.now total }
    ensures { Sees bytes.now result }
{
    if bytes.len() < total {
        return Seen::Open(Progress::Body(total));
    }
    Seen::Whole(total)
}

/// What bytes come to whose head ends after this many of them.
fn look_at_head(bytes: &[u8], head: usize) -> Seen
    requires ends { section_end before_head bytes.now ≡ Some head }
    requires within { head ≤ length bytes.now }
    ensures { Sees bytes.now result }
{
    if head > HEAD_LIMIT {
        return Seen::Refused(MirrorError::TooLong);
    }
    let said = match read_head(&bytes[..head]) {
        Some(said) => said,
        None => return Seen::Refused(MirrorError::BadHead),
    };
    let room = REQUEST_LIMIT - head;
    if said.size > room as u64 {
        return Seen::Refused(MirrorError::TooLong);
    }
    if said.coded {
        return Seen::Refused(MirrorError::BadHead);
    }
    let total = head + said.size as usize;
    look_at_body(bytes, total)
}

/// What bytes come to whose head was not whole before a place.
fn look_for_head(mut scan: Scan, bytes: &[u8], before: usize) -> Seen
    requires within { before ≤ length bytes.now }
    requires stands { Stands (Progress.Head scan) (take before bytes.now) }
    ensures { Sees bytes.now result }
{
    match scan.find_end(&bytes[before..]) {
        Some(count) => {
            let head = before + count;
            look_at_head(bytes, head)
        }
        None if bytes.len() < HEAD_LIMIT => Seen::Open(Progress::Head(scan)),
        None => Seen::Refused(MirrorError::TooLong),
    }
}

/// What bytes come to that were neither a request nor refused before a place.
pub(crate) fn look(progress: Progress, bytes: &[u8], before: usize) -> Seen
    requires within { before ≤ length bytes.now }
    requires stands { Stands progress (take before bytes.now) }
    ensures { Sees bytes.now result }
{
    match progress {
        Progress::Head(scan) => look_for_head(scan, bytes, before),
        Progress::Body(total) => look_at_body(bytes, total),
    }
}
