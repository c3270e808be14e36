// The calls of cases. They have no clauses, so that no proof carries along what the calls promise.

use crate::streams::TextStream;
use http_sampler::exchange;
use http_text::{Fed, HttpSettings, ResponseReader, Target, TargetError, WireError, request_bytes};
use jm_base::{M, Outcome, Reply};
use mirror_server::{MirrorError, serve_one};
use std::alloc::Global;

/// A new reader.
pub fn reader(alloc: Global, head_only: bool) -> M<ResponseReader> {
    ResponseReader::new(alloc, head_only)
}

/// A call of a reader.
pub fn feed(reader: &mut ResponseReader, piece: &[u8]) -> Result<Fed, WireError> {
    reader.feed(piece)
}

/// The last call of a reader.
pub fn finish(reader: ResponseReader) -> Result<Reply, WireError> {
    reader.finish()
}

/// A request.
pub fn request(alloc: Global, settings: &HttpSettings) -> Result<Target, TargetError> {
    request_bytes(alloc, settings)
}

/// A request that is mirrored.
pub fn serve(alloc: Global, stream: &mut TextStream<'_>) -> Result<u32, MirrorError> {
    serve_one(alloc, stream)
}

/// A request and its response.
pub fn exchanged(
    alloc: Global,
    stream: &mut TextStream<'_>,
    request: &Target,
    head_only: bool,
) -> M<Outcome> {
    exchange(alloc, stream, request, head_only)
}
