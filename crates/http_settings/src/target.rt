// What an HTTP sampler asks for.

ghost use Rattle.std.specs.Prelude.{◌≡◌, IfOk};
ghost use Rattle.std.specs.Option.{option_map};
ghost use Rattle.http_settings.specs.Targets.{target_of, http_request};

use http_text::{HttpSettings, Target, TargetError, request_bytes};
use jm_base::{M, NoMemory, Request};
use std::alloc::Global;

/// The request that an HTTP sampler with these settings asks for: the host and the port of their target, and the bytes of the
/// request. There is none where the settings have no target: where the host is empty, the port isn't 1 to 5 digits of a number
/// from 1 to 65,535, the URL has no reading, a header field can't be sent, or the request would be longer than 1,048,576 bytes.
pub fn request_of(alloc: Global, settings: &HttpSettings) -> M<Option<Request>>
    ensures { IfOk result (λ request. request ≡ option_map http_request (target_of settings.now)) }
{
    match request_bytes(alloc, settings) {
        Ok(target) => {
            let Target { host, port, bytes } = target;
            Ok(Some(Request::Http { host, port, bytes }))
        }
        Err(TargetError::BadTarget) => Ok(None),
        Err(TargetError::NoMemory) => Err(NoMemory),
    }
}
