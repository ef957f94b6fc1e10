//! Whether results were let go.
ghost use Rattle.std.specs.Prelude.{◌≡◌};
ghost use Rattle.std.specs.List.{list_any};
ghost use Rattle.mpx_request.specs.Requests.{has_let_go};

use crate::host::Host;
use crate::request::Request;

/// Whether the request's result was let go.
pub fn was_let_go<H: Host>(host: &H, request: &Request) -> bool
    ensures { result ≡ has_let_go (H.node host.now) request.now }
{
    match host.result(&request.name, request.call) {
        Some(_) => false,
        None => request.call < host.front(&request.name),
    }
}

/// Whether that of one of them was.
pub fn one_was_let_go<H: Host>(host: &H, requests: &[Request]) -> bool
    ensures { result ≡ list_any (has_let_go (H.node host.now)) requests.now }
{
    for request in requests {
        if was_let_go(host, request) {
            return true;
        }
    }
    false
}
