//! A test of many requests: it closes all of them or none.
ghost use Rattle.std.specs.Prelude.{◌≡◌};
ghost use Rattle.mpx_request.specs.Harvested.{Harvested};
ghost use Rattle.mpx_request.specs.Later.{Later};
ghost use Rattle.mpx_request.specs.Requests.{TestsAll};

use crate::answers::Tested;
use crate::host::Host;
use crate::let_go::one_was_let_go;
use crate::looking::{close_each, look_all};
use crate::request::Request;
use indexmap::IndexSet;
use mpx_node::Finished;
use mpx_num::{Listing, Ops};
use std::alloc::{AllocFailed, Global};

/// Whether all of these are done: `LetGo` where the result of one was let go, whatever the others are. Else `Done` takes all out of the open
/// ones and gives their results, in the order of the requests; `NotYet` where one isn't done; an `Err` for want of memory, for what is at
/// hand. All but `Done` close none and hand them back. It makes no turn.
pub fn test_all<H: Host>(
    alloc: Global,
    host: &mut H,
    set: &mut IndexSet<Request>,
    requests: Vec<Request>,
    ops: &Ops,
) -> Result<Tested<Vec<Finished>, Vec<Request>>, AllocFailed<Vec<Request>>>
    ensures tests { TestsAll requests.items result (H.node host.new) set.old.keys set.new.keys }
    ensures later { Later (H.node host.old) (H.node host.new) }
    ensures harvested { Harvested (H.goes_by host.old (⟦<Ops as Listing>⟧.operations ops.now)) (H.node host.old) (H.node host.new) }
    ensures no_turn { H.turned host.old 0 host.new }
{
    if one_was_let_go(host, &requests) {
        return Ok(Tested::LetGo(requests));
    }
    match look_all(alloc, host, &requests, ops) {
        Err(_) => Err(AllocFailed { value: requests }),
        Ok(None) => Ok(Tested::NotYet(requests)),
        Ok(Some(all)) => {
            close_each(set, &requests);
            Ok(Tested::Done(all))
        }
    }
}
