//! How tests and waits look for all that is done.
ghost use Rattle.std.specs.Prelude.{◌≡◌, ◌≢◌, [], IfOk, IfErr, MatchOption, OnOk, false, map};
ghost use Rattle.mpx_request.specs.Any.{AddsIfDone, AwaitsAny, GivesUpAny, LooksInVain, LooksLast, PicksDone};
ghost use Rattle.mpx_request.specs.Harvested.{Harvested};
ghost use Rattle.mpx_request.specs.Later.{Later, IsAtHand};
ghost use Rattle.mpx_request.specs.Requests.{AreKept, close_all, has_let_go, OneIsAtHand};

use crate::answers::TurnError;
use crate::host::Host;
use crate::looking::{await_any, look};
use crate::request::Request;
use indexmap::IndexSet;
use join_core::OutOfMemory;
use mpx_node::Finished;
use mpx_num::{Listing, Ops};
use std::alloc::Global;

/// Those of them that are done, each with its result, in their order.
pub fn look_some<H: Host>(
    alloc: Global,
    host: &mut H,
    requests: &[Request],
    ops: &Ops,
) -> Result<Vec<(Request, Finished)>, OutOfMemory>
    requires kept { AreKept (H.node host.old) requests.now }
    ensures later { Later (H.node host.old) (H.node host.new) }
    ensures harvested { Harvested (H.goes_by host.old (⟦<Ops as Listing>⟧.operations ops.now)) (H.node host.old) (H.node host.new) }
    ensures no_turn { H.turned host.old 0 host.new }
    ensures found { IfOk result (λ done. PicksDone (H.goes_by host.old (⟦<Ops as Listing>⟧.operations ops.now)) (H.node host.old) (H.node host.new) requests.now done.items) }
    ensures wanting { IfErr result (λ e. OneIsAtHand (H.node host.new) requests.now) }
{
    let mut done = Vec::new(alloc);
    for request in requests {
        add_if_done(alloc, host, request, ops, &mut done)?;
    }
    Ok(done)
}

// Adds the request with its result, where it is done.
fn add_if_done<H: Host>(
    alloc: Global,
    host: &mut H,
    request: &Request,
    ops: &Ops,
    done: &mut Vec<(Request, Finished)>,
) -> Result<(), OutOfMemory>
    requires kept { has_let_go (H.node host.old) request.now ≡ false }
    ensures later { Later (H.node host.old) (H.node host.new) }
    ensures harvested { Harvested (H.goes_by host.old (⟦<Ops as Listing>⟧.operations ops.now)) (H.node host.old) (H.node host.new) }
    ensures no_turn { H.turned host.old 0 host.new }
    ensures added { OnOk result (AddsIfDone (H.node host.new) request.now done.old.items done.new.items) }
    ensures wanting { IfErr result (λ e. IsAtHand (H.node host.new) request.now.name request.now.call) }
{
    match look(alloc, host, request, ops)? {
        None => Ok(()),
        Some(finished) => {
            let both = with_twin(alloc, request, finished)?;
            done.push(both)?;
            Ok(())
        }
    }
}

// The request once more, with its result.
fn with_twin(
    alloc: Global,
    request: &Request,
    finished: Finished,
) -> Result<(Request, Finished), OutOfMemory>
    ensures { IfOk result (λ both. (both.0 ≡ request.now) × (both.1 ≡ finished)) }
{
    match request.copy(alloc) {
        Ok(twin) => Ok((twin, finished)),
        Err(e) => {
            drop(finished);
            Err(e)
        }
    }
}

/// Looks at all of them before the first turn and after each: those that are done, where one look finds one.
pub fn await_some<H: Host>(
    alloc: Global,
    host: &mut H,
    requests: &[Request],
    turns: u64,
    ops: &Ops,
) -> Result<Option<Vec<(Request, Finished)>>, TurnError>
    requires kept { AreKept (H.node host.old) requests.now }
    ensures later { Later (H.node host.old) (H.node host.new) }
    ensures found { IfOk result (λ found. MatchOption found
        ((look : H) × AwaitsAny (H.goes_by host.old (⟦<Ops as Listing>⟧.operations ops.now)) H.node H.turned requests.now host.old turns look
        × LooksInVain (H.goes_by host.old (⟦<Ops as Listing>⟧.operations ops.now)) H.node H.turned requests.now look host.new)
        (λ done. (done.items ≢ []) × LooksLast (H.goes_by host.old (⟦<Ops as Listing>⟧.operations ops.now)) H.node H.turned requests.now turns
        (λ looked now. PicksDone (H.goes_by host.old (⟦<Ops as Listing>⟧.operations ops.now)) looked now requests.now done.items) host.old host.new)) }
    ensures gave_up { IfErr result (λ why. GivesUpAny (H.goes_by host.old (⟦<Ops as Listing>⟧.operations ops.now)) H.node H.turned H.turn_refused requests.now why turns host.old host.new) }
{
    match await_any(alloc, host, requests, turns, ops)? {
        None => Ok(None),
        Some((_place, finished)) => {
            drop(finished);
            Ok(Some(look_some(alloc, host, requests, ops)?))
        }
    }
}

/// Takes each of them out of the open ones.
pub fn close_done(set: &mut IndexSet<Request>, done: &[(Request, Finished)])
    ensures { set.new.keys ≡ close_all set.old.keys (map (λ d. d.0) done.now) }
{
    for one in done {
        set.shift_remove(&one.0);
    }
}
