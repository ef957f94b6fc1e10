//! How a test looks for results, and a wait looks between turns.
ghost use Rattle.std.specs.Prelude.{◌≡◌, ◌≤◌, ℕ, IfOk, IfErr, MatchOption, false, length, slice_get};
ghost use Rattle.mpx_request.specs.Any.{AwaitsAny, FindsAny, GivesUpAny, LooksInVain, LooksLast};
ghost use Rattle.mpx_request.specs.Harvested.{Harvested};
ghost use Rattle.mpx_request.specs.Later.{Later, IsAtHand, IsPending};
ghost use Rattle.mpx_request.specs.Requests.{AreKept, AwaitsAll, AwaitsOne, GivesUpAll, GivesUpOne, has_let_go, result_of, close_all, OneIsAtHand, OneIsPending, AreResults, WerePending};
ghost use Rattle.mpx_request.specs.Turns.{MakesTurns};

use crate::answers::TurnError;
use crate::host::Host;
use crate::request::Request;
use indexmap::IndexSet;
use join_core::OutOfMemory;
use mpx_node::{Finished, Harvest};
use mpx_num::{Listing, Ops};
use std::alloc::Global;

/// Harvests until the call is done or no further one is; its result.
pub fn look<H: Host>(
    alloc: Global,
    host: &mut H,
    request: &Request,
    ops: &Ops,
) -> Result<Option<Finished>, OutOfMemory>
    requires kept { has_let_go (H.node host.old) request.now ≡ false }
    ensures later { Later (H.node host.old) (H.node host.new) }
    ensures harvested { Harvested (H.goes_by host.old (⟦<Ops as Listing>⟧.operations ops.now)) (H.node host.old) (H.node host.new) }
    ensures no_turn { H.turned host.old 0 host.new }
    ensures found { IfOk result (λ found. MatchOption found
        (IsPending (H.node host.new) request.now.name request.now.call)
        (λ finished. result_of (H.node host.new) request.now ≡ Some finished)) }
    ensures wanting { IfErr result (λ e. IsAtHand (H.node host.new) request.now.name request.now.call) }
{
    loop {
        if let Some(finished) = host.result(&request.name, request.call) {
            return Ok(Some(finished.copy(alloc)?));
        }
        match host.harvest(alloc, &request.name, ops)? {
            Harvest::Done(_) => {}
            Harvest::NotYet => return Ok(None),
            Harvest::NotOpened => return Ok(None),
        }
    }
}

/// The results of all of them, where each is done.
pub fn look_all<H: Host>(
    alloc: Global,
    host: &mut H,
    requests: &[Request],
    ops: &Ops,
) -> Result<Option<Vec<Finished>>, OutOfMemory>
    requires kept { AreKept (H.node host.old) requests.now }
    ensures later { Later (H.node host.old) (H.node host.new) }
    ensures harvested { Harvested (H.goes_by host.old (⟦<Ops as Listing>⟧.operations ops.now)) (H.node host.old) (H.node host.new) }
    ensures no_turn { H.turned host.old 0 host.new }
    ensures found { IfOk result (λ found. MatchOption found
        (OneIsPending (H.node host.new) requests.now)
        (λ all. AreResults (H.node host.new) requests.now all.items)) }
    ensures wanting { IfErr result (λ e. OneIsAtHand (H.node host.new) requests.now) }
{
    let mut all = Vec::new(alloc);
    for request in requests {
        match look(alloc, host, request, ops)? {
            Some(finished) => all.push(finished)?,
            None => return Ok(None),
        }
    }
    Ok(Some(all))
}

/// The first of them that is done: its place and its result.
pub fn look_any<H: Host>(
    alloc: Global,
    host: &mut H,
    requests: &[Request],
    ops: &Ops,
) -> Result<Option<(usize, Finished)>, OutOfMemory>
    requires kept { AreKept (H.node host.old) requests.now }
    ensures later { Later (H.node host.old) (H.node host.new) }
    ensures harvested { Harvested (H.goes_by host.old (⟦<Ops as Listing>⟧.operations ops.now)) (H.node host.old) (H.node host.new) }
    ensures no_turn { H.turned host.old 0 host.new }
    ensures found { IfOk result (λ found. MatchOption found
        (WerePending (H.goes_by host.old (⟦<Ops as Listing>⟧.operations ops.now)) (H.node host.old) (H.node host.new) (length requests.now) requests.now)
        (λ p. WerePending (H.goes_by host.old (⟦<Ops as Listing>⟧.operations ops.now)) (H.node host.old) (H.node host.new) p.0 requests.now
        × ((request : _) × (slice_get requests.now p.0 ≡ Some request) × (result_of (H.node host.new) request ≡ Some p.1)))) }
    ensures wanting { IfErr result (λ e. OneIsAtHand (H.node host.new) requests.now) }
{
    for place in 0..requests.len() {
        if let Some(finished) = look(alloc, host, &requests[place], ops)? {
            return Ok(Some((place, finished)));
        }
    }
    Ok(None)
}

/// Takes each of them out of the open ones.
pub fn close_each(set: &mut IndexSet<Request>, requests: &[Request])
    ensures { set.new.keys ≡ close_all set.old.keys requests.now }
{
    for request in requests {
        set.shift_remove(request);
    }
}

/// Looks before the first turn and after each: the result, where one look finds it.
pub fn await_one<H: Host>(
    alloc: Global,
    host: &mut H,
    request: &Request,
    turns: u64,
    ops: &Ops,
) -> Result<Option<Finished>, TurnError>
    requires kept { has_let_go (H.node host.old) request.now ≡ false }
    ensures later { Later (H.node host.old) (H.node host.new) }
    ensures found { IfOk result (λ found. MatchOption found
        (IsPending (H.node host.new) request.now.name request.now.call × AwaitsOne H.node H.turned request.now host.old turns host.new)
        (λ finished. (result_of (H.node host.new) request.now ≡ Some finished) × ((n : ℕ) × (n ≤ turns) × AwaitsOne H.node H.turned request.now host.old n host.new))) }
    ensures gave_up { IfErr result (λ why. GivesUpOne H.node H.turned H.turn_refused request.now why turns host.old host.new) }
{
    let mut left = turns;
    loop {
        if let Some(finished) = look(alloc, host, request, ops)? {
            return Ok(Some(finished));
        }
        if left == 0 {
            return Ok(None);
        }
        host.turn(alloc)?;
        left -= 1;
    }
}

/// Looks at all of them before the first turn and after each: their results, where one look finds all.
pub fn await_all<H: Host>(
    alloc: Global,
    host: &mut H,
    requests: &[Request],
    turns: u64,
    ops: &Ops,
) -> Result<Option<Vec<Finished>>, TurnError>
    requires kept { AreKept (H.node host.old) requests.now }
    ensures later { Later (H.node host.old) (H.node host.new) }
    ensures found { IfOk result (λ found. MatchOption found
        (OneIsPending (H.node host.new) requests.now × AwaitsAll H.node H.turned requests.now host.old turns host.new)
        (λ all. AreResults (H.node host.new) requests.now all.items × ((n : ℕ) × (n ≤ turns) × AwaitsAll H.node H.turned requests.now host.old n host.new))) }
    ensures gave_up { IfErr result (λ why. GivesUpAll H.node H.turned H.turn_refused requests.now why turns host.old host.new) }
{
    let mut left = turns;
    loop {
        if let Some(all) = look_all(alloc, host, requests, ops)? {
            return Ok(Some(all));
        }
        if left == 0 {
            return Ok(None);
        }
        host.turn(alloc)?;
        left -= 1;
    }
}

/// Looks at all of them before the first turn and after each: the first that is done at one look, by its place, and its result.
pub fn await_any<H: Host>(
    alloc: Global,
    host: &mut H,
    requests: &[Request],
    turns: u64,
    ops: &Ops,
) -> Result<Option<(usize, Finished)>, TurnError>
    requires kept { AreKept (H.node host.old) requests.now }
    ensures later { Later (H.node host.old) (H.node host.new) }
    ensures found { IfOk result (λ found. MatchOption found
        ((look : H) × AwaitsAny (H.goes_by host.old (⟦<Ops as Listing>⟧.operations ops.now)) H.node H.turned requests.now host.old turns look
        × LooksInVain (H.goes_by host.old (⟦<Ops as Listing>⟧.operations ops.now)) H.node H.turned requests.now look host.new)
        (λ p. LooksLast (H.goes_by host.old (⟦<Ops as Listing>⟧.operations ops.now)) H.node H.turned requests.now turns
        (λ looked now. FindsAny (H.goes_by host.old (⟦<Ops as Listing>⟧.operations ops.now)) looked now requests.now p.0 p.1) host.old host.new)) }
    ensures gave_up { IfErr result (λ why. GivesUpAny (H.goes_by host.old (⟦<Ops as Listing>⟧.operations ops.now)) H.node H.turned H.turn_refused requests.now why turns host.old host.new) }
{
    let mut left = turns;
    loop {
        if let Some(found) = look_any(alloc, host, requests, ops)? {
            return Ok(Some(found));
        }
        if left == 0 {
            return Ok(None);
        }
        host.turn(alloc)?;
        left -= 1;
    }
}

/// So many turns.
pub fn make_turns<H: Host>(alloc: Global, host: &mut H, turns: u64) -> Result<(), TurnError>
    ensures turns { MakesTurns H.turned H.turn_refused turns result host.old host.new }
    ensures later { Later (H.node host.old) (H.node host.new) }
    ensures opened { (H.node host.new).opened ≡ (H.node host.old).opened }
{
    let mut left = turns;
    while left != 0 {
        host.turn(alloc)?;
        left -= 1;
    }
    Ok(())
}
