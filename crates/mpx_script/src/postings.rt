//! What a call posts.
ghost use Rattle.std.specs.Prelude.{◌≡◌, [], None, IfOk, OnOk, IfErr, unwrap_or};
ghost use Rattle.std.specs.Option.{option_copied};
ghost use Rattle.mpx_script.specs.laws.Parts.{call_or_new_posted, call_posted, new_posted, posting_said};
ghost use Rattle.mpx_script.specs.Sentences.{IsLineRefusal, posting_refusal};

use crate::calls::{draft_in, number_at};
use crate::faults::{LineError, ScriptFault};
use crate::syntax::{CallSyntax, NewSyntax};
use join_core::OutOfMemory;
use mpx_kind::{Kind, Mode, NewCommunicator};
use mpx_num::{Listing, Ops};
use mpx_post::Draft;
use mpx_statement::{Posting, Word};
use std::alloc::Global;

// What a call posts that makes no communicator.
fn call_posted(
    alloc: Global,
    mode: Mode,
    on: Word,
    draft: Draft,
    request: Option<&[u8]>,
) -> Result<Posting, OutOfMemory>
    ensures { IfOk result (λ posting. posting ≡ call_posted mode on draft (unwrap_or (option_copied request.entry) [])) }
{
    match mode {
        Mode::Blocking => Ok(Posting::Call { on, draft }),
        Mode::Nonblocking => match word_at(alloc, request) {
            Ok(request) => Ok(Posting::Start { on, draft, request }),
            Err(e) => {
                drop(on);
                drop(draft);
                Err(e)
            }
        },
    }
}

// What a call posts that makes a communicator.
fn new_posted(
    alloc: Global,
    made: NewCommunicator,
    on: Word,
    draft: Draft,
    tag: i128,
    target: Option<&[u8]>,
) -> Result<Posting, OutOfMemory>
    ensures { IfOk result (λ posting. posting ≡ new_posted made on draft tag (unwrap_or (option_copied target.entry) [])) }
{
    let to = match word_at(alloc, target) {
        Ok(to) => to,
        Err(e) => {
            drop(on);
            drop(draft);
            return Err(e);
        }
    };
    if made == NewCommunicator::CreateGroup {
        let ranks = draft.group;
        return Ok(Posting::CreateGroup { on, tag, ranks, to });
    }
    Ok(Posting::New { on, draft, to })
}

// What a call of a kind posts on a communicator, with this name for the new one or for the request.
fn call_or_new_posted(
    alloc: Global,
    kind: Kind,
    mode: Mode,
    communicator: Option<&[u8]>,
    draft: Draft,
    tag: i128,
    name: Option<&[u8]>,
) -> Result<Posting, OutOfMemory>
    ensures { IfOk result (λ posting. posting ≡ call_or_new_posted kind mode (unwrap_or (option_copied communicator.entry) []) draft tag (unwrap_or (option_copied name.entry) [])) }
{
    let on = match word_at(alloc, communicator) {
        Ok(on) => on,
        Err(e) => {
            drop(draft);
            return Err(e);
        }
    };
    match kind {
        Kind::NewCommunicator(made) => new_posted(alloc, made, on, draft, tag, name),
        Kind::Exchange(_) | Kind::Reduction(_) | Kind::Neighbourhood(_) | Kind::Free => {
            call_posted(alloc, mode, on, draft, name)
        }
    }
}

/// The word, or one without bytes.
pub fn word_at(alloc: Global, word: Option<&[u8]>) -> Result<Word, OutOfMemory>
    ensures { IfOk result (λ made. made ≡ unwrap_or (option_copied word.entry) []) }
{
    Word::new(alloc, word.unwrap_or(&[]))
}

/// What a call posts by its words, which are as many as its kind asks for.
#[tactic(auto, using(crate::proofs::Refusals::refusal_of_tag, crate::proofs::Refusals::refusal_of_draft, crate::proofs::Refusals::posting_accepted))]
pub fn posting_in(
    alloc: Global,
    kind: Kind,
    mode: Mode,
    communicator: Option<&[u8]>,
    new: &NewSyntax<'_>,
    call: &CallSyntax<'_>,
    ops: &Ops,
) -> Result<Posting, LineError>
    ensures accepted { OnOk result (posting_refusal kind new.now call.now ≡ None) }
    ensures posting { IfOk result (λ posting. posting ≡ posting_said (⟦<Ops as Listing>⟧.operations ops.now) kind mode (option_copied communicator.entry) new.now call.now) }
    ensures refused { IfErr result (IsLineRefusal (posting_refusal kind new.now call.now)) }
{
    let Some(tag) = number_at(new.tag) else {
        return Err(LineError::Fault(ScriptFault::BadNumber));
    };
    let draft = match draft_in(alloc, kind, mode, new, call, ops) {
        Ok(draft) => draft,
        Err(e) => return Err(e),
    };
    Ok(call_or_new_posted(alloc, kind, mode, communicator, draft, tag, call.name)?)
}
