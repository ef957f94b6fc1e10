//! The table as the carrier of ranks' posts.
ghost use Rattle.std.specs.Prelude.{refl, Some};

use crate::posting::attempt;
use crate::table::Table;
use join_core::OutOfMemory;
use mpx_birth::Birth;
use mpx_group::Proc;
use mpx_meaning::Line;
use mpx_name::Name;
use mpx_num::Ops;
use mpx_post::PostError;
use mpx_rank::{Answered, Carrier, Heard};
use mpx_statement::Posting;
use std::alloc::Global;

impl Carrier for Table {
    ghost use Rattle.mpx_eval.specs.Carrying.{at_place, hears_no_more, stays_told, table_terms};

    type Communicator = (Name, Birth);

    type Call = (Name, u32);

    ghost place = { at_place };

    ghost terms = { table_terms };

    fn into_place(call: (Name, u32)) -> (Name, u32) {
        call
    }

    fn post(
        &mut self,
        alloc: Global,
        me: Proc,
        on: Option<&(Name, Birth)>,
        posting: &Posting,
        ops: &Ops,
    ) -> Result<Option<(Name, u32)>, PostError> {
        match attempt(alloc, self, me, on, posting, ops) {
            Ok(call) => Ok(Some(call)),
            Err(refusal) => Err(refusal),
        }
    }

    #[tactic(auto, using(crate::proofs::Outcomes::told_there))]
    fn is_told(
        &mut self,
        _alloc: Global,
        me: Proc,
        call: &(Name, u32),
        _ops: &Ops,
    ) -> Result<bool, OutOfMemory> {
        let (name, number) = call;
        Ok(self.has_answer(me, name, *number))
    }

    fn hear(
        &mut self,
        alloc: Global,
        me: Proc,
        call: (Name, u32),
        ops: &Ops,
    ) -> Result<Heard<(Name, u32), (Name, Birth)>, OutOfMemory> {
        let Some(answered) = self.answer(alloc, me, &call.0, call.1, ops)? else {
            return Ok(Heard::NotYet(call));
        };
        let given = answered.given(alloc)?;
        let Answered { outcome, born } = answered;
        drop(born);
        let (name, call) = call;
        let line = Line::Told {
            name,
            call,
            outcome,
        };
        Ok(Heard::Told { line, given })
    }

    fn known<'m>(
        &'m self,
        communicator: &'m (Name, Birth),
        _ops: &Ops,
    ) -> Option<(&'m Name, &'m Birth)> {
        let (name, birth) = communicator;
        Some((name, birth))
    }

    fn is_closed(&mut self, me: Proc, communicator: &(Name, Birth), _ops: &Ops) -> bool {
        let (name, _birth) = communicator;
        self.has_freed(me, name)
    }

    ghost hears_nothing = { λ operations t. refl };

    ghost hears_more = { hears_no_more };

    ghost stays_told = { stays_told };
}
