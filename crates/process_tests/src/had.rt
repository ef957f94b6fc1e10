//! A program whose clause speaks of a result that its ranks have let go.
ghost use Rattle.std.specs.Prelude.{IfOk, IfSome, ℕ, map};
ghost use Rattle.mpx_name.specs.Name.{Name as NameView};
ghost use Rattle.mpx_node.specs.declared.finished.Finished.{Finished as FinishedView};
ghost use Rattle.mpx_node.specs.Shown.{node_of};
ghost use Rattle.process_tests.specs.Answers.{AreValues, HadNext};

use mpx_comm::{Comm, Desk, Host, Request, integer_of};
use mpx_name::Name;
use mpx_node::{Finished, Node};
use mpx_num::{Numbers, Op, Ops, Ty};
use mpx_ranks::{Program, Ran, RanksError, ranks, waits_keep_what_was_had};
use std::alloc::Global;
use std::sync::Wait;
use std::test::Fail;
use std::thread::Threads;

// So many turns, 20 seconds and more, a call waits at most.
const TURNS: u64 = 20_000;

// Two sums of all ranks, each of which lets go what came before it. A rank answers the first, which its node no longer has then.
#[derive(Drop)]
struct Remembers;

impl Program for Remembers {
    type Answer = Option<Finished>;

    ghost gives = { λ p operations world before after had answer. HadNext world before had answer };

    fn run<H: Host>(
        &self,
        alloc: Global,
        desk: &mut Desk<H>,
        world: &Comm,
        ops: &Ops,
    ) -> Option<Finished> {
        let Some(first) = sum_of(alloc, desk, world, ops) else {
            return None;
        };
        let last = sum_of(alloc, desk, world, ops);
        drop(last);
        Some(first)
    }
}

// The sum of the ranks' numbers. What was done before it on the communicator is let go.
fn sum_of<H: Host>(alloc: Global, desk: &mut Desk<H>, world: &Comm, ops: &Ops) -> Option<Finished>
    ensures had { HadNext world.now (H.node desk.old.host) (H.has_had desk.new.host) result }
    ensures stays { (name : NameView) (call : ℕ) (finished : FinishedView) → H.has_had desk.old.host name call finished → H.has_had desk.new.host name call finished }
{
    let mine = Numbers::one(i128::from(world.rank()));
    match desk.iallreduce(alloc, world, Op::Sum, Ty::I64, mine, ops) {
        Ok(request) => waited(alloc, desk, request, ops),
        Err(_) => None,
    }
}

// What a call gave. What was done before it on its communicator is let go.
fn waited<H: Host>(
    alloc: Global,
    desk: &mut Desk<H>,
    request: Request,
    ops: &Ops,
) -> Option<Finished>
    ensures had { IfSome result (λ finished. H.has_had desk.new.host request.name request.call finished) }
    ensures stays { (name : NameView) (call : ℕ) (finished : FinishedView) → H.has_had desk.old.host name call finished → H.has_had desk.new.host name call finished }
{
    waits_keep_what_was_had::<H>();
    match desk.wait_and_forget(alloc, request, TURNS, ops) {
        Ok(finished) => Some(finished),
        Err(_) => None,
    }
}

// Whether a rank answers the sum of 0 to 2 as that of its first call, which its node no longer has.
fn is_right(alloc: Global, answer: &Option<Finished>, node: &Node) -> bool {
    let Some(finished) = answer else {
        return false;
    };
    integer_of::<i64>(finished) == Some(3) && node.result(&Name::world(alloc), 0).is_none()
}

// Three ranks remember. Each answer is the standard's value of their first call, though it was let go.
fn three_ranks<R: Threads + Wait + Sync>(
    rt: &R,
    alloc: Global,
) -> Result<Ran<Option<Finished>>, RanksError>
    ensures { IfOk result (λ ran. AreValues 3 ran.answers.items (map node_of ran.nodes.items)) }
{
    let ops = Ops::none(alloc);
    let ran = ranks(rt, alloc, 3, 0, &Remembers, &ops)?;
    Ok(ran)
}

// How many of the three are right.
fn count_right<R: Threads + Wait + Sync>(rt: &R, alloc: Global) -> Result<usize, RanksError> {
    let ran = three_ranks(rt, alloc)?;
    let mut count: usize = 0;
    for (answer, node) in ran.answers.iter().zip(ran.nodes.iter()) {
        if is_right(alloc, answer, node) {
            count = count.saturating_add(1);
        }
    }
    Ok(count)
}

#[test]
fn ranks_answer_what_they_let_go(rt: HostRuntime) -> Result<(), Fail> {
    assert_eq!(rt; count_right(&rt, rt.alloc()), Ok(3));
    Ok(())
}
