//! A run that has ended, by what is left of it.
ghost use Rattle.std.specs.Prelude.{◌≡◌, slice_get};
ghost use Rattle.std.specs.Option.{option_copied};

use mpx_meaning::RankEnd;
use mpx_node::Node;
use mpx_script::Script;

/// A run that has ended: its script, how each rank ended, and the nodes of all ranks as they stand then.
#[derive(Clone, Copy, Drop)]
pub struct EndedRun<'r> {
    pub script: &'r Script,
    pub ends: &'r [RankEnd],
    pub nodes: &'r [&'r Node],
}

/// The node of a rank.
pub(crate) fn node_at<'r>(run: &EndedRun<'r>, rank: u8) -> Option<&'r &'r Node>
    ensures { option_copied result ≡ slice_get run.now.nodes.now rank }
{
    run.nodes.get(usize::from(rank))
}

/// How a rank ended.
pub(crate) fn end_at<'r>(run: &EndedRun<'r>, rank: u8) -> Option<&'r RankEnd>
    ensures { option_copied result ≡ slice_get run.now.ends.now rank }
{
    run.ends.get(usize::from(rank))
}
