//! What is so of all ends of edges.
ghost use Rattle.std.specs.Prelude.{◌≡◌, ℕ};
ghost use Rattle.mpx_birth.specs.Topologies.{AgreesAtBothEnds, TopologyView};
ghost use Rattle.mpx_birth.specs.Ends.{DestinationsMeet, Meet, SourcesMeet};

/// Each place among a rank's sources meets one among its source's destinations, each place among its destinations one among its
/// destination's sources, and no place meets two (MPI 4.1 section 8.6).
pub fn ends_meet()
    ensures sent { (topology : TopologyView) → AgreesAtBothEnds topology.ranks → SourcesMeet topology }
    ensures taken { (topology : TopologyView) → AgreesAtBothEnds topology.ranks → DestinationsMeet topology }
    ensures taken_once { (topology : TopologyView) (i j k l m : ℕ) → Meet topology i k j l → Meet topology i k j m → l ≡ m }
    ensures sent_once { (topology : TopologyView) (i j k l m : ℕ) → Meet topology i k j m → Meet topology i l j m → k ≡ l }
{}
