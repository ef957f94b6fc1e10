//! What is so of all that lawful ports hold, as calls that a contract can name: they do nothing.
ghost use Rattle.std.specs.Prelude.{◌≡◌, ℕ, length, take, true, Some, slice_get};
ghost use Rattle.atomic_table.specs.Seated.{TableId};
ghost use Rattle.mpx_name.specs.Name.{Name};
ghost use Rattle.mpx_birth.specs.Births.{BirthView};
ghost use Rattle.mpx_board.specs.Boards.{told};
ghost use Rattle.mpx_value.specs.Histories.{has_freed, posts_on};
ghost use Rattle.mpx_node.specs.declared.finished.Finished.{Finished};
ghost use Rattle.mpx_node.specs.Nodes.{freed_on, result_on};
ghost use Rattle.mpx_bus.specs.declared.act.Setup.{Setup};
ghost use Rattle.mpx_bus.specs.Rule.{planned_posts};
ghost use Rattle.mpx_bus.specs.Ports.{PortView, IsNew, node_in};
ghost use Rattle.mpx_shared.specs.LawfulPorts.{IsLawful, made_in, planned_birth};
ghost use Rattle.mpx_shared.specs.Laws.{IsBirthByPlan, IsFinished, IsPlannedResult};

/// Each result that a lawful port holds is the value of a row, beside the port's own post, and each birth on its board is one, in a
/// history that can happen; and its node knows of a free just where one is among its posts. Where there is a plan, the posts are the
/// first of the plan, and the results and births are the plan's.
pub fn lawful_ports_hold_what_is_so()
    ensures results { (table : TableId) (setup : Setup) (me : ℕ) (port : PortView) (name : Name) (call : ℕ) (f : Finished) → IsLawful table setup me port
        → result_on (node_in port) name call ≡ Some f → IsFinished setup me name call f }
    ensures mine { (table : TableId) (setup : Setup) (me : ℕ) (port : PortView) (name : Name) (call : ℕ) (f : Finished) → IsLawful table setup me port
        → result_on (node_in port) name call ≡ Some f → slice_get (posts_on name (made_in port)) call ≡ Some f.mine }
    ensures planned_results { (setup : Setup) (me : ℕ) (name : Name) (call : ℕ) (f : Finished) → setup.planned ≡ true
        → IsFinished setup me name call f → IsPlannedResult setup me name call f }
    ensures frees { (table : TableId) (setup : Setup) (me : ℕ) (port : PortView) (name : Name) → IsLawful table setup me port
        → freed_on (node_in port) name ≡ has_freed name (made_in port) }
    ensures births { (table : TableId) (setup : Setup) (me : ℕ) (port : PortView) (name : Name) (birth : BirthView) → IsLawful table setup me port
        → told ((node_in port).board.contexts name).birth ≡ Some birth → IsBirthByPlan setup name birth }
    ensures planned_births { (setup : Setup) (name : Name) (birth : BirthView) → setup.planned ≡ true
        → IsBirthByPlan setup name birth → planned_birth setup name ≡ Some birth }
    ensures planned_posts { (table : TableId) (setup : Setup) (me : ℕ) (port : PortView) → setup.planned ≡ true → IsLawful table setup me port
        → made_in port ≡ take (length (made_in port)) (planned_posts setup me) }
{}

/// A new port of a bus is lawful, and has made no post.
pub fn new_ports_are_lawful()
    ensures lawful { (setup : Setup) (table : TableId) (me : ℕ) (port : PortView) → IsNew setup table me port → IsLawful table setup me port }
    ensures none { (setup : Setup) (table : TableId) (me : ℕ) (port : PortView) → IsNew setup table me port → length (made_in port) ≡ 0 }
{}
