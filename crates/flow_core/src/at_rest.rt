ghost use Rattle.std.specs.Prelude.{◌↔◌, IsTrue};
ghost use Rattle.flow_core.specs.Core.{FitsNet};
ghost use Rattle.flow_core.specs.Quiet.{IsQuiet};

use crate::graph::Graph;
use crate::state::{Phase, State};

/// Whether no strand is held and none that waits has a missing count of 0: nothing is left to do.
pub fn quiet(graph: &Graph, state: &State) -> bool
    requires { FitsNet graph.now state.now }
    ensures { IsTrue result ↔ IsQuiet graph.now state.now }
{
    let missing = state.missing.as_slice();
    let phases = state.phase.as_slice();
    for strand in 0..graph.strands as usize {
        match phases[strand] {
            Phase::Waiting => {
                if missing[strand] == 0 {
                    return false;
                }
            }
            Phase::Held { .. } => return false,
            Phase::Done | Phase::Refused => {}
        }
    }
    true
}
