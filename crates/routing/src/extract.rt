// Takes paths out of the chosen arcs.
ghost use Rattle.std.specs.Prelude.{◌≡◌, ◌<◌, ◌≤◌, ◌≢◌, length};
ghost use Rattle.paths.specs.Pairs.{cost as cost_of};
ghost use Rattle.routing.specs.declared.state.State.TheVariants.{Chosen};
ghost use Rattle.routing.specs.Entries.{state_at};
ghost use Rattle.routing.specs.Found.{links_of};
ghost use Rattle.routing.specs.Taking.{Leading, Rising, Taken};
ghost use Rattle.routing.specs.Views.{net_of};

use crate::flow::Flow;
use crate::path::Path;
use crate::state::State;
use graph::Graph;

// A path and its cost.
#[derive(Clone, Copy)]
pub(crate) struct Track {
    pub(crate) path: Path,
    pub(crate) cost: u32,
}

// A chosen arc that leaves `node`. There is one: the chosen arcs lead from `node`, and it is not the target.
fn leaving(graph: &Graph, states: &[State], node: u8, target: u8) -> usize
    requires stated { (net_of graph.now).size ≤ length states.now }
    requires leading { (node ≢ target) × Leading (net_of graph.now) states.now node target }
    ensures within { result < (net_of graph.now).size }
    ensures chosen { state_at states.now result ≡ Chosen }
    ensures leaves { (net_of graph.now).tail result ≡ node }
{
    for e in graph.leaving(node) {
        let e = usize::from(*e);
        if let State::Chosen = states[e] {
            return e;
        }
    }
    unreachable()
}

impl Flow<'_> {
    // Follows chosen arcs from the source to the target, and frees them.
    pub(crate) fn take_path(&mut self) -> Track
        requires rising { Rising (net_of self.old.task.graph.now) self.old.states self.old.pots.now }
        requires leading { Leading (net_of self.old.task.graph.now) self.old.states self.old.task.source self.old.task.target }
        ensures same { self.new.task ≡ self.old.task }
        ensures pots { self.new.pots.now ≡ self.old.pots.now }
        ensures taken { Taken (net_of self.old.task.graph.now) self.old.states self.old.task.source (links_of result.path) self.old.task.target self.new.states }
        ensures cost { result.cost ≡ cost_of (net_of self.old.task.graph.now) (links_of result.path) }
        ensures low { result.cost ≤ 2031585 }
    {
        let graph = self.task.graph;
        let arcs = graph.arcs();
        let target = self.task.target;
        let mut node = self.task.source;
        let states = &mut self.states;
        let mut path = Path::empty();
        let mut cost = 0u32;
        while node != target {
            let e = leaving(graph, states, node, target);
            states[e] = State::Free;
            path.push(e as u8);
            cost += arcs[e].weight;
            node = arcs[e].head;
        }
        Track { path, cost }
    }
}
