// The residual graph of a set of chosen arcs: a free arc is followed forwards at its weight reduced by the potentials of its
// ends, a chosen arc backwards.
ghost use Rattle.graph.specs.Graphs.{node_count};
ghost use Rattle.routing.specs.Settle.{Fit};
ghost use Rattle.routing.specs.Views.{net_of};

use crate::state::State;
use graph::Graph;

// The states of the arcs, and potentials that certify the chosen ones.
#[derive(Clone, Copy)]
pub(crate) struct Residual<'a> {
    pub(crate) graph: &'a Graph,
    pub(crate) states: &'a [State],
    pub(crate) pots: &'a [u32],
    ghost fit: { Fit (net_of graph.now) states.now pots.now (node_count graph.now) },
}
