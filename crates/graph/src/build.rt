ghost use Rattle.graph.specs.Graphs.{Made};
ghost use Rattle.graph.specs.declared.build.GraphFault.TheVariants.{NoMemory};
ghost use Rattle.std.specs.Prelude.{◌≡◌};

use crate::index::Index;
use crate::limits::within_limits;
use crate::{Arc, Graph};
use std::alloc::{AllocError, Global};

// Why no graph was made.
#[derive(Clone, Copy, PartialEq, Eq, Debug)]
pub enum GraphFault {
    OutOfLimits,
    NoMemory,
}

impl From<AllocError> for GraphFault {
    ghost from_gives = { λ _ r. r ≡ NoMemory };

    fn from(_e: AllocError) -> GraphFault {
        GraphFault::NoMemory
    }
}

impl Graph {
    // The graph of the nodes below `nodes` and of `arcs`, unless these exceed the limits or memory is wanting.
    pub fn new(nodes: u8, arcs: Vec<Arc>, heap: Global) -> Result<Graph, GraphFault>
        ensures { Made nodes arcs.items result }
    {
        if !within_limits(nodes, &arcs) {
            return Err(GraphFault::OutOfLimits);
        }
        let leaving = Index::new(nodes, &arcs, |arc| arc.tail, heap)?;
        let entering = Index::new(nodes, &arcs, |arc| arc.head, heap)?;
        Ok(Graph {
            nodes,
            arcs,
            leaving,
            entering,
        })
    }
}
