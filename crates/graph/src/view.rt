ghost use Rattle.graph.specs.Arcs.{Within, head_of, tail_of};
ghost use Rattle.graph.specs.Graphs.{arc_list, node_count};
ghost use Rattle.graph.specs.Index.{SortsBy};
ghost use Rattle.graph.specs.Listing.{ListsArcs, of_node};
ghost use Rattle.std.specs.Prelude.{◌≡◌, length};

use crate::{Arc, Graph};

// The numbers of the arcs by one of their ends: those of the node v stand in `order` from first[v] up to first[v + 1].
// Two flat lists (compressed sparse rows): `Graph::view` promises both to callers, as they are.
#[derive(Clone, Copy)]
pub struct Sorted<'a> {
    pub first: &'a [u8],
    pub order: &'a [u8],
}

// What is read of a graph to find paths in it.
#[derive(Clone, Copy)]
pub struct View<'a> {
    pub nodes: u8,
    pub arcs: &'a [Arc],
    pub leaving: Sorted<'a>,
    pub entering: Sorted<'a>,
}

impl Graph {
    // How many nodes there are; they are numbered from 0.
    pub fn nodes(&self) -> u8
        ensures { result ≡ node_count self.now }
    {
        self.nodes
    }

    // The arcs, by number.
    pub fn arcs(&self) -> &[Arc]
        ensures arcs { result.now ≡ arc_list self.now }
        ensures within { Within (node_count self.now) (arc_list self.now) }
    {
        &self.arcs
    }

    // The numbers of the arcs that leave `node`, in rising order; none where there is no such node.
    pub fn leaving(&self, node: u8) -> &[u8]
        ensures arcs { result.now ≡ of_node (tail_of (arc_list self.now)) node (length (arc_list self.now)) }
        ensures lists { ListsArcs (tail_of (arc_list self.now)) (length (arc_list self.now)) node result.now }
    {
        self.leaving.of(node)
    }

    // The numbers of the arcs that enter `node`, in rising order; none where there is no such node.
    pub fn entering(&self, node: u8) -> &[u8]
        ensures arcs { result.now ≡ of_node (head_of (arc_list self.now)) node (length (arc_list self.now)) }
        ensures lists { ListsArcs (head_of (arc_list self.now)) (length (arc_list self.now)) node result.now }
    {
        self.entering.of(node)
    }

    // The graph as it is read: within the limits, and indexed by both ends of its arcs.
    pub fn view(&self) -> View<'_>
        ensures nodes { result.nodes ≡ node_count self.now }
        ensures arcs { result.arcs.now ≡ arc_list self.now }
        ensures within { Within result.nodes result.arcs.now }
        ensures leaving { SortsBy (tail_of result.arcs.now) (length result.arcs.now) result.leaving result.nodes }
        ensures entering { SortsBy (head_of result.arcs.now) (length result.arcs.now) result.entering result.nodes }
    {
        let leaving = self.leaving.sorted();
        let entering = self.entering.sorted();
        View {
            nodes: self.nodes,
            arcs: &self.arcs,
            leaving,
            entering,
        }
    }
}
