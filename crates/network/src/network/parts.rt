// The parts of a network: how it is made of them, and how they are read.
ghost use Rattle.std.specs.Prelude.{◌≡◌, ◌<◌, ◌≤◌, map, length, IfOk, MatchOption, slice_index_or};
ghost use Rattle.graph.specs.Graphs.{GraphOf};
ghost use Rattle.network.specs.Arcs.{arc_of};
ghost use Rattle.network.specs.Limits.{blank, Sound};
ghost use Rattle.network.specs.Made.{Made};
ghost use Rattle.network.specs.Networks.{link_list, node_count};

use crate::limits::are_sound;
use crate::{Link, LinksFault, Network};
use graph::{Arc, Graph, GraphFault};
use std::alloc::{AllocError, Global};

// The arcs of links, in their order.
fn arcs_of(links: &[Link], heap: Global) -> Result<Vec<Arc>, AllocError>
    ensures { IfOk result (λ arcs. arcs.items ≡ map arc_of links.now) }
{
    links.iter().copied().map(Arc::from).collect(heap)
}

impl Network {
    // The network of so many nodes with these links, which keep the limits.
    pub(crate) fn new(nodes: u8, links: Vec<Link>, heap: Global) -> Result<Network, AllocError>
        requires { Sound nodes links.items }
        ensures { IfOk result (λ net. (node_count net ≡ nodes) × (link_list net ≡ links.items)) }
    {
        let arcs = arcs_of(&links, heap)?;
        // No `map_err`: the match shows that links within the limits are never refused for them.
        match Graph::new(nodes, arcs, heap) {
            Ok(graph) => Ok(Network {
                nodes,
                links,
                graph,
            }),
            Err(GraphFault::NoMemory) => Err(AllocError),
            Err(GraphFault::OutOfLimits) => unreachable!(),
        }
    }

    // The network of so many nodes with these links, unless they break a limit or memory is wanting.
    pub fn of_links(nodes: u8, links: Vec<Link>, heap: Global) -> Result<Network, LinksFault>
        ensures { Made nodes links.items result }
    {
        if !are_sound(nodes, &links) {
            return Err(LinksFault::OutOfLimits);
        }
        Ok(Network::new(nodes, links, heap)?)
    }

    // The number of nodes.
    pub fn nodes(&self) -> u8
        ensures value { result ≡ node_count self.now }
        ensures least { 2 ≤ result }
        ensures most { result ≤ 32 }
    {
        self.nodes
    }

    // The links, by their numbers.
    pub fn links(&self) -> &[Link]
        ensures value { result.now ≡ link_list self.now }
        ensures sound { Sound (node_count self.now) (link_list self.now) }
    {
        &self.links
    }

    // The link of a number, where there is one.
    pub fn link(&self, number: usize) -> Option<Link>
        ensures { MatchOption result (length (link_list self.now) ≤ number) (λ x. (number < length (link_list self.now)) × (x ≡ slice_index_or (link_list self.now) number blank)) }
    {
        self.links.get(number).copied()
    }

    // The links as arcs, listed by tail and by head.
    pub fn graph(&self) -> &Graph
        ensures { GraphOf (node_count self.now) (map arc_of (link_list self.now)) result.now }
    {
        &self.graph
    }
}
