// Networks: none exists that breaks a limit.
ghost use Rattle.std.specs.Prelude.{map};
ghost use Rattle.graph.specs.Graphs.{GraphOf};
ghost use Rattle.network.specs.Arcs.{arc_of};
ghost use Rattle.network.specs.Limits.{Sound};

use crate::Link;
use graph::Graph;

mod parts;

// 2 to 32 nodes and 1 to 128 links, both numbered from 0, and the links as arcs of a graph, which knows no capacity.
#[derive(Drop)]
pub struct Network {
    nodes: u8,
    links: Vec<Link>,
    graph: Graph,
    ghost sound: { Sound nodes links.items },
    ghost arcs: { GraphOf nodes (map arc_of links.items) graph },
}
