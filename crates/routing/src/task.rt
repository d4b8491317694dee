// What is searched for: two paths with no common arc from `source` to `target`, two nodes of the graph.
ghost use Rattle.graph.specs.Graphs.{node_count};
ghost use Rattle.std.specs.Prelude.{◌<◌, ◌≢◌};

use graph::Graph;

#[derive(Clone, Copy)]
pub(crate) struct Task<'a> {
    pub(crate) graph: &'a Graph,
    pub(crate) source: u8,
    pub(crate) target: u8,
    ghost source_inside: { source < node_count graph.now },
    ghost target_inside: { target < node_count graph.now },
    ghost apart: { source ≢ target },
}
