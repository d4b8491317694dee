// A weighted directed graph with its arcs listed by tail and by head: what one walks over to find cheapest paths.
// A graph is made once and never changed.
#![tactic(auto)]

mod arc;
mod build;
mod graph;
mod index;
mod limits;
mod view;

pub use arc::Arc;
pub use build::GraphFault;
pub use graph::Graph;
pub use view::{Sorted, View};

#[cfg(test)]
mod tests {
    use super::*;
    use std::alloc::{AllocError, Global};
    use std::test::Fail;

    fn arc_from(tail: u8, head: u8, weight: u32) -> Arc {
        Arc { tail, head, weight }
    }

    fn sample(heap: Global) -> Result<Vec<Arc>, AllocError> {
        [
            arc_from(2, 0, 7),
            arc_from(0, 1, 1),
            arc_from(2, 1, 65_535),
            arc_from(0, 2, 5),
        ]
        .to_vec(heap)
    }

    #[test]
    fn lists_arcs_by_end(rt: HostRuntime) -> Result<(), Fail> {
        let graph = Graph::new(4, sample(rt.alloc())?, rt.alloc())?;
        let view = graph.view();
        assert!(rt; view.leaving.first == [0, 2, 2, 4, 4].as_slice());
        assert!(rt; view.leaving.order == [1, 3, 0, 2].as_slice());
        assert!(rt; view.entering.first == [0, 1, 3, 4, 4].as_slice());
        assert!(rt; view.entering.order == [0, 1, 2, 3].as_slice());
        Ok(())
    }

    #[test]
    fn lists_arcs_of_node(rt: HostRuntime) -> Result<(), Fail> {
        let graph = Graph::new(4, sample(rt.alloc())?, rt.alloc())?;
        assert!(rt; graph.leaving(2) == [0, 2].as_slice());
        assert!(rt; graph.entering(1) == [1, 2].as_slice());
        assert!(rt; graph.entering(3).is_empty());
        assert!(rt; graph.leaving(255).is_empty());
        Ok(())
    }

    #[test]
    fn refuses_other_nodes(rt: HostRuntime) -> Result<(), Fail> {
        let made = Graph::new(2, sample(rt.alloc())?, rt.alloc());
        assert!(rt; matches!(made, Err(GraphFault::OutOfLimits)));
        Ok(())
    }
}
