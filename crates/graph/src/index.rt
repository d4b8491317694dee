ghost use Rattle.std.specs.Prelude.{◌≡◌, ℕ, ◌+◌, ◌<◌, ◌≤◌, [], length, slice_index, slice_index_or, slice_range, IfOk};
ghost use Rattle.std.specs.Fn.{FnReturnsAt};
ghost use Rattle.graph.specs.Arcs.{blank};
ghost use Rattle.graph.specs.Listing.{Lists};
ghost use Rattle.graph.specs.declared.arc.Arc.{Arc};

use crate::{Arc, Sorted};
use std::alloc::{AllocError, Global};

// The numbers of the arcs by one of their ends: those of the node v stand in `order` from first[v] up to first[v + 1].
// Two flat lists and no list for each node, since the public `Sorted` lends them as they are.
#[derive(Drop)]
pub(crate) struct Index {
    first: Vec<u8>,
    order: Vec<u8>,
    ghost upward: { (v : ℕ) → v + 1 < length first.items → slice_index first.items v ≤ slice_index first.items (v + 1) },
    ghost bounded: { (v : ℕ) → v < length first.items → slice_index first.items v ≤ length order.items },
}

impl Index {
    // The arcs of the nodes below `nodes`, by the node at their `end`.
    #[tactic(auto, using(crate::proofs::Listings::by_node_few))]
    pub(crate) fn new<F: Fn(&Arc) -> u8>(
        nodes: u8,
        arcs: &[Arc],
        end: F,
        heap: Global,
    ) -> Result<Index, AllocError>
        ghost node_of: { Arc → ℕ }
        requires few { length arcs.now ≤ 128 }
        requires callable { F.IsAlwaysCallable end }
        requires reads { (arc : Arc) (node : ℕ) → FnReturnsAt F.Fn end arc node → node ≡ node_of arc }
        ensures { IfOk result (λ x. Lists (λ e. node_of (slice_index_or arcs.now e blank)) (length arcs.now) nodes x.first.items x.order.items) }
    {
        let mut first = Vec::new(heap);
        let mut order = Vec::new(heap);
        for node in 0..nodes {
            first.push(order.len() as u8)?;
            for (number, arc) in arcs.iter().enumerate() {
                if end(arc) == node {
                    order.push(number as u8)?;
                }
            }
        }
        first.push(order.len() as u8)?;
        Ok(Index { first, order })
    }

    // The numbers of the arcs of `node`, in rising order; none where there is no such node.
    pub(crate) fn of(&self, node: u8) -> &[u8]
        ensures node { node + 1 < length self.now.first.items → result.now ≡ slice_range self.now.order.items (slice_index self.now.first.items node) (slice_index self.now.first.items (node + 1)) }
        ensures no_node { length self.now.first.items ≤ node + 1 → result.now ≡ [] }
    {
        let node = usize::from(node);
        match self.first.get(node + 1) {
            Some(end) => &self.order[usize::from(self.first[node])..usize::from(*end)],
            None => &[],
        }
    }

    // The two lists, lent.
    pub(crate) fn sorted(&self) -> Sorted<'_>
        ensures first { result.first.now ≡ self.now.first.items }
        ensures order { result.order.now ≡ self.now.order.items }
    {
        Sorted {
            first: &self.first,
            order: &self.order,
        }
    }
}
