ghost use Rattle.std.specs.Prelude.{ℕ, ◌<◌, ◌≤◌, length, slice_index_or};
ghost use Rattle.graph.specs.Arcs.{Sound, blank, head_of, tail_of};
ghost use Rattle.graph.specs.Listing.{Lists};

use crate::Arc;
use crate::index::Index;

// A graph of 1 to 32 nodes, numbered from 0, and at most 128 arcs of weights from 1 to 65,535.
#[derive(Drop)]
pub struct Graph {
    pub(crate) nodes: u8,
    pub(crate) arcs: Vec<Arc>,
    pub(crate) leaving: Index,
    pub(crate) entering: Index,
    ghost nonempty: { 1 ≤ nodes },
    ghost small: { nodes ≤ 32 },
    ghost few: { length arcs.items ≤ 128 },
    ghost sound: { (e : ℕ) → e < length arcs.items → Sound nodes (slice_index_or arcs.items e blank) },
    ghost by_tail: { Lists (tail_of arcs.items) (length arcs.items) nodes leaving.first.items leaving.order.items },
    ghost by_head: { Lists (head_of arcs.items) (length arcs.items) nodes entering.first.items entering.order.items },
}
