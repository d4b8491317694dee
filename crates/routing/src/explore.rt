// Dijkstra's search over the residual arcs of a flow. A node is finished when it leaves the heap.
ghost use Rattle.std.specs.Prelude.{◌≡◌, ℕ, ◌+◌, ◌-◌, ◌<◌, ◌≤◌, Bool, true, false, List, length, MatchOption, ◌≢◌, slice_index};
ghost use Rattle.graph.specs.Graphs.{node_count};
ghost use Rattle.paths.specs.Pairs.{Digraph};
ghost use Rattle.routing.specs.declared.state.State.{State};
ghost use Rattle.routing.specs.Entries.{node_at, entries_of};
ghost use Rattle.routing.specs.Fronts.{Covers, Onward, Reaches, Searching, Settles};
ghost use Rattle.routing.specs.Settle.{Arrived, Fit, Offered, Settled, Severed, more};
ghost use Rattle.routing.specs.Views.{net_of};

use crate::flow::Flow;
use crate::key::{NodeKey, Reach};
use crate::residual::Residual;
use crate::state::State;
use heap::Heap;

// A node that is finished, and its distance from the source.
#[derive(Clone, Copy)]
struct Finished {
    node: u8,
    far: u32,
}

// Where the target was finished: `rest` entries were not, and it is `far` away.
#[derive(Clone, Copy)]
pub(crate) struct Arrival {
    pub(crate) rest: usize,
    pub(crate) far: u32,
}

// Where in the heap the entry of `node` is.
fn find(heap: &Heap<NodeKey>, node: u8) -> Option<usize>
    ensures { MatchOption result ((k : ℕ) → k < heap.now.len → node_at heap.now.items.now k ≢ node)
        (λ i. (i < heap.now.len) × (node_at heap.now.items.now i ≡ node)) }
{
    heap.as_slice().iter().position(|entry| entry.node == node)
}

// Gives `node` the distance `far` by the arc `arc`, if its entry is in the heap and farther.
fn offer(heap: &mut Heap<NodeKey>, preds: &mut [u32], node: u8, far: u32, arc: u32)
    requires { (node < length preds.old) × (entries_of node heap.old.items.now ≡ 1) }
    ensures same { heap.new.items.ghost_name ≡ heap.old.items.ghost_name }
    ensures onward { Onward heap.old.items.now heap.old.len heap.new.items.now heap.new.len }
    ensures offered { Offered heap.old.items.now preds.old heap.old.len node far arc heap.new.items.now preds.new }
{
    let Some(i) = find(heap, node) else {
        return;
    };
    let nearer = NodeKey {
        reach: Reach::At(far),
        node,
    };
    if let Ok(()) = heap.lower(i, nearer) {
        preds[usize::from(node)] = arc;
    }
}

// The heap and `preds` are no struct of their own: of a slice that such a struct holds through the heap it cannot be proved
// what it holds when the search is over. So each step says itself that the heap is over the same slice.
impl Residual<'_> {
    // Offers the other end of the arc `e`, if it leads away from the node that was finished last.
    fn relax(self, heap: &mut Heap<NodeKey>, preds: &mut [u32], at: Finished, e: usize)
        requires within { e < (net_of self.graph.now).size }
        requires here { Reaches self preds.old heap.old.items.now heap.old.len at }
        requires searching { Searching self preds.old heap.old.items.now heap.old.len }
        ensures same { heap.new.items.ghost_name ≡ heap.old.items.ghost_name }
        ensures here { Reaches self.entry preds.new heap.new.items.now heap.new.len at }
        ensures onward { Onward heap.old.items.now heap.old.len heap.new.items.now heap.new.len }
        ensures settles { (s : ℕ) (done : ℕ → Bool) → Settles self.entry preds.old heap.old.items.now heap.old.len s done
            → Settles self.entry preds.new heap.new.items.now heap.new.len s (more done e) }
    {
        let arc = self.graph.arcs()[e];
        let tail = self.pots[usize::from(arc.tail)];
        let head = self.pots[usize::from(arc.head)];
        match self.states[e] {
            State::LeftOut => {}
            State::Free => {
                if arc.tail == at.node {
                    offer(
                        heap,
                        preds,
                        arc.head,
                        at.far + (arc.weight + tail - head),
                        e as u32,
                    );
                }
            }
            State::Chosen => {
                if arc.head == at.node {
                    offer(
                        heap,
                        preds,
                        arc.tail,
                        at.far + (head - tail - arc.weight),
                        e as u32,
                    );
                }
            }
        }
    }

    // Relaxes the arcs of a list.
    fn relax_each(self, heap: &mut Heap<NodeKey>, preds: &mut [u32], at: Finished, arcs: &[u8])
        requires within { (p : ℕ) → p < length arcs.now → slice_index arcs.now p < (net_of self.graph.now).size }
        requires here { Reaches self preds.old heap.old.items.now heap.old.len at }
        requires searching { Searching self preds.old heap.old.items.now heap.old.len }
        ensures same { heap.new.items.ghost_name ≡ heap.old.items.ghost_name }
        ensures here { Reaches self.entry preds.new heap.new.items.now heap.new.len at }
        ensures onward { Onward heap.old.items.now heap.old.len heap.new.items.now heap.new.len }
        ensures covers { (s : ℕ) (done : ℕ → Bool) → Settles self.entry preds.old heap.old.items.now heap.old.len s done
            → Covers self.entry preds.new heap.new.items.now heap.new.len s arcs.now (length arcs.now) done }
    {
        for e in arcs {
            self.relax(heap, preds, at, usize::from(*e));
        }
    }

    // Relaxes the arcs that leave the node that was finished last, then those that enter it.
    fn spread(self, heap: &mut Heap<NodeKey>, preds: &mut [u32], at: Finished)
        requires here { Reaches self preds.old heap.old.items.now heap.old.len at }
        requires settles { (s : ℕ) × (s < length heap.old.items.now) × Settles self preds.old heap.old.items.now heap.old.len s (λ _. false) }
        ensures same { heap.new.items.ghost_name ≡ heap.old.items.ghost_name }
        ensures here { Reaches self.entry preds.new heap.new.items.now heap.new.len at }
        ensures onward { Onward heap.old.items.now heap.old.len heap.new.items.now heap.new.len }
        ensures settles { (s : ℕ) → Settles self.entry preds.old heap.old.items.now heap.old.len s (λ _. false)
            → Settles self.entry preds.new heap.new.items.now heap.new.len s (λ _. true) }
    {
        self.relax_each(heap, preds, at, self.graph.leaving(at.node));
        self.relax_each(heap, preds, at, self.graph.entering(at.node));
    }
}

// The entries of all nodes as a heap, with `source` at distance 0.
fn begin(entries: &mut [NodeKey], source: u8) -> Heap<'_, NodeKey>
    requires { (length entries.old ≤ 32) × (source < length entries.old) }
    ensures same { result.items.ghost_name ≡ entries.entry.ghost_name }
    ensures full { (result.len ≡ length result.items.now) × (length result.items.now ≡ length entries.old) }
    ensures settled { (net : Digraph) (states : List State) (pots preds : List ℕ) (done : ℕ → Bool) → Settled net states pots preds source result.items.now result.len done }
{
    for (node, entry) in entries.iter_mut().enumerate() {
        *entry = NodeKey {
            reach: Reach::NotReached,
            node: node as u8,
        };
    }
    // Entries that are not reached, in the order of the nodes, are a heap as they stand: none has to be compared.
    let len = entries.len();
    let mut heap = Heap {
        items: entries,
        len,
    };
    let start = NodeKey {
        reach: Reach::At(0),
        node: source,
    };
    let _ = heap.lower(usize::from(source), start);
    heap
}

impl Flow<'_> {
    // Finishes the nearest nodes over the residual arcs, from the source on, until the target is finished or no other node is
    // reached.
    pub(crate) fn explore(&self, preds: &mut [u32], entries: &mut [NodeKey]) -> Option<Arrival>
        requires fit { Fit (net_of self.now.task.graph.now) self.now.states self.now.pots.now (node_count self.now.task.graph.now) }
        requires sizes { (length preds.old ≡ node_count self.now.task.graph.now) × (length entries.old ≡ node_count self.now.task.graph.now) }
        ensures { MatchOption result (Severed (net_of self.now.task.graph.now) self.now.states self.now.task.source self.now.task.target)
            (λ a. Arrived (net_of self.now.task.graph.now) self.now.states self.now.pots.now preds.new self.now.task.source self.now.task.target entries.new a.rest a.far) }
    {
        let residual = Residual {
            graph: self.task.graph,
            states: &self.states,
            pots: self.pots,
        };
        let mut heap = begin(entries, self.task.source);
        while let Some(key) = heap.pop() {
            let Reach::At(far) = key.reach else {
                return None;
            };
            if key.node == self.task.target {
                let rest = heap.len();
                return Some(Arrival { rest, far });
            }
            let node = key.node;
            residual.spread(&mut heap, preds, Finished { node, far });
        }
        None
    }
}
