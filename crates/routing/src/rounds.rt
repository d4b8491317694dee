// Two rounds of the same step: a round takes one unit more from the source to the target along a shortest residual path,
// and raises the potentials so that they certify the chosen arcs.
ghost use Rattle.std.specs.Prelude.{◌≡◌, ℕ, ◌<◌, ◌≤◌, length, MatchOption};
ghost use Rattle.graph.specs.Graphs.{node_count};
ghost use Rattle.paths.specs.Flow.{Certified};
ghost use Rattle.paths.specs.Pairs.{NoPair};
ghost use Rattle.routing.specs.Back.{Chain, CutOff, Raised, Rounded, Walked, lift};
ghost use Rattle.routing.specs.Entries.{entries_of, in_f, node_at, pot, usable};
ghost use Rattle.routing.specs.Settle.{Fit};
ghost use Rattle.routing.specs.Taking.{Doubled, Ready};
ghost use Rattle.routing.specs.Views.{net_of};

use crate::flow::Flow;
use crate::key::{NodeKey, Reach};
use crate::state::State;

impl Reach {
    // By how much the potential of a node rises: its distance, and `far` at most.
    fn rise(self, far: u32) -> u32
        ensures { result ≡ lift self far }
    {
        match self {
            Reach::At(d) => d.min(far),
            Reach::NotReached => far,
        }
    }
}

// Raises the potential of each node.
fn raise(entries: &[NodeKey], pots: &mut [u32], far: u32)
    requires nodes { (k : ℕ) → k < length entries.now → node_at entries.now k < length pots.old }
    requires once { (v : ℕ) → v < length pots.old → entries_of v entries.now ≡ 1 }
    requires low { ((v : ℕ) → v < length pots.old → pot pots.old v ≤ 1073741824) × (far ≤ 1075838976) }
    ensures { Raised entries.now pots.old pots.new far }
{
    for entry in entries {
        pots[usize::from(entry.node)] += entry.reach.rise(far);
    }
}

// `preds` and `entries` are no struct of their own: its ghost fields would have to say how long they are, and there is no
// proof of a call that reads a slice through a field of a struct with ghost fields.
impl Flow<'_> {
    // Flips the arcs by which the target was reached, from the target back to the source. It comes to an end since each node
    // was reached from one that was finished before it: the entries say in which order, with the target's own at `rest`.
    fn walk_back(&mut self, preds: &[u32], entries: &[NodeKey], rest: usize)
        requires chain { Chain (net_of self.old.task.graph.now) self.old.states self.old.pots.now preds.now entries.now rest self.old.task.source }
        requires target { (rest < length entries.now) × (node_at entries.now rest ≡ self.old.task.target) × (length preds.now ≡ length entries.now) }
        requires certified { Certified (net_of self.old.task.graph.now) (usable self.old.states) (in_f self.old.states) (pot self.old.pots.now) }
        ensures same { self.new.task ≡ self.old.task }
        ensures pots { self.new.pots.now ≡ self.old.pots.now }
        ensures walked { Walked (net_of self.old.task.graph.now) self.old.states self.old.pots.now self.new.states self.old.task.source self.old.task.target }
    {
        let arcs = self.task.graph.arcs();
        let source = self.task.source;
        let mut node = self.task.target;
        let states = &mut self.states;
        while node != source {
            let e = preds[usize::from(node)] as usize;
            if let State::Chosen = states[e] {
                states[e] = State::Free;
                node = arcs[e].head;
            } else {
                states[e] = State::Chosen;
                node = arcs[e].tail;
            }
        }
    }

    // One round: takes one unit more from the source to the target. `None` if there is no way for it.
    fn round(&mut self, preds: &mut [u32], entries: &mut [NodeKey]) -> Option<()>
        requires fit { Fit (net_of self.old.task.graph.now) self.old.states self.old.pots.now (node_count self.old.task.graph.now) }
        requires sizes { (length preds.old ≡ node_count self.old.task.graph.now) × (length entries.old ≡ node_count self.old.task.graph.now) }
        ensures same { self.new.task ≡ self.old.task }
        ensures round { MatchOption result (CutOff (net_of self.old.task.graph.now) self.old.states self.old.pots.now self.new.states self.new.pots.now self.old.task.source self.old.task.target)
            (λ _. Rounded (net_of self.old.task.graph.now) self.old.states self.old.pots.now self.new.states self.new.pots.now (node_count self.old.task.graph.now) self.old.task.source self.old.task.target) }
    {
        let arrival = self.explore(preds, entries)?;
        raise(entries, self.pots, arrival.far);
        self.walk_back(preds, entries, arrival.rest);
        Some(())
    }

    // Chooses arcs that take two units from the source to the target, as cheap as can be. `None` if there is no pair.
    pub(crate) fn choose(&mut self, preds: &mut [u32], entries: &mut [NodeKey]) -> Option<()>
        requires ready { Ready (net_of self.old.task.graph.now) self.old.states (node_count self.old.task.graph.now) }
        requires sizes { (length preds.old ≡ node_count self.old.task.graph.now) × (length entries.old ≡ node_count self.old.task.graph.now) }
        ensures same { self.new.task ≡ self.old.task }
        ensures pair { MatchOption result (NoPair (net_of self.old.task.graph.now) (usable self.old.states) self.old.task.source self.old.task.target)
            (λ _. Doubled (net_of self.old.task.graph.now) self.old.states self.new.states self.new.pots.now self.old.task.source self.old.task.target) }
    {
        self.pots.fill(0);
        self.round(preds, entries)?;
        self.round(preds, entries)
    }
}
