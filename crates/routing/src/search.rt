// The search for the cheapest pair of paths with no common link.
ghost use Rattle.std.specs.Prelude.{◌≡◌, ◌+◌, ◌*◌, ◌<◌, ◌≤◌, length, replicate, is_ok, if◌then◌else◌, MatchOption, MatchResult, None, Some, ◌≢◌};
ghost use Rattle.graph.specs.Graphs.{arc_list, node_count};
ghost use Rattle.paths.specs.Pairs.{NoPair};
ghost use Rattle.routing.specs.Answer.{Answers, no_entry, refusal};
ghost use Rattle.routing.specs.Found.{Best, allowed, paired, precedes};
ghost use Rattle.routing.specs.declared.state.State.TheVariants.{Free, LeftOut};
ghost use Rattle.routing.specs.Taking.{Marked};
ghost use Rattle.routing.specs.Views.{net_of};

use crate::extract::Track;
use crate::flow::Flow;
use crate::key::NodeKey;
use crate::path::Pair;
use crate::state::State;
use crate::task::Task;
use graph::Graph;
use network::{MOST_LINKS, Network};

// The state that the arc `e` begins with: it is free if it is usable.
fn first_state(usable: &[bool], e: usize) -> State
    ensures { result ≡ (if allowed usable.now e then Free else LeftOut) }
{
    match usable.get(e) {
        Some(true) => State::Free,
        _ => State::LeftOut,
    }
}

// The states that all arcs begin with. A loop over the flags that are lent: `array::from_fn` calls a closure for each of 128,
// and took longer.
fn first_states(usable: &[bool]) -> [State; MOST_LINKS]
    ensures long { length result ≡ 128 }
    ensures marked { Marked usable.now result }
{
    let mut states = [State::LeftOut; MOST_LINKS];
    for e in 0..usable.len().min(MOST_LINKS) {
        states[e] = first_state(usable, e);
    }
    states
}

impl Track {
    // Whether this is the working path beside `other`: it is cheaper, or at equal cost its first link has the lower number.
    fn goes_before(&self, other: &Track) -> bool
        ensures { result ≡ precedes self.now other.now }
    {
        (self.cost, self.path.first()) < (other.cost, other.path.first())
    }
}

// The two paths as working and protecting path.
fn rank(one: Track, two: Track) -> Pair
    requires { (one.cost ≤ 2031585) × (two.cost ≤ 2031585) }
    ensures { result ≡ (if precedes two one then paired two one else paired one two) }
{
    let cost = one.cost + two.cost;
    if two.goes_before(&one) {
        Pair {
            cost,
            working: two.path,
            protecting: one.path,
        }
    } else {
        Pair {
            cost,
            working: one.path,
            protecting: two.path,
        }
    }
}

// The cheapest pair over the usable arcs, if there is a pair. Of the words it uses two for each node: its potential, and the
// arc by which it was reached. They are slices of words, and no lists of a type of their own, since callers lend them.
fn best_pair(
    task: Task,
    usable: &[bool],
    words: &mut [u32],
    entries: &mut [NodeKey],
) -> Option<Pair>
    requires words { 2 * node_count task.graph.now ≤ length words.old }
    requires entries { length entries.old ≡ node_count task.graph.now }
    ensures { MatchOption result (NoPair (net_of task.entry.graph.now) (allowed usable.now) task.entry.source task.entry.target)
        (λ p. Best (net_of task.entry.graph.now) (allowed usable.now) task.entry.source task.entry.target p) }
{
    let nodes = entries.len();
    let (pots, rest) = words.split_at_mut(nodes);
    let (preds, _) = rest.split_at_mut(nodes);
    let states = first_states(usable);
    let mut flow = Flow { task, states, pots };
    flow.choose(preds, entries)?;
    let one = flow.take_path();
    let two = flow.take_path();
    Some(rank(one, two))
}

// Why a search is refused.
#[derive(Clone, Copy, Debug, PartialEq, Eq)]
pub enum SearchFault {
    // The source or the target is no node of the network.
    NoSuchNode,
    // The source is the target.
    SameNode,
    // There are fewer than 6 words a node and 2 a link, or fewer entries than nodes.
    ShortBuffer,
}

// Whether there can be a search with so many words and entries. There is no `Task` before it: that is of two nodes apart.
fn check(
    graph: &Graph,
    source: u8,
    target: u8,
    words: usize,
    entries: usize,
) -> Result<(), SearchFault>
    ensures { MatchResult result (λ _. refusal (node_count graph.now) (length (arc_list graph.now)) source target words entries ≡ None)
        (λ f. refusal (node_count graph.now) (length (arc_list graph.now)) source target words entries ≡ Some f) }
{
    if source >= graph.nodes() || target >= graph.nodes() {
        return Err(SearchFault::NoSuchNode);
    }
    if source == target {
        return Err(SearchFault::SameNode);
    }
    let nodes = usize::from(graph.nodes());
    let links = graph.arcs().len();
    if words < 6 * nodes + 2 * links || entries < nodes {
        return Err(SearchFault::ShortBuffer);
    }
    Ok(())
}

// The cheapest pair of paths from `source` to `target` with no common link, over the links that are marked usable (a link
// past the end of `usable` is not). Words and entries are the caller's, of any content: a search leaves every word 0 and
// every entry "not reached, node 0", and a refusal changes nothing.
pub fn find_pair(
    network: &Network,
    usable: &[bool],
    source: u8,
    target: u8,
    words: &mut [u32],
    entries: &mut [NodeKey],
) -> Result<Option<Pair>, SearchFault>
    ensures answer { Answers network.now (allowed usable.now) source target (length words.old) (length entries.old) result }
    ensures words { words.new ≡ (if is_ok result then replicate (length words.old) 0 else words.old) }
    ensures entries { entries.new ≡ (if is_ok result then replicate (length entries.old) no_entry else entries.old) }
{
    let graph = network.graph();
    check(graph, source, target, words.len(), entries.len())?;
    let nodes = usize::from(graph.nodes());
    let task = Task {
        graph,
        source,
        target,
    };
    let found = best_pair(task, usable, words, &mut entries[0..nodes]);
    words.fill(0);
    entries.fill(NodeKey::default());
    Ok(found)
}
