// What the cheapest pair costs between every two nodes of a network, for callers in C and C++.
#![tactic(auto)]

ghost use Rattle.std.specs.Prelude.{◌≡◌, ◌*◌, ◌<◌, length};
ghost use Rattle.network.specs.Networks.{link_list, node_count};
ghost use Rattle.pair_costs.specs.Table.{CostBetween, CostTable, Tabulates};

use network::{MOST_LINKS, Network, read};
use routing::{Workspace, find_pair};
use std::alloc::Global;

// What the cheapest pair from `source` to `target` costs, or 0: a table for C has no `Option`.
fn cost_between(network: &Network, source: u8, target: u8, workspace: &mut Workspace) -> u32
    requires { (source < node_count network.now) × (target < node_count network.now) }
    ensures { CostBetween (link_list network.now) source target result }
{
    let Workspace { words, entries } = workspace;
    let Ok(found) = find_pair(network, &[true; MOST_LINKS], source, target, words, entries) else {
        return 0;
    };
    found.map_or(0, |pair| pair.cost)
}

// Fills the table, for which there is exactly room.
fn fill(network: &Network, costs: &mut [u32])
    requires { length costs.old ≡ node_count network.now * node_count network.now }
    ensures { CostTable (node_count network.now) (link_list network.now) costs.new }
{
    let nodes = usize::from(network.nodes());
    let mut workspace = Workspace::new();
    // One loop over all places: of what is written through the rows of `chunks_exact_mut` a proof knows only the length.
    for (k, cost) in costs.iter_mut().enumerate() {
        let source = (k / nodes) as u8;
        let target = (k % nodes) as u8;
        *cost = cost_between(network, source, target, &mut workspace);
    }
}

// Reads a network of some n nodes from `words`, and writes what the cheapest pair from s to t costs to `costs[s * n + t]`,
// or 0 where there is none. False where the words are refused or `costs` is too short: C has no `Result`.
#[unsafe(no_mangle)]
pub extern "C" fn pair_costs(heap: Global, words: &[u32], costs: &mut [u32]) -> bool
    ensures { Tabulates words.now costs.old costs.new result }
{
    let Ok(network) = read(words, heap) else {
        return false;
    };
    let nodes = usize::from(network.nodes());
    if costs.len() < nodes * nodes {
        return false;
    }
    fill(&network, &mut costs[0..nodes * nodes]);
    true
}
