// All ways to lay paths with no common link, one after another.
ghost use Rattle.std.specs.Prelude.{◌≡◌, ℕ, ◌<◌};
ghost use Rattle.enumeration.specs.Costs.{PairCost};
ghost use Rattle.enumeration.specs.Least.{Least, smaller};
ghost use Rattle.enumeration.specs.Walks.{Completed, Limited, completed_cost};
ghost use Rattle.routing.specs.Answer.{link_graph};
ghost use Rattle.routing.specs.Found.{allowed};

use crate::trail::Trail;
use network::{Link, MOST_LINKS, Network};

// The paths that are looked for: from a source to a target, over some links.
#[derive(Clone, Copy)]
struct Search<'a> {
    links: &'a [Link],
    source: u8,
    target: u8,
    ghost limited: { Limited links.now },
    ghost inside: { source < 32 },
}

// The lower of two costs; `None` is no cost, and stands aside.
fn lower(a: Option<u32>, b: Option<u32>) -> Option<u32>
    ensures { result ≡ smaller a b }
{
    a.into_iter().chain(b).min()
}

impl Search<'_> {
    // The least cost of leading the trail on to the target and of `more` paths from the source to the target, over free
    // links, each taken once.
    fn least_cost(&self, trail: &Trail, more: u8) -> Option<u32>
        ensures { Least (Completed (link_graph self.now.links.now) self.now.source self.now.target more trail.now) (completed_cost (link_graph self.now.links.now)) result }
    {
        if trail.node == self.target {
            return if more == 0 {
                Some(0)
            } else {
                self.least_cost(&Trail::begin(trail.free, self.source), more - 1)
            };
        }
        // A loop, since a closure that takes part in the recursion needs a contract and a measure of its own.
        let mut best = None;
        for (e, link) in self.links.iter().enumerate() {
            if trail.leads_on(e, *link) {
                let cost = u32::from(link.cost);
                let mut next = *trail;
                next.follow(e, *link);
                let rest = self.least_cost(&next, more);
                best = lower(best, rest.map(|rest| cost + rest));
            }
        }
        best
    }
}

// Which links are usable, with a flag for each link that a network can have; one past the end of `usable` is not.
fn flags(usable: &[bool]) -> [bool; MOST_LINKS]
    ensures { (e : ℕ) → e < 128 → allowed result e ≡ allowed usable.now e }
{
    let mut free = [false; MOST_LINKS];
    let known = usable.len().min(MOST_LINKS);
    free[..known].copy_from_slice(&usable[..known]);
    free
}

// What the cheapest pair of paths from `source` to `target` with no common link costs, over the links that are marked
// usable (a link past the end of `usable` is not); nothing where there is no such pair, where the source is the target, or
// where one of them is no node of the network.
pub fn least_pair_cost(network: &Network, usable: &[bool], source: u8, target: u8) -> Option<u32>
    ensures { PairCost network.now (allowed usable.now) source target result }
{
    let nodes = network.nodes();
    if source >= nodes || target >= nodes || source == target {
        return None;
    }
    let search = Search {
        links: network.links(),
        source,
        target,
    };
    search.least_cost(&Trail::begin(flags(usable), source), 1)
}
