// What is found and the enumeration, compared on one network.
ghost use Rattle.std.specs.Prelude.{◌-◌, ◌*◌, ◌<◌, ◌≤◌};
ghost use Rattle.enumeration.specs.Costs.{PairCost};
ghost use Rattle.network.specs.Networks.{node_count};
ghost use Rattle.routing.specs.Found.{allowed};
ghost use Rattle.trials.specs.Tallies.{Agreed, Tried};

use crate::tally::Tally;
use enumeration::least_pair_cost;
use network::Network;
use routing::{Workspace, find_pair};

// A network, and which of its links are usable.
#[derive(Clone, Copy)]
pub(crate) struct Trial<'a> {
    pub(crate) network: &'a Network,
    pub(crate) usable: &'a [bool],
}

impl Trial<'_> {
    // What the pair that is found costs, if one is found. The table of `pair_costs` has 0 where this has `None`, so neither
    // can stand for the other.
    fn found_cost(&self, source: u8, target: u8, room: &mut Workspace) -> Option<u32>
        ensures { PairCost self.now.network.now (allowed self.now.usable.now) source target result }
    {
        let Workspace { words, entries } = room;
        find_pair(self.network, self.usable, source, target, words, entries)
            .ok()
            .flatten()
            .map(|pair| pair.cost)
    }

    // Tries one query: a source and a target.
    fn try_query(&self, source: u8, target: u8, room: &mut Workspace) -> Tally
        ensures { Tried self.now.network.now (allowed self.now.usable.now) source target result }
    {
        let found = self.found_cost(source, target, room);
        let least = least_pair_cost(self.network, self.usable, source, target);
        Tally {
            networks: 0,
            queries: 1,
            pairs: u32::from(least.is_some()),
            differ: u32::from(found != least),
        }
    }

    // Tries the queries from one node to every other.
    fn try_source(&self, source: u8, room: &mut Workspace) -> Tally
        requires { source < node_count self.now.network.now }
        ensures { Agreed 0 (node_count self.now.network.now - 1) result }
    {
        let mut tally = Tally::default();
        for target in 0..self.network.nodes() {
            if target != source {
                tally = tally + self.try_query(source, target, room);
            }
        }
        tally
    }

    // Tries the queries between any two nodes of the network.
    pub(crate) fn try_all(&self) -> Tally
        ensures agreed { Agreed 1 (node_count self.now.network.now * (node_count self.now.network.now - 1)) result }
        ensures few { result.queries ≤ 992 }
    {
        let mut room = Workspace::new();
        let mut tally = Tally {
            networks: 1,
            ..Tally::default()
        };
        for source in 0..self.network.nodes() {
            tally = tally + self.try_source(source, &mut room);
        }
        tally
    }
}
