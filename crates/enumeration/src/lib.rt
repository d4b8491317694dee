// Every pair of paths with no common link, tried one after another: what the cheapest costs. It takes exponential time and
// is meant for small networks, to compare others with.
#![tactic(auto)]

mod search;
mod trail;

pub use search::least_pair_cost;
