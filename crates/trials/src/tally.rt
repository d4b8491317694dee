// What the trials come to: how many networks and queries were tried, how many queries had a pair, and how many differed.
ghost use Rattle.std.specs.Prelude.{◌≡◌, ◌^◌, ◌<◌, Some};
ghost use Rattle.trials.specs.Tallies.{line_of, together};

use std::fmt;
use std::ops::Add;

#[derive(Clone, Copy, Default)]
pub(crate) struct Tally {
    pub(crate) networks: u32,
    pub(crate) queries: u32,
    pub(crate) pairs: u32,
    pub(crate) differ: u32,
}

// Both together.
impl Add for Tally {
    type Output = Tally;

    ghost can_add = { λ a b. ((together a b).networks < 2 ^ 32) × ((together a b).queries < 2 ^ 32) × ((together a b).pairs < 2 ^ 32) × ((together a b).differ < 2 ^ 32) };

    ghost add_gives = { λ a b c. c ≡ together a b };

    fn add(self, other: Tally) -> Tally {
        Tally {
            networks: self.networks + other.networks,
            queries: self.queries + other.queries,
            pairs: self.pairs + other.pairs,
            differ: self.differ + other.differ,
        }
    }
}

impl fmt::Display for Tally {
    ghost output = { λ tally. Some (line_of tally) };

    fn fmt<W: fmt::Write>(&self, f: &mut fmt::Formatter<W>) -> fmt::Result {
        let Tally {
            networks,
            queries,
            pairs,
            differ,
        } = *self;
        write!(
            f,
            "{networks} networks, {queries} queries, {pairs} with a pair, {differ} differ"
        )
    }
}
