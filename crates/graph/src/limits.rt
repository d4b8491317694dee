ghost use Rattle.graph.specs.Arcs.{Sound, Within};
ghost use Rattle.std.specs.Prelude.{MatchBool};

use crate::Arc;

const MAX_NODES: u8 = 32;

const MAX_ARCS: usize = 128;

const MAX_WEIGHT: u32 = 65_535;

impl Arc {
    // Whether it joins two of so many nodes, with a weight within the limits.
    fn is_sound(&self, nodes: u8) -> bool
        ensures { MatchBool result (Sound nodes self.now) (Sound nodes self.now → ⊥) }
    {
        self.tail < nodes && self.head < nodes && 0 < self.weight && self.weight <= MAX_WEIGHT
    }
}

// Whether so many nodes and these arcs are within the limits of a graph.
pub(crate) fn within_limits(nodes: u8, arcs: &[Arc]) -> bool
    ensures { MatchBool result (Within nodes arcs.now) (Within nodes arcs.now → ⊥) }
{
    0 < nodes
        && nodes <= MAX_NODES
        && arcs.len() <= MAX_ARCS
        && arcs.iter().all(|arc| arc.is_sound(nodes))
}
