ghost use Rattle.std.specs.Prelude.{◌≡◌};
ghost use Rattle.network.specs.Arcs.{arc_of};

use graph::Arc;

// A one-way link from its tail to its head: what it costs, how many units it can carry, and its ceiling, the largest number
// of grants that it may carry.
#[derive(Clone, Copy, Debug, PartialEq, Eq)]
pub struct Link {
    pub tail: u8,
    pub head: u8,
    pub cost: u16,
    pub capacity: u16,
    pub ceiling: u8,
}

// Its weight is the cost.
impl From<Link> for Arc {
    ghost from_gives = { λ x arc. arc ≡ arc_of x };

    fn from(link: Link) -> Arc {
        Arc {
            tail: link.tail,
            head: link.head,
            weight: u32::from(link.cost),
        }
    }
}
