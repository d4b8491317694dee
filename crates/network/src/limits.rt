// The limits of a network, tested.
ghost use Rattle.std.specs.Prelude.{◌≤◌, ◌↔◌, IsTrue};
ghost use Rattle.network.specs.Limits.{Sound, SoundLink};

use crate::Link;

// The most nodes that a network has.
pub const MOST_NODES: usize = 32;

// The most links that a network has.
pub const MOST_LINKS: usize = 128;

// Whether a network may have so many nodes and so many links.
pub(crate) fn may_have(nodes: usize, links: usize) -> bool
    ensures { IsTrue result ↔ ((2 ≤ nodes) × (nodes ≤ 32) × (1 ≤ links) × (links ≤ 128)) }
{
    (2..=MOST_NODES).contains(&nodes) && (1..=MOST_LINKS).contains(&links)
}

// Whether a network of so many nodes may have the link.
fn is_sound(nodes: u8, link: Link) -> bool
    ensures { IsTrue result ↔ SoundLink nodes link }
{
    link.tail < nodes
        && link.head < nodes
        && link.tail != link.head
        && link.cost > 0
        && link.capacity > 0
        && link.ceiling <= 64
}

// Whether so many nodes and these links are a network.
pub(crate) fn are_sound(nodes: u8, links: &[Link]) -> bool
    ensures { IsTrue result ↔ Sound nodes links.now }
{
    may_have(usize::from(nodes), links.len()) && links.iter().all(|link| is_sound(nodes, *link))
}
