// Networks in the making.
ghost use Rattle.std.specs.Prelude.{◌≡◌, ◌+◌, ◌<◌, ◌≤◌, IfOk, OnOk};
ghost use Rattle.network.specs.Limits.{Sound, SoundLink};
ghost use Rattle.network.specs.Networks.{link_list, node_count};
ghost use Rattle.std.specs.List.{AllByRecursion};
ghost use Rattle.trials.specs.Drafts.{Drawn, Grown, Spread};
ghost use Rattle.trials.specs.Kinds.{OfKind};
ghost use Rattle.trials.specs.Traps.{Misleads, Trap};

use crate::generator::Generator;
use network::{Link, LinksFault, Network};
use std::alloc::{AllocError, Global};

// A link with room for anything that is tried.
fn link(tail: u8, head: u8, cost: u16) -> Link
    ensures { (result.tail ≡ tail) × (result.head ≡ head) × (result.cost ≡ cost) × (result.capacity ≡ 10) × (result.ceiling ≡ 64) }
{
    Link {
        tail,
        head,
        cost,
        capacity: 10,
        ceiling: 64,
    }
}

// How many links are drawn, between how many nodes, at costs from `low` to `high`.
#[derive(Clone, Copy)]
struct Shape {
    nodes: u8,
    count: u16,
    low: u16,
    high: u16,
    ghost ends: { (2 ≤ nodes) × (nodes ≤ 32) },
    ghost costs: { (1 ≤ low) × (low ≤ high) },
}

// A link of a shape.
fn random_link(shape: Shape, generator: &mut Generator) -> Link
    ensures { Drawn shape.nodes shape.low shape.high result }
{
    let tail = generator.between(0, u16::from(shape.nodes) - 1) as u8;
    let other = generator.between(0, u16::from(shape.nodes) - 2) as u8;
    let head = if other < tail { other } else { other + 1 };
    link(tail, head, generator.between(shape.low, shape.high))
}

// Five links that make a trap: the cheapest path takes a link from each of the two paths of the only pair.
fn diamond(generator: &mut Generator) -> [Link; 5]
    ensures trap { Trap result }
    ensures sound { AllByRecursion (SoundLink 4) result }
{
    let first = generator.between(1, 5);
    let second = generator.between(1, 5);
    let third = generator.between(1, 5);
    let past_one = first + second + generator.between(1, 5);
    let past_two = second + third + generator.between(1, 5);
    [
        link(0, 1, first),
        link(1, 2, second),
        link(2, 3, third),
        link(0, 2, past_one),
        link(1, 3, past_two),
    ]
}

// Adds the links of a shape.
fn add_links(
    links: &mut Vec<Link>,
    shape: Shape,
    generator: &mut Generator,
) -> Result<(), AllocError>
    ensures { OnOk result (Grown shape.nodes shape.low shape.high shape.count links.old.items links.new.items) }
{
    for _e in 0..shape.count {
        links.push(random_link(shape, generator))?;
    }
    Ok(())
}

// The network of links within the limits. Only want of memory can keep it from being made: that is what the match shows, and
// `map_err` would not.
fn build(nodes: u8, links: Vec<Link>, heap: Global) -> Result<Network, AllocError>
    requires { Sound nodes links.items }
    ensures { IfOk result (λ net. (node_count net ≡ nodes) × (link_list net ≡ links.items)) }
{
    match Network::of_links(nodes, links, heap) {
        Ok(network) => Ok(network),
        Err(LinksFault::NoMemory) => Err(AllocError),
        Err(LinksFault::OutOfLimits) => unreachable!(),
    }
}

// A network of the links of a shape.
fn scatter(shape: Shape, generator: &mut Generator, heap: Global) -> Result<Network, AllocError>
    requires { (1 ≤ shape.count) × (shape.count ≤ 128) }
    ensures { IfOk result (λ net. (node_count net ≡ shape.nodes) × Spread shape.nodes shape.low shape.high shape.count (link_list net)) }
{
    let mut links = Vec::new(heap);
    add_links(&mut links, shape, generator)?;
    build(shape.nodes, links, heap)
}

// A trap among so many dearer links.
fn set_trap(
    nodes: u8,
    count: u16,
    generator: &mut Generator,
    heap: Global,
) -> Result<Network, AllocError>
    requires { (4 ≤ nodes) × (nodes ≤ 32) × (count ≤ 123) }
    ensures { IfOk result (λ net. (node_count net ≡ nodes) × Misleads (link_list net)) }
{
    let mut links = diamond(generator).to_vec(heap)?;
    let dear = Shape {
        nodes,
        count,
        low: 41,
        high: 90,
    };
    add_links(&mut links, dear, generator)?;
    build(nodes, links, heap)
}

// The kinds of networks.
#[derive(Clone, Copy)]
pub(crate) enum Kind {
    // Costs of all sizes.
    Scattered,
    // Few costs, so that many pairs cost the same.
    Ties,
    // Many links between few nodes.
    Parallel,
    // The cheapest path from node 0 to 3 is part of no cheapest pair.
    Traps,
}

// A network of a kind. Only want of memory can keep it from being made. The heap goes beside the generator: a struct of the
// two would hold a `&mut` and be taken apart in each function.
pub(crate) fn make_network(
    kind: Kind,
    generator: &mut Generator,
    heap: Global,
) -> Result<Network, AllocError>
    ensures { IfOk result (λ net. OfKind kind (node_count net) (link_list net)) }
{
    let shape = match kind {
        Kind::Scattered => Shape {
            nodes: generator.between(3, 6) as u8,
            count: generator.between(6, 12),
            low: 1,
            high: 1000,
        },
        Kind::Ties => Shape {
            nodes: generator.between(3, 6) as u8,
            count: generator.between(6, 12),
            low: 1,
            high: 3,
        },
        Kind::Parallel => Shape {
            nodes: generator.between(2, 3) as u8,
            count: generator.between(6, 10),
            low: 1,
            high: 20,
        },
        Kind::Traps => {
            let nodes = generator.between(4, 6) as u8;
            let count = generator.between(0, 7);
            return set_trap(nodes, count, generator, heap);
        }
    };
    scatter(shape, generator, heap)
}
