// What an order would get.
ghost use Rattle.std.specs.Prelude.{◌≡◌, ℕ, ◌<◌, ◌≤◌, cond, length, replicate, is_some, Some, None, MatchResult};
ghost use Rattle.orders.specs.Orders.{Quoted, fault_of, room_for, unfit};
ghost use Rattle.routing.specs.Answer.{no_entry};
ghost use Rattle.routing.specs.Found.{allowed};

use crate::order::Reserve;
use crate::refusal::Refusal;
use network::{Link, MOST_LINKS, Network};
use routing::{NodeKey, Pair, find_pair};

const LONGEST_HOLD: u32 = 86_400;

const LAST_SERIAL: u32 = 268_435_455;

// Whether an order is fit to be searched for, by itself.
fn check(nodes: u8, order: Reserve, serial: u32) -> Result<(), Refusal>
    ensures { MatchResult result (λ _. unfit nodes order serial ≡ None) (λ f. unfit nodes order serial ≡ Some f) }
{
    if order.source >= nodes || order.target >= nodes {
        return Err(Refusal::NoSuchNode);
    }
    if order.source == order.target {
        return Err(Refusal::SameNode);
    }
    if order.amount == 0 {
        return Err(Refusal::NoAmount);
    }
    if order.hold == 0 || order.hold > LONGEST_HOLD {
        return Err(Refusal::HoldTime);
    }
    if serial > LAST_SERIAL {
        return Err(Refusal::SerialsUsedUp);
    }
    Ok(())
}

// Which links have room for an amount. A loop over the links that there are: `array::from_fn` calls a closure for each of 128,
// and took longer.
fn with_room(links: &[Link], amount: u16) -> [bool; MOST_LINKS]
    requires { length links.now ≤ 128 }
    ensures { (e : ℕ) → e < length links.now → allowed result e ≡ room_for links.now amount e }
{
    let mut usable = [false; MOST_LINKS];
    for (e, link) in links.iter().enumerate() {
        usable[e] = link.capacity >= amount;
    }
    usable
}

// The best pair for an order over the links with room for its amount, where `serial` is the next one to give. Nothing is
// held. The buffers are lent as slices, as in a search for a pair; an order that is refused before the search leaves them as
// they are.
pub fn quote(
    network: &Network,
    order: Reserve,
    serial: u32,
    words: &mut [u32],
    entries: &mut [NodeKey],
) -> Result<Pair, Refusal>
    ensures answer { Quoted network.now order (fault_of network.now order serial (length words.old) (length entries.old)) result }
    ensures words { words.new ≡ cond (is_some (fault_of network.now order serial (length words.old) (length entries.old)))
        words.old (replicate (length words.old) 0) }
    ensures entries { entries.new ≡ cond (is_some (fault_of network.now order serial (length words.old) (length entries.old)))
        entries.old (replicate (length entries.old) no_entry) }
{
    check(network.nodes(), order, serial)?;
    let usable = with_room(network.links(), order.amount);
    find_pair(network, &usable, order.source, order.target, words, entries)?.ok_or(Refusal::NoPair)
}
