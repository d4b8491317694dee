// Why an order gets no pair.
ghost use Rattle.orders.specs.Orders.{number_of};
ghost use Rattle.orders.specs.Refusals.{from_search};
ghost use Rattle.std.specs.Prelude.{◌≡◌};

use routing::SearchFault;

#[derive(Clone, Copy, Debug, PartialEq, Eq)]
pub enum Refusal {
    // The source or the target is no node of the network.
    NoSuchNode = 21,
    // The source is the target.
    SameNode = 22,
    // The amount is 0.
    NoAmount = 23,
    // The hold time is 0 or above 86,400.
    HoldTime = 24,
    // Every serial has been given.
    SerialsUsedUp = 26,
    // The search has too few words or entries to work with.
    ShortBuffer = 27,
    // No two paths without a common link have room for the amount.
    NoPair = 28,
}

impl Refusal {
    // The number by which a log names the refusal.
    pub fn number(self) -> u8
        ensures { result ≡ number_of self }
    {
        self as u8
    }
}

impl From<SearchFault> for Refusal {
    ghost from_gives = { λ f r. r ≡ from_search f };

    fn from(fault: SearchFault) -> Refusal {
        match fault {
            SearchFault::NoSuchNode => Refusal::NoSuchNode,
            SearchFault::SameNode => Refusal::SameNode,
            SearchFault::ShortBuffer => Refusal::ShortBuffer,
        }
    }
}
