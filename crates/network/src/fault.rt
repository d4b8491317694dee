// Why no network is read, written or made.
ghost use Rattle.std.specs.Prelude.{◌≡◌};
ghost use Rattle.network.specs.declared.fault.Fault.TheVariants.{NoMemory};
ghost use Rattle.network.specs.declared.fault.LinksFault.TheVariants as links_fault;
ghost use Rattle.network.specs.Faults.{number_of, place_of};

use std::alloc::{AllocError, AllocFailed};

// Why words are not read as a network, or a network is not written.
#[derive(Clone, Copy, Debug, PartialEq, Eq)]
pub enum Fault {
    // There is no word.
    NoWord,
    // The first word is not of kind 1, or breaks a limit.
    Header,
    // There are not as many words as the header says.
    Length { words: usize },
    // The word is of another kind.
    Kind { place: usize },
    // There is no such node, or the tail is the head.
    Ends { place: usize },
    // The cost is 0.
    Cost { place: usize },
    // The capacity is 0, the ceiling is above 64, or a bit that must be 0 is not.
    Limits { place: usize },
    // The words are a network's, and there is no memory to hold it.
    NoMemory,
}

impl Fault {
    // The number of the fault, by which a log names it. A match, and no discriminants: want of memory has no number.
    pub fn number(self) -> Option<u8>
        ensures { result ≡ number_of self }
    {
        match self {
            Fault::NoWord => Some(1),
            Fault::Header => Some(2),
            Fault::Length { .. } => Some(3),
            Fault::Kind { .. } => Some(4),
            Fault::Ends { .. } => Some(5),
            Fault::Cost { .. } => Some(6),
            Fault::Limits { .. } => Some(7),
            Fault::NoMemory => None,
        }
    }

    // The place of the word at fault, or the number of words where that is wrong.
    pub fn place(self) -> Option<usize>
        ensures { result ≡ place_of self }
    {
        match self {
            Fault::NoWord | Fault::Header => Some(0),
            Fault::Length { words } => Some(words),
            Fault::Kind { place }
            | Fault::Ends { place }
            | Fault::Cost { place }
            | Fault::Limits { place } => Some(place),
            Fault::NoMemory => None,
        }
    }
}

impl<T: Drop> From<AllocFailed<T>> for Fault {
    ghost from_gives = { λ _ r. r ≡ NoMemory };

    fn from(_: AllocFailed<T>) -> Fault {
        Fault::NoMemory
    }
}

impl From<AllocError> for Fault {
    ghost from_gives = { λ _ r. r ≡ NoMemory };

    fn from(_: AllocError) -> Fault {
        Fault::NoMemory
    }
}

// Why links make no network. It is no `GraphFault`: a network's limits are others than a graph's.
#[derive(Clone, Copy, Debug, PartialEq, Eq)]
pub enum LinksFault {
    // They, or the number of nodes, break a limit.
    OutOfLimits,
    // There is no memory to hold the network.
    NoMemory,
}

impl From<AllocError> for LinksFault {
    ghost from_gives = { λ _ r. r ≡ links_fault.NoMemory };

    fn from(_: AllocError) -> LinksFault {
        LinksFault::NoMemory
    }
}
