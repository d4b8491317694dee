// The words in which a network lies.
ghost use Rattle.std.specs.Prelude.{◌≡◌, ◌-◌, ◌<◌, ◌≤◌, Some, MatchResult};
ghost use Rattle.network.specs.Format.{bits};
ghost use Rattle.network.specs.Reading.{GivesEnds, GivesLimits};
ghost use Rattle.network.specs.Refusals.{ends_fault, limits_fault};

use crate::Fault;
use crate::kind::Kind;

// Bits `high` down to `low` of a word.
pub(crate) fn field(word: u32, high: u32, low: u32) -> u32
    requires { (low ≤ high) × ((high < 32) × (high - low < 31)) }
    ensures { result ≡ bits word high low }
{
    (word >> low) % (1 << (high - low + 1))
}

// A word and its place. The fields that it gives are a tuple: the one caller makes a link of them.
#[derive(Clone, Copy)]
pub(crate) struct Word {
    pub(crate) place: usize,
    pub(crate) bits: u32,
}

impl Word {
    // The tail, the head and the cost of a link: bits 27–22, 21–16 and 15–0 of a word of its ends.
    pub(crate) fn ends(self, nodes: u8) -> Result<(u8, u8, u16), Fault>
        ensures { MatchResult result (GivesEnds nodes self.place self.bits) (λ f. ends_fault nodes self.place self.bits ≡ Some f) }
    {
        let Word { place, bits } = self;
        if !Kind::Ends.is_of(bits) {
            return Err(Fault::Kind { place });
        }
        let tail = field(bits, 27, 22) as u8;
        let head = field(bits, 21, 16) as u8;
        if tail >= nodes || head >= nodes || tail == head {
            return Err(Fault::Ends { place });
        }
        let cost = field(bits, 15, 0) as u16;
        if cost == 0 {
            return Err(Fault::Cost { place });
        }
        Ok((tail, head, cost))
    }

    // The capacity and the ceiling of a link: bits 27–12 and 11–5 of a word of its limits, whose bits 4–0 are 0.
    pub(crate) fn limits(self) -> Result<(u16, u8), Fault>
        ensures { MatchResult result (GivesLimits self.place self.bits) (λ f. limits_fault self.place self.bits ≡ Some f) }
    {
        let Word { place, bits } = self;
        if !Kind::Limits.is_of(bits) {
            return Err(Fault::Kind { place });
        }
        let capacity = field(bits, 27, 12) as u16;
        let ceiling = field(bits, 11, 5) as u8;
        if capacity == 0 || ceiling > 64 || field(bits, 4, 0) != 0 {
            return Err(Fault::Limits { place });
        }
        Ok((capacity, ceiling))
    }
}
