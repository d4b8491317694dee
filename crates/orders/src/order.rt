// Orders from words.
ghost use Rattle.std.specs.Prelude.{◌≡◌, ◌≤◌, length, if◌then◌else◌};

// A reserve: two nodes, an amount and how long it may stay pending.
#[derive(Clone, Copy, Debug, PartialEq, Eq)]
pub struct Reserve {
    pub source: u8,
    pub target: u8,
    pub amount: u16,
    pub hold: u32,
}

// What stands where an order should: a word of another kind, a reserve without its hold time, or part of a word.
#[derive(Clone, Copy, Debug, PartialEq, Eq)]
pub enum Unreadable {
    NoOrder = 9,
}

impl Unreadable {
    // The number by which a log names it.
    pub fn number(self) -> u8
        ensures { result ≡ 9 }
    {
        self as u8
    }
}

// What a word of an order says, by its bits 31–28. It is no kind of a network word: the two formats share no kind.
enum Kind {
    // The nodes and the amount of a reserve.
    Reserve = 5,
    // How long it may stay pending.
    Hold = 6,
}

impl Reserve {
    ghost use Rattle.orders.specs.Orders.{is_reserve, reserve_of};

    // The reserve that two words are, if they are of its kinds.
    fn from_words(first: u32, second: u32) -> Option<Reserve>
        ensures { result ≡ (if is_reserve first second then Some (reserve_of first second) else None) }
    {
        if first >> 28 != Kind::Reserve as u32 || second >> 28 != Kind::Hold as u32 {
            return None;
        }
        Some(Reserve {
            source: (first >> 22 & 0x3f) as u8,
            target: (first >> 16 & 0x3f) as u8,
            amount: (first & 0xffff) as u16,
            hold: second & 0x0fff_ffff,
        })
    }
}

// Order words, and the place of the next one. `whole` says that no bytes are left over behind the last word; it stays a flag,
// since callers give it. It is no iterator: a word that cannot be read stays the next one, and a caller sees where the reader
// stopped. Network's `Reader` is another: it ends at its first fault, and names the place.
#[derive(Drop)]
pub struct OrderReader<'a> {
    words: &'a [u32],
    place: usize,
    whole: bool,
    ghost within: { place ≤ length words.now },
}

impl<'a> OrderReader<'a> {
    ghost use Rattle.orders.specs.Orders.{after_next, left, next_of};

    pub fn new(words: &'a [u32], whole: bool) -> OrderReader<'a>
        ensures words { left result ≡ words.now }
        ensures whole { result.whole ≡ whole }
    {
        OrderReader {
            words,
            place: 0,
            whole,
        }
    }

    // The next order; none where all words are read. An order that cannot be read is left where it is.
    pub fn next_order(&mut self) -> Result<Option<Reserve>, Unreadable>
        ensures answer { result ≡ next_of (left self.old) self.old.whole }
        ensures rest { left self.new ≡ after_next (left self.old) }
        ensures whole { self.new.whole ≡ self.old.whole }
    {
        match &self.words[self.place..] {
            [] if self.whole => Ok(None),
            [first, second, ..] => {
                let order = Reserve::from_words(*first, *second).ok_or(Unreadable::NoOrder)?;
                self.place += 2;
                Ok(Some(order))
            }
            _ => Err(Unreadable::NoOrder),
        }
    }
}
