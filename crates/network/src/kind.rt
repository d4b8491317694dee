ghost use Rattle.std.specs.Prelude.{◌≡◌, ◌==◌, ◌*◌, ◌^◌};
ghost use Rattle.network.specs.Format.{kind};
ghost use Rattle.network.specs.Kinds.{number_of_kind};

// What a word of a network says, by its bits 31–28.
#[derive(Clone, Copy)]
pub(crate) enum Kind {
    // How many nodes and links there are.
    Header = 1,
    // Where a link leads, and what it costs.
    Ends = 2,
    // What a link can carry.
    Limits = 3,
}

impl Kind {
    // The kind at its place in a word.
    pub(crate) fn high_bits(self) -> u32
        ensures { result ≡ number_of_kind self * 2 ^ 28 }
    {
        (self as u32) << 28
    }

    // Whether a word is of this kind.
    pub(crate) fn is_of(self, word: u32) -> bool
        ensures { result ≡ (kind word == number_of_kind self) }
    {
        word >> 28 == self as u32
    }
}
