// Numbers that look random and are the same in each run.
ghost use Rattle.std.specs.Prelude.{◌≡◌, ◌+◌, ◌-◌, ◌%◌, ◌≤◌, max};
ghost use Rattle.trials.specs.Numbers.{following, upper};

// A linear congruential generator.
#[derive(Clone, Copy)]
pub(crate) struct Generator {
    state: u64,
}

impl Generator {
    pub(crate) fn new(seed: u64) -> Generator
        ensures { result.state ≡ seed }
    {
        Generator { state: seed }
    }

    // The next number.
    fn next(&mut self) -> u32
        ensures state { self.new.state ≡ following self.old.state }
        ensures value { result ≡ upper (following self.old.state) }
    {
        self.state = self
            .state
            .wrapping_mul(6_364_136_223_846_793_005)
            .wrapping_add(1_442_695_040_888_963_407);
        (self.state >> 32) as u32
    }

    // A number from `low` to `high`, or `low` where that is more than `high`.
    pub(crate) fn between(&mut self, low: u16, high: u16) -> u16
        ensures state { self.new.state ≡ following self.old.state }
        ensures value { result ≡ low + upper (following self.old.state) % (high - low + 1) }
        ensures least { low ≤ result }
        ensures most { result ≤ max low high }
    {
        let choices = u32::from(high.saturating_sub(low)) + 1;
        low + (self.next() % choices) as u16
    }
}
