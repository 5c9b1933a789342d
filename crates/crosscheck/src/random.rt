ghost use Rattle.std.specs.Prelude.{◌≤◌, max};

/// A generator of pseudo-random numbers: the same seed gives the same numbers.
#[derive(Clone, Copy)]
pub struct Random {
    state: u64,
}

impl Random {
    /// A generator that starts from a seed.
    pub fn new(seed: u64) -> Random {
        Random {
            state: seed.wrapping_mul(0x9E37_79B9_7F4A_7C15).wrapping_add(1),
        }
    }

    /// The next number, of 32 bits.
    pub fn next(&mut self) -> u32 {
        self.state = self
            .state
            .wrapping_mul(6_364_136_223_846_793_005)
            .wrapping_add(1_442_695_040_888_963_407);
        (self.state >> 32) as u32
    }

    /// A number below `count`, or 0 where that is 0.
    pub fn below(&mut self, count: u32) -> u32
        ensures { result ≤ count }
    {
        self.next().checked_rem(count).unwrap_or(0)
    }

    /// A number from `least` to `most`, or `least` where that is above.
    pub fn between(&mut self, least: u32, most: u32) -> u32
        ensures { result ≤ max least most }
    {
        let span = most.saturating_sub(least);
        least + self.below(span.saturating_add(1)).min(span)
    }

    /// Whether a chance of one in so many comes true.
    pub fn one_in(&mut self, count: u32) -> bool {
        self.below(count) == 0
    }
}
