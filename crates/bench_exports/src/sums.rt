/// A tick, or a ticket, and a payload as one number.
pub fn mix(tick: u32, payload: u32) -> u64 {
    (u64::from(tick).wrapping_mul(0x9E37_79B9_7F4A_7C15) ^ u64::from(payload)).wrapping_mul(
        0xD6E8_FEB8_6659_FD93,
    )
}

/// A sum that tells in which order numbers were added.
#[derive(Clone, Copy)]
pub struct Sum {
    /// The sum so far.
    pub total: u64,
}

impl Sum {
    /// The sum of nothing.
    pub fn new() -> Sum {
        Sum { total: 0 }
    }

    /// Adds a number.
    pub fn add(&mut self, number: u64) {
        self.total = self.total.wrapping_mul(31).wrapping_add(number);
    }
}
