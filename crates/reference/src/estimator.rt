// The lowest timeout.
const LEAST: u32 = 1_000;

// The highest timeout, and the most that a sample counts and that a packet waits.
const MOST: u32 = 60_000;

/// The two smoothed numbers that samples leave.
#[derive(Clone, Copy, PartialEq, Eq, Debug)]
pub struct Smoothed {
    /// S, eight times the smoothed round-trip time.
    pub round_trip: u32,
    /// V, four times its variation.
    pub variation: u32,
}

/// What is known of the round-trip time of a channel.
#[derive(Clone, Copy, PartialEq, Eq, Debug)]
pub struct Estimator {
    /// S and V, once there was a sample.
    pub smoothed: Option<Smoothed>,
    /// The retransmission timeout as it is stored, which can be out of its range.
    pub timeout: u32,
}

impl Estimator {
    /// An estimator before any sample.
    pub fn without_sample() -> Estimator {
        Estimator {
            smoothed: None,
            timeout: LEAST,
        }
    }

    /// The timeout, cut to its range.
    pub fn timeout(self) -> u32 {
        self.timeout.clamp(LEAST, MOST)
    }

    /// The estimator after a sample.
    pub fn after(self, sample: u32) -> Estimator {
        let sample = sample.min(MOST);
        let smoothed = match self.smoothed {
            None => Smoothed {
                round_trip: sample.saturating_mul(8),
                variation: sample.saturating_mul(2),
            },
            Some(old) => later(old, sample),
        };
        let more = smoothed.variation.max(1);
        let timeout = (smoothed.round_trip / 8).saturating_add(more);
        Estimator {
            smoothed: Some(smoothed),
            timeout: timeout.clamp(LEAST, MOST),
        }
    }

    /// How long a packet that was resent so many times waits for its acknowledgement.
    pub fn wait(self, resends: u8) -> u32 {
        let mut wait = self.timeout();
        for _ in 0..resends.min(6) {
            wait = wait.saturating_mul(2);
        }
        wait.min(MOST)
    }
}

// S and V after a sample that is not the first.
fn later(old: Smoothed, sample: u32) -> Smoothed {
    let whole = old.round_trip / 8;
    let quarter = old.variation / 4;
    Smoothed {
        round_trip: old.round_trip.saturating_sub(whole).saturating_add(sample),
        variation: old
            .variation
            .saturating_sub(quarter)
            .saturating_add(whole.abs_diff(sample)),
    }
}
