ghost use Rattle.std.specs.Prelude.{◌≡◌};
ghost use Rattle.estimator.specs.Estimate.{cut, no_sample, ranged, sample_rule, after_rule, exact_after};
ghost use Rattle.estimator.specs.Laws.{Bounded, Law, Differences, Examples};

use crate::round_trip::{LEAST_TIMEOUT, MOST_TIMEOUT, RoundTrip};

const MOST_SAMPLE: u32 = 60_000;

/// The round-trip time of a connection and its retransmission timeout, estimated from samples.
#[derive(Clone, Copy, PartialEq, Eq, Debug)]
pub struct Estimator {
    /// What the samples say of the round-trip time, or `None` before any sample.
    pub round_trip: Option<RoundTrip>,
    /// The retransmission timeout in ticks, to be read by `timeout`, which cuts it to its range.
    pub timeout: u32,
}

impl Estimator {
    /// The estimator before any sample.
    pub const fn new() -> Estimator
        ensures { result ≡ no_sample }
    {
        Estimator {
            round_trip: None,
            timeout: LEAST_TIMEOUT,
        }
    }

    /// The retransmission timeout in ticks, cut to its range from 1,000 to 60,000.
    pub fn timeout(&self) -> u32
        ensures { result ≡ cut self.now.timeout }
    {
        self.timeout.clamp(LEAST_TIMEOUT, MOST_TIMEOUT)
    }

    /// The same estimator with its timeout cut to its range.
    pub fn in_range(self) -> Estimator
        ensures { result ≡ ranged self }
    {
        Estimator {
            timeout: self.timeout(),
            ..self
        }
    }

    /// Takes one sample of the round-trip time in ticks; one above 60,000 counts as 60,000.
    pub fn sample(&mut self, ticks: u32)
        ensures { self.new ≡ sample_rule self.old ticks }
    {
        let sample = ticks.min(MOST_SAMPLE);
        let round_trip = match self.round_trip {
            None => RoundTrip::first(sample),
            Some(round_trip) => round_trip.next(sample),
        };
        *self = Estimator {
            round_trip: Some(round_trip),
            timeout: round_trip.timeout(),
        };
    }

    /// The estimator after these samples, from no sample on.
    pub fn after(samples: &[u32]) -> Estimator
        ensures value { result ≡ after_rule samples.now }
        ensures bounded { Bounded result }
        ensures exact { result ≡ exact_after samples.now }
        ensures law { Law }
        ensures differences { Differences }
        ensures examples { Examples }
    {
        let mut estimator = Estimator::new();
        for ticks in samples {
            estimator.sample(*ticks);
        }
        estimator
    }
}
