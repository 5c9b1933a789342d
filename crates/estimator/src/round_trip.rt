ghost use Rattle.std.specs.Prelude.{◌≡◌, ◌<◌, ◌≤◌};
ghost use Rattle.estimator.specs.Estimate.{rounded, stopped, blended, first_trip, next_trip, timeout_of};

/// The least retransmission timeout in ticks, which is also the one before any sample.
pub const LEAST_TIMEOUT: u32 = 1_000;

/// The greatest retransmission timeout in ticks.
pub const MOST_TIMEOUT: u32 = 60_000;

// How many times the smoothed round-trip time and its variation are held.
const SMOOTHED_SCALE: u32 = 8;

const VARIATION_SCALE: u32 = 4;

/// What the samples so far say of the round-trip time.
#[derive(Clone, Copy, PartialEq, Eq, Debug)]
pub struct RoundTrip {
    /// Eight times the smoothed round-trip time in ticks.
    pub smoothed: u32,
    /// Four times the variation of the round-trip time in ticks.
    pub variation: u32,
}

// The only place where a quotient is rounded.
#[tactic(auto, unfolding(crate::specs::Estimate::rounded))]
fn rounded(dividend: u32, divisor: u32) -> u32
    requires { 0 < divisor }
    ensures { result ≡ rounded dividend divisor }
{
    dividend / divisor
}

// A scaled average with one part in `scale` given up for what is new.
fn blend(average: u32, scale: u32, new: u32) -> u32
    requires { 0 < scale }
    ensures { result ≡ blended stopped average scale new }
{
    average
        .saturating_sub(rounded(average, scale))
        .saturating_add(new)
}

impl RoundTrip {
    /// The round trip after a first sample of at most 60,000 ticks, with half of it as the variation.
    pub(crate) fn first(sample: u32) -> RoundTrip
        requires { sample ≤ 60000 }
        ensures { result ≡ first_trip sample }
    {
        RoundTrip {
            smoothed: SMOOTHED_SCALE * sample,
            variation: 2 * sample,
        }
    }

    /// The round trip after one more sample.
    pub(crate) fn next(self, sample: u32) -> RoundTrip
        ensures { result ≡ next_trip stopped self sample }
    {
        let smoothed = blend(self.smoothed, SMOOTHED_SCALE, sample);
        let error = rounded(self.smoothed, SMOOTHED_SCALE).abs_diff(sample);
        let variation = blend(self.variation, VARIATION_SCALE, error);
        RoundTrip {
            smoothed,
            variation,
        }
    }

    /// The retransmission timeout that follows from the round trip.
    pub(crate) fn timeout(self) -> u32
        ensures { result ≡ timeout_of stopped self }
    {
        rounded(self.smoothed, SMOOTHED_SCALE)
            .saturating_add(self.variation.max(1))
            .clamp(LEAST_TIMEOUT, MOST_TIMEOUT)
    }
}
