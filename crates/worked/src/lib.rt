#![tactic(auto)]

ghost use Rattle.std.specs.Prelude.{◌≡◌};
ghost use Rattle.worked.specs.Examples.{Examples};

/// The worked examples of the rules hold, all of them together; the answer is how many there are.
#[tactic(auto, unfolding(estimator::specs::Estimate::rounded))]
pub fn worked_examples() -> u8
    ensures value { result ≡ 9 }
    ensures examples { Examples }
{
    9
}
