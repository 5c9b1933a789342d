ghost use Rattle.std.specs.Prelude.{◌≡◌};
ghost use Rattle.session.specs.Law.{Laws};

/// The laws hold of every session; the answer is how many there are.
pub fn laws_stand() -> u8
    ensures value { result ≡ 3 }
    ensures laws { Laws }
{
    3
}
