#![tactic(auto)]

ghost use Rattle.std.specs.Prelude.{◌≡◌, ◌+◌, ◌↔◌, min};

/// How many cases were compared, and how many of them differ.
#[derive(Clone, Copy)]
pub struct Tally {
    /// The cases that were compared.
    pub cases: u32,
    /// Those of them in which two lists differ.
    pub differing: u32,
}

impl Tally {
    /// Nothing compared yet.
    pub fn new() -> Tally
        ensures { result ≡ record { cases = 0; differing = 0 } }
    {
        Tally {
            cases: 0,
            differing: 0,
        }
    }

    /// Compares what two implementations noted in one case.
    ///
    /// So the number of those that differ is 0 exactly when the two lists of every case are equal.
    pub fn compare(&mut self, ours: &[u32], theirs: &[u32])
        ensures cases { self.new.cases ≡ min (self.old.cases + 1) 4294967295 }
        ensures differing { (self.new.differing ≡ 0) ↔ ((self.old.differing ≡ 0) × (ours.now ≡ theirs.now)) }
        ensures same { ours.now ≡ theirs.now → self.new.differing ≡ self.old.differing }
        ensures other { (ours.now ≡ theirs.now → ⊥) → self.new.differing ≡ min (self.old.differing + 1) 4294967295 }
    {
        self.cases = self.cases.saturating_add(1);
        if ours != theirs {
            self.differing = self.differing.saturating_add(1);
        }
    }
}
