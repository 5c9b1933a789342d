#![tactic(auto)]

ghost use Rattle.words_law.specs.Words.{Words};

/// In any run from where a session begins, the words taken from a channel are the first of those sent on it, each once and in order, and at most 16 are still to come.
pub fn words_stand() -> u8
    ensures { Words }
{
    0
}
