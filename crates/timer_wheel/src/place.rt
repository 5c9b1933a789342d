ghost use Rattle.std.specs.Prelude.{◌≡◌, ◌+◌, ◌*◌, ◌/◌, ◌%◌, ◌<◌, ◌≤◌, if◌then◌else◌, Some, None, nat_eq};
ghost use Rattle.timer_wheel.specs.Cascade.{Examples as CascadeExamples};
ghost use Rattle.timer_wheel.specs.Place.{digit, level, place, cascade_level, cascade_place, Highest, Examples, HighestExamples};

use crate::wheel::LAST_TICK;

const DIGIT_BITS: u32 = 6;

pub(crate) const SLOTS: u32 = 64;

pub(crate) const LEVELS: u32 = 4;

// The level of an entry with this deadline: the number of the topmost digit where deadline and now disagree, or 0.
#[tactic(auto, using(std::proofs::lemmas::Nat::le_or_r, crate::proofs::Levels::log_level, crate::proofs::Levels::level_highest))]
fn level(now: u32, deadline: u32) -> u32
    ensures value { result ≡ level now deadline }
    ensures highest { now ≤ LAST_TICK → deadline ≤ LAST_TICK → Highest result now deadline }
{
    (((now ^ deadline) | 1).ilog2() / DIGIT_BITS).min(LEVELS - 1)
}

// The digit of a tick on a level, which is its slot there.
#[tactic(auto, using(crate::proofs::Levels::six_bits))]
fn digit(level: u32, tick: u32) -> u32
    requires { level < 4 }
    ensures { result ≡ digit level tick }
{
    (tick >> (DIGIT_BITS * level)) % SLOTS
}

// The place of a tick's slot on a level: the slots are numbered through, level by level.
fn place_on(level: u32, tick: u32) -> usize
    requires { level < 4 }
    ensures { result ≡ 64 * level + digit level tick }
{
    (SLOTS * level + digit(level, tick)) as usize
}

/// The place of an entry with this deadline: the slot of the deadline's digit on the level of the topmost digit where deadline and now disagree.
#[tactic(auto, using(crate::proofs::Levels::highest_examples))]
pub fn place(now: u32, deadline: u32) -> usize
    ensures value { result ≡ place now deadline }
    ensures highest { now ≤ LAST_TICK → deadline ≤ LAST_TICK → Highest (result / 64) now deadline }
    ensures slot { result % 64 ≡ digit (result / 64) deadline }
    ensures examples { Examples }
    ensures highest_examples { HighestExamples }
{
    place_on(level(now, deadline), deadline)
}

// The highest level below which all digits of a tick are zero.
#[tactic(auto, using(crate::proofs::Levels::trailing_level))]
fn cascade_level(tick: u32) -> u32
    ensures { result ≡ cascade_level tick }
{
    (tick.trailing_zeros() / DIGIT_BITS).min(LEVELS - 1)
}

/// The place whose slot is emptied as the tick becomes this one: that of its own digit, on the highest level below which all its digits are zero.
#[tactic(auto, using(crate::proofs::Cascading::examples))]
pub fn cascade_place(tick: u32) -> Option<usize>
    ensures value { result ≡ (if nat_eq (tick % 64) 0 then Some (cascade_place tick) else None) }
    ensures examples { CascadeExamples }
{
    let level = cascade_level(tick);
    if level == 0 {
        return None;
    }
    Some(place_on(level, tick))
}
