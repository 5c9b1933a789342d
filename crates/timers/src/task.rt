use timer::call::Call;

/// How many calls may follow the task until nothing is pending.
pub const BUDGET: u32 = 5_000;

/// How many entries of each owner the quota allows: three of owner 9, and more than enough of the others.
pub fn numbers() -> [u16; 64] {
    let mut numbers = [100; 64];
    numbers[9] = 3;
    numbers
}

/// The calls of the task over stores of eight rows: two owners start timers, some for the same tick, and meet refusals on the way.
pub fn calls() -> [Call<u32>; 19] {
    [
        Call::Start(2, 5, 100),
        Call::Start(10, 9, 200),
        Call::Start(4, 5, 101),
        Call::Start(12, 9, 201),
        Call::Start(14, 5, 102),
        Call::Start(6, 9, 202),
        Call::Start(8, 5, 103),
        // in the heap, the entry that fills the gap has to rise; and a stopped timer cannot be stopped again
        Call::Stop(4),
        Call::Stop(4),
        // in the wheel this one comes down by two levels, at ticks 4,096 and 4,160
        Call::Start(4_160, 9, 203),
        Call::Start(2, 9, 204),
        // all rows are taken; then a deadline that is now, one past the last tick, and an owner that is not known
        Call::Start(4, 5, 104),
        Call::Start(0, 5, 105),
        Call::Start(16_777_216, 5, 105),
        Call::Start(4, 64, 105),
        Call::Advance,
        Call::Advance,
        // the tick cannot go on while a timer is due; one of those that are is stopped
        Call::Advance,
        Call::Stop(9),
    ]
}
