ghost use Rattle.std.specs.Prelude.{◌≡◌};
ghost use Rattle.trace.specs.Text.{call_line};
ghost use Rattle.trace.specs.declared.line.Report.TheVariants.{End};

use crate::action::Action;
use crate::fault::RigFault;

/// What a line of the trace tells of.
#[derive(Clone, Copy, PartialEq, Eq)]
pub enum Report {
    /// A call that was accepted.
    Action(Action),
    /// A call that was refused.
    Refusal(RigFault),
    /// The end of the session.
    End {
        /// How many packets were sent.
        packets: u32,
    },
}

/// One line of the trace.
#[derive(Clone, Copy, PartialEq, Eq)]
pub struct Line {
    /// The tick after the call.
    pub tick: u32,
    /// What happened.
    pub report: Report,
}

impl Line {
    /// The line of a call that was answered in this tick.
    pub fn of_call(tick: u32, answer: Result<Action, RigFault>) -> Line
        ensures { result ≡ call_line tick answer }
    {
        let report = answer.map_or_else(Report::Refusal, Report::Action);
        Line { tick, report }
    }

    /// The last line of a session.
    pub fn of_end(tick: u32, packets: u32) -> Line
        ensures { result ≡ record { tick = tick; report = End packets } }
    {
        Line {
            tick,
            report: Report::End { packets },
        }
    }
}
