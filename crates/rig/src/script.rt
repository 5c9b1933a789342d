ghost use Rattle.std.specs.Prelude.{◌≡◌, IfOk};
ghost use Rattle.rig.specs.Draft.{with_fates};

use protocol::operation::Operation;
use session::command::{Call, Command};
use trace::fault::RigFault;
use transport::rig::Draft;

/// How many entries of an owner the wire takes at once.
pub const WIRE_QUOTA: u16 = 32;

const DELAY: u32 = 10;

const INTERVAL: u32 = 5_000;

fn call(operation: Operation) -> Command {
    Command::Call(Call::Operate(operation))
}

/// The draft of the session: the first packet takes ten ticks, and the second is lost.
pub fn draft(fates: &mut [u16]) -> Result<Draft, RigFault>
    ensures { IfOk result (λ d. (d ≡ record { delay = 10; interval = 5000; fates = 2 }) × (fates.new ≡ with_fates fates.old)) }
{
    let mut draft = Draft::new(DELAY, INTERVAL);
    draft.add_fate(fates, 10)?;
    draft.add_fate(fates, 0)?;
    Ok(draft)
}

/// The commands of the session.
pub fn commands() -> [Command; 9] {
    [
        call(Operation::Open(3)),
        call(Operation::Send(3, 700)),
        call(Operation::Send(3, 701)),
        Command::StepUntil(30),
        call(Operation::Take(3)),
        call(Operation::Take(3)),
        Command::StepUntil(1_030),
        call(Operation::Take(3)),
        call(Operation::Send(9, 5)),
    ]
}
