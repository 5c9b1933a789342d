// Commands of sessions, with questions between them.
use crate::scenario::{Act, Scenario};
use protocol::operation::Operation;
use session::command::{Call, Command, Question, StoreQuestion};
use std::alloc::{AllocError, Global};
use trace::queue::Queue;

// A run of fewer steps is made step by step, and any other until a tick.
const LONG: u32 = 30;

/// The command that makes one call of the rig.
pub fn call(operation: Operation) -> Command {
    Command::Call(Call::Operate(operation))
}

fn question(question: Question) -> Command {
    Command::Call(Call::Ask(question))
}

/// Makes one call of the rig, and then asks all that can be asked of it and its stores in about this tick.
pub fn call_and_ask(
    commands: &mut Vec<Command>,
    operation: Operation,
    tick: u32,
) -> Result<(), AllocError> {
    commands.push(call(operation))?;
    ask(commands, Act::Operate(operation), tick)
}

// Asks all that can be asked after an act.
fn ask(commands: &mut Vec<Command>, act: Act, tick: u32) -> Result<(), AllocError> {
    let asked = act.asked(tick);
    for queue in [Queue::Wire, Queue::Resend, Queue::Keepalive] {
        for of_store in [
            StoreQuestion::Now,
            StoreQuestion::Last,
            StoreQuestion::Capacity,
            StoreQuestion::Given,
            StoreQuestion::Pending,
            StoreQuestion::Due,
            StoreQuestion::Limit(asked.owner),
            StoreQuestion::Count(asked.owner),
            StoreQuestion::Check(asked.deadline, asked.owner),
        ] {
            commands.push(question(Question::Store(queue, of_store)))?;
        }
    }
    let channel = act.channel();
    commands.push(question(Question::Status(channel)))?;
    commands.push(question(Question::Timeout(channel)))?;
    commands.push(question(Question::Packets))?;
    Ok(())
}

/// The acts of a scenario as commands, but for those that are none.
///
/// A short run of steps becomes single steps, and a long one goes on until the tick that so many advances from the first tick lead to.
pub fn commands_of(heap: Global, scenario: &Scenario<'_>) -> Result<Vec<Command>, AllocError> {
    let mut commands = Vec::new(heap);
    let mut tick = scenario.setups.wire.first;
    for act in scenario.acts.iter() {
        match *act {
            Act::Operate(operation) => call_and_ask(&mut commands, operation, tick)?,
            Act::Steps(count) => {
                tick = tick.saturating_add(count);
                if count < LONG {
                    for _ in 0..count {
                        call_and_ask(&mut commands, Operation::Step, tick)?;
                    }
                } else {
                    commands.push(Command::StepUntil(tick))?;
                    ask(&mut commands, *act, tick)?;
                }
            }
            Act::Spoil(..) | Act::Table(_) | Act::Fates(_) => {}
        }
    }
    Ok(commands)
}
