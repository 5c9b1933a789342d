// Sessions on the plain rig.
use crate::log::Log;
use crate::notes::log_of;
use crate::scenario::Scenario;
use crate::theirs::{operate, rig};
use protocol::operation::Operation;
use reference::rig::Rig;
use reference::store::PlainStore;
use reference::text::{append_end, append_line};
use session::answer::{Answer, Note};
use session::command::{Call, Command, Question, StoreQuestion};
use std::alloc::{AllocError, Global};
use trace::queue::Queue;

fn ask_store<P: Copy>(store: &PlainStore<P>, question: StoreQuestion) -> Answer {
    match question {
        StoreQuestion::Now => Answer::Number(store.now() as usize),
        StoreQuestion::Last => Answer::Number(store.last() as usize),
        StoreQuestion::Capacity => Answer::Number(store.capacity()),
        StoreQuestion::Given => Answer::Number(store.given() as usize),
        StoreQuestion::Pending => Answer::Number(store.pending()),
        StoreQuestion::Due => Answer::Due(store.due()),
        StoreQuestion::Limit(owner) => Answer::Number(store.limit(owner)),
        StoreQuestion::Count(owner) => Answer::Number(store.count(owner)),
        StoreQuestion::Check(deadline, owner) => Answer::Check(store.check(deadline, owner)),
    }
}

fn ask(rig: &Rig, question: Question) -> Answer {
    match question {
        Question::Status(channel) => Answer::Number(usize::from(rig.status(channel))),
        Question::Timeout(channel) => Answer::Number(rig.timeout(channel) as usize),
        Question::Packets => Answer::Number(rig.packets() as usize),
        Question::Store(Queue::Wire, question) => ask_store(&rig.wire, question),
        Question::Store(Queue::Resend, question) => ask_store(&rig.resend, question),
        Question::Store(Queue::Keepalive, question) => ask_store(&rig.keepalive, question),
    }
}

// A session that is being played on the plain rig.
#[derive(Drop)]
struct Playing {
    rig: Rig,
    operations: Vec<(Operation, u32)>,
    notes: Vec<Note>,
    text: String,
}

impl Playing {
    // Makes a call of the rig and notes it, and answers whether it was accepted.
    fn operate(&mut self, operation: Operation) -> Result<bool, AllocError> {
        let answer = operate(&mut self.rig, operation)?;
        let tick = self.rig.wire.now();
        self.operations.push((operation, tick))?;
        self.notes.push(Note {
            tick,
            answer: Answer::Done(answer),
        })?;
        append_line(&mut self.text, tick, &answer)?;
        Ok(answer.is_ok())
    }

    // Asks a question and notes the answer; it has no line.
    fn ask(&mut self, question: Question) -> Result<(), AllocError> {
        self.notes.push(Note {
            tick: self.rig.wire.now(),
            answer: ask(&self.rig, question),
        })?;
        Ok(())
    }

    // Whether the tick is not reached, or something is due in some store.
    fn goes_on(&self, tick: u32) -> bool {
        let rig = &self.rig;
        rig.wire.now() < tick || rig.wire.due() || rig.resend.due() || rig.keepalive.due()
    }

    // Makes steps until a tick, up to one that is refused.
    fn step_until(&mut self, tick: u32) -> Result<(), AllocError> {
        for _ in 0..u32::MAX {
            if !self.goes_on(tick) || !self.operate(Operation::Step)? {
                break;
            }
        }
        Ok(())
    }

    // Carries out commands one after the other.
    fn play(&mut self, commands: &[Command]) -> Result<(), AllocError> {
        for command in commands.iter() {
            match *command {
                Command::Call(Call::Operate(operation)) => {
                    self.operate(operation)?;
                }
                Command::Call(Call::Ask(question)) => self.ask(question)?,
                Command::StepUntil(tick) => self.step_until(tick)?,
            }
        }
        Ok(())
    }
}

/// What a session came to on the plain rig.
#[derive(Drop)]
pub struct Played {
    /// Its notes, its end and its text, or the refusal to begin.
    pub log: Log,
    /// The calls of the rig that were made, each with the tick after it.
    pub operations: Vec<(Operation, u32)>,
}

/// Plays commands on the plain rig of a scenario.
pub fn play(
    heap: Global,
    scenario: &Scenario<'_>,
    commands: &[Command],
) -> Result<Played, AllocError> {
    let mut rig = rig(heap, scenario)?;
    for fate in scenario.fates.iter() {
        let _ = rig.add_fate(*fate);
    }
    if let Err(fault) = rig.begin() {
        let mut log = Log::new(heap);
        log.number(u32::from(fault.number()))?;
        return Ok(Played {
            log,
            operations: Vec::new(heap),
        });
    }
    let mut playing = Playing {
        rig,
        operations: Vec::new(heap),
        notes: Vec::new(heap),
        text: String::new(heap),
    };
    playing.play(commands)?;
    let Playing {
        rig,
        operations,
        notes,
        mut text,
    } = playing;
    let (tick, packets) = rig.finish();
    append_end(&mut text, tick, packets)?;
    let log = log_of(heap, &notes, tick, packets, text.as_bytes())?;
    Ok(Played { log, operations })
}
