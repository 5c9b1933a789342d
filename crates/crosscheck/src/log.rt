use std::alloc::{AllocError, Global};
use timer::fault::TimerFault;
use timer::store::{Store, check_number};

/// What is asked of a store after a call: about an owner, and about a start with a deadline.
#[derive(Clone, Copy)]
pub struct Asked {
    /// The owner.
    pub owner: u8,
    /// The deadline.
    pub deadline: u32,
}

/// Everything that was seen of a rig or a store, as numbers.
#[derive(Drop)]
pub struct Log {
    numbers: Vec<u32>,
}

impl Log {
    /// Nothing seen yet.
    pub fn new(heap: Global) -> Log {
        Log {
            numbers: Vec::new(heap),
        }
    }

    /// The numbers.
    pub fn numbers(&self) -> &[u32] {
        &self.numbers
    }

    /// Notes a number.
    pub fn number(&mut self, number: u32) -> Result<(), AllocError> {
        self.numbers.push(number)?;
        Ok(())
    }

    /// Notes two numbers.
    pub fn pair(&mut self, first: u32, second: u32) -> Result<(), AllocError> {
        self.number(first)?;
        self.number(second)
    }

    /// Notes a count.
    pub fn count(&mut self, count: usize) -> Result<(), AllocError> {
        self.number(u32::try_from(count).unwrap_or(u32::MAX))
    }

    /// Notes the bytes of a text, and how many there are.
    pub fn text(&mut self, bytes: &[u8]) -> Result<(), AllocError> {
        self.count(bytes.len())?;
        for byte in bytes {
            self.number(u32::from(*byte))?;
        }
        Ok(())
    }

    /// Notes a refusal of a store, or that there is none.
    pub fn fault(&mut self, fault: Option<TimerFault>) -> Result<(), AllocError> {
        self.number(fault.map_or(0, |fault| u32::from(fault.number())))
    }

    /// Notes all that can be asked of a store.
    pub fn store<P: Copy, S: Store<P>>(
        &mut self,
        store: &S,
        asked: Asked,
    ) -> Result<(), AllocError> {
        self.number(store.now())?;
        self.number(store.last())?;
        self.count(store.capacity())?;
        self.number(store.given())?;
        self.count(store.pending())?;
        self.number(u32::from(store.due()))?;
        self.count(store.limit(asked.owner))?;
        self.count(store.count(asked.owner))?;
        let number = check_number(store, asked.deadline, asked.owner);
        self.number(u32::from(number))
    }
}
