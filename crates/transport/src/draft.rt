ghost use Rattle.std.specs.Prelude.{◌≡◌, ◌≤◌, ◌||◌, length, if◌then◌else◌, Some, None, OnOk};
ghost use Rattle.protocol.specs.Begin.{bad_setting, apart, used, begin_check};
ghost use Rattle.transport.specs.Begins.{Adds, unless_refused, Begins};

use crate::rig::{CHANNELS, Draft, Refused, Running};
use channel::record::{Attempt, Channel};
use engine::rig::Rig;
use link::packet::Packet;
use timer::store::Store;
use trace::fault::RigFault;

const MOST_FATES: usize = 4_096;

const MOST_DELAY: u32 = 32_767;

const MOST_INTERVAL: u32 = 60_000;

const LEAST_SPAN: u32 = 60_000;

// Whether two stores differ in their tick or their last tick.
fn apart<P, Q, S: Store<P>, T: Store<Q>>(first: &S, second: &T) -> bool
    ensures { result ≡ apart (S.meaning first.now) (T.meaning second.now) }
{
    (first.now(), first.last()) != (second.now(), second.last())
}

// Whether a store has pending entries or gave tickets.
fn used<P, S: Store<P>>(store: &S) -> bool
    ensures { result ≡ used (S.meaning store.now) }
{
    store.pending() != 0 || store.given() != 0
}

// The stores that a draft is to begin with.
#[derive(Drop)]
struct Stores<'a, W, R, K> {
    wire: &'a W,
    resend: &'a R,
    keepalive: &'a K,
}

impl<W: Store<Packet>, R: Store<Attempt>, K: Store<u8>> Stores<'_, W, R, K> {
    // Whether a store differs from the wire in its tick or its last tick.
    fn apart(&self) -> bool
        ensures { result ≡ (apart (W.meaning self.now.wire.now) (R.meaning self.now.resend.now) || apart (W.meaning self.now.wire.now) (K.meaning self.now.keepalive.now)) }
    {
        apart(self.wire, self.resend) || apart(self.wire, self.keepalive)
    }

    // Whether one of the stores has pending entries or gave tickets.
    fn used(&self) -> bool
        ensures { result ≡ (used (W.meaning self.now.wire.now) || (used (R.meaning self.now.resend.now) || used (K.meaning self.now.keepalive.now))) }
    {
        used(self.wire) || used(self.resend) || used(self.keepalive)
    }
}

impl Draft {
    /// A draft with a default delay and an interval of keepalives, both in ticks, and no fates.
    pub fn new(delay: u32, interval: u32) -> Draft
        ensures { result ≡ record { delay = delay; interval = interval; fates = 0 } }
    {
        Draft {
            delay,
            interval,
            fates: 0,
        }
    }

    /// Adds the fate of the next packet to the caller's list.
    pub fn add_fate(&mut self, fates: &mut [u16], fate: u16) -> Result<(), RigFault>
        ensures { Adds self.old fates.old fate result self.new fates.new }
    {
        if self.fates >= MOST_FATES || self.fates >= fates.len() {
            return Err(RigFault::Fates);
        }
        fates[self.fates] = fate;
        self.fates += 1;
        Ok(())
    }

    // The default delay, if both settings are in their ranges.
    fn setting(&self) -> Option<u16>
        ensures { result ≡ (if bad_setting self.now.delay self.now.interval then None else Some self.now.delay) }
    {
        let in_range = (1..=MOST_DELAY).contains(&self.delay)
            && (1..=MOST_INTERVAL).contains(&self.interval);
        in_range.then(|| self.delay as u16)
    }

    // The default delay, or why the draft cannot begin.
    #[tactic(auto, unfolding(protocol::specs::Begin::begin_check))]
    fn check<W: Store<Packet>, R: Store<Attempt>, K: Store<u8>>(
        &self,
        stores: &Stores<'_, W, R, K>,
        records: usize,
    ) -> Result<u16, RigFault>
        ensures value { result ≡ unless_refused (begin_check self.now.delay self.now.interval (W.meaning stores.now.wire.now) (R.meaning stores.now.resend.now) (K.meaning stores.now.keepalive.now) records) self.now.delay }
        ensures room { OnOk result (64 ≤ records) }
    {
        let delay = self.setting().ok_or(RigFault::Setting)?;
        if stores.apart() {
            return Err(RigFault::Clocks);
        }
        if stores.used() {
            return Err(RigFault::Used);
        }
        if stores.wire.last().saturating_sub(stores.wire.now()) < LEAST_SPAN {
            return Err(RigFault::Span);
        }
        if records < CHANNELS {
            return Err(RigFault::Table);
        }
        Ok(delay)
    }

    /// Begins a session: the draft becomes a running rig and the first 64 records are marked unused, or the draft comes back.
    pub fn begin<W: Store<Packet>, R: Store<Attempt>, K: Store<u8>>(
        self,
        wire: &W,
        resend: &R,
        keepalive: &K,
        table: &mut [Channel],
    ) -> Result<Running, Refused>
        ensures { Begins (begin_check self.delay self.interval (W.meaning wire.now) (R.meaning resend.now) (K.meaning keepalive.now) (length table.old)) self table.old result table.new }
    {
        let stores = Stores {
            wire,
            resend,
            keepalive,
        };
        match self.check(&stores, table.len()) {
            Err(fault) => Err(Refused { draft: self, fault }),
            Ok(delay) => {
                table[0..CHANNELS].fill(Channel::unused());
                let Draft {
                    interval,
                    fates,
                    ..
                } = self;
                let rig = Rig {
                    delay,
                    interval,
                    fates,
                    packets: 0,
                };
                Ok(Running { rig })
            }
        }
    }
}
