ghost use Rattle.std.specs.Prelude.{◌≡◌, take, drop};
ghost use Rattle.protocol.specs.Obeys.{Obeys};
ghost use Rattle.timer.specs.Frame.{Framed};
ghost use Rattle.protocol.specs.Rules.{open_rule, send_rule, receive_rule, close_rule, step_rule};
ghost use Rattle.transport.specs.Parts.{state_of};

use crate::rig::{CHANNELS, Running};
use calls::close::close;
use calls::open::open;
use calls::send::send;
use calls::take::take;
use channel::record::{Attempt, Channel};
use engine::lent::Lent;
use link::packet::Packet;
use stepping::step::step;
use timer::store::Store;
use trace::action::Action;
use trace::fault::RigFault;

// The calls of a running rig. Each is lent the three stores, the table and the list of fates; of the table it uses the first 64 records.

#[tactic(auto, using(crate::proofs::Tables::lent), unfolding(protocol::specs::Rules::open_rule, protocol::specs::Rules::send_rule, protocol::specs::Rules::receive_rule, protocol::specs::Rules::close_rule, protocol::specs::Rules::step_rule))]
impl Running {
    /// Opens a channel that was never opened, and starts its keepalive timer.
    pub fn open<W: Store<Packet>, R: Store<Attempt>, K: Store<u8>>(
        &self,
        wire: &W,
        resend: &R,
        keepalive: &mut K,
        table: &mut [Channel],
        fates: &[u16],
        channel: u32,
    ) -> Result<Action, RigFault>
        ensures obeys { Obeys (λ s. open_rule s channel) (state_of self.now fates.now (W.meaning wire.now) (R.meaning resend.now) (K.meaning keepalive.old) (take 64 table.old)) result (state_of self.now fates.now (W.meaning wire.now) (R.meaning resend.now) (K.meaning keepalive.new) (take 64 table.new)) }
        ensures later { drop 64 table.new ≡ drop 64 table.old }
        ensures keepalive { Framed K.Store keepalive.old keepalive.new }
    {
        if table.len() < CHANNELS {
            return Err(RigFault::Table);
        }
        open(
            &self.rig,
            wire,
            resend,
            keepalive,
            &mut table[0..CHANNELS],
            fates,
            channel,
        )
    }

    /// Sends a new word on an open channel, and starts its resend timer.
    pub fn send<W: Store<Packet>, R: Store<Attempt>, K: Store<u8>>(
        &mut self,
        wire: &mut W,
        resend: &mut R,
        keepalive: &K,
        table: &mut [Channel],
        fates: &[u16],
        channel: u32,
        word: u32,
    ) -> Result<Action, RigFault>
        ensures obeys { Obeys (λ s. send_rule s channel word) (state_of self.old fates.now (W.meaning wire.old) (R.meaning resend.old) (K.meaning keepalive.now) (take 64 table.old)) result (state_of self.new fates.now (W.meaning wire.new) (R.meaning resend.new) (K.meaning keepalive.now) (take 64 table.new)) }
        ensures later { drop 64 table.new ≡ drop 64 table.old }
        ensures wire { Framed W.Store wire.old wire.new }
        ensures resend { Framed R.Store resend.old resend.new }
    {
        if table.len() < CHANNELS {
            return Err(RigFault::Table);
        }
        send(
            &mut self.rig,
            wire,
            resend,
            keepalive,
            &mut table[0..CHANNELS],
            fates,
            channel,
            word,
        )
    }

    /// Takes the next word of an open channel, if it is there.
    pub fn take<W: Store<Packet>, R: Store<Attempt>, K: Store<u8>>(
        &self,
        wire: &W,
        resend: &R,
        keepalive: &K,
        table: &mut [Channel],
        fates: &[u16],
        channel: u32,
    ) -> Result<Action, RigFault>
        ensures obeys { Obeys (λ s. receive_rule s channel) (state_of self.now fates.now (W.meaning wire.now) (R.meaning resend.now) (K.meaning keepalive.now) (take 64 table.old)) result (state_of self.now fates.now (W.meaning wire.now) (R.meaning resend.now) (K.meaning keepalive.now) (take 64 table.new)) }
        ensures later { drop 64 table.new ≡ drop 64 table.old }
    {
        if table.len() < CHANNELS {
            return Err(RigFault::Table);
        }
        take(
            &self.rig,
            wire,
            resend,
            keepalive,
            &mut table[0..CHANNELS],
            fates,
            channel,
        )
    }

    /// Closes an open channel and stops its timers.
    pub fn close<W: Store<Packet>, R: Store<Attempt>, K: Store<u8>>(
        &self,
        wire: &W,
        resend: &mut R,
        keepalive: &mut K,
        table: &mut [Channel],
        fates: &[u16],
        channel: u32,
    ) -> Result<Action, RigFault>
        ensures obeys { Obeys (λ s. close_rule s channel) (state_of self.now fates.now (W.meaning wire.now) (R.meaning resend.old) (K.meaning keepalive.old) (take 64 table.old)) result (state_of self.now fates.now (W.meaning wire.now) (R.meaning resend.new) (K.meaning keepalive.new) (take 64 table.new)) }
        ensures later { drop 64 table.new ≡ drop 64 table.old }
        ensures resend { Framed R.Store resend.old resend.new }
        ensures keepalive { Framed K.Store keepalive.old keepalive.new }
    {
        if table.len() < CHANNELS {
            return Err(RigFault::Table);
        }
        close(
            &self.rig,
            wire,
            resend,
            keepalive,
            &mut table[0..CHANNELS],
            fates,
            channel,
        )
    }

    /// Does the first that is due, or lets the tick go on.
    pub fn step<W: Store<Packet>, R: Store<Attempt>, K: Store<u8>>(
        &mut self,
        wire: &mut W,
        resend: &mut R,
        keepalive: &mut K,
        table: &mut [Channel],
        fates: &[u16],
    ) -> Result<Action, RigFault>
        ensures obeys { Obeys step_rule (state_of self.old fates.now (W.meaning wire.old) (R.meaning resend.old) (K.meaning keepalive.old) (take 64 table.old)) result (state_of self.new fates.now (W.meaning wire.new) (R.meaning resend.new) (K.meaning keepalive.new) (take 64 table.new)) }
        ensures later { drop 64 table.new ≡ drop 64 table.old }
        ensures wire { Framed W.Store wire.old wire.new }
        ensures resend { Framed R.Store resend.old resend.new }
        ensures keepalive { Framed K.Store keepalive.old keepalive.new }
    {
        if table.len() < CHANNELS {
            return Err(RigFault::Table);
        }
        let (records, _) = table.split_at_mut(CHANNELS);
        let mut lent = Lent {
            rig: &mut self.rig,
            wire,
            resend,
            keepalive,
            records,
            fates,
        };
        step(&mut lent)
    }
}
