ghost use Rattle.std.specs.Prelude.{◌≡◌, ◌+◌};
ghost use Rattle.timer.specs.Frame.{Framed};
ghost use Rattle.link.specs.Fate.{fate_delay};
ghost use Rattle.channel.specs.Record.{stop};
ghost use Rattle.protocol.specs.Link.{carry};
ghost use Rattle.engine.specs.Parts.{own_fate};

use crate::rig::Rig;
use link::fate::{copies, delay, fate_of};
use link::packet::Packet;
use timer::store::Store;
use trace::action::Transmission;

// Starts the copies of a packet with this fate on the wire, and answers how many the wire accepted.
#[tactic(auto, unfolding(protocol::specs::Link::carry))]
fn carry<W: Store<Packet>>(wire: &mut W, fate: u16, owner: u8, packet: Packet) -> u8
    ensures value { result ≡ (carry fate (W.meaning wire.old) owner packet).copies }
    ensures after { W.meaning wire.new ≡ (carry fate (W.meaning wire.old) owner packet).after }
    ensures framed { Framed W.Store wire.old wire.new }
{
    let deadline = wire.now().saturating_add(delay(fate) as u32);
    let mut accepted = 0;
    for _copy in 0..copies(fate) {
        if wire.start(deadline, owner, packet).is_ok() {
            accepted += 1;
        }
    }
    accepted
}

impl Rig {
    // The fate of the next packet.
    #[tactic(auto, unfolding(crate::specs::Parts::fates_of))]
    fn fate(&self, fates: &[u16]) -> u16
        ensures { result ≡ own_fate self.now fates.now }
    {
        fate_of(fates, self.fates, self.delay, self.packets)
    }

    /// Sends a packet on a channel.
    pub fn transmit<W: Store<Packet>>(
        &mut self,
        wire: &mut W,
        fates: &[u16],
        owner: u8,
        packet: Packet,
    ) -> Transmission
        ensures value { result ≡ record { packet = self.old.packets; delay = fate_delay (own_fate self.old fates.now); copies = (carry (own_fate self.old fates.now) (W.meaning wire.old) owner packet).copies } }
        ensures after { W.meaning wire.new ≡ (carry (own_fate self.old fates.now) (W.meaning wire.old) owner packet).after }
        ensures counted { self.new ≡ record { delay = self.old.delay; interval = self.old.interval; fates = self.old.fates; packets = stop (self.old.packets + 1) } }
        ensures framed { Framed W.Store wire.old wire.new }
    {
        let number = self.packets;
        let fate = self.fate(fates);
        let copies = carry(wire, fate, owner, packet);
        self.packets = number.saturating_add(1);
        Transmission {
            packet: number,
            delay: delay(fate),
            copies,
        }
    }
}
