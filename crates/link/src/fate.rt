// A packet's *fate* is a term of this project: 16 bits that say what the link does with the packet. The low 15 bits are its delay in
// ticks, where 0 means that it is lost. If it is not lost, the top bit asks for two copies in place of one.
ghost use Rattle.std.specs.Prelude.{◌≡◌};
ghost use Rattle.link.specs.Fate.{packet_fate, fate_delay, fate_copies, Examples};

const TWICE: u16 = 32_768;

/// The fate of the packet with this number: its entry among the first `taken` of the list, or else the default.
pub fn fate_of(fates: &[u16], taken: usize, default: u16, packet: u32) -> u16
    ensures { result ≡ packet_fate fates.now taken default packet }
{
    fates[..taken.min(fates.len())]
        .get(packet as usize)
        .copied()
        .unwrap_or(default)
}

/// After how many ticks a packet with this fate arrives, or 0 if it is lost.
pub fn delay(fate: u16) -> u16
    ensures { result ≡ fate_delay fate }
{
    fate % TWICE
}

/// How many copies of a packet with this fate the link takes on.
pub fn copies(fate: u16) -> u8
    ensures value { result ≡ fate_copies fate }
    ensures examples { Examples }
{
    if delay(fate) == 0 {
        0
    } else if fate < TWICE {
        1
    } else {
        2
    }
}
