ghost use Rattle.std.specs.Prelude.{◌≡◌, if◌then◌else◌, length, slice_index_or};
ghost use Rattle.channel.specs.Record.{as_read, is_open};
ghost use Rattle.protocol.specs.State.{blank};
ghost use Rattle.protocol.specs.Rules.{no_channel};

use channel::number::ChannelNumber;
use channel::record::Channel;
use trace::fault::RigFault;

/// The channel with this number, if it exists and is open.
pub(crate) fn open_channel(records: &[Channel], channel: u32) -> Result<ChannelNumber, RigFault>
    requires { length records.now ≡ 64 }
    ensures { let found : Channel = as_read (slice_index_or records.now channel blank) in result ≡ (if no_channel channel then Err RigFault.Channel else if is_open found then Ok channel else Err RigFault.State) }
{
    let channel = ChannelNumber::try_from(channel)?;
    if records[channel.index()].is_open() {
        Ok(channel)
    } else {
        Err(RigFault::State)
    }
}
