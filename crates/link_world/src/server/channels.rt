//! The channels of a world.
ghost use Rattle.std.specs.Prelude.{◌≡◌, ◌≢◌, IfOk, OnOk};
ghost use Rattle.rpc_channel.specs.Rising.{with_id};
ghost use Rattle.link_laws.specs.world.Setup.{world_channels};

use rpc_channel::Channels;
use std::alloc::{AllocError, Global};

/// Channels 1 to this one are in.
pub const LAST_CHANNEL: u32 = 8;

/// The channels that are in at both ends, before any is closed.
pub fn world_channels(alloc: Global) -> Result<Channels, AllocError>
    ensures { IfOk result (λ channels. channels ≡ world_channels) }
{
    let mut channels = Channels::new(alloc);
    for id in 1..=LAST_CHANNEL {
        add(&mut channels, id)?;
    }
    Ok(channels)
}

// Adds a channel that isn't in. There is room for eight, so memory alone can be wanting.
fn add(channels: &mut Channels, id: u32) -> Result<(), AllocError>
    requires { id ≢ 0 }
    ensures { OnOk result (channels.new ≡ with_id id channels.old) }
{
    match channels.add(id) {
        Ok(()) => Ok(()),
        Err(_) => Err(AllocError),
    }
}
