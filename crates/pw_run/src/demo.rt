//! What the commands serve: the demo service, on channels 1 to 8, over what a store lists.
ghost use Rattle.std.specs.Prelude.{◌≡◌, [], None, IfOk};
ghost use Rattle.rpc_ids.specs.declared.method.Role.TheVariants.{Server as server_role};
ghost use Rattle.rpc_schedule.specs.ends.EndState.{WasFed};
ghost use Rattle.demo_services.specs.Transfer.{demo_seed};
ghost use Rattle.pw_run.specs.Demo.{demo_channels, demo_setting, no_shelf};

use demo_services::{DemoMaker, demo_registry};
use link_io::{Fulls, Lefts, Shelf};
pub use link_world::server::LAST_CHANNEL;
use link_world::server::world_channels;
use rpc_channel::Channels;
use rpc_handlers::Maker;
use rpc_server::Server;
use std::alloc::{AllocError, Global};
use transfer_chunk::Tuning;

/// The server of the demo service over this shelf, before any input.
pub(crate) fn server(alloc: Global, shelf: Shelf) -> Result<Server<DemoMaker>, AllocError>
    ensures setting { IfOk result (λ s. s.serving.table.setting ≡ demo_setting shelf) }
    ensures entries { IfOk result (λ s. s.serving.table.entries ≡ []) }
    ensures begins { IfOk result (λ s. (s.serving.kept ≡ None) × (s.serving.refused ≡ None)) }
    ensures fed { IfOk result (λ s. WasFed server_role s []) }
{
    let channels = channels(alloc)?;
    let registry = demo_registry(alloc)?;
    let maker = maker(alloc, shelf)?;
    Server::new(alloc, channels, registry, maker)
}

/// The maker of the calls of the demo service over this shelf.
pub(crate) fn maker(alloc: Global, shelf: Shelf) -> Result<DemoMaker, AllocError>
    ensures { IfOk result (λ maker. ⟦<DemoMaker as Maker>⟧.seed_memo maker ≡ demo_seed shelf 4 256) }
{
    DemoMaker::new(
        alloc,
        shelf,
        Tuning {
            window: 4,
            chunk: 256,
        },
    )
}

/// A shelf without a resource.
pub(crate) fn no_shelf(alloc: Global) -> Shelf
    ensures { result ≡ no_shelf }
{
    Shelf {
        full: Fulls::new(alloc),
        left: Lefts::new(alloc),
    }
}

/// The channels that are in: 1 to `LAST_CHANNEL`.
pub(crate) fn channels(alloc: Global) -> Result<Channels, AllocError>
    ensures { IfOk result (λ channels. channels ≡ demo_channels) }
{
    world_channels(alloc)
}
