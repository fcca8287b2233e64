//! What the packets among some items come to.

ghost use Rattle.std.specs.Prelude.{◌≡◌, ◌<◌, ◌≤◌, ◌^◌, length};
ghost use Rattle.rpc_journal.specs.Items.{packet_of};
ghost use Rattle.run_report.specs.Items.{packet_count, payload_of_items, payload_total};

use rpc_journal::{Act, Item};

#[derive(Clone, Copy)]
pub(crate) struct Totals {
    /// How many packets there are.
    pub(crate) packets: u64,
    /// The bytes of their payloads together.
    pub(crate) payload: u128,
}

pub(crate) fn totals_of(items: &[Item]) -> Totals
    ensures packets { result.packets ≡ packet_count items.now }
    ensures payload { result.payload ≡ payload_of_items items.now }
{
    let mut packets = 0;
    let mut payload = 0;
    for item in items {
        packets += packets_in(item);
        payload += payload_in(item);
    }
    Totals { packets, payload }
}

fn packets_in(item: &Item) -> u64
    ensures is { result ≡ length (packet_of item.now.act) }
    ensures bound { result ≤ 1 }
{
    match &item.act {
        Act::Send(_) => 1,
        Act::Keep(_) | Act::LeaveCall => 0,
    }
}

fn payload_in(item: &Item) -> u128
    ensures is { result ≡ payload_total (packet_of item.now.act) }
    ensures bound { result < 2 ^ 64 }
{
    match &item.act {
        Act::Send(packet) => packet.payload.len() as u128,
        Act::Keep(_) | Act::LeaveCall => 0,
    }
}
