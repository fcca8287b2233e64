//! The fields of a packet as they are written.
ghost use Rattle.std.specs.Prelude.{◌≡◌, Ok};
ghost use Rattle.proto_wire.specs.Entries.{AllNumbered, entries_of};
ghost use Rattle.rpc_packet.specs.Message.{message_with};
ghost use Rattle.rpc_packet.specs.Reading.{packet_of};
ghost use Rattle.rpc_packet.specs.Spelling.{packet_entries, spelling_of};

use crate::CallName;
use crate::field_number::{CALL_ID, CHANNEL_ID, METHOD_ID, PAYLOAD, SERVICE_ID, STATUS, TYPE};
use proto_wire::{OptionalField, Value};

/// The fields by rising number, those that are 0 or empty without a value.
#[tactic(auto, unfolding(crate::specs::Spelling::packet_entries))]
pub(crate) fn optional_fields(
    ptype: u64,
    name: CallName,
    payload: &[u8],
    status: u32,
) -> [OptionalField<'_>; 7]
    ensures entries { entries_of result ≡ packet_entries (message_with ptype name payload.now status) }
    ensures numbers { AllNumbered (entries_of result) }
    ensures again { packet_of (spelling_of (message_with ptype name payload.now status)) ≡ Ok (message_with ptype name payload.now status) }
{
    let CallName {
        channel,
        service,
        method,
        call,
    } = name;
    [
        OptionalField {
            number: TYPE,
            value: Value::nonzero_varint(ptype),
        },
        OptionalField {
            number: CHANNEL_ID,
            value: Value::nonzero_varint(u64::from(channel)),
        },
        OptionalField {
            number: SERVICE_ID,
            value: Value::nonzero_fixed32(service),
        },
        OptionalField {
            number: METHOD_ID,
            value: Value::nonzero_fixed32(method),
        },
        OptionalField {
            number: PAYLOAD,
            value: Value::nonempty_bytes(payload),
        },
        OptionalField {
            number: STATUS,
            value: Value::nonzero_varint(u64::from(status)),
        },
        OptionalField {
            number: CALL_ID,
            value: Value::nonzero_varint(u64::from(call)),
        },
    ]
}
