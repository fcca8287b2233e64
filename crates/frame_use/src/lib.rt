//! Tests of hdlc_frame, proto_wire, rpc_frames, rpc_packet, rpc_ids, rpc_channel, through their public names.
#![tactic(auto)]

#[cfg(test)]
mod channels;
#[cfg(test)]
mod escapes;
#[cfg(test)]
mod fields;
#[cfg(test)]
mod frames;
#[cfg(test)]
mod names;
#[cfg(test)]
mod packet_frames;
#[cfg(test)]
mod packets;
