// The numbers of the fields of RpcPacket.

pub const TYPE: u32 = 1;

pub const CHANNEL_ID: u32 = 2;

pub const SERVICE_ID: u32 = 3;

pub const METHOD_ID: u32 = 4;

pub const PAYLOAD: u32 = 5;

pub const STATUS: u32 = 6;

pub const CALL_ID: u32 = 7;
