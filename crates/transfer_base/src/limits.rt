/// The largest resource, in bytes; also the last offset.
pub const MAX_RESOURCE: u64 = 16_777_216;

/// The most data in a chunk, in bytes.
pub const MAX_CHUNK: u32 = 1_024;

/// The most chunks in a window.
pub const MAX_WINDOW: u32 = 64;

/// How long either end waits for a chunk of the other, in milliseconds.
pub const TIMEOUT: u64 = 2_000;
