/// The most frames that a world delivers.
pub const MAX_DELIVERIES: u64 = 200_000;

/// How much time passes in a turn of time, in milliseconds.
pub const TURN_OF_TIME: u64 = 2_000;
