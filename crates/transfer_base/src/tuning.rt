ghost use Rattle.std.specs.Prelude.{◌≤◌};
ghost use Rattle.transfer_base.specs.declared.limits.TheConstants.{MAX_CHUNK, MAX_WINDOW};

/// How a receiver asks.
#[derive(Clone, Copy, Debug, PartialEq, Eq)]
pub struct Tuning {
    /// The chunks of a window, 1 to 64.
    pub window: u32,
    /// The bytes of a chunk, 1 to 1,024.
    pub chunk: u32,
    ghost window_in_range: { (1 ≤ window) × (window ≤ MAX_WINDOW) },
    ghost chunk_in_range: { (1 ≤ chunk) × (chunk ≤ MAX_CHUNK) },
}
