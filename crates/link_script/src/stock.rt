/// The most bytes of a resource that a script makes.
pub const MAX_STOCK: u32 = 65_536;

/// A resource that a store has as a world begins: all of it, or a part that was left.
#[derive(Clone, Copy, Debug, PartialEq, Eq)]
pub struct Stock {
    pub id: u32,
    /// In bytes.
    pub len: u32,
    /// What its bytes are made from.
    pub seed: u64,
}
