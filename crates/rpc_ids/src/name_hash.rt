//! The hash by which packets name services and methods.
ghost use Rattle.std.specs.Prelude.{◌≡◌};
ghost use Rattle.rpc_ids.specs.Names.{name_id};

/// The base of the powers that a name's bytes are multiplied with.
const BASE: u32 = 65_599;

/// The id of a service or a method with this name: `(n + sum of b_k * 65599^k) mod 2^32` over its bytes b_1 to b_n.
///
/// A service is hashed by its full name, as `demo.Demo`, and a method by its bare name, as `Echo`.
pub fn hash_name(name: &[u8]) -> u32
    ensures { result ≡ name_id name.now }
{
    let mut hash = (name.len() % (1 << 32)) as u32;
    let mut power = BASE;
    for byte in name {
        hash = hash.wrapping_add(u32::from(*byte).wrapping_mul(power));
        power = power.wrapping_mul(BASE);
    }
    hash
}
