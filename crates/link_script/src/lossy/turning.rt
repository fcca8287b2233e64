ghost use Rattle.std.specs.Prelude.{◌≡◌};
ghost use Rattle.link_script.specs.lossy.Link.{with_bit_turned};

/// Turns one bit of a frame over: that of this number modulo its bits, from the lowest bit of its first byte on.
pub(crate) fn turn_bit(frame: &mut Vec<u8>, bit: u32)
    ensures { frame.new.items ≡ with_bit_turned bit frame.old.items }
{
    if frame.is_empty() {
        return;
    }
    let bits = 8 * frame.len() as u128;
    let place = (u128::from(bit) % bits) as usize;
    frame[place / 8] ^= 1u8 << (place % 8);
}
