//! What becomes of frames, loss by loss.

use crate::checks::{bytes_are, is_so};
use link_script::Loss;
use link_script::lossy::{LossyLink, loss_of};
use std::alloc::{AllocError, Global};
use std::process::Abort;
use std::test::Fail;

// A frame of one byte, or of none.
fn frame(alloc: Global, bytes: &[u8]) -> Result<Vec<u8>, AllocError> {
    bytes.iter().copied().collect(alloc)
}

// The next frame on the link.
fn next(alloc: Global, link: &mut LossyLink) -> Result<Vec<u8>, AllocError> {
    match link.take_frame() {
        Some(bytes) => frame(alloc, bytes.as_slice()),
        None => Ok(Vec::new(alloc)),
    }
}

// The next frame on the link is this.
fn brings(
    rt: &impl Abort,
    alloc: Global,
    link: &mut LossyLink,
    wanted: &[u8],
) -> Result<(), AllocError> {
    let frame = next(alloc, link)?;
    bytes_are(rt, frame.as_slice(), wanted);
    Ok(())
}

// The frame is put on the link, with this loss.
fn puts(alloc: Global, link: &mut LossyLink, loss: Loss, bytes: &[u8]) -> Result<(), AllocError> {
    link.put(Some(loss), frame(alloc, bytes)?)
}

// Two frames are kept back, the second behind one that is lost.
fn keeps_two_back(rt: &impl Abort, alloc: Global, link: &mut LossyLink) -> Result<(), AllocError> {
    puts(alloc, link, Loss::Swap, b"a")?;
    puts(alloc, link, Loss::Lose, b"b")?;
    is_so(rt, "nothing is on the link", link.is_empty());
    puts(alloc, link, Loss::Swap, b"c")?;
    puts(alloc, link, Loss::Repeat, b"d")?;
    brings(rt, alloc, link, b"d")?;
    brings(rt, alloc, link, b"d")?;
    brings(rt, alloc, link, b"c")?;
    brings(rt, alloc, link, b"a")?;
    is_so(rt, "nothing is left", link.take_frame().is_none());
    Ok(())
}

#[test]
fn a_frame_that_is_kept_back_comes_behind_the_next_one(rt: HostRuntime) -> Result<(), Fail> {
    let mut link = LossyLink::new(rt.alloc());
    Ok(keeps_two_back(&rt, rt.alloc(), &mut link)?)
}

// A bit of each of two frames is turned over.
fn turns_two_over(rt: &impl Abort, alloc: Global, link: &mut LossyLink) -> Result<(), AllocError> {
    puts(alloc, link, Loss::Flip(9), b"\x00\x00")?;
    puts(alloc, link, Loss::Flip(16), b"\x00\x00")?;
    brings(rt, alloc, link, b"\x00\x02")?;
    brings(rt, alloc, link, b"\x01\x00")
}

#[test]
fn a_bit_is_turned_over_modulo_the_bits_of_the_frame(rt: HostRuntime) -> Result<(), Fail> {
    let mut link = LossyLink::new(rt.alloc());
    Ok(turns_two_over(&rt, rt.alloc(), &mut link)?)
}

const LOSSES: &[(u32, Loss)] = &[(2, Loss::Lose), (7, Loss::Flip(3))];

// What becomes of the frame with this number.
fn has_loss(rt: &impl Abort, number: u64, wanted: Option<Loss>) {
    assert_eq!(rt; loss_of(number, LOSSES), wanted);
}

#[test]
fn a_loss_is_found_by_its_number(rt: HostRuntime) -> Result<(), Fail> {
    has_loss(&rt, 1, None);
    has_loss(&rt, 2, Some(Loss::Lose));
    has_loss(&rt, 7, Some(Loss::Flip(3)));
    Ok(())
}

// A frame that is kept back goes on the link.
fn releases_one(rt: &impl Abort, alloc: Global, link: &mut LossyLink) -> Result<(), AllocError> {
    puts(alloc, link, Loss::Swap, b"a")?;
    link.release()?;
    brings(rt, alloc, link, b"a")
}

#[test]
fn what_is_kept_back_is_released(rt: HostRuntime) -> Result<(), Fail> {
    let mut link = LossyLink::new(rt.alloc());
    Ok(releases_one(&rt, rt.alloc(), &mut link)?)
}
