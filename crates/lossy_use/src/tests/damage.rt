//! A short transfer of which one frame is damaged in one bit, comes twice, or comes late.

use super::ends_well_at_each;
use std::alloc::AllocError;

/// The resource has three small chunks, so that a frame has few bits.
const SIZE: u64 = 40;

/// A frame of a chunk has fewer bits than this.
const BITS: u32 = 512;

#[test]
fn each_bit_of_a_piece_is_turned_over(rt: HostRuntime) -> Result<(), AllocError> {
    let script = "chunk 16\nserver 7 40 1\nflip 6 #\nread 7 0\n";
    ends_well_at_each(&rt, rt.alloc(), script, 0, BITS - 1, SIZE)
}

#[test]
fn each_frame_of_a_read_comes_twice(rt: HostRuntime) -> Result<(), AllocError> {
    let script = "chunk 16\nserver 7 40 1\nrepeat #\nread 7 0\n";
    ends_well_at_each(&rt, rt.alloc(), script, 2, 10, SIZE)
}

#[test]
fn each_frame_of_a_write_comes_twice(rt: HostRuntime) -> Result<(), AllocError> {
    let script = "chunk 16\nclient 7 40 1\nrepeat #\nwrite 7 0\n";
    ends_well_at_each(&rt, rt.alloc(), script, 2, 11, SIZE)
}

#[test]
fn each_frame_of_a_read_comes_late(rt: HostRuntime) -> Result<(), AllocError> {
    let script = "chunk 16\nserver 7 40 1\nswap #\nread 7 0\n";
    ends_well_at_each(&rt, rt.alloc(), script, 2, 10, SIZE)
}

#[test]
fn each_frame_of_a_write_comes_late(rt: HostRuntime) -> Result<(), AllocError> {
    let script = "chunk 16\nclient 7 40 1\nswap #\nwrite 7 0\n";
    ends_well_at_each(&rt, rt.alloc(), script, 2, 11, SIZE)
}
