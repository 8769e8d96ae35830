// The parts of a case, from standard input. Where the input ends early, zeros are read.
ghost use Rattle.std.specs.Prelude.{◌<◌, ◌≤◌};

use crate::LIST;
use std::array;
use std::num::f64_from_bits_with_nan;
use streams::read_full;

// The next byte, where there is one.
pub fn next(rt: &HostRuntime) -> Option<u8> {
    let mut b = [0u8; 1];
    if read_full(&mut rt.stdin(), &mut b) < 1 {
        return None;
    }
    Some(b[0])
}

pub fn byte(rt: &HostRuntime) -> u8 {
    next(rt).unwrap_or(0)
}

// A number of two bytes, the lower one first.
pub fn two(rt: &HostRuntime) -> usize
    ensures { result < 65536 }
{
    usize::from(u16::from_le_bytes([byte(rt), byte(rt)]))
}

// What a case asks for is cut to the room that there is.
pub fn at_most(rt: &HostRuntime, most: usize) -> usize
    ensures { result ≤ most }
{
    two(rt).min(most)
}

// How many there are, and then as many, each of one byte.
pub fn list(rt: &HostRuntime, out: &mut [usize; LIST]) -> usize
    ensures { result < 256 }
{
    let n = usize::from(byte(rt));
    for x in &mut out[..n] {
        *x = usize::from(byte(rt));
    }
    n
}

// Floats by their bits, the lowest byte first.
pub fn values(rt: &HostRuntime, out: &mut [f64]) {
    for x in out {
        *x = f64_from_bits_with_nan(u64::from_le_bytes(array::from_fn(|_| byte(rt))));
    }
}
