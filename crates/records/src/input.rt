// The numbers in a job's bytes. All stand with their lowest byte first.
ghost use Rattle.std.specs.Prelude.{◌≡◌, ◌+◌, ◌*◌, ◌<◌, ◌≤◌, length, drop};
ghost use Rattle.records.specs.Bytes as spec;

use crate::bytes::FLOAT_BYTES;
use std::num::f64_from_bits_with_nan;

// The bytes of a job from a place on.
#[derive(Clone, Copy)]
pub struct Reader<'a> {
    pub bytes: &'a [u8],
    pub at: usize,
    pub ghost in_bounds: { at ≤ length bytes.now },
}

impl<'a> Reader<'a> {
    // From n bytes further on.
    pub fn past(self, n: usize) -> Reader<'a>
        requires { self.at + n ≤ length self.bytes.now }
        ensures { (result.bytes.now ≡ self.entry.bytes.now) × (result.at ≡ self.entry.at + n) }
    {
        Reader {
            bytes: self.bytes,
            at: self.at + n,
        }
    }

    // All bytes from here on.
    pub fn rest(self) -> &'a [u8]
        ensures { result.now ≡ drop self.entry.at self.entry.bytes.now }
    {
        &self.bytes[self.at..]
    }

    // Fewer than n bytes stand from here on.
    pub fn cut(self, n: usize) -> bool
        ensures { result ≡ spec.cut self.entry.bytes.now self.entry.at n }
    {
        self.bytes.len() - self.at < n
    }

    // The byte here, as a number.
    pub fn byte(self) -> usize
        requires { self.at < length self.bytes.now }
        ensures { (result ≡ spec.byte_at self.entry.bytes.now self.entry.at) × (result < 256) }
    {
        usize::from(self.bytes[self.at])
    }

    // An unsigned number of 32 bits.
    #[tactic(auto, unfolding(crate::specs::Bytes::word_at))]
    pub fn word(self) -> u32
        requires { self.at + 4 ≤ length self.bytes.now }
        ensures { result ≡ spec.word_at self.entry.bytes.now self.entry.at }
    {
        u32::from_le_bytes(*self.rest().first_chunk().unwrap())
    }

    // A float; the patterns of a NaN all stand for the one.
    #[tactic(auto, unfolding(crate::specs::Bytes::word_at, crate::specs::Bytes::number_at))]
    fn number(self) -> f64
        requires { self.at + spec.float_bytes ≤ length self.bytes.now }
        ensures { result ≡ spec.number_at self.entry.bytes.now self.entry.at }
    {
        f64_from_bits_with_nan(u64::from_le_bytes(*self.rest().first_chunk().unwrap()))
    }

    // The numbers of out become those of the bytes.
    #[tactic(auto, using(crate::proofs::Listing::fill_more), unfolding(crate::specs::Bytes::listed))]
    pub fn numbers(self, out: &mut [f64])
        requires { self.at + spec.float_bytes * length out.old ≤ length self.bytes.now }
        ensures { out.new ≡ spec.numbers_at self.entry.bytes.now self.entry.at (length out.old) }
    {
        for (i, x) in out.iter_mut().enumerate() {
            *x = self.past(FLOAT_BYTES * i).number();
        }
    }

    // The keys of out become those of the bytes.
    #[tactic(auto, using(crate::proofs::Listing::fill_more), unfolding(crate::specs::Bytes::listed))]
    pub fn keys(self, out: &mut [usize])
        requires { self.at + length out.old ≤ length self.bytes.now }
        ensures { out.new ≡ spec.keys_read self.entry.bytes.now self.entry.at (length out.old) }
    {
        for (i, x) in out.iter_mut().enumerate() {
            *x = self.past(i).byte();
        }
    }
}
