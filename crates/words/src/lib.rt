// Bytes and 16-bit words read from byte slices, low byte first. Nothing here asks anything of its
// caller: an offset may be anywhere, and a number is read there whole or not at all.
#![tactic(auto)]

ghost use Rattle.std.specs.Prelude.{◌≡◌, ◌+◌, ◌<◌, ◌≤◌, [], ◌∷◌, length, get_or, take, drop, MatchOption};
ghost use Rattle.formats.specs.Numbers.{number_of, number_at};

// The bytes of that width at an offset, or none where the slice does not hold them all.
pub fn bytes_at<const WIDTH: usize>(s: &[u8], at: usize) -> Option<&[u8; WIDTH]>
    ensures { MatchOption result (length s.now < at + WIDTH) (λ bytes. (at + WIDTH ≤ length s.now)
        × (bytes.now ≡ take WIDTH (drop at s.now))) }
{
    s.get(at..)?.first_chunk()
}

// The number that two bytes stand for. (What is read and written of 16 bits, and of 32 in
// `words32`, is no one generic function: each type has its own `from_le_bytes` and `to_le_bytes`,
// and std has no trait for them. A trait of our own would state both methods, their laws and an
// impl for each type, more text than the functions that it would make one of.)
#[tactic(auto, using(crate::proofs::Bytes::numbers_read))]
pub fn word16(b0: u8, b1: u8) -> u16
    ensures { result ≡ number_of (b0 ∷ b1 ∷ []) }
{
    u16::from_le_bytes([b0, b1])
}

// The byte at an offset, or 0 where there is none.
pub fn read8(s: &[u8], at: usize) -> u8
    ensures { result ≡ get_or s.now at 0 }
{
    s.get(at).copied().unwrap_or(0)
}

// The 16-bit number at an offset, or 0 where the slice does not hold it whole. (`words32: read32`
// is the like of 32 bits: see `word16`.)
#[tactic(auto, using(crate::proofs::Bytes::numbers_read))]
pub fn read16(s: &[u8], at: usize) -> u16
    ensures { result ≡ number_at 2 s.now at }
{
    match bytes_at::<2>(s, at) {
        Some(&[low, high]) => word16(low, high),
        None => 0,
    }
}
