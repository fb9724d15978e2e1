// 32-bit words in byte slices, low byte first, read and written. Nothing here asks anything of its
// caller: an offset may be anywhere, and what is read or written there is read or written whole or
// not at all.
#![tactic(auto)]

ghost use Rattle.std.specs.Prelude.{◌≡◌, [], ◌∷◌};
ghost use Rattle.formats.specs.Numbers.{bytes_of, number_of, number_at};
ghost use Rattle.formats.specs.Written.{written};

// The number that four bytes stand for. (Why what is here is no one generic function with what
// `words` and `writing` do of 16 bits, `words: word16` says.)
#[tactic(auto, using(words::proofs::Bytes::numbers_read))]
pub fn word32(b0: u8, b1: u8, b2: u8, b3: u8) -> u32
    ensures { result ≡ number_of (b0 ∷ b1 ∷ b2 ∷ b3 ∷ []) }
{
    u32::from_le_bytes([b0, b1, b2, b3])
}

// The 32-bit number at an offset, or 0 where the slice does not hold it whole.
#[tactic(auto, using(words::proofs::Bytes::numbers_read))]
pub fn read32(s: &[u8], at: usize) -> u32
    ensures { result ≡ number_at 4 s.now at }
{
    match words::bytes_at::<4>(s, at) {
        Some(&[b0, b1, b2, b3]) => word32(b0, b1, b2, b3),
        None => 0,
    }
}

// Writes the four bytes of n at an offset, or nothing where they do not all fit.
pub fn write32(s: &mut [u8], at: usize, n: u32)
    ensures { s.new ≡ written s.old at (bytes_of 4 n) }
{
    writing::write_bytes(s, at, &n.to_le_bytes());
}
