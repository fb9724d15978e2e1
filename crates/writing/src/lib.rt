// 16-bit words written into byte slices, low byte first, and bytes, or items of any type, copied
// into slices. Nothing here asks anything of its caller: an offset may be anywhere, and what is
// written there is written whole or not at all.
#![tactic(auto)]

ghost use Rattle.std.specs.Prelude.{◌≡◌};
ghost use Rattle.formats.specs.Numbers.{bytes_of};
ghost use Rattle.formats.specs.Written.{written};
ghost use Rattle.writing.specs.Inner.Items.{items_written};

// Writes the two bytes of n at an offset, or nothing where they do not fit. (`words32: write32` is
// the like of four bytes: why no function does both, `words: word16` says.)
pub fn write16(s: &mut [u8], at: usize, n: u16)
    ensures { s.new ≡ written s.old at (bytes_of 2 n) }
{
    write_bytes(s, at, &n.to_le_bytes());
}

// Writes bytes at an offset, or nothing where they do not all fit.
#[tactic(auto, using(crate::proofs::Placed::as_bytes, crate::proofs::Placed::placed))]
pub fn write_bytes(s: &mut [u8], at: usize, from: &[u8])
    ensures { s.new ≡ written s.old at from.now }
{
    write_items(s, at, from);
}

// The same for items of any type: a slice of them is no list of numbers, so its contract has a
// definition of its own.
#[tactic(auto, using(crate::proofs::Placed::placed))]
pub fn write_items<T: Copy>(s: &mut [T], at: usize, from: &[T])
    ensures { s.new ≡ items_written s.old at from.now }
{
    let n = from.len();
    let room = s.len();
    if room < n {
        return;
    }
    if at <= room - n {
        s[at..at + n].copy_from_slice(from);
    }
}
