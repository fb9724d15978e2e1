// 32-bit words as numbers in two's complement: their exact sums, and the number that a word stands
// for.
#![tactic(auto)]

ghost use Rattle.std.specs.Prelude.{◌≡◌};
ghost use Rattle.formats.specs.Numbers.{signed32};
ghost use Rattle.formats.specs.Arithmetic.{plus, result_of};
ghost use Rattle.numbers.specs.Inner.Sums.{word_in};

// The exact sum of the numbers that two words stand for, as a word, if one stands for it. With 2^31
// more it is at most 2^32 - 1 where it is in range, and above that, as a word of 64 bits, where it
// is not. The compiler makes an addition and a jump on overflow of this. Tried, not proved, in
// `hogvax_perform`, machine instructions for each one performed on Grow and on Sum: this 23.9 and
// 25.7, `checked_add` of the two numbers 26.9 and 29.5, `i32::try_from(sum)` 27.3 and 29.6.
#[tactic(auto, using(crate::proofs::Sums::sum_ways))]
pub fn sum_of(a: u32, b: u32) -> Option<u32>
    ensures { word_in result ≡ result_of plus a b }
{
    let sum = i64::from(a.cast_signed()) + i64::from(b.cast_signed());
    if 4294967295 < (sum + 2147483648).cast_unsigned() {
        return None;
    }
    Some(a.wrapping_add(b))
}

// The number that a word stands for in two's complement. (The method of std has a contract of its
// own; `signed32`, which the definitions speak of, is promised here.)
#[tactic(auto, using(crate::proofs::Sums::signed_is))]
pub fn signed(w: u32) -> i32
    ensures { result ≡ signed32 w }
{
    w.cast_signed()
}
