// Octabytes as whole numbers: sums and differences modulo 2^64, sign and magnitude, what is no signed octabyte.
ghost use Rattle.std.specs.Prelude.{◌≡◌, ◌+◌, not, pos, ◌-ℤ◌, neg_ℤ, if◌then◌else◌, unsigned_abs};
ghost use Rattle.std.specs.Bool.{beq};
ghost use Rattle.std.specs.Int.Signed.{mag};
ghost use Rattle.model.specs.Control.{is_negative};
ghost use Rattle.model.specs.Whole.{signed_of, octa_of, is_signed, wide_of};
ghost use Rattle.model.specs.LoadStore.{flag_v};

use model::number::is_negative;

// How far the lowest and the highest signed octabyte are from 0.
const MIN_MAGNITUDE: u64 = 0x8000000000000000;

const MAX: u64 = 0x7fffffffffffffff;

const V: u8 = 0x40;

/// y + z modulo 2^64.
#[tactic(auto, unfolding(model::specs::Whole::octa_of))]
pub fn sum(y: u64, z: u64) -> u64
    ensures { result ≡ octa_of (pos (y + z)) }
{
    y.wrapping_add(z)
}

/// y − z modulo 2^64.
#[tactic(auto, using(crate::proofs::Sums::octa_difference))]
pub fn difference(y: u64, z: u64) -> u64
    ensures { result ≡ octa_of (pos y -ℤ pos z) }
{
    y.wrapping_sub(z)
}

/// Whether the two signs differ.
pub fn signs_differ(y: u64, z: u64) -> bool
    ensures { result ≡ not (beq (is_negative y) (is_negative z)) }
{
    is_negative(y) != is_negative(z)
}

/// How far v's signed value is from 0.
#[tactic(auto, using(crate::proofs::Sums::cast_is))]
pub fn magnitude(v: u64) -> u64
    ensures { result ≡ unsigned_abs (signed_of v) }
{
    v.cast_signed().unsigned_abs()
}

/// The same, and one less of a negative value: v and its complement have it in common.
#[tactic(auto, using(model::proofs::Whole::signed_high, model::proofs::Whole::signed_low))]
pub fn spread(v: u64) -> u64
    ensures { result ≡ mag (signed_of v) }
{
    if is_negative(v) { !v } else { v }
}

/// The octabyte of n, or of −n.
#[tactic(auto, using(model::proofs::Whole::octa_neg, model::proofs::Whole::octa_pos))]
pub fn with_sign(negative: bool, n: u64) -> u64
    ensures { result ≡ octa_of (if negative then neg_ℤ (pos n) else pos n) }
{
    if negative { n.wrapping_neg() } else { n }
}

/// V where the number of two octabytes, or its negative, is no signed octabyte.
pub fn overflow_of(negative: bool, high: u64, low: u64) -> u8
    ensures { result ≡ (if is_signed (if negative then neg_ℤ (pos (wide_of high low)) else pos (wide_of high low)) then 0 else flag_v) }
{
    let limit = if negative { MIN_MAGNITUDE } else { MAX };
    flag(high != 0 || limit < low)
}

/// V or nothing.
pub fn flag(overflow: bool) -> u8
    ensures { result ≡ (if overflow then flag_v else 0) }
{
    if overflow { V } else { 0 }
}
