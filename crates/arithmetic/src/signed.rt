// Signed sums, differences, quotients and the order of octabytes.
ghost use Rattle.std.specs.Prelude.{◌≡◌, ◌+◌, ◌-◌, ◌/◌, ◌%◌, ◌<◌, not, ◌&&◌, pos, ◌+ℤ◌, ◌-ℤ◌, if◌then◌else◌, ◌==◌};
ghost use Rattle.model.specs.Whole.{signed_of, octa_of, compared};
ghost use Rattle.model.specs.Arithmetic.{exact, divided};

use super::number;
use super::quotient::Quotient;
use model::{Operands, Results};
use std::cmp::Ordering;

const D: u8 = 0x80;

/// ADD.
pub fn add(a: Operands) -> Results
    ensures { result ≡ exact a (signed_of a.y +ℤ signed_of a.z) }
{
    let (x, overflow) = a.y.cast_signed().overflowing_add(a.z.cast_signed());
    Results {
        x: x.cast_unsigned(),
        rh: a.rh,
        rr: a.rr,
        flags: number::flag(overflow),
    }
}

/// SUB, NEG.
pub fn sub(a: Operands) -> Results
    ensures { result ≡ exact a (signed_of a.y -ℤ signed_of a.z) }
{
    let (x, overflow) = a.y.cast_signed().overflowing_sub(a.z.cast_signed());
    Results {
        x: x.cast_unsigned(),
        rh: a.rh,
        rr: a.rr,
        flags: number::flag(overflow),
    }
}

/// DIV, by signs and magnitudes: rounded down, a quotient below 0 is rounded away from 0.
pub fn div(a: Operands) -> Results
    ensures { result ≡ divided a }
{
    let Operands { y, z, .. } = a;
    if z == 0 {
        return Results {
            x: 0,
            rh: a.rh,
            rr: y,
            flags: D,
        };
    }
    let negative = number::signs_differ(y, z);
    let q = rounded(negative, number::magnitude(y), number::magnitude(z));
    Results {
        x: number::with_sign(negative, q.quotient),
        rh: a.rh,
        rr: number::with_sign(model::number::is_negative(z), q.remainder),
        flags: number::overflow_of(negative, 0, q.quotient),
    }
}

// n / k, and what it leaves of n; rounded up, and what n leaves of it. 0 is neither.
fn rounded(up: bool, n: u64, k: u64) -> Quotient
    requires { 0 < k }
    ensures { (result.quotient ≡ (if up && not (n == 0) then (n - 1) / k + 1 else n / k))
        × (result.remainder ≡ (if up && not (n == 0) then k - 1 - (n - 1) % k else n % k)) }
{
    if up && n != 0 {
        Quotient {
            quotient: (n - 1) / k + 1,
            remainder: k - 1 - (n - 1) % k,
        }
    } else {
        Quotient {
            quotient: n / k,
            remainder: n % k,
        }
    }
}

/// CMP: −1, 0 or 1 as y is below, equal to or above z.
#[tactic(auto, unfolding(model::specs::Whole::compared, model::specs::Whole::octa_of), using(crate::proofs::Sums::cast_is))]
pub fn cmp(y: u64, z: u64) -> u64
    ensures { result ≡ octa_of (compared (signed_of y) (signed_of z)) }
{
    match y.cast_signed().cmp(&z.cast_signed()) {
        Ordering::Less => u64::MAX,
        Ordering::Equal => 0,
        Ordering::Greater => 1,
    }
}

/// CMPU.
#[tactic(auto, unfolding(model::specs::Whole::compared, model::specs::Whole::octa_of))]
pub fn cmpu(y: u64, z: u64) -> u64
    ensures { result ≡ octa_of (compared (pos y) (pos z)) }
{
    match y.cmp(&z) {
        Ordering::Less => u64::MAX,
        Ordering::Equal => 0,
        Ordering::Greater => 1,
    }
}
