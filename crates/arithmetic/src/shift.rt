// Shifts by any count, and the scaled sums.
ghost use Rattle.std.specs.Prelude.{◌≡◌, ◌+◌, ◌*◌, ◌/◌, ◌^◌, ◌<◌, pos, ◌*ℤ◌};
ghost use Rattle.model.specs.Whole.{signed_of, octa_of, floor_by, power_of};
ghost use Rattle.model.specs.Arithmetic.{exact, overflow_of};

use super::number;
use model::{Operands, Results};

/// SLU.
#[tactic(auto, using(crate::proofs::Shifts::left_far, crate::proofs::Shifts::left_near))]
pub fn slu(y: u64, z: u64) -> u64
    ensures { result ≡ octa_of (pos (y * power_of z)) }
{
    if z < 64 { y << z } else { 0 }
}

/// SRU.
#[tactic(auto, using(crate::proofs::Shifts::right_far, crate::proofs::Shifts::right_near))]
pub fn sru(y: u64, z: u64) -> u64
    ensures { result ≡ y / power_of z }
{
    if z < 64 { y >> z } else { 0 }
}

/// SR: a negative number is the complement of one that is not, before and after.
#[tactic(auto, using(crate::proofs::Shifts::right_low, crate::proofs::Shifts::right_high))]
pub fn sr(y: u64, z: u64) -> u64
    ensures { result ≡ octa_of (floor_by (signed_of y) (power_of z)) }
{
    let n = sru(number::spread(y), z);
    if model::number::is_negative(y) { !n } else { n }
}

// V where a bit other than the sign is pushed into the sign's place or beyond.
#[tactic(auto, using(crate::proofs::Sums::flag_of, crate::proofs::Shifts::signed_far, crate::proofs::Shifts::signed_near))]
fn pushed_out(y: u64, z: u64) -> u8
    ensures { result ≡ overflow_of (signed_of y *ℤ pos (power_of z)) }
{
    number::flag(if z < 64 {
        number::spread(y) >> (63 - z) != 0
    } else {
        y != 0
    })
}

/// SL.
#[tactic(auto, unfolding(model::specs::Whole::octa_of), using(crate::proofs::Sums::results_made, model::proofs::Whole::octa_times))]
pub fn sl(a: Operands) -> Results
    ensures { result ≡ exact a (signed_of a.y *ℤ pos (power_of a.z)) }
{
    Results {
        x: slu(a.y, a.z),
        rh: a.rh,
        rr: a.rr,
        flags: pushed_out(a.y, a.z),
    }
}

/// y × 2^k + z: 2ADDU to 16ADDU.
#[tactic(auto, unfolding(model::specs::Whole::octa_of))]
pub(crate) fn scaled_sum(k: u64, y: u64, z: u64) -> u64
    requires { k < 64 }
    ensures { result ≡ octa_of (pos (2 ^ k * y + z)) }
{
    number::sum(y << k, z)
}
