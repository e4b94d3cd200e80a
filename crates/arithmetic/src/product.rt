// The product of two octabytes: MULU in two octabytes, MUL in one.
ghost use Rattle.std.specs.Prelude.{◌≡◌, ◌*ℤ◌};
ghost use Rattle.model.specs.Whole.{signed_of};
ghost use Rattle.model.specs.Arithmetic.{exact, multiplied};

use super::number;
use model::{Operands, Results};

/// MULU: rH gets the upper octabyte.
#[tactic(auto, unfolding(model::specs::Whole::product_high, model::specs::Whole::product_low))]
pub fn mulu(a: Operands) -> Results
    ensures { result ≡ multiplied a }
{
    let (x, rh) = a.y.carrying_mul(a.z, 0);
    Results {
        x,
        rh,
        rr: a.rr,
        flags: 0,
    }
}

/// MUL: rH is left.
pub fn mul(a: Operands) -> Results
    ensures { result ≡ exact a (signed_of a.y *ℤ signed_of a.z) }
{
    let (x, overflow) = a.y.cast_signed().overflowing_mul(a.z.cast_signed());
    Results {
        x: x.cast_unsigned(),
        rh: a.rh,
        rr: a.rr,
        flags: number::flag(overflow),
    }
}
