// DIVU: a number of two octabytes by one, in two digits of 32 bits.
ghost use Rattle.std.specs.Prelude.{◌≡◌, ◌+◌, ◌*◌, ◌/◌, ◌%◌, ◌^◌, ◌<◌, ◌≤◌};
ghost use Rattle.model.specs.Whole.{wide_of};
ghost use Rattle.model.specs.Arithmetic.{divided_wide};

use model::{Operands, Results};

#[derive(Clone, Copy)]
pub struct Quotient {
    pub quotient: u64,
    pub remainder: u64,
}

/// DIVU: rD and $Y by $Z; rD and $Y themselves where the quotient has more than 64 bits.
#[tactic(auto, unfolding(model::specs::Arithmetic::divided_wide))]
pub fn divu(a: Operands) -> Results
    ensures { result ≡ divided_wide a }
{
    if a.z <= a.rd {
        return Results {
            x: a.rd,
            rh: a.rh,
            rr: a.y,
            flags: 0,
        };
    }
    let q = wide_quotient(a.rd, a.y, a.z);
    Results {
        x: q.quotient,
        rh: a.rh,
        rr: q.remainder,
        flags: 0,
    }
}

// The machine's own division where the upper octabyte is 0.
fn wide_quotient(d: u64, y: u64, z: u64) -> Quotient
    requires { d < z }
    ensures { (result.quotient ≡ wide_of d y / z) × (result.remainder ≡ wide_of d y % z) }
{
    if d == 0 {
        return Quotient {
            quotient: y / z,
            remainder: y % z,
        };
    }
    long_division(d, y, z)
}

// Both are shifted until the divisor's top bit is set: then each digit is close to what the upper halves give.
fn long_division(d: u64, y: u64, z: u64) -> Quotient
    requires { d < z }
    ensures { (result.quotient ≡ wide_of d y / z) × (result.remainder ≡ wide_of d y % z) }
{
    let s = headroom(z);
    let v = z << s;
    let high = (d << s) + (y >> 1 >> (63 - s));
    let low = y << s;
    let first = digit(high, low / 0x100000000, v);
    let second = digit(first.remainder, low % 0x100000000, v);
    Quotient {
        quotient: first.quotient * 0x100000000 + second.quotient,
        remainder: second.remainder >> s,
    }
}

// How many bits stand free above v's topmost: shifted by as many, v has its top bit set.
fn headroom(v: u64) -> u64
    requires { 0 < v }
    ensures { v * 2 ^ result / 2 ^ 63 ≡ 1 }
{
    u64::from(v.leading_zeros())
}

// One digit, and what it leaves, of a divisor with its top bit set.
fn digit(h: u64, l: u64, v: u64) -> Quotient
    requires { (2 ^ 63 ≤ v) × (h < v) × (l < 2 ^ 32) }
    ensures { (result.quotient ≡ (h * 2 ^ 32 + l) / v) × (result.remainder ≡ (h * 2 ^ 32 + l) % v) }
{
    let e = estimate(h, l, v);
    let q = e.quotient;
    let over = e.remainder % 0x100000000 * 0x100000000 + l;
    Quotient {
        quotient: q,
        remainder: over.wrapping_sub(q * (v % 0x100000000)),
    }
}

// The digit by v's upper half, lowered until it is right, and what it leaves of h by that half.
fn estimate(h: u64, l: u64, v: u64) -> Quotient
    requires { (2 ^ 63 ≤ v) × (h < v) × (l < 2 ^ 32) }
    ensures { (result.quotient * v ≤ h * 2 ^ 32 + l) × (h * 2 ^ 32 + l < (result.quotient + 1) * v) × (result.quotient * (v / 2 ^ 32) + result.remainder ≡ h) }
{
    let v1 = v / 0x100000000;
    let v0 = v % 0x100000000;
    let mut q = h / v1;
    let mut r = h % v1;
    while r < 0x100000000 {
        if q < 0x100000000 && q * v0 <= r * 0x100000000 + l {
            break;
        }
        q -= 1;
        r += v1;
    }
    Quotient {
        quotient: q,
        remainder: r,
    }
}
