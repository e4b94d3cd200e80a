// Numbers of 64 bits: sums and differences that wrap, and the sign.
ghost use Rattle.std.specs.Prelude.{◌≡◌, ◌+◌, ◌-◌, ◌%◌, ◌^◌};
ghost use Rattle.model.specs.Control.{is_negative};

/// a + b modulo 2^64.
pub fn wrapping_add(a: u64, b: u64) -> u64
    ensures { result ≡ (a + b) % 2 ^ 64 }
{
    std::num::wrapping_add_u64(a, b)
}

/// a − b modulo 2^64.
pub fn wrapping_sub(a: u64, b: u64) -> u64
    ensures { result ≡ (a + (2 ^ 64 - b)) % 2 ^ 64 }
{
    std::num::wrapping_sub_u64(a, b)
}

/// Whether the top bit is set.
pub fn is_negative(v: u64) -> bool
    ensures { result ≡ is_negative v }
{
    0x8000000000000000 <= v
}
