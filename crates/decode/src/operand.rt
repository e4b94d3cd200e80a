// The operand of a load or a store within its octabyte: size and sign by the opcode's bits; and the tetra that is fetched.
ghost use Rattle.std.specs.Prelude.{◌≡◌, ◌-◌, ◌%◌, ◌^◌, ◌<◌};
ghost use Rattle.model.specs.Opcodes.{width_of, sign_of, tetra};
ghost use Rattle.model.specs.LoadStore.{values_of, unit_at, operand_in, merged, extended, fits};

/// The operand's largest value.
fn most(op: u8) -> u64
    ensures { result ≡ values_of (width_of op) - 1 }
{
    match op / 4 % 4 {
        0 => 0xFF,
        1 => 0xFFFF,
        2 => 0xFFFF_FFFF,
        _ => 0xFFFF_FFFF_FFFF_FFFF,
    }
}

/// How many bits of the octabyte stand right of the operand.
fn shift_of(op: u8, addr: u64) -> u64
    ensures { (result < 64) × (2 ^ result ≡ unit_at (width_of op) addr) }
{
    let low = addr % 8;
    match op / 4 % 4 {
        0 => 56 - 8 * low,
        1 => 48 - 16 * (low / 2),
        2 => 32 - 32 * (low / 4),
        _ => 0,
    }
}

/// The low bytes of a value, as many as the operand has.
fn low_bytes(op: u8, u: u64) -> u64
    ensures { result ≡ u % values_of (width_of op) }
{
    u & most(op)
}

/// The operand at `addr`, of the octabyte v that `addr` names.
fn operand(op: u8, addr: u64, v: u64) -> u64
    ensures { result ≡ operand_in (width_of op) addr v }
{
    let shift = shift_of(op, addr);
    low_bytes(op, v >> shift)
}

/// The octabyte v with the low bytes of u as that operand.
pub fn merged(op: u8, addr: u64, v: u64, u: u64) -> u64
    ensures { result ≡ merged (width_of op) addr v u }
{
    let shift = shift_of(op, addr);
    let old = operand(op, addr, v);
    let new = low_bytes(op, u);
    v - (old << shift) + (new << shift)
}

/// An operand as an octabyte: its sign extended, or zeros.
fn extended(op: u8, u: u64) -> u64
    requires { u < values_of (width_of op) }
    ensures { result ≡ extended (width_of op) (sign_of op) u }
{
    if op / 2 % 2 != 0 {
        return u;
    }
    let most = most(op);
    if u <= most / 2 {
        return u;
    }
    u + (0xFFFF_FFFF_FFFF_FFFF - most)
}

/// Whether a store keeps the whole of u: it does where it is unsigned.
pub fn fits(op: u8, u: u64) -> bool
    ensures { result ≡ fits (width_of op) (sign_of op) u }
{
    if op / 2 % 2 != 0 {
        return true;
    }
    let low = low_bytes(op, u);
    extended(op, low) == u
}

/// What a load at `addr` brings, of the octabyte v that `addr` names: the operand, extended.
pub fn loaded(op: u8, addr: u64, v: u64) -> u64
    ensures { result ≡ extended (width_of op) (sign_of op) (operand_in (width_of op) addr v) }
{
    let u = operand(op, addr, v);
    extended(op, u)
}

/// The tetra at `addr`, of the octabyte v that `addr` names.
pub fn tetra_at(addr: u64, v: u64) -> u32
    ensures { result ≡ operand_in tetra addr v }
{
    let shift = 32 - 32 * (addr % 8 / 4);
    ((v >> shift) % 0x1_0000_0000) as u32
}
