// Where an instruction goes, and what a branch asks (control.rs).
ghost use Rattle.std.specs.Prelude.{◌≡◌, ◌+◌, ◌%◌, ◌^◌, ◌<◌, ◌≤◌};
ghost use Rattle.std.specs.Int.Signed.{mag};
ghost use Rattle.model.specs.Opcodes.{direction_of, condition_of};
ghost use Rattle.model.specs.Control.{branch_fields, jump_fields, yz_of, xyz_of, target_of, holds};
ghost use Rattle.decode.specs.Counts.{count_of, moved_by};

use model::Instruction;

/// How many fields YZ there are, and how many XYZ.
pub const BRANCH_FIELDS: u64 = 65536;

pub const JUMP_FIELDS: u64 = 16777216;

/// @ + 4.
pub fn following(pc: u64) -> u64
    ensures { result ≡ (pc + 4) % 2 ^ 64 }
{
    model::number::wrapping_add(pc, 4)
}

/// The address of a signed count of tetras from `pc`: the count, multiplied by 4, is the offset that is applied.
fn move_by(pc: u64, count: i64) -> u64
    requires { mag count < 2 ^ 24 }
    ensures { result ≡ moved_by pc count }
{
    let offset = 4 * count;
    if offset < 0 {
        return model::number::wrapping_sub(pc, (0 - offset) as u64);
    }
    model::number::wrapping_add(pc, offset as u64)
}

/// A field of `size` values as a signed count: itself where the opcode is even; field − size, a negative one, where it is odd.
fn count_of(op: u8, size: u64, field: u64) -> i64
    requires { (field < size) × (size ≤ 2 ^ 24) }
    ensures { result ≡ count_of (direction_of op) size field }
{
    if op % 2 == 0 {
        return field as i64;
    }
    field as i64 - size as i64
}

/// The target of a field of `size` values: an odd opcode's is field − size, a negative count.
fn target_of(pc: u64, op: u8, size: u64, field: u64) -> u64
    requires { (field < size) × (size ≤ 2 ^ 24) }
    ensures { result ≡ target_of pc (direction_of op) size field }
{
    move_by(pc, count_of(op, size, field))
}

/// The target of a field YZ: an odd opcode's is YZ − 65536, a negative count.
pub fn near(pc: u64, i: &Instruction) -> u64
    ensures { result ≡ target_of pc (direction_of i.now.op) branch_fields (yz_of i.now.y i.now.z) }
{
    let field = 256 * u64::from(i.y) + u64::from(i.z);
    target_of(pc, i.op, BRANCH_FIELDS, field)
}

/// The target of a field XYZ: an odd opcode's is XYZ − 16777216, a negative count.
pub fn far(pc: u64, i: &Instruction) -> u64
    ensures { result ≡ target_of pc (direction_of i.now.op) jump_fields (xyz_of i.now.x i.now.y i.now.z) }
{
    let field = super::word::xyz_of(i);
    target_of(pc, i.op, JUMP_FIELDS, field)
}

/// Whether a branch with opcode `op` is taken on a register that holds v.
#[tactic(auto, unfolding(model::specs::Control::holds, model::specs::Opcodes::condition_of))]
pub fn is_taken(op: u8, v: u64) -> bool
    ensures { result ≡ holds (condition_of op) v }
{
    let negative = model::number::is_negative(v);
    match op / 2 % 8 {
        0 => negative,
        1 => v == 0,
        2 => !negative && v != 0,
        3 => v % 2 == 1,
        4 => !negative,
        5 => v != 0,
        6 => negative || v == 0,
        _ => v % 2 == 0,
    }
}
