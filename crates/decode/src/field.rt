// Which field reaches an address: the other way round of `target`.
ghost use Rattle.std.specs.Prelude.{◌≡◌, ◌^◌, ◌≤◌};
ghost use Rattle.model.specs.Control.{branch_fields, jump_fields};
ghost use Rattle.model.specs.Field.{field_of};

use super::target::{BRANCH_FIELDS, JUMP_FIELDS};
use model::Reach;

/// How many tetras there are, modulo 2^64 bytes.
const TETRAS: u64 = 0x4000_0000_0000_0000;

/// The one pair of direction and field, of `size` fields, that goes from an address to another.
fn field_of(size: u64, from: u64, to: u64) -> Reach
    requires { size ≤ 2 ^ 24 }
    ensures { result ≡ field_of size from to }
{
    let distance = model::number::wrapping_sub(to, from);
    if distance % 4 != 0 {
        return Reach::Neither;
    }
    let ahead = distance / 4;
    if ahead < size {
        return Reach::Forward(ahead as u32);
    }
    let farthest = TETRAS - size;
    if ahead < farthest {
        return Reach::Neither;
    }
    Reach::Backward((ahead - farthest) as u32)
}

/// The field YZ of a branch, PUSHJ or GETA.
pub fn branch_field(from: u64, to: u64) -> Reach
    ensures { result ≡ field_of branch_fields from to }
{
    field_of(BRANCH_FIELDS, from, to)
}

/// The field XYZ of a jump.
pub fn jump_field(from: u64, to: u64) -> Reach
    ensures { result ≡ field_of jump_fields from to }
{
    field_of(JUMP_FIELDS, from, to)
}
