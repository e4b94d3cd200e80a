// An instruction's word, as a trip and a trap keep it (exceptions.rs).
ghost use Rattle.std.specs.Prelude.{◌≡◌, ◌^◌, ◌<◌};
ghost use Rattle.model.specs.Control.{xyz_of};
ghost use Rattle.model.specs.Trips.{word_of};

use model::Instruction;

/// The field XYZ.
pub fn xyz_of(i: &Instruction) -> u64
    ensures { (result ≡ xyz_of i.now.x i.now.y i.now.z) × (result < 2 ^ 24) }
{
    65536 * u64::from(i.x) + (256 * u64::from(i.y) + u64::from(i.z))
}

/// 2^63 + op × 2^24 + XYZ.
pub fn word_of(i: &Instruction) -> u64
    ensures { result ≡ word_of i.now.op i.now.x i.now.y i.now.z }
{
    0x8000000000000000 + u64::from(i.op) * 0x1000000 + xyz_of(i)
}
