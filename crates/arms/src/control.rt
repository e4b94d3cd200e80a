// The arms of control.rs that are more than a call of another file's; the question for the branches.
ghost use Rattle.std.specs.Prelude.{◌≡◌, List, ℕ};
ghost use Rattle.model.specs.Opcodes.{last_of};
ghost use Rattle.model.specs.NoMemory.{say};
ghost use Rattle.model.specs.Control.{sum_of};
ghost use Rattle.model.specs.Parts.{made};
ghost use Rattle.model.specs.Lent.{state_lent, SameState};
ghost use Rattle.exceptions.specs.Told.{Told};
ghost use Rattle.arms.specs.Arms.{branch_of, jump_of, go_of};

use super::registers;
use decode::target;
use model::{Instruction, Reply, StateMut};

/// A branch.
pub fn branch(general: &[u64; 256], pc: &mut u64, i: &Instruction) -> Reply
    ensures { (special : List ℕ) (halt marks mask : ℕ) → Told
        (say 0 (branch_of (made general.now special pc.old halt marks mask) i.now.op i.now.x i.now.y i.now.z))
        result (made general.now special pc.new halt marks mask) }
{
    let at = *pc;
    if target::is_taken(i.op, general[i.x as usize]) {
        *pc = target::near(at, i);
        return Reply::Done;
    }
    *pc = target::following(at);
    Reply::Done
}

/// JMP and JMPB.
pub fn jump(pc: &mut u64, i: &Instruction) -> Reply
    ensures { (general special : List ℕ) (halt marks mask : ℕ) → Told
        (say 0 (jump_of (made general special pc.old halt marks mask) i.now.op i.now.x i.now.y i.now.z))
        result (made general special pc.new halt marks mask) }
{
    *pc = target::far(*pc, i);
    Reply::Done
}

/// $Y + $Z for an even opcode, $Y + Z for an odd one.
pub fn sum(general: &[u64; 256], i: &Instruction) -> u64
    ensures { (special : List ℕ) (pc halt marks mask : ℕ) → result
        ≡ sum_of (made general.now special pc halt marks mask) (last_of i.now.op) i.now.y i.now.z }
{
    let first = general[i.y as usize];
    if i.op % 2 == 0 {
        return model::number::wrapping_add(first, general[i.z as usize]);
    }
    model::number::wrapping_add(first, i.z as u64)
}

/// GO and GOI.
pub fn go_by(s: &mut StateMut<'_>, i: &Instruction) -> Reply
    ensures same { SameState s.old s.new }
    ensures told { Told (say 0 (go_of (state_lent s.old) i.now.op i.now.x i.now.y i.now.z)) result (state_lent s.new) }
{
    let target = sum(s.general, i);
    registers::go_to(s, i.x, target);
    Reply::Done
}
