// The arms of system.rs that are more than a call of another file's.
ghost use Rattle.std.specs.Prelude.{List, ℕ};
ghost use Rattle.model.specs.Registers.{next};
ghost use Rattle.model.specs.NoMemory.{say};
ghost use Rattle.model.specs.Parts.{made};
ghost use Rattle.model.specs.Lent.{state_lent, windows_read, SameState};
ghost use Rattle.exceptions.specs.Told.{Told};
ghost use Rattle.arms.specs.NoMemoryArms.{put_of};
ghost use Rattle.arms.specs.Replied.{Replied};
ghost use Rattle.arms.specs.Arms.{unsave_at};

use super::{operations, registers, saves};
use model::{Instruction, Reply, StateMut, WindowsRef};

/// SWYM.
pub fn skip(pc: &mut u64) -> Reply
    ensures { (general special : List ℕ) (halt marks mask : ℕ) → Told (say 0 (next (made general special pc.old halt marks mask)))
        result (made general special pc.new halt marks mask) }
{
    *pc = decode::target::following(*pc);
    Reply::Done
}

/// PUT of $z and PUTI of z.
pub fn put_by(s: &mut StateMut<'_>, i: &Instruction) -> Reply
    ensures same { SameState s.old s.new }
    ensures told { Told (put_of (state_lent s.old) i.now.op i.now.x i.now.z) result (state_lent s.new) }
{
    let value = operations::last(s.general, i);
    registers::put_value(s, i.x, value)
}

/// UNSAVE: the context's address is $z.
pub fn unsave_register(s: &mut StateMut<'_>, w: WindowsRef<'_>, z: u8) -> Reply
    ensures same { SameState s.old s.new }
    ensures replied { Replied (unsave_at (windows_read w.entry) (state_lent s.old) z)
        result (state_lent s.new) (windows_read w.entry) }
{
    let address = s.general[z as usize];
    saves::unsave_from_judged(s, w, address)
}
