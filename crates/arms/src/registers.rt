// Arms that move nothing but registers (control.rs: GETA, GO; system.rs: PUT, GET, SYNC), in place. Each is the arm once 1 to 5
// have passed, whatever the state.
ghost use Rattle.std.specs.Prelude.{◌≡◌, List, ℕ};
ghost use Rattle.model.specs.NoMemory.{say};
ghost use Rattle.model.specs.Control.{xyz_of};
ghost use Rattle.model.specs.System.{put_special, sync_of};
ghost use Rattle.model.specs.Parts.{made};
ghost use Rattle.model.specs.Lent.{state_lent, SameState};
ghost use Rattle.exceptions.specs.Told.{Told};
ghost use Rattle.arms.specs.NoMemoryArms.{get_of};
ghost use Rattle.arms.specs.Arms.{address_of, go_to};

use decode::{target, word};
use model::{Instruction, Reply, State, StateMut};

/// The special register of the highest number.
const LAST_SPECIAL: u8 = State::RZZ as u8;

/// SYNC has the fields 0 to 7, of which the kernel's start at 4.
const LAST_SYNC: u64 = 7;

const FIRST_KERNEL_SYNC: u64 = 4;

/// GETA and GETAB.
pub fn get_address(s: &mut StateMut<'_>, i: &Instruction) -> Reply
    ensures same { SameState s.old s.new }
    ensures told { Told (say 0 (address_of (state_lent s.old) i.now.op i.now.x i.now.y i.now.z)) result (state_lent s.new) }
{
    let at = *s.pc;
    stack::pass::set_register(s.general, s.special, i.x, target::near(at, i));
    *s.pc = target::following(at);
    Reply::Done
}

/// GO and GOI to a target that was read first.
pub fn go_to(s: &mut StateMut<'_>, x: u8, target: u64)
    ensures same { SameState s.old s.new }
    ensures went { state_lent s.new ≡ go_to (state_lent s.old) x target }
{
    stack::pass::set_register(s.general, s.special, x, target::following(*s.pc));
    *s.pc = target;
}

/// GET: 5 where there is no special register z, 31 where the mask hides it.
pub fn get_special(s: &mut StateMut<'_>, x: u8, z: u8) -> Reply
    ensures same { SameState s.old s.new }
    ensures told { Told (get_of (state_lent s.old) x z) result (state_lent s.new) }
{
    if z > LAST_SPECIAL {
        return Reply::NoSpecial;
    }
    if stack::pass::is_hidden(s.mask, z) {
        *s.halt = 1;
        return Reply::Hidden;
    }
    let v = s.special[z as usize];
    stack::pass::set_register(s.general, s.special, x, v);
    *s.pc = target::following(*s.pc);
    Reply::Done
}

/// PUT and PUTI of a value: 31 where the mask hides special register x, then 7 to 11.
pub fn put_value(s: &mut StateMut<'_>, x: u8, value: u64) -> Reply
    ensures same { SameState s.old s.new }
    ensures told { Told (put_special (state_lent s.old) x value) result (state_lent s.new) }
{
    if stack::pass::is_hidden(s.mask, x) {
        *s.halt = 1;
        return Reply::Hidden;
    }
    let reply = stack::pass::put_special(s.general, s.special, x, value);
    if reply == Reply::Done {
        *s.pc = target::following(*s.pc);
    } else {
        *s.halt = 1;
    }
    reply
}

/// SYNC.
pub fn synchronize(pc: &mut u64, halt: &mut u64, i: &Instruction) -> Reply
    ensures { (general special : List ℕ) (marks mask : ℕ) → Told
        (sync_of (made general special pc.old halt.old marks mask) (xyz_of i.now.x i.now.y i.now.z))
        result (made general special pc.new halt.new marks mask) }
{
    let xyz = word::xyz_of(i);
    if LAST_SYNC < xyz {
        *halt = 1;
        return Reply::SyncIllegal;
    }
    if FIRST_KERNEL_SYNC <= xyz {
        *halt = 1;
        return Reply::SyncPrivileged;
    }
    *pc = target::following(*pc);
    Reply::Done
}
