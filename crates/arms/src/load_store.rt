// Loads and stores, once 1, 2 and 22 have passed.
ghost use Rattle.model.specs.Lent.{state_lent, windows_lent, windows_read, SameState, SameWindows};
ghost use Rattle.arms.specs.Replied.{Replied};
ghost use Rattle.arms.specs.Arms.{load_of, store_of};

use super::control;
use decode::{operand, target, word};
use exceptions::Kept;
use model::{Instruction, Reply, StateMut, WindowsMut, WindowsRef};

/// Integer overflow, among the flags of an exception.
const FLAG_V: u8 = 0x40;

/// LDB to LDOU: 6 comes before $X is claimed.
pub fn load(s: &mut StateMut<'_>, w: WindowsRef<'_>, i: &Instruction) -> Reply
    ensures same { SameState s.old s.new }
    ensures replied { Replied (load_of (windows_read w.entry) (state_lent s.old) i.now.op i.now.x i.now.y i.now.z)
        result (state_lent s.new) (windows_read w.entry) }
{
    let addr = control::sum(s.general, i);
    if stack::pass::run_refusal(w.a, w.b, w.at, addr, 1) != Reply::Done {
        return Reply::Missing;
    }
    let found = stack::pass::read_octa(w.a, w.b, w.at, addr);
    let u = operand::loaded(i.op, addr, found.value);
    stack::pass::set_register(s.general, s.special, i.x, u);
    *s.pc = target::following(*s.pc);
    Reply::Done
}

/// STB to STOU: the store is made, then V is raised where $X does not fit.
pub fn store(s: &mut StateMut<'_>, w: &mut WindowsMut<'_>, i: &Instruction) -> Reply
    ensures same { SameState s.old s.new × SameWindows w.old w.new }
    ensures replied { Replied (store_of (windows_lent w.old) (state_lent s.old) i.now.op i.now.x i.now.y i.now.z)
        result (state_lent s.new) (windows_lent w.new) }
{
    let addr = control::sum(s.general, i);
    let lent = w.read();
    if stack::pass::run_refusal(lent.a, lent.b, lent.at, addr, 1) != Reply::Done {
        return Reply::Missing;
    }
    let found = stack::pass::read_octa(lent.a, lent.b, lent.at, addr);
    let u = s.general[i.x as usize];
    let merged = operand::merged(i.op, addr, found.value, u);
    let at = w.at;
    stack::pass::write_octa(w.a, w.b, at, addr, merged);
    if operand::fits(i.op, u) {
        *s.pc = target::following(*s.pc);
        return Reply::Done;
    }
    let word = word::word_of(i);
    exceptions::raise(
        s,
        FLAG_V,
        Kept {
            word,
            y: addr,
            z: u,
        },
    )
}
