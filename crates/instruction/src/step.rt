// One step in place: the judging of 1, 2 and 22, then the choice by opcode. The arms are in the other files.
ghost use Rattle.std.specs.Prelude.{◌≡◌, true, false};
ghost use Rattle.model.specs.Memory.{shapes_of};
ghost use Rattle.model.specs.Registers.{admissible};
ghost use Rattle.model.specs.Numbers.{number_of};
ghost use Rattle.model.specs.Opcodes.{first_branch, last_branch, among};
ghost use Rattle.model.specs.Lent.{state_lent, windows_lent, SameState, SameWindows};
ghost use Rattle.model.specs.Step.{unruled_by, step_of};
ghost use Rattle.arms.specs.Replied.{Replied};
ghost use Rattle.instruction.specs.StepAnswer.{Numbered};
ghost use Rattle.arms.specs.Arms.{NoCall, ranged_of};

use arms::{calls, control, load_store, operations, registers, saves, system};
use decode::{opcode, target};
use model::{Instruction, Reply, StateMut, WindowsMut};

/// The opcodes that come in ranges, the branches apart: a question for each range, then 3. PUT and PUTI are asked for together, so that their arm is called
/// once and stands in line.
fn by_range(s: &mut StateMut<'_>, w: &mut WindowsMut<'_>, i: &Instruction) -> Reply
    ensures same { SameState s.old s.new × SameWindows w.old w.new }
    ensures replied { Replied (ranged_of (windows_lent w.old) (state_lent s.old) i.now.op i.now.x i.now.y i.now.z)
        result (state_lent s.new) (windows_lent w.new) }
{
    if opcode::is_among(i.op, opcode::FIRST_LOAD, opcode::LAST_LOAD) {
        return load_store::load(s, w.read(), i);
    }
    if opcode::is_among(i.op, opcode::FIRST_STORE, opcode::LAST_STORE) {
        return load_store::store(s, w, i);
    }
    if opcode::is_among(i.op, opcode::FIRST_ARITHMETIC, opcode::LAST_ARITHMETIC) {
        return operations::compute(s, i);
    }
    if opcode::is_among(i.op, opcode::PUT, opcode::PUTI) {
        return system::put_by(s, i);
    }
    Reply::NoArm
}

/// The arm of an opcode that is no branch and no call, or 3. Each opcode of the match is a key by itself, so that the choice is a jump and no chain of tests.
fn by_key(s: &mut StateMut<'_>, w: &mut WindowsMut<'_>, i: &Instruction) -> Reply
    requires { (admissible (state_lent s.old) ≡ true)
        × (unruled_by (shapes_of (windows_lent w.old)) ≡ 0) × (among first_branch last_branch i.now.op ≡ false) × (NoCall i.now.op) }
    ensures same { SameState s.old s.new × SameWindows w.old w.new }
    ensures replied { Replied (step_of (windows_lent w.old) (state_lent s.old) i.now.op i.now.x i.now.y i.now.z)
        result (state_lent s.new) (windows_lent w.new) }
{
    match i.op {
        opcode::TRAP => exceptions::trap_arm(s, i),
        opcode::GO => control::go_by(s, i),
        opcode::GOI => control::go_by(s, i),
        opcode::JMP => control::jump(s.pc, i),
        opcode::JMPB => control::jump(s.pc, i),
        opcode::GETA => registers::get_address(s, i),
        opcode::GETAB => registers::get_address(s, i),
        opcode::POP => calls::pop_to_judged(s, w.read(), i),
        opcode::SAVE => saves::save_to_judged(s, w, i.x),
        opcode::UNSAVE => system::unsave_register(s, w.read(), i.z),
        opcode::SYNC => registers::synchronize(s.pc, s.halt, i),
        opcode::SWYM => system::skip(s.pc),
        opcode::GET => registers::get_special(s, i.x, i.z),
        opcode::TRIP => exceptions::trip_arm(s, i),
        _ => by_range(s, w, i),
    }
}

/// The arm, or 3, once 1, 2 and 22 have passed. This is the one place where an arm is chosen, by a step as by a run, so that the arms stand in line. The four
/// calls differ in their target alone: the frame is pushed in one place, so that its code stands in line.
pub(crate) fn dispatch(s: &mut StateMut<'_>, w: &mut WindowsMut<'_>, i: &Instruction) -> Reply
    requires { (admissible (state_lent s.old) ≡ true) × (unruled_by (shapes_of (windows_lent w.old)) ≡ 0) }
    ensures same { SameState s.old s.new × SameWindows w.old w.new }
    ensures replied { Replied (step_of (windows_lent w.old) (state_lent s.old) i.now.op i.now.x i.now.y i.now.z)
        result (state_lent s.new) (windows_lent w.new) }
{
    if opcode::is_among(i.op, opcode::FIRST_BRANCH, opcode::LAST_BRANCH) {
        return control::branch(s.general, s.pc, i);
    }
    // An arm a key here too.
    let target = match i.op {
        opcode::PUSHGO => control::sum(s.general, i),
        opcode::PUSHGOI => control::sum(s.general, i),
        opcode::PUSHJ => target::near(*s.pc, i),
        opcode::PUSHJB => target::near(*s.pc, i),
        _ => {
            return by_key(s, w, i);
        }
    };
    calls::push_to_judged(s, w, i.x, target)
}

/// One step in place: 1, then 2, then 22, then 3 to 5 and the instruction's own.
pub fn step(s: &mut StateMut<'_>, w: &mut WindowsMut<'_>, i: &Instruction) -> Reply
    ensures same { SameState s.old s.new × SameWindows w.old w.new }
    ensures numbered { Numbered (step_of (windows_lent w.old) (state_lent s.old) i.now.op i.now.x i.now.y i.now.z)
        (number_of result) (state_lent s.new) (windows_lent w.new) }
{
    let lent = w.read();
    let refused = stack::pass::refusal(s.special, s.marks, s.mask, lent.a, lent.b, lent.at);
    if refused != Reply::Done {
        return refused;
    }
    dispatch(s, w, i)
}
