// One step and one exception on a state by value. 01: "`&mut self` becomes self by value", so each entry that the Rust has
// with `&mut self` is here under its name: the bench program's language takes `step`; nothing in this repository calls `raise_exceptions`.
ghost use Rattle.model.specs.Numbers.{number_of};
ghost use Rattle.model.specs.Step.{step_of, exception_of};
ghost use Rattle.model.specs.Lent.{windows_lent, SameWindows};
ghost use Rattle.exceptions.specs.Told.{Told};
ghost use Rattle.instruction.specs.StepAnswer.{Numbered};

use model::{Answer, Instruction, State, StateMut, WindowsMut};

/// One exception on a state by value.
pub fn raise_exceptions(mut state: State, flags: u8, i: &Instruction, y: u64, z: u64) -> Answer
    ensures { Told (exception_of state flags i.now.op i.now.x i.now.y i.now.z y z) result.reply result.state }
{
    let mut s = StateMut {
        general: &mut state.general,
        special: &mut state.special,
        pc: &mut state.pc,
        halt: &mut state.halt,
        marks: state.marks,
        mask: state.mask,
    };
    let reply = exceptions::raise_exceptions(&mut s, flags, i, y, z);
    Answer { reply, state }
}

/// One step on a state by value and the two windows.
pub fn step(mut state: State, w: &mut WindowsMut<'_>, i: &Instruction) -> Answer
    ensures same { SameWindows w.old w.new }
    ensures numbered { Numbered (step_of (windows_lent w.old) state i.now.op i.now.x i.now.y i.now.z)
        (number_of result.reply) result.state (windows_lent w.new) }
{
    let mut s = StateMut {
        general: &mut state.general,
        special: &mut state.special,
        pc: &mut state.pc,
        halt: &mut state.halt,
        marks: state.marks,
        mask: state.mask,
    };
    let reply = super::step::step(&mut s, w, i);
    Answer { reply, state }
}
