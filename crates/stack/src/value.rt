// The Rust's functions on a state by value, under its names: 1, 2 and 22 are judged, the work is done in place on its fields. 01 asks for them;
// the layer above works in place and calls none.
ghost use Rattle.model.specs.Lent.{windows_lent, windows_read, SameWindows};
ghost use Rattle.stack.specs.PushPop.{PushGives, pop_of, PopGives};

use super::frame::PopFrame;
use super::{frame, pass, push};
use model::{Answer, Reply, State, StateMut, WindowsMut, WindowsRef};

/// What POP found and the state that it leaves.
#[derive(Clone, Copy)]
pub struct Popped {
    pub answer: PopFrame,
    pub state: State,
}

pub fn push_frame(mut state: State, w: &mut WindowsMut<'_>, x: u8) -> Answer
    ensures same { SameWindows w.old w.new }
    ensures gives { PushGives (windows_lent w.old) state x result.reply result.state (windows_lent w.new) }
{
    let lent = w.read();
    let refusal = pass::refusal(
        &state.special,
        state.marks,
        state.mask,
        lent.a,
        lent.b,
        lent.at,
    );
    if refusal != Reply::Done {
        return Answer {
            reply: refusal,
            state,
        };
    }
    let mut s = StateMut {
        general: &mut state.general,
        special: &mut state.special,
        pc: &mut state.pc,
        halt: &mut state.halt,
        marks: state.marks,
        mask: state.mask,
    };
    let reply = push::push_frame_judged(&mut s, w, x);
    Answer { reply, state }
}

pub fn pop_frame(mut state: State, windows: WindowsRef<'_>, x: u8, yz: u16) -> Popped
    ensures { PopGives (pop_of (windows_read windows.entry) state x) state yz result.answer result.state }
{
    let refusal = pass::refusal(
        &state.special,
        state.marks,
        state.mask,
        windows.a,
        windows.b,
        windows.at,
    );
    if refusal != Reply::Done {
        return Popped {
            answer: frame::refused(refusal),
            state,
        };
    }
    let mut s = StateMut {
        general: &mut state.general,
        special: &mut state.special,
        pc: &mut state.pc,
        halt: &mut state.halt,
        marks: state.marks,
        mask: state.mask,
    };
    let answer = frame::pop_frame_judged(&mut s, windows, x, yz);
    Popped { answer, state }
}
