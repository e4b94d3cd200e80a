// The Rust's functions on a state by value, under its names: 1, 2 and 22 are judged, the work is done in place on its fields. 01 asks for them;
// the layer above works in place and calls none.
ghost use Rattle.model.specs.Lent.{windows_lent, windows_read, SameWindows};
ghost use Rattle.contexts.specs.SaveUnsave.{SaveGives, UnsaveGives};

use super::context;
use model::{Answer, Reply, State, StateMut, WindowsMut, WindowsRef};

pub fn save_context(mut state: State, w: &mut WindowsMut<'_>, x: u8) -> Answer
    ensures same { SameWindows w.old w.new }
    ensures gives { SaveGives (windows_lent w.old) state x result.reply result.state (windows_lent w.new) }
{
    let lent = w.read();
    let refusal = stack::pass::refusal(
        &state.special,
        state.marks,
        state.mask,
        lent.a,
        lent.b,
        lent.at,
    );
    if refusal != Reply::Done {
        return Answer {
            reply: refusal,
            state,
        };
    }
    let mut s = StateMut {
        general: &mut state.general,
        special: &mut state.special,
        pc: &mut state.pc,
        halt: &mut state.halt,
        marks: state.marks,
        mask: state.mask,
    };
    let reply = context::save_context_judged(&mut s, w, x);
    Answer { reply, state }
}

pub fn unsave_context(mut state: State, windows: WindowsRef<'_>, address: u64) -> Answer
    ensures { UnsaveGives (windows_read windows.entry) state address result.reply result.state }
{
    let refusal = stack::pass::refusal(
        &state.special,
        state.marks,
        state.mask,
        windows.a,
        windows.b,
        windows.at,
    );
    if refusal != Reply::Done {
        return Answer {
            reply: refusal,
            state,
        };
    }
    let mut s = StateMut {
        general: &mut state.general,
        special: &mut state.special,
        pc: &mut state.pc,
        halt: &mut state.halt,
        marks: state.marks,
        mask: state.mask,
    };
    let reply = context::unsave_context_judged(&mut s, windows, address);
    Answer { reply, state }
}
