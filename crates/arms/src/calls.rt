// Arms that work on the register stack's frames (control.rs: PUSHJ, PUSHGO, POP), in place: the stack moves registers and octabytes,
// and PC is sent on where that is done. State and windows are judged before the choice of the arm.
ghost use Rattle.model.specs.Lent.{state_lent, windows_lent, windows_read, SameState, SameWindows};
ghost use Rattle.arms.specs.Replied.{Replied};
ghost use Rattle.arms.specs.Arms.{call_to, return_of};

use model::{Instruction, Reply, StateMut, WindowsMut, WindowsRef};
use stack::frame::PopFrame;

/// Does not judge 2 or 22, nor 1 beyond rL ≤ rG ≤ 255: the caller has. A call of `target` with the hole that x makes.
pub fn push_to_judged(s: &mut StateMut<'_>, w: &mut WindowsMut<'_>, x: u8, target: u64) -> Reply
    ensures same { SameState s.old s.new × SameWindows w.old w.new }
    ensures replied { Replied (call_to (windows_lent w.old) (state_lent s.old) x target)
        result (state_lent s.new) (windows_lent w.new) }
{
    let reply = stack::push::push_frame_judged(s, w, x);
    if reply == Reply::Done {
        *s.pc = target;
    }
    reply
}

/// Does not judge 2 or 22, nor 1 beyond rL ≤ rG ≤ 255: the caller has. POP.
pub fn pop_to_judged(s: &mut StateMut<'_>, w: WindowsRef<'_>, i: &Instruction) -> Reply
    ensures same { SameState s.old s.new }
    ensures replied { Replied (return_of (windows_read w.entry) (state_lent s.old) i.now.x i.now.y i.now.z)
        result (state_lent s.new) (windows_read w.entry) }
{
    let yz = 256 * (i.y as u16) + i.z as u16;
    let found = stack::frame::pop_frame_judged(s, w, i.x, yz);
    match found {
        PopFrame::Frame(to) => {
            *s.pc = to;
            Reply::Done
        }
        PopFrame::NoFrame => Reply::NoFrame,
        PopFrame::Rejected => Reply::Misplaced,
        PopFrame::Missing => Reply::Missing,
        PopFrame::NotAdmissible => Reply::NotAdmissible,
        PopFrame::WindowRule => Reply::WindowRule,
        PopFrame::Shared => Reply::Shared,
    }
}
