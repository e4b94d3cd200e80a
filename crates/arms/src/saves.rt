// Arms that work on saved contexts (system.rs: SAVE, UNSAVE), in place: the stack moves registers and octabytes, and PC goes on to
// @ + 4 where that is done. State and windows are judged before the choice of the arm.
ghost use Rattle.contexts.specs.SaveUnsave.{save_in, unsave_in};
ghost use Rattle.model.specs.Lent.{state_lent, windows_lent, windows_read, SameState, SameWindows};
ghost use Rattle.arms.specs.Replied.{Replied};

use contexts::context;
use decode::target;
use model::{Reply, StateMut, WindowsMut, WindowsRef};

/// Does not judge 2 or 22: the caller has; 1 is judged. SAVE $x.
pub fn save_to_judged(s: &mut StateMut<'_>, w: &mut WindowsMut<'_>, x: u8) -> Reply
    ensures same { SameState s.old s.new × SameWindows w.old w.new }
    ensures replied { Replied (save_in (windows_lent w.old) (state_lent s.old) x)
        result (state_lent s.new) (windows_lent w.new) }
{
    let reply = context::save_context_judged(s, w, x);
    if reply == Reply::Done {
        *s.pc = target::following(*s.pc);
    }
    reply
}

/// Does not judge 1, 2 or 22: the caller has. UNSAVE of the context at `address`.
pub fn unsave_from_judged(s: &mut StateMut<'_>, w: WindowsRef<'_>, address: u64) -> Reply
    ensures same { SameState s.old s.new }
    ensures replied { Replied (unsave_in (windows_read w.entry) (state_lent s.old) address)
        result (state_lent s.new) (windows_read w.entry) }
{
    let reply = context::unsave_context_judged(s, w, address);
    if reply == Reply::Done {
        *s.pc = target::following(*s.pc);
    }
    reply
}
