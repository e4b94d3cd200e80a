// Frames in place: PUSH. State and windows are judged by the layer above.
ghost use Rattle.std.specs.Prelude.{◌≡◌, List, ℕ, ◌+◌, ◌*◌, ◌≤◌};
ghost use Rattle.model.specs.Fill.{tab};
ghost use Rattle.model.specs.Memory.{shapes_of, both};
ghost use Rattle.model.specs.Plan.{worst, puts};
ghost use Rattle.model.specs.Registers.{r_g, r_l, sp};
ghost use Rattle.model.specs.Frames.{hole, framed, pushed};
ghost use Rattle.model.specs.Lent.{state_lent, windows_lent, SameState, SameWindows};
ghost use Rattle.model.specs.Step.{refusing};
ghost use Rattle.model.specs.declared.State.{State};
ghost use Rattle.machine.specs.Octas.{written_range};
ghost use Rattle.stack.specs.GivenBack.{Gives};
ghost use Rattle.stack.specs.PushPop.{Held, push_in};

use super::frame::is_placed;
use model::{Reply, State, StateMut, WindowsMut};

/// The hole's number.
#[tactic(auto, unfolding(model::specs::Frames::hole))]
fn hole_of(rg: u64, rl: u64, x: u8) -> u64
    requires { rl ≤ 255 }
    ensures { ((s : State) → sp s r_g ≡ rg → sp s r_l ≡ rl → result ≡ hole s x) × (result ≤ 255) }
{
    let at = x as u64;
    if rg <= at {
        return rl;
    }
    at
}

/// The first n general registers go to the octabytes from `addr` up; where there are none it is no call.
#[tactic(auto, using(machine::proofs::Octas::run_none), unfolding(machine::specs::Octas::written_range_by))]
fn store_locals(general: &[u64; 256], w: &mut WindowsMut<'_>, addr: u64, n: u64)
    ensures same { SameWindows w.old w.new }
    ensures stored { windows_lent w.new ≡ written_range (windows_lent w.old) addr 0 n general.now }
{
    if n == 0 {
        return;
    }
    let at = w.at;
    machine::ranges::store_range(general, w.a, w.b, at, addr, 0, n);
}

/// The frame with hole h, stored from rO up.
fn store_frame(s: &StateMut<'_>, w: &mut WindowsMut<'_>, ro: u64, h: u64)
    requires { (h ≤ 255) × (worst (refusing (shapes_of (windows_lent w.old))) ro (h + 1) ≡ 0) }
    ensures same { SameWindows w.old w.new }
    ensures stored { windows_lent w.new
        ≡ puts both (windows_lent w.old) ro (tab 0 (h + 1) (framed (state_lent s.now) h)) }
{
    store_locals(s.general, w, ro, h);
    let at = w.at;
    let addr = model::number::wrapping_add(ro, 8 * h);
    machine::memory::write_octa(w.a, w.b, at, addr, h);
}

/// The registers after a push with hole h. rG is handed on: what is read anew is not known to be at most 255.
fn enter(s: &mut StateMut<'_>, h: u64, rg: u64)
    requires { (Held s.old.special.now) × (h ≤ 255) × (rg ≡ sp (state_lent s.old) r_g) }
    ensures same { SameState s.old s.new }
    ensures pushed { state_lent s.new ≡ pushed (state_lent s.old) h }
{
    let ro = s.special[State::RO];
    let rl = s.special[State::RL];
    let n = rl.saturating_sub(h + 1);
    let new_ro = model::number::wrapping_add(ro, 8 * (h + 1));
    let rj = model::number::wrapping_add(*s.pc, 4);
    super::slide::slide(s.general, h + 1, n);
    machine::registers::clear_range(s.general, n, rg);
    s.special[State::RL] = n;
    s.special[State::RO] = new_ro;
    s.special[State::RJ] = rj;
    s.special[State::RS] = new_ro;
}

/// Does not judge 2 or 22, nor 1 beyond rL ≤ rG ≤ 255: the caller has. PUSH with x: the frame goes to the windows at rO, and the callee gets the registers
/// above the hole.
pub fn push_frame_judged(s: &mut StateMut<'_>, w: &mut WindowsMut<'_>, x: u8) -> Reply
    ensures same { SameState s.old s.new × SameWindows w.old w.new }
    ensures gives { Gives (push_in (windows_lent w.old) (state_lent s.old) x) (state_lent s.old) result
        (state_lent s.new) (windows_lent w.new) }
{
    machine::registers::counted(s.general, s.special);
    let rg = s.special[State::RG];
    let rl = s.special[State::RL];
    let ro = s.special[State::RO];
    if !is_placed(rg, rl) {
        return Reply::NotAdmissible;
    }
    let h = hole_of(rg, rl, x);
    let lent = w.read();
    let reply = machine::memory::run_refusal(lent.a, lent.b, lent.at, ro, h + 1);
    if reply != Reply::Done {
        return reply;
    }
    store_frame(s, w, ro, h);
    enter(s, h, rg);
    Reply::Done
}
