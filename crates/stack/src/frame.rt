// Frames in place: POP. State and windows are judged by the layer above.
ghost use Rattle.std.specs.Prelude.{◌≡◌, List, false, ℕ, ◌+◌, ◌-◌, ◌*◌, ◌≤◌, min, get_or, set};
ghost use Rattle.model.specs.Fill.{over};
ghost use Rattle.model.specs.Memory.{shapes_of};
ghost use Rattle.model.specs.Plan.{worst};
ghost use Rattle.model.specs.Registers.{r_o, r_s, r_g, r_l, sp};
ghost use Rattle.model.specs.Frames.{count_of, last_output, misplaced};
ghost use Rattle.model.specs.PopOrder.{lowered};
ghost use Rattle.model.specs.Lent.{state_lent, windows_read, SameState};
ghost use Rattle.model.specs.Parts.{made};
ghost use Rattle.model.specs.Step.{refusing};
ghost use Rattle.model.specs.Numbers.{number_of};
ghost use Rattle.model.specs.declared.State.{State};
ghost use Rattle.machine.specs.Octas.{read_octa};
ghost use Rattle.stack.specs.GivenBack.{Refused, placed};
ghost use Rattle.stack.specs.PushPop.{pop_number, pop_answer, Held, Placed, bottom_of, between_by, popped_as, pop_in, PopGives};

use model::{Reply, State, StateMut, WindowsRef};

// No Result: POP's cases, each with its number, are promised by name (docs/DECISIONS.md, "Every `pub fn` is total").
/// What POP found at rO.
#[derive(Clone, Copy)]
pub enum PopFrame {
    /// A frame was popped; PC goes to the target.
    Frame(u64),
    /// rO is at or below the stack's start: the halt code is 1 (29).
    NoFrame,
    /// rO cannot hold a frame: the halt code is 1 (12).
    Rejected,
    /// A needed octabyte lies in neither window (6).
    Missing,
    /// The state is not admissible (1).
    NotAdmissible,
    /// A window breaks its rule (2).
    WindowRule,
    /// The two windows share an octabyte (22).
    Shared,
}

/// The case of a reply by which state or windows are refused.
#[tactic(auto, unfolding(model::specs::Numbers::number_of, crate::specs::PushPop::pop_number, crate::specs::PushPop::pop_answer))]
pub(crate) fn refused(reply: Reply) -> PopFrame
    requires { Refused (number_of reply) }
    ensures { (pop_number result ≡ number_of reply) × ((s : State) (yz : ℕ) → result ≡ pop_answer s yz (number_of reply)) }
{
    match reply {
        Reply::NotAdmissible => PopFrame::NotAdmissible,
        Reply::WindowRule => PopFrame::WindowRule,
        _ => PopFrame::Shared,
    }
}

/// Whether rG and rL are numbers of registers, in order.
#[tactic(auto, unfolding(crate::specs::GivenBack::placed))]
pub(crate) fn is_placed(rg: u64, rl: u64) -> bool
    ensures { (s : State) → sp s r_g ≡ rg → sp s r_l ≡ rl → result ≡ placed s }
{
    // A return of its own: of one expression the compiler makes no jump.
    if rg > 255 {
        return false;
    }
    rl <= rg
}

/// They become the octabytes from `addr` up.
#[tactic(auto, using(model::proofs::Fill::over_none))]
fn load_locals(general: &mut [u64; 256], windows: WindowsRef<'_>, addr: u64, n: u64)
    ensures { general.new
        ≡ over (λ (k : ℕ). read_octa (windows_read windows.entry) (addr + 8 * (k - 0))) 0 n general.old }
{
    if n == 0 {
        return;
    }
    machine::ranges::load_range(general, windows.a, windows.b, windows.at, addr, 0, n);
}

/// How many outputs there are.
#[tactic(auto, unfolding(model::specs::Frames::count_of))]
fn count_of(rl: u64, x: u8) -> u64
    requires { rl ≤ 255 }
    ensures { ((s : State) → sp s r_l ≡ rl → result ≡ count_of s x) × (result ≤ 256) }
{
    (x as u64).min(rl + 1)
}

/// The last output.
#[tactic(auto, unfolding(model::specs::Frames::last_output))]
fn last_output(general: &[u64; 256], rl: u64, x: u8) -> u64
    ensures { (special : List ℕ) (pc halt marks mask : ℕ) → get_or special r_l 0 ≡ rl
        → result ≡ last_output (made general.now special pc halt marks mask) x }
{
    if x == 0 || rl < x as u64 {
        return 0;
    }
    let i = x as usize - 1;
    general[i]
}

/// The restored locals and the outputs, which come first: the outputs above the hole, the last one in it, the locals below. Nothing from `low`, the
/// new rL, up is written; with no outputs that is the hole too.
fn restore(
    general: &mut [u64; 256],
    windows: WindowsRef<'_>,
    bottom: u64,
    rl: u64,
    x: u8,
    h: u64,
    low: u64,
)
    requires { (h ≤ 255) × (low ≤ 255) × (worst (refusing (shapes_of (windows_read windows))) bottom (min h low) ≡ 0) }
    ensures { (special : List ℕ) (pc halt marks mask : ℕ) → get_or special r_l 0 ≡ rl
        → low ≡ lowered (made general.old special pc halt marks mask) x h
        → made general.new special pc halt marks mask
        ≡ between_by (windows_read windows.entry) bottom (made general.old special pc halt marks mask) x h }
{
    let last = last_output(general, rl, x);
    super::slide::slide_up(general, h + 1, low);
    if h < low {
        general[h as usize] = last;
        load_locals(general, windows, bottom, h);
        return;
    }
    load_locals(general, windows, bottom, low);
}

/// Whether rO, above the stack's start, cannot hold a frame.
#[tactic(auto, using(crate::proofs::PushPopRegisters::misplaced_negative, crate::proofs::PushPopRegisters::misplaced_odd))]
fn is_misplaced(ro: u64) -> bool
    ensures { (s : State) → sp s r_o ≡ ro → result ≡ misplaced s }
{
    ro % 8 != 0 || model::number::is_negative(ro)
}

/// The special registers of a pop, which come last: the new rL, and rO and rS at the frame's bottom.
fn set_frame(special: &mut [u64; 32], low: u64, bottom: u64)
    ensures { special.new ≡ set (set (set special.old r_l low) r_o bottom) r_s bottom }
{
    special[State::RL] = low;
    special[State::RO] = bottom;
    special[State::RS] = bottom;
}

/// The registers after a pop with hole h: written, then cleared from the new rL to rG − 1; the special ones are set afterwards.
fn leave(general: &mut [u64; 256], special: &mut [u64; 32], windows: WindowsRef<'_>, x: u8, h: u64)
    requires { (Held special.old) × (h ≤ 255) × (Placed special.old)
        × (worst (refusing (shapes_of (windows_read windows))) (bottom_of special.old h) (min h (get_or special.old r_g 0)) ≡ 0) }
    ensures { (pc halt marks mask : ℕ) → made general.new special.new pc halt marks mask
        ≡ popped_as (windows_read windows.entry) (made general.old special.old pc halt marks mask) x h }
{
    let ro = special[State::RO];
    let rg = special[State::RG];
    let rl = special[State::RL];
    let bottom = model::number::wrapping_sub(ro, 8 * (h + 1));
    let count = count_of(rl, x);
    let low = (h + count).min(rg);
    restore(general, windows, bottom, rl, x, h, low);
    machine::registers::clear_range(general, low, rg);
    set_frame(special, low, bottom);
}

/// POP where rG and rL are placed, with rO above the stack's start and well placed.
fn pop_at(
    general: &mut [u64; 256],
    special: &mut [u64; 32],
    windows: WindowsRef<'_>,
    x: u8,
    yz: u16,
) -> PopFrame
    requires { (Held special.old) × (Placed special.old) }
    ensures { (pc halt marks mask : ℕ) → misplaced (made general.old special.old pc halt marks mask) ≡ false → PopGives
        (pop_in (windows_read windows.entry) (made general.old special.old pc halt marks mask) x)
        (made general.old special.old pc halt marks mask) yz result
        (made general.new special.new pc halt marks mask) }
{
    let ro = special[State::RO];
    let rg = special[State::RG];
    let rj = special[State::RJ];
    let below = model::number::wrapping_sub(ro, 8);
    let octa = machine::memory::read_octa(windows.a, windows.b, windows.at, below);
    if octa.holder.is_none() {
        return PopFrame::Missing;
    }
    let h = octa.value % 256;
    let bottom = model::number::wrapping_sub(ro, 8 * (h + 1));
    let n = h.min(rg);
    if machine::memory::run_refusal(windows.a, windows.b, windows.at, bottom, n) != Reply::Done {
        return PopFrame::Missing;
    }
    leave(general, special, windows, x, h);
    let target = model::number::wrapping_add(rj, 4 * (yz as u64));
    PopFrame::Frame(target)
}

/// Does not judge 2 or 22, nor 1 beyond rL ≤ rG ≤ 255: the caller has. POP x, yz.
pub fn pop_frame_judged(s: &mut StateMut<'_>, windows: WindowsRef<'_>, x: u8, yz: u16) -> PopFrame
    ensures same { SameState s.old s.new }
    ensures gives { PopGives (pop_in (windows_read windows.entry) (state_lent s.old) x) (state_lent s.old) yz result (state_lent s.new) }
{
    machine::registers::counted(s.general, s.special);
    let rg = s.special[State::RG];
    let rl = s.special[State::RL];
    let ro = s.special[State::RO];
    if !is_placed(rg, rl) {
        return PopFrame::NotAdmissible;
    }
    if ro <= State::STACK_START {
        *s.halt = 1;
        return PopFrame::NoFrame;
    }
    if is_misplaced(ro) {
        *s.halt = 1;
        return PopFrame::Rejected;
    }
    pop_at(s.general, s.special, windows, x, yz)
}
