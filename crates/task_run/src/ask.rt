// Whether the instruction at PC needs an octabyte of B outside its task's part: what it needs on A and the part, arm by arm. It is asked of an
// instruction that was refused, so that nothing of it is done.
ghost use Rattle.std.specs.Prelude.{◌≡◌, true, cond, List, [], ℕ, ◌+◌, ◌≤◌, ltb};
ghost use Rattle.model.specs.Memory.{shapes_of};
ghost use Rattle.model.specs.Plan.{ups};
ghost use Rattle.model.specs.Registers.{r_o, r_g, sp, admissible};
ghost use Rattle.model.specs.Opcodes.{arm_of};
ghost use Rattle.model.specs.Frames.{hole};
ghost use Rattle.model.specs.Contexts.{extent};
ghost use Rattle.model.specs.Step.{unruled_by, fetched_needs};
ghost use Rattle.model.specs.StepNeeds.{pop_needs, unsave_needs_count, unsave_needs, arm_needs};
ghost use Rattle.model.specs.Parts.{made};
ghost use Rattle.model.specs.Lent.{state_lent, windows_read};
ghost use Rattle.task_run.specs.Ask.{is_foreign, asks, OwnOnly, CountsInRange};

use super::Part;
use contexts::layout;
use decode::opcode;
use model::{Instruction, State, StateMut, WindowsRef};

/// Where the whole of B lies and which part of it is the task's own.
#[derive(Clone, Copy)]
pub(crate) struct Whole {
    pub base: u64,
    pub len: u64,
    pub part: Part,
}

/// Whether the octabyte that `addr` names lies in B outside the part.
#[tactic(auto, unfolding(task_model::specs::Tasks::foreign, model::specs::Memory::has))]
fn is_foreign(whole: Whole, addr: u64) -> bool
    ensures { result ≡ is_foreign whole addr }
{
    let at = machine::window::distance(whole.base, addr);
    8 <= whole.len && at <= whole.len - 8 && !whole.part.owns(at)
}

/// Whether one of the n octabytes from `addr` up does.
fn has_foreign(whole: Whole, addr: u64, n: u64) -> bool
    ensures { result ≡ asks whole (ups addr n) }
{
    let mut place = addr;
    for _ in 0..n {
        if is_foreign(whole, place) {
            return true;
        }
        place = model::number::wrapping_add(place, 8);
    }
    false
}

/// A call's frame.
#[tactic(auto, unfolding(model::specs::Frames::hole))]
fn push_asks(special: &[u64; 32], whole: Whole, x: u8) -> bool
    requires { CountsInRange special.now }
    ensures { (general : List ℕ) (pc halt marks mask : ℕ) → result
        ≡ asks whole (ups (sp (made general special.now pc halt marks mask) r_o)
        (hole (made general special.now pc halt marks mask) x + 1)) }
{
    let rg = special[State::RG];
    let rl = special[State::RL];
    let ro = special[State::RO];
    let at = x as u64;
    let hole = if rg <= at { rl } else { at };
    has_foreign(whole, ro, hole + 1)
}

// One test after another, as POP judges: where it is refused, nothing is asked for.
/// POP's octabyte below rO, and then the locals.
fn pop_asks(special: &[u64; 32], windows: WindowsRef<'_>, whole: Whole) -> bool
    requires { OwnOnly whole (windows_read windows) }
    ensures { (general : List ℕ) (pc halt marks mask : ℕ) → result
        ≡ asks whole (pop_needs (windows_read windows.entry) (made general special.now pc halt marks mask)) }
{
    let ro = special[State::RO];
    let rg = special[State::RG];
    if ro <= State::STACK_START {
        return false;
    }
    if ro % 8 != 0 {
        return false;
    }
    if model::number::is_negative(ro) {
        return false;
    }
    let below = ro - 8;
    if is_foreign(whole, below) {
        return true;
    }
    let octa = machine::memory::read_octa(windows.a, windows.b, windows.at, below);
    if octa.holder.is_none() {
        return false;
    }
    let h = octa.value % 256;
    let n = h.min(rg);
    has_foreign(whole, ro - 8 * (h + 1), n)
}

/// The context that SAVE stores.
fn save_asks(special: &[u64; 32], whole: Whole, x: u8) -> bool
    requires { CountsInRange special.now }
    ensures { (general : List ℕ) (pc halt marks mask : ℕ) → result
        ≡ asks whole (cond (ltb x (sp (made general special.now pc halt marks mask) r_g)) []
        (ups (sp (made general special.now pc halt marks mask) r_o) (extent (made general special.now pc halt marks mask)))) }
{
    let rg = special[State::RG];
    let rl = special[State::RL];
    let ro = special[State::RO];
    if (x as u64) < rg {
        return false;
    }
    has_foreign(whole, ro, rl + layout::CONTEXT_OCTAS - rg)
}

/// The local count of a context with the threshold rg, then the rest. (Not by the stack's layout: what has one caller stands in line there.)
fn count_asks(windows: WindowsRef<'_>, whole: Whole, address: u64, rg: u64) -> bool
    requires { (32 ≤ rg) × (rg ≤ 255) × OwnOnly whole (windows_read windows) }
    ensures { (ra : ℕ) → ra ≤ 0x3FFFF → result ≡ asks whole (unsave_needs_count (windows_read windows.entry) address rg ra) }
{
    let marker = model::number::wrapping_sub(address, 8 * (layout::AT_PACKED - rg));
    if is_foreign(whole, marker) {
        return true;
    }
    let octa = machine::memory::read_octa(windows.a, windows.b, windows.at, marker);
    if octa.holder.is_none() {
        return false;
    }
    let count = octa.value;
    if rg < count {
        return false;
    }
    let first = model::number::wrapping_sub(address, 8 * (count + layout::AT_PACKED - rg));
    has_foreign(whole, first, count + layout::CONTEXT_OCTAS - rg)
}

/// UNSAVE's packed octabyte, then the local count, then the rest.
fn unsave_asks(windows: WindowsRef<'_>, whole: Whole, address: u64) -> bool
    requires { OwnOnly whole (windows_read windows) }
    ensures { result ≡ asks whole (unsave_needs (windows_read windows.entry) address) }
{
    if is_foreign(whole, address) {
        return true;
    }
    let octa = machine::memory::read_octa(windows.a, windows.b, windows.at, address);
    if octa.holder.is_none() {
        return false;
    }
    let packed = octa.value;
    let rg = packed / layout::PACKED_RG;
    let ra = packed % layout::PACKED_RG;
    if rg < machine::registers::THRESHOLD_MIN {
        return false;
    }
    if machine::registers::STATUS_MAX < ra {
        return false;
    }
    count_asks(windows, whole, address, rg)
}

/// What the arm of an instruction needs, on the registers that it works on.
fn arm_asks(
    general: &[u64; 256],
    special: &[u64; 32],
    windows: WindowsRef<'_>,
    whole: Whole,
    i: Instruction,
) -> bool
    requires { CountsInRange special.now × OwnOnly whole (windows_read windows) }
    ensures { (pc halt marks mask : ℕ) → result
        ≡ asks whole (arm_needs (windows_read windows.entry) (made general.now special.now pc halt marks mask)
        (arm_of i.op) i.x i.y i.z) }
{
    if opcode::is_among(i.op, opcode::FIRST_LOAD, opcode::LAST_LOAD) {
        return is_foreign(whole, arms::control::sum(general, &i));
    }
    if opcode::is_among(i.op, opcode::FIRST_STORE, opcode::LAST_STORE) {
        return is_foreign(whole, arms::control::sum(general, &i));
    }
    // An arm a key: of an or-pattern a proof is told ranges in place of the keys.
    match i.op {
        opcode::PUSHGO => push_asks(special, whole, i.x),
        opcode::PUSHGOI => push_asks(special, whole, i.x),
        opcode::PUSHJ => push_asks(special, whole, i.x),
        opcode::PUSHJB => push_asks(special, whole, i.x),
        opcode::POP => pop_asks(special, windows, whole),
        opcode::SAVE => save_asks(special, whole, i.x),
        opcode::UNSAVE => unsave_asks(windows, whole, general[i.z as usize]),
        _ => false,
    }
}

/// Whether the instruction at PC does: the fetch, then what its arm needs after the claim of $X. The registers stay.
pub(crate) fn asks_foreign(state: &StateMut<'_>, windows: WindowsRef<'_>, whole: Whole) -> bool
    requires { CountsInRange state.now.special.now × OwnOnly whole (windows_read windows) × (unruled_by (shapes_of (windows_read windows)) ≡ 0) }
    ensures { admissible (state_lent state.now) ≡ true → result
        ≡ asks whole (fetched_needs (windows_read windows.entry) (state_lent state.now)) }
{
    let pc = *state.pc;
    let found = machine::memory::read_octa(windows.a, windows.b, windows.at, pc);
    if found.holder.is_none() {
        return is_foreign(whole, pc);
    }
    let i = Instruction::from(decode::operand::tetra_at(pc, found.value));
    if !opcode::claims(i.op) {
        return arm_asks(state.general, state.special, windows, whole, i);
    }
    let mut claimed = *state.general;
    let mut specials = *state.special;
    stack::pass::claim_local(&mut claimed, &mut specials, i.x);
    arm_asks(&claimed, &specials, windows, whole, i)
}
