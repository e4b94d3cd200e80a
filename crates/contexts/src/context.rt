// Contexts in place: SAVE and UNSAVE. State and windows are judged by the layer above; SAVE asks for an admissible state, since a context rests on its
// ranges.
ghost use Rattle.std.specs.Prelude.{◌≡◌, ℕ, ◌+◌, ◌*◌, ◌%◌, ◌^◌, ◌≤◌, ◌<◌, get_or};
ghost use Rattle.model.specs.Fill.{over};
ghost use Rattle.model.specs.Contexts.{saved_special, unsaved_general, octas_of};
ghost use Rattle.model.specs.Parts.{made, lent};
ghost use Rattle.model.specs.Lent.{state_lent, windows_lent, windows_read, SameState, SameWindows};
ghost use Rattle.machine.specs.Octas.{read_octa, written_run, written_range};
ghost use Rattle.stack.specs.GivenBack.{Gives};
ghost use Rattle.contexts.specs.SaveUnsave.{save_in, unsave_in, context_specials};
ghost use Rattle.contexts.specs.ContextWork.{Ranged, StoresContext, left_general, left_special, octas_from, unsaved_as, loaded};

use super::layout::{
    AT_PACKED, AT_SPECIALS, CONTEXT_OCTAS, CONTEXT_SPECIALS, ContextError, PACKED_RG, SavedContext,
};
use model::{Bases, Reply, State, StateMut, WindowsMut, WindowsRef};

/// The special register that is number i of the twelve (`SAVE_SPECIALS`): rB to rR, which are 0 to 6, then rP to rZ, 23 to 27.
#[tactic(auto, using(model::proofs::SaveUnsave::saved_special_low, crate::proofs::UnsaveLoads::saved_special_up))]
fn save_special(i: usize) -> usize
    requires { i < context_specials }
    ensures { (result ≡ saved_special i) × (result < 32) }
{
    if i <= State::RR { i } else { i + 16 }
}

/// The twelve special registers, stored from address addr up.
fn store_specials(special: &[u64; 32], a: &mut [u8], b: &mut [u8], at: Bases, addr: u64)
    ensures { lent at a.new b.new
        ≡ written_run (lent at a.old b.old) addr context_specials (λ (i : ℕ). get_or special.now (saved_special i) 0) }
{
    for i in 0..CONTEXT_SPECIALS {
        let place = model::number::wrapping_add(addr, 8 * (i as u64));
        let k = save_special(i);
        machine::memory::write_octa(a, b, at, place, special[k]);
    }
}

/// The general registers from `from` up to, not including, `to` go to the octabytes from `addr` up: into B where it has room for all.
fn store_run(
    general: &[u64; 256],
    a: &mut [u8],
    b: &mut [u8],
    at: Bases,
    addr: u64,
    from: u64,
    to: u64,
)
    ensures { lent at a.new b.new
        ≡ written_range (lent at a.old b.old) addr from to general.now }
{
    if machine::window::store_held(general, &mut *b, at.b, addr, from, to) {
        return;
    }
    machine::ranges::store_range(general, a, b, at, addr, from, to);
}

/// The context, stored from rO up.
fn store_context(general: &[u64; 256], special: &[u64; 32], a: &mut [u8], b: &mut [u8], at: Bases)
    requires { Ranged special.now }
    ensures { StoresContext general.now special.now
        (lent at a.old b.old) (lent at a.new b.new) }
{
    let ro = special[State::RO];
    let rl = special[State::RL];
    let rg = special[State::RG];
    let ra = special[State::RA];
    store_run(general, a, b, at, ro, 0, rl);
    let marker = model::number::wrapping_add(ro, 8 * rl);
    machine::memory::write_octa(a, b, at, marker, rl);
    let globals = model::number::wrapping_add(ro, 8 * (rl + 1));
    store_run(general, a, b, at, globals, rg, 256);
    let specials = model::number::wrapping_add(ro, 8 * (rl + AT_SPECIALS - rg));
    store_specials(special, a, b, at, specials);
    let packed = model::number::wrapping_add(ro, 8 * (rl + AT_PACKED - rg));
    machine::memory::write_octa(a, b, at, packed, rg * PACKED_RG + ra);
}

/// The context is stored; then the registers below rG become 0 and $x gets the context's address.
#[tactic(auto, unfolding(crate::specs::ContextWork::left_general))]
fn put_away(
    general: &mut [u64; 256],
    special: &[u64; 32],
    a: &mut [u8],
    b: &mut [u8],
    at: Bases,
    x: u8,
)
    requires { Ranged special.now }
    ensures { StoresContext general.old special.now
        (lent at a.old b.old) (lent at a.new b.new)
        × (general.new ≡ left_general general.old special.now x) }
{
    let ro = special[State::RO];
    let rl = special[State::RL];
    let rg = special[State::RG];
    let address = model::number::wrapping_add(ro, 8 * (rl + AT_PACKED - rg));
    store_context(general, special, a, b, at);
    machine::registers::clear_range(general, 0, rg);
    general[x as usize] = address;
}

/// The special registers after it: rL is 0, and rO and rS follow the context.
#[tactic(auto, unfolding(crate::specs::ContextWork::left_special))]
fn depart(special: &mut [u64; 32])
    requires { Ranged special.old }
    ensures { special.new ≡ left_special special.old }
{
    let ro = special[State::RO];
    let rl = special[State::RL];
    let rg = special[State::RG];
    let new_ro = model::number::wrapping_add(ro, 8 * (rl + CONTEXT_OCTAS - rg));
    special[State::RL] = 0;
    special[State::RO] = new_ro;
    special[State::RS] = new_ro;
}

/// Does not judge 2 or 22: the caller has; 1 is judged. SAVE $x: the context goes to the windows at rO.
pub fn save_context_judged(s: &mut StateMut<'_>, w: &mut WindowsMut<'_>, x: u8) -> Reply
    ensures same { SameState s.old s.new × SameWindows w.old w.new }
    ensures gives { Gives (save_in (windows_lent w.old) (state_lent s.old) x) (state_lent s.old) result
        (state_lent s.new) (windows_lent w.new) }
{
    machine::registers::counted(s.general, s.special);
    if !machine::registers::admissible(s.special, s.marks, s.mask) {
        return Reply::NotAdmissible;
    }
    let rg = s.special[State::RG];
    let rl = s.special[State::RL];
    let ro = s.special[State::RO];
    if (x as u64) < rg {
        *s.halt = 1;
        return Reply::SaveLocal;
    }
    let lent = w.read();
    let reply = machine::memory::run_refusal(lent.a, lent.b, lent.at, ro, rl + CONTEXT_OCTAS - rg);
    if reply != Reply::Done {
        return reply;
    }
    let at = w.at;
    put_away(s.general, s.special, w.a, w.b, at, x);
    depart(s.special);
    Reply::Done
}

/// All general registers from a context of `count` locals and threshold rg whose first local is at `first`: the locals, 0 above them,
/// the globals.
#[tactic(auto, using(crate::proofs::UnsaveLoads::loaded_general))]
fn load_general(
    general: &mut [u64; 256],
    a: &[u8],
    b: &[u8],
    at: Bases,
    first: u64,
    rg: u64,
    count: u64,
)
    requires { (rg ≤ 255) × (count ≤ rg) }
    ensures { general.new
        ≡ over (unsaved_general rg count (octas_from (lent at a.now b.now) first (octas_of count rg))) 0 256 general.old }
{
    let globals = model::number::wrapping_add(first, 8 * (count + 1));
    machine::ranges::load_range(general, a, b, at, first, 0, count);
    machine::registers::clear_range(general, count, rg);
    machine::ranges::load_range(general, a, b, at, globals, rg, 256);
}

/// The twelve special registers from a context, from address addr up.
fn load_specials(special: &mut [u64; 32], a: &[u8], b: &[u8], at: Bases, addr: u64)
    ensures { special.new
        ≡ loaded (λ (i : ℕ). read_octa (lent at a.now b.now) ((addr + 8 * i) % 2 ^ 64)) context_specials special.old }
{
    for i in 0..CONTEXT_SPECIALS {
        let place = model::number::wrapping_add(addr, 8 * (i as u64));
        let octa = machine::memory::read_octa(a, b, at, place);
        let k = save_special(i);
        special[k] = octa.value;
    }
}

/// The registers become those of the context that was located.
fn arrive(
    general: &mut [u64; 256],
    special: &mut [u64; 32],
    a: &[u8],
    b: &[u8],
    at: Bases,
    context: SavedContext,
)
    requires { (context.rg ≤ 255) × (context.count ≤ context.rg) }
    ensures { (pc halt marks mask : ℕ) → made general.new special.new pc halt marks mask
        ≡ unsaved_as (lent at a.now b.now) (made general.old special.old pc halt marks mask) context }
{
    let first = context.first;
    let rg = context.rg;
    let count = context.count;
    let specials = model::number::wrapping_add(first, 8 * (count + AT_SPECIALS - rg));
    load_general(general, a, b, at, first, rg, count);
    load_specials(special, a, b, at, specials);
    special[State::RO] = first;
    special[State::RA] = context.ra;
    special[State::RL] = count;
    special[State::RG] = rg;
    special[State::RS] = first;
}

/// Does not judge 1, 2 or 22: the caller has. UNSAVE of the context whose packed octabyte is at `address`.
pub fn unsave_context_judged(s: &mut StateMut<'_>, windows: WindowsRef<'_>, address: u64) -> Reply
    ensures same { SameState s.old s.new }
    ensures gives { Gives (unsave_in (windows_read windows.entry) (state_lent s.old) address) (state_lent s.old) result
        (state_lent s.new) (windows_read windows.entry) }
{
    machine::registers::counted(s.general, s.special);
    let located = super::layout::locate(windows.a, windows.b, windows.at, address);
    match located {
        Ok(context) => {
            arrive(
                s.general, s.special, windows.a, windows.b, windows.at, context,
            );
            Reply::Done
        }
        Err(ContextError::Bad(reply)) => {
            *s.halt = 1;
            reply
        }
        Err(ContextError::Lost(reply)) => reply,
    }
}
