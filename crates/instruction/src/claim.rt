// The claim of $X before the arm of an instruction that is fetched, and the claim taken back where it is refused.
ghost use Rattle.std.specs.Prelude.{◌≡◌, true, ◌&&◌, List, ℕ, ◌≤◌, ◌<◌, get_or};
ghost use Rattle.model.specs.Registers.{r_l, admissible, is_marginal};
ghost use Rattle.model.specs.Memory.{shapes_of};
ghost use Rattle.model.specs.Numbers.{number_of};
ghost use Rattle.model.specs.Step.{unruled_by, claims, keeps_claim};
ghost use Rattle.model.specs.Parts.{made};
ghost use Rattle.model.specs.Lent.{state_lent, windows_lent, SameState, SameWindows};
ghost use Rattle.instruction.specs.StepAnswer.{Numbered};
ghost use Rattle.instruction.specs.FetchedArms.{claimed_of};

use super::step;
use decode::opcode;
use model::{Instruction, Reply, State, StateMut, WindowsMut};

/// Whether a claim is kept by a reply.
#[tactic(auto, unfolding(model::specs::Step::keeps_claim, model::specs::Numbers::number_of))]
fn keeps_claim(reply: Reply) -> bool
    ensures { result ≡ keeps_claim (number_of reply) }
{
    matches!(reply, Reply::Done | Reply::NotLoaded)
}

/// Whether an instruction claims $X and $X is marginal: a claim of any other changes nothing.
pub fn is_claimed(special: &[u64; 32], i: &Instruction) -> bool
    ensures { (general : List ℕ) (pc halt marks mask : ℕ) → result
        ≡ (is_marginal (made general special.now pc halt marks mask) i.now.x && claims i.now.op) }
{
    let reg = u64::from(i.x);
    special[State::RL] <= reg && reg < special[State::RG] && opcode::claims(i.op)
}

/// Whether the registers from `from` up to $x are all zero.
fn is_clear(general: &[u64; 256], from: u64, x: u8) -> bool
    ensures { result ≡ true → (k : ℕ) → from ≤ k → k ≤ x → get_or general.now k 0 ≡ 0 }
{
    let last = x as u64;
    for k in from..last + 1 {
        if general[k as usize] != 0 {
            return false;
        }
    }
    true
}

/// The claim where what it clears is zero: rL alone is set, and put back.
fn claimed_clear(s: &mut StateMut<'_>, w: &mut WindowsMut<'_>, i: Instruction) -> Reply
    requires { (admissible (state_lent s.old) ≡ true)
        × (unruled_by (shapes_of (windows_lent w.old)) ≡ 0)
        × (claims i.op ≡ true)
        × (is_marginal (state_lent s.old) i.x ≡ true)
        × ((k : ℕ) → get_or s.old.special.now r_l 0 ≤ k → k ≤ i.x → get_or s.old.general.now k 0 ≡ 0) }
    ensures same { SameState s.old s.new × SameWindows w.old w.new }
    ensures numbered { Numbered (claimed_of (windows_lent w.old) (state_lent s.old) i.op i.x i.y i.z)
        (number_of result) (state_lent s.new) (windows_lent w.new) }
{
    stack::pass::counted(s.general, s.special);
    let rl = s.special[State::RL];
    s.special[State::RL] = i.x as u64 + 1;
    let reply = step::dispatch(s, w, &i);
    if keeps_claim(reply) {
        return reply;
    }
    s.special[State::RL] = rl;
    reply
}

/// The claim where it clears a register: all are kept, and put back with rL.
fn claimed_kept(s: &mut StateMut<'_>, w: &mut WindowsMut<'_>, i: Instruction) -> Reply
    requires { (admissible (state_lent s.old) ≡ true)
        × (unruled_by (shapes_of (windows_lent w.old)) ≡ 0)
        × (claims i.op ≡ true)
        × (is_marginal (state_lent s.old) i.x ≡ true) }
    ensures same { SameState s.old s.new × SameWindows w.old w.new }
    ensures numbered { Numbered (claimed_of (windows_lent w.old) (state_lent s.old) i.op i.x i.y i.z)
        (number_of result) (state_lent s.new) (windows_lent w.new) }
{
    stack::pass::counted(s.general, s.special);
    let kept = *s.general;
    let rl = s.special[State::RL];
    stack::pass::claim_local(s.general, s.special, i.x);
    let reply = step::dispatch(s, w, &i);
    if keeps_claim(reply) {
        return reply;
    }
    *s.general = kept;
    s.special[State::RL] = rl;
    reply
}

/// An instruction that claims $X, a marginal one: claimed before the arm, and the claim taken back where it is refused by any number but 19.
pub(crate) fn claimed(s: &mut StateMut<'_>, w: &mut WindowsMut<'_>, i: Instruction) -> Reply
    requires { (admissible (state_lent s.old) ≡ true)
        × (unruled_by (shapes_of (windows_lent w.old)) ≡ 0)
        × (claims i.op ≡ true)
        × (is_marginal (state_lent s.old) i.x ≡ true) }
    ensures same { SameState s.old s.new × SameWindows w.old w.new }
    ensures numbered { Numbered (claimed_of (windows_lent w.old) (state_lent s.old) i.op i.x i.y i.z)
        (number_of result) (state_lent s.new) (windows_lent w.new) }
{
    if is_clear(s.general, s.special[State::RL], i.x) {
        return claimed_clear(s, w, i);
    }
    claimed_kept(s, w, i)
}
