// Registers in place (registers.rs, mmix.rs): the general and the special ones are lent, and each function does to them what its
// definition does to a state that has them.
ghost use Rattle.std.specs.Prelude.{◌≡◌, ◌<◌, List, ℕ, length, get_or};
ghost use Rattle.model.specs.Fill.{over};
ghost use Rattle.model.specs.Registers.{with_parts, r_l, sp, hides, admissible, claim_local, set_register, put_locals, put_globals};
ghost use Rattle.model.specs.System.{put_refusal, put_state};
ghost use Rattle.model.specs.Numbers.{reply_of};
ghost use Rattle.model.specs.Parts.{made};
ghost use Rattle.model.specs.declared.State.{State};
ghost use Rattle.machine.specs.Put.{PutGives};

use model::{Reply, State};

/// rG is from the first to the second.
pub const THRESHOLD_MIN: u64 = 32;

pub const THRESHOLD_MAX: u64 = 255;

/// The largest rA: 18 bits.
pub const STATUS_MAX: u64 = 0x3FFFF;

/// Marks of nine vectors are below this.
const MARKS_END: u64 = 512;

// The special registers that PUT tells apart, as it numbers them: as u64, since a match wants consts of its type.
const RC: u64 = State::RC as u64;

const RN: u64 = State::RN as u64;

const RO: u64 = State::RO as u64;

const RS: u64 = State::RS as u64;

const RI: u64 = State::RI as u64;

const RT: u64 = State::RT as u64;

const RTT: u64 = State::RTT as u64;

const RK: u64 = State::RK as u64;

const RQ: u64 = State::RQ as u64;

const RU: u64 = State::RU as u64;

const RV: u64 = State::RV as u64;

/// The bits that a mask may have: those of rBB, rC, rN, rI, rT, rTT, rK, rQ, rU, rV, rF, rWW, rXX, rYY and rZZ.
const HIDEABLE: u64 = 0xF047_F380;

const RG: u64 = State::RG as u64;

const RL: u64 = State::RL as u64;

const RA: u64 = State::RA as u64;

const RZZ: u64 = State::RZZ as u64;

/// Whether the registers, marks and mask are those of an admissible state.
#[tactic(auto, unfolding(model::specs::Registers::admissible))]
pub fn admissible(special: &[u64; 32], marks: u64, mask: u64) -> bool
    ensures { (general : List ℕ) (pc halt : ℕ) → result ≡ admissible (made general special.now pc halt marks mask) }
{
    let rg = special[State::RG];
    let rl = special[State::RL];
    let ra = special[State::RA];
    THRESHOLD_MIN <= rg
        && rg <= THRESHOLD_MAX
        && rl <= rg
        && ra <= STATUS_MAX
        && marks < MARKS_END
        && mask & HIDEABLE == mask
}

/// Whether the mask hides special register k from programs; above 31 there is none. An empty mask is asked for first: most are.
#[tactic(auto, using(model::proofs::Mask::hides_bit, model::proofs::Mask::unmasked, model::proofs::Mask::unhideable, model::proofs::Mask::above_special))]
pub fn is_hidden(mask: u64, k: u8) -> bool
    ensures { result ≡ hides mask k }
{
    // A return of its own: of one expression the compiler makes no jump, and GET takes five processor instructions more.
    if mask == 0 {
        return false;
    }
    k as u64 <= RZZ && ((mask & HIDEABLE) >> k) % 2 == 1
}

/// Each becomes 0. No `fill`: the library's writes the last element by itself, and a call and its return take eight processor instructions more.
fn clear(values: &mut [u64])
    ensures { (length values.new ≡ length values.old) × ((k : ℕ) → k < length values.new → get_or values.new k 0 ≡ 0) }
{
    for value in values.iter_mut() {
        *value = 0;
    }
}

/// The general registers from `from` up to, not including, `to` become 0; there are 256, whatever `to` says.
pub fn clear_range(general: &mut [u64; 256], from: u64, to: u64)
    ensures { general.new ≡ over (λ (k : ℕ). 0) from to general.old }
{
    let end = to.min(256);
    if from < end {
        clear(&mut general[from as usize..end as usize]);
    }
}

/// $reg is to be written: a marginal one becomes local, and it and those down to rL become 0.
#[tactic(auto, unfolding(model::specs::Registers::claim_local, model::specs::Registers::with_special, model::specs::Registers::cleared))]
pub fn claim_local(general: &mut [u64; 256], special: &mut [u64; 32], reg: u8)
    ensures { (s : State) → with_parts s general.new special.new
        ≡ claim_local (with_parts s general.old special.old) reg }
{
    let rg = special[State::RG];
    let rl = special[State::RL];
    let r = reg as u64;
    if r < rl {
        return;
    }
    if rg <= r {
        return;
    }
    clear_range(general, rl, r + 1);
    special[State::RL] = r + 1;
}

/// $reg becomes v.
#[tactic(auto, unfolding(model::specs::Registers::set_register, model::specs::Registers::stored))]
pub fn set_register(general: &mut [u64; 256], special: &mut [u64; 32], reg: u8, v: u64)
    ensures { (s : State) → with_parts s general.new special.new
        ≡ set_register (with_parts s general.old special.old) reg v }
{
    claim_local(general, special, reg);
    general[reg as usize] = v;
}

/// PUT rL: it is only ever lowered, and what is dropped becomes 0.
#[tactic(auto, unfolding(model::specs::Registers::put_locals, model::specs::Registers::with_special, model::specs::Registers::cleared))]
pub fn put_rl(general: &mut [u64; 256], special: &mut [u64; 32], value: u64)
    ensures { (s : State) → with_parts s general.new special.new
        ≡ put_locals (with_parts s general.old special.old) value }
{
    let rl = special[State::RL];
    let low = value.min(rl);
    clear_range(general, low, rl);
    special[State::RL] = low;
}

/// PUT rG of a value that it may have: what lies between the two thresholds becomes 0.
#[tactic(auto, unfolding(model::specs::Registers::put_globals, model::specs::Registers::with_special, model::specs::Registers::cleared))]
pub fn put_rg(general: &mut [u64; 256], special: &mut [u64; 32], value: u64)
    ensures { (s : State) → with_parts s general.new special.new
        ≡ put_globals (with_parts s general.old special.old) value }
{
    let rg = special[State::RG];
    let low = value.min(rg);
    let high = value.max(rg);
    clear_range(general, low, high);
    special[State::RG] = value;
}

/// What PUT of `value` to special register x answers where rL is `rl`: one of 7 to 11, or Done. It judges by nothing else of a state.
#[tactic(auto, unfolding(model::specs::System::put_refusal, model::specs::Numbers::reply_of))]
pub fn put_refusal(rl: u64, x: u64, value: u64) -> Reply
    ensures { (s : State) → sp s r_l ≡ rl → result ≡ reply_of (put_refusal s x value) }
{
    match x {
        RC | RI | RT | RTT | RK | RQ | RU | RV => Reply::PutPrivileged,
        RN | RO | RS => Reply::PutIllegal,
        RG => {
            if value < THRESHOLD_MIN {
                return Reply::PutThreshold;
            }
            if value < rl {
                return Reply::PutThreshold;
            }
            if THRESHOLD_MAX < value {
                return Reply::PutThreshold;
            }
            Reply::Done
        }
        RA => {
            if STATUS_MAX < value {
                return Reply::PutStatus;
            }
            Reply::Done
        }
        _ => {
            if RZZ < x {
                return Reply::PutUnknown;
            }
            Reply::Done
        }
    }
}

/// Special register x becomes `value` as PUT makes it, which judged it before; above 31 there is none, and nothing changes.
#[tactic(auto, unfolding(model::specs::System::put_state, model::specs::Registers::with_special))]
pub fn put_state(general: &mut [u64; 256], special: &mut [u64; 32], x: u64, value: u64)
    ensures { (s : State) → with_parts s general.new special.new
        ≡ put_state (with_parts s general.old special.old) x value }
{
    if x == RL {
        put_rl(general, special, value);
        return;
    }
    if x == RG {
        put_rg(general, special, value);
        return;
    }
    if x <= RZZ {
        special[x as usize] = value;
    }
}

/// Special register x becomes `value`, or one of 7 to 11 and nothing changes. Neither PC nor halt code is its business.
pub fn put_special(general: &mut [u64; 256], special: &mut [u64; 32], x: u8, value: u64) -> Reply
    ensures { (s : State) → PutGives (with_parts s general.old special.old) x value result
        (with_parts s general.new special.new) }
{
    let rl = special[State::RL];
    let judged = put_refusal(rl, x as u64, value);
    if judged == Reply::Done {
        put_state(general, special, x as u64, value);
    }
    judged
}

/// There are 256 general registers and 32 special ones: facts that a reference does not tell its caller. It does nothing.
pub fn counted(general: &[u64; 256], special: &[u64; 32])
    ensures { (length general.now ≡ 256) × (length special.now ≡ 32) }
{}
