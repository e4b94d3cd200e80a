//! PUT for a whole set of special registers, in place: each pair of a list takes effect, or none does. It is judged first, by rL alone, and then put.
#![tactic(auto)]

ghost use Rattle.std.specs.Prelude.{◌≡◌, ◌≢◌, IfErr};
ghost use Rattle.model.specs.Registers.{with_parts};
ghost use Rattle.model.specs.Numbers.{number_of};
ghost use Rattle.model.specs.Lent.{state_lent, SameState};
ghost use Rattle.model.specs.declared.State.{State};
ghost use Rattle.machine.specs.Octabytes.{loaded_octas};
ghost use Rattle.sets.specs.Sets.{pair, pairs_of, pairs_in, PutSet};
ghost use Rattle.sets.specs.Judged.{locals_after, judge_pairs, put_all};
ghost use Rattle.sets.specs.Answer.{number_in, place_in, Judged};

use model::{Reply, State, StateMut};

pub mod value;

/// The most pairs that a set may have.
const PAIRS_MAX: usize = 32;

/// Octabytes of one pair more: from this many pairs on it is the same refusal, so that no more of a longer list is read out of its bytes.
const READ_MAX: usize = 2 * (PAIRS_MAX + 1);

const RL: u64 = State::RL as u64;

// No Option: C gets 0 where no pair fails.
/// Why a set is refused, and the place of the first pair that fails; 0 where no pair does.
#[derive(Clone, Copy)]
pub struct Failed {
    pub reply: Reply,
    pub place: u64,
}

/// rL after PUT of a value to special register x.
fn locals_after(rl: u64, x: u64, value: u64) -> u64
    ensures { result ≡ locals_after rl (pair x value) }
{
    if x == RL {
        return value.min(rl);
    }
    rl
}

/// Each pair is judged where the earlier ones leave rL.
fn judge(rl: u64, pairs: &[u64]) -> Result<(), Failed>
    ensures { Judged (judge_pairs rl 0 (pairs_of pairs.now)) result }
{
    let mut local = rl;
    for i in 0..pairs.len() / 2 {
        let x = pairs[2 * i];
        let value = pairs[2 * i + 1];
        let reply = machine::registers::put_refusal(local, x, value);
        if reply != Reply::Done {
            return Err(Failed {
                reply,
                place: i as u64,
            });
        }
        local = locals_after(local, x, value);
    }
    Ok(())
}

/// Each pair takes effect.
fn put_all(general: &mut [u64; 256], special: &mut [u64; 32], pairs: &[u64])
    ensures { (s : State) → with_parts s general.new special.new
        ≡ put_all (with_parts s general.old special.old) (pairs_of pairs.now) }
{
    for i in 0..pairs.len() / 2 {
        machine::registers::put_state(general, special, pairs[2 * i], pairs[2 * i + 1]);
    }
}

/// A set in place: `pairs` are numbers of special registers, each with its value behind it. In line, so that the lent state need not stand on the stack.
#[inline(always)]
pub fn put_set(state: &mut StateMut<'_>, pairs: &[u64]) -> Result<(), Failed>
    ensures same { SameState state.old state.new }
    ensures put { PutSet (state_lent state.old) (pairs_of pairs.now) (number_in result) (place_in result)
        (state_lent state.new) }
    ensures failed { IfErr result (λ failed. number_of failed.reply ≢ 0) }
{
    if !machine::registers::admissible(state.special, state.marks, state.mask) {
        return Err(Failed {
            reply: Reply::NotAdmissible,
            place: 0,
        });
    }
    if PAIRS_MAX < pairs.len() / 2 {
        return Err(Failed {
            reply: Reply::TooManyPairs,
            place: 0,
        });
    }
    machine::registers::counted(state.general, state.special);
    let rl = state.special[State::RL];
    if let Err(failed) = judge(rl, pairs) {
        *state.halt = 1;
        return Err(failed);
    }
    put_all(state.general, state.special, pairs);
    Ok(())
}

/// The same with the pairs read out of bytes, as many octabytes as `octas` has room for.
fn put_read(state: &mut StateMut<'_>, bytes: &[u8], octas: &mut [u64]) -> Result<(), Failed>
    ensures same { SameState state.old state.new }
    ensures put { PutSet (state_lent state.old) (pairs_of (loaded_octas bytes.now 0 octas.old))
        (number_in result) (place_in result) (state_lent state.new) }
    ensures failed { IfErr result (λ failed. number_of failed.reply ≢ 0) }
{
    machine::octabytes::load_octas(bytes, 0, octas);
    put_set(state, octas)
}

/// The same with the pairs as bytes, 16 a pair, high byte first.
pub fn put_set_bytes(state: &mut StateMut<'_>, bytes: &[u8]) -> Result<(), Failed>
    ensures same { SameState state.old state.new }
    ensures put { PutSet (state_lent state.old) (pairs_in bytes.now) (number_in result) (place_in result)
        (state_lent state.new) }
    ensures failed { IfErr result (λ failed. number_of failed.reply ≢ 0) }
{
    let mut octas = [0; READ_MAX];
    let count = (bytes.len() / 8).min(READ_MAX);
    put_read(state, bytes, &mut octas[0..count])
}
