// A set on a state by value: 01 asks for it.
ghost use Rattle.std.specs.Prelude.{◌≢◌, IfErr};
ghost use Rattle.model.specs.Numbers.{number_of};
ghost use Rattle.sets.specs.Sets.{pairs_of, PutSet};
ghost use Rattle.sets.specs.Answer.{number_in, place_in};

use super::Failed;
use model::{State, StateMut};

/// What a set answers, and the state that it leaves.
#[derive(Clone, Copy)]
pub struct SetAnswer {
    pub set: Result<(), Failed>,
    pub state: State,
}

pub fn put_set(mut state: State, pairs: &[u64]) -> SetAnswer
    ensures put { PutSet state (pairs_of pairs.now) (number_in result.set) (place_in result.set) result.state }
    ensures failed { IfErr result.set (λ failed. number_of failed.reply ≢ 0) }
{
    let mut lent = StateMut {
        general: &mut state.general,
        special: &mut state.special,
        pc: &mut state.pc,
        halt: &mut state.halt,
        marks: state.marks,
        mask: state.mask,
    };
    let set = super::put_set(&mut lent, pairs);
    SetAnswer { set, state }
}
