//! One task's turn: a run on A and the task's own part of B. An instruction that the part's edge refuses by 6 or 24 is looked at once more: where
//! it asked for an octabyte of B outside the part it is 32.
#![tactic(auto)]

ghost use Rattle.std.specs.Prelude.{◌≡◌, true};
ghost use Rattle.model.specs.Memory.{shapes_of};
ghost use Rattle.model.specs.Registers.{admissible};
ghost use Rattle.model.specs.Numbers.{number_of};
ghost use Rattle.model.specs.Step.{unruled_by};
ghost use Rattle.model.specs.Run.{run_of};
ghost use Rattle.model.specs.Parts.{lent};
ghost use Rattle.model.specs.Lent.{state_lent, windows_lent, SameState, SameWindows};
ghost use Rattle.task_model.specs.Tasks.{owns};
ghost use Rattle.task_model.specs.Call.{part_ruled};
ghost use Rattle.instruction.specs.StepAnswer.{RunNumbered};
ghost use Rattle.task_run.specs.RunIn.{own, lost, run_in};
ghost use Rattle.task_run.specs.Ask.{OwnOnly, told};

use ask::Whole;
use instruction::run::Ran;
use model::{Bases, GRANT_MOST, Reply, StateMut, WindowsMut};

mod ask;

/// A task's own part of B: where it starts in B, and how many bytes it has.
#[derive(Clone, Copy)]
pub struct Part {
    pub start: u64,
    pub len: u64,
}

impl Part {
    /// Whether it lies in a window of `window_len` bytes and splits no octabyte.
    #[tactic(auto, unfolding(task_model::specs::Call::part_ruled))]
    pub fn is_ruled(self, window_len: u64) -> bool
        ensures { result ≡ part_ruled window_len (own self) }
    {
        self.start % 8 == 0
            && self.len % 8 == 0
            && self.start <= window_len
            && self.len <= window_len - self.start
    }

    /// Whether byte `at` of B lies in it.
    #[tactic(auto, unfolding(task_model::specs::Tasks::owns))]
    pub fn owns(self, at: u64) -> bool
        ensures { result ≡ owns (own self) at }
    {
        self.start <= at && at - self.start < self.len
    }
}

/// Up to `grant` instructions of a task on A and its own part of B.
pub fn run(state: &mut StateMut<'_>, windows: &mut WindowsMut<'_>, part: Part, grant: u64) -> Ran
    ensures same_state { SameState state.old state.new }
    ensures same_windows { SameWindows windows.old windows.new }
    ensures ran { RunNumbered
        (run_in (windows_lent windows.old) (state_lent state.old) (own part) grant)
        (number_of result.reply) result.done
        (state_lent state.new) (windows_lent windows.new) }
{
    let at = windows.at;
    stack::pass::counted(state.general, state.special);
    let lent = windows.read();
    let reply = stack::pass::refusal(
        state.special,
        state.marks,
        state.mask,
        lent.a,
        lent.b,
        lent.at,
    );
    if reply != Reply::Done {
        return Ran { reply, done: 0 };
    }
    if GRANT_MOST < grant {
        return Ran {
            reply: Reply::GrantTooLarge,
            done: 0,
        };
    }
    let len = windows.b.len() as u64;
    if !part.is_ruled(len) {
        return Ran {
            reply: Reply::TasksRule,
            done: 0,
        };
    }
    let whole = Whole {
        base: at.b,
        len,
        part,
    };
    let start = part.start as usize;
    let end = start + part.len as usize;
    let own_at = Bases {
        a: at.a,
        b: model::number::wrapping_add(at.b, part.start),
    };
    let b = &mut *windows.b;
    run_own(state, windows.a, &mut b[start..end], own_at, whole, grant)
}

/// Whether a reply says that an octabyte, or the tetra at PC, is in neither window.
#[tactic(auto, unfolding(crate::specs::RunIn::lost, model::specs::Numbers::number_of))]
fn is_lost(reply: Reply) -> bool
    ensures { result ≡ lost (number_of reply) }
{
    matches!(reply, Reply::Missing | Reply::NotFetched)
}

/// The run on A and the part, `b`; 32 in the place of 6 or 24 where the instruction asked for what is foreign.
// The windows in parts: a struct over a part of a lent slice has no proof ("a call keeps the loan of a slice in a field").
fn run_own(
    state: &mut StateMut<'_>,
    a: &mut [u8],
    b: &mut [u8],
    at: Bases,
    whole: Whole,
    grant: u64,
) -> Ran
    requires { (admissible (state_lent state.old) ≡ true)
        × (unruled_by (shapes_of (lent at a.old b.old)) ≡ 0)
        × OwnOnly whole (lent at a.old b.old) }
    ensures same { SameState state.old state.new }
    ensures ran { RunNumbered
        (told whole (run_of (lent at a.old b.old) (state_lent state.old) grant))
        (number_of result.reply) result.done
        (state_lent state.new) (lent at a.new b.new) }
{
    stack::pass::counted(state.general, state.special);
    let mut own = WindowsMut { a, b, at };
    let ran = instruction::run::run(state, &mut own, grant);
    if !is_lost(ran.reply) {
        return ran;
    }
    if ask::asks_foreign(state, own.read(), whole) {
        return Ran {
            reply: Reply::Foreign,
            done: ran.done,
        };
    }
    ran
}
