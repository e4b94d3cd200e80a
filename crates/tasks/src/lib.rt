//! Several tasks on one machine: a call judged whole, and then turns in order of number. The tasks' states are images, one after another; a turn decodes and
//! encodes its own alone.
#![tactic(auto)]

ghost use Rattle.std.specs.Prelude.{ℕ, ◌<◌, get_or};
ghost use Rattle.model.specs.Numbers.{number_of};
ghost use Rattle.model.specs.Lent.{windows_lent, SameWindows};
ghost use Rattle.tasks.specs.Images.{TasksRan};

use model::{Reply, WindowsMut};
use schedule::Tasks;

mod judge;
mod schedule;

/// The most tasks.
pub const TASKS_MAX: usize = 8;

// The elements of a window are bytes, a fact that reading it tells. It does nothing: without it the proofs find no bound of a byte.
fn known(window: &[u8])
    ensures { (i : ℕ) → get_or window.now i 0 < 256 }
{
    let _first = window.first();
}

// Pairs and arrays of eight, as C lends them.
/// A call of several tasks: 2, 22, 25, 33 and then 1 refuse it whole; else each task has its turns until the grant is spent or all have stopped.
/// `parts` has start and length of each task's part of B, `images` their states. Counts and refusals are written at every reply.
pub fn run(
    windows: &mut WindowsMut<'_>,
    q: u64,
    grant: u64,
    images: &mut [u8],
    parts: &[u64],
    counts: &mut [u64; 8],
    refusals: &mut [u64; 8],
) -> Reply
    ensures same { SameWindows windows.old windows.new }
    ensures ran { TasksRan images.old (windows_lent windows.old) parts.now q grant (number_of result)
        images.new (windows_lent windows.new) counts.new refusals.new }
{
    *counts = [0; 8];
    *refusals = [0; 8];
    let lent = windows.read();
    known(lent.a);
    known(lent.b);
    let refused = judge::call_refusal(images, parts, lent, q, grant);
    if refused != Reply::Done {
        return refused;
    }
    let mut tasks = Tasks {
        images,
        counts,
        refusals,
    };
    schedule::rounds(&mut tasks, parts, windows, q, grant);
    Reply::Done
}
