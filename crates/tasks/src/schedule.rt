// The turns of a call: in order of number, q instructions each, until the grant is spent or all tasks have stopped. A task that is refused is passed over.
// Contracts speak of every desk (specs/Desks) that what is lent shows: code has no list of the turns given.
ghost use Rattle.std.specs.Prelude.{◌≡◌, true, List, ℕ, ◌+◌, ◌≤◌, ◌<◌};
ghost use Rattle.model.specs.Fill.{tab};
ghost use Rattle.model.specs.Memory.{Windows};
ghost use Rattle.model.specs.Lent.{windows_lent, SameWindows};
ghost use Rattle.model.specs.Numbers.{number_of};
ghost use Rattle.model.specs.Run.{grant_most};
ghost use Rattle.image.specs.Image.{is_image};
ghost use Rattle.task_model.specs.Schedule.{Given, refusal_by, any_runs, Desk, turn_of, turns_from, rounds};
ghost use Rattle.task_model.specs.Call.{tasks_in, tasks_most};
ghost use Rattle.task_run.specs.RunIn.{own};
ghost use Rattle.tasks.specs.Lent.{SameTasks};
ghost use Rattle.tasks.specs.Desks.{image_turn, tasks_turn, Turned, At, Shown, Ready, Played};

use super::judge;
use instruction::run::Ran;
use model::{StateMut, WindowsMut};
use task_run::Part;

/// The tasks of a call: their images, how many instructions each did, and the number that stopped it, or 0.
#[derive(Drop)]
pub(crate) struct Tasks<'t> {
    pub images: &'t mut [u8],
    pub counts: &'t mut [u64; 8],
    pub refusals: &'t mut [u64; 8],
}

/// One turn of a task on its image: up to `grant` instructions.
fn image_turn(image: &mut [u8], windows: &mut WindowsMut<'_>, part: Part, grant: u64) -> Ran
    requires { is_image image.old ≡ true }
    ensures same { SameWindows windows.old windows.new }
    ensures turned { Turned (image_turn (windows_lent windows.old) image.old (own part) grant)
        (number_of result.reply) result.done image.new (windows_lent windows.new) }
{
    let mut general = [0; 256];
    let mut special = [0; 32];
    let mut rest = image::load_state(&*image, &mut general, &mut special);
    let mut state = StateMut {
        general: &mut general,
        special: &mut special,
        pc: &mut rest.pc,
        halt: &mut rest.halt,
        marks: rest.marks,
        mask: rest.mask,
    };
    let ran = task_run::run(&mut state, windows, part, grant);
    image::store_state(image, &general, &special, rest);
    ran
}

/// The turn of task k, where something is left and k has not stopped; what is left after it.
fn turn(
    tasks: &mut Tasks<'_>,
    parts: &[u64],
    windows: &mut WindowsMut<'_>,
    q: u64,
    left: u64,
    k: usize,
) -> u64
    requires { (k < tasks_in parts.now) × Ready parts.now tasks.old.images.now left tasks.old.counts.now }
    ensures same { SameTasks tasks.old tasks.new × SameWindows windows.old windows.new }
    ensures played { Played parts.now
        (turn_of (tasks_turn parts.now tasks.old.images.now) (tasks_in parts.now) q k)
        left tasks.old.images.now (windows_lent windows.old) tasks.old.counts.now tasks.old.refusals.now
        result tasks.new.images.now (windows_lent windows.new) tasks.new.counts.now tasks.new.refusals.now }
{
    if left == 0 {
        return 0;
    }
    if tasks.refusals[k] != 0 {
        return left;
    }
    let own = judge::part_at(parts, k);
    let each = judge::each_len(tasks.images.len(), parts.len() / 2);
    let start = k * each;
    let end = start + each;
    let grant = q.min(left);
    let images = &mut *tasks.images;
    let ran = image_turn(&mut images[start..end], windows, own, grant);
    tasks.refusals[k] = u64::from(ran.reply);
    tasks.counts[k] += ran.done;
    left - ran.done
}

/// One round: the turn of each task, in order of number; what is left after it.
fn round(
    tasks: &mut Tasks<'_>,
    parts: &[u64],
    windows: &mut WindowsMut<'_>,
    q: u64,
    left: u64,
) -> u64
    requires { Ready parts.now tasks.old.images.now left tasks.old.counts.now }
    ensures same { SameTasks tasks.old tasks.new × SameWindows windows.old windows.new }
    ensures played { Played parts.now
        (turns_from (tasks_turn parts.now tasks.old.images.now) (tasks_in parts.now) q 0 (tasks_in parts.now))
        left tasks.old.images.now (windows_lent windows.old) tasks.old.counts.now tasks.old.refusals.now
        result tasks.new.images.now (windows_lent windows.new) tasks.new.counts.now tasks.new.refusals.now }
{
    let n = parts.len() / 2;
    let mut rest = left;
    for k in 0..n {
        rest = turn(tasks, parts, windows, q, rest, k);
    }
    rest
}

/// Whether one of the first n tasks is running.
fn any_runs(refusals: &[u64; 8], n: usize) -> bool
    requires { n ≤ 8 }
    ensures { (gs : List Given) → refusals.now ≡ tab 0 tasks_most (λ k. refusal_by k gs) → result ≡ any_runs n gs }
{
    refusals[..n].contains(&0)
}

/// Rounds, until nothing is left or all have stopped. As many as there are instructions to spend and tasks to stop are enough.
pub(crate) fn rounds(
    tasks: &mut Tasks<'_>,
    parts: &[u64],
    windows: &mut WindowsMut<'_>,
    q: u64,
    grant: u64,
)
    requires { Ready parts.now tasks.old.images.now grant tasks.old.counts.now × (grant ≤ grant_most) }
    ensures same { SameTasks tasks.old tasks.new × SameWindows windows.old windows.new }
    ensures shown { (d : Desk (List ℕ) Windows)
        → At d grant tasks.old.images.now (windows_lent windows.old) tasks.old.counts.now tasks.old.refusals.now
        → Shown (rounds (tasks_turn parts.now tasks.old.images.now) (tasks_in parts.now) q (grant + tasks_in parts.now) d)
        tasks.new.images.now (windows_lent windows.new) tasks.new.counts.now tasks.new.refusals.now }
{
    let n = parts.len() / 2;
    let most = grant + n as u64;
    let mut left = grant;
    for _ in 0..most {
        if left == 0 {
            return;
        }
        if !any_runs(tasks.refusals, n) {
            return;
        }
        left = round(tasks, parts, windows, q, left);
    }
}
