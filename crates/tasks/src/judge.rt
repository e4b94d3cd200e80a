// What refuses a call of several tasks whole.
ghost use Rattle.std.specs.Prelude.{◌≡◌, ◌&&◌, List, ℕ, ◌+◌, ◌*◌, ◌≤◌, ltb, length};
ghost use Rattle.model.specs.Memory.{shapes_of};
ghost use Rattle.model.specs.Numbers.{number_of};
ghost use Rattle.model.specs.Lent.{windows_read};
ghost use Rattle.task_model.specs.Tasks.{owns};
ghost use Rattle.task_model.specs.Call.{tasks_in, part_at, each_below, part_ruled, overlaps, part_clear, tasks_ruled, all_admissible, call_refusal};
ghost use Rattle.task_run.specs.RunIn.{own};
ghost use Rattle.tasks.specs.Images.{each_length, states_in};

use model::{GRANT_MOST, IMAGE_LEN, OLD_IMAGE_LEN, Reply, WindowsRef};
use task_run::Part;

/// The most instructions a turn.
const TURN_MOST: u64 = 1_000;

/// Whether a part that is not empty begins in another.
fn begins_in(part: Part, other: Part) -> bool
    ensures { result ≡ ltb 0 other.len && owns (own part) other.start }
{
    other.len != 0 && part.owns(other.start)
}

/// Whether two parts overlap: one begins in the other.
#[tactic(auto, unfolding(task_model::specs::Call::overlaps))]
fn overlap(part: Part, other: Part) -> bool
    ensures { result ≡ overlaps (own part) (own other) }
{
    begins_in(part, other) || begins_in(other, part)
}

/// Part k.
pub(crate) fn part_at(parts: &[u64], k: usize) -> Part
    requires { 2 * k + 2 ≤ length parts.now }
    ensures { own result ≡ part_at parts.now k }
{
    Part {
        start: parts[2 * k],
        len: parts[2 * k + 1],
    }
}

/// Whether part k overlaps none before it.
fn is_clear(parts: &[u64], k: usize) -> bool
    requires { 2 * k + 2 ≤ length parts.now }
    ensures { result ≡ part_clear parts.now k }
{
    let own = part_at(parts, k);
    // A loop, as in are_clear.
    for j in 0..k {
        let other = part_at(parts, j);
        if overlap(other, own) {
            return false;
        }
    }
    true
}

/// Whether no two of the first n parts overlap.
fn are_clear(parts: &[u64], n: usize) -> bool
    requires { 2 * n ≤ length parts.now }
    ensures { result ≡ each_below n (part_clear parts.now) }
{
    // Not `(0..n).all(..)`: of that no answer proves `each_below`.
    for k in 0..n {
        if !is_clear(parts, k) {
            return false;
        }
    }
    true
}

/// Whether each of the first n parts lies in a window of `b_len` bytes and splits no octabyte.
fn are_ruled(parts: &[u64], n: usize, b_len: u64) -> bool
    requires { 2 * n ≤ length parts.now }
    ensures { result ≡ each_below n (λ k. part_ruled b_len (part_at parts.now k)) }
{
    // A loop, as in are_clear.
    for k in 0..n {
        let own = part_at(parts, k);
        if !own.is_ruled(b_len) {
            return false;
        }
    }
    true
}

/// Whether there are 1 to 8 tasks and q is 1 to 1,000, and the parts are what parts should be.
#[tactic(auto, unfolding(task_model::specs::Call::tasks_ruled))]
fn is_ruled(parts: &[u64], b_len: u64, q: u64) -> bool
    ensures { result ≡ tasks_ruled b_len parts.now q }
{
    let n = parts.len() / 2;
    parts.len() % 2 == 0
        && 1 <= n
        && n <= super::TASKS_MAX
        && 1 <= q
        && q <= TURN_MOST
        && are_ruled(parts, n, b_len)
        && are_clear(parts, n)
}

/// How long each of n images is. Of neither length it is the old one's: the caller compares.
pub(crate) fn each_len(len: usize, n: usize) -> usize
    requires { n ≤ 8 }
    ensures { (l : List ℕ) → length l ≡ len → result ≡ each_length n l }
{
    if len == n * IMAGE_LEN {
        return IMAGE_LEN;
    }
    OLD_IMAGE_LEN
}

/// Whether they are images of admissible states, all of one length.
fn are_admissible(images: &[u8], n: usize) -> bool
    requires { (1 ≤ n) × (n ≤ 8) }
    ensures { result ≡ all_admissible n (states_in n images.now) }
{
    let each = each_len(images.len(), n);
    if images.len() != n * each {
        return false;
    }
    // A loop, as in are_clear.
    for k in 0..n {
        let start = k * each;
        let end = start + each;
        if !image::is_admissible(&images[start..end]) {
            return false;
        }
    }
    true
}

/// What refuses the call whole, or Done: 2, 22, 25, 33, then 1.
pub(crate) fn call_refusal(
    images: &[u8],
    parts: &[u64],
    windows: WindowsRef<'_>,
    q: u64,
    grant: u64,
) -> Reply
    ensures { number_of result ≡ call_refusal (shapes_of (windows_read windows.entry))
        (states_in (tasks_in parts.now) images.now) parts.now q grant }
{
    let refused = machine::memory::windows_refusal(windows.a, windows.b, windows.at);
    if refused != Reply::Done {
        return refused;
    }
    if GRANT_MOST < grant {
        return Reply::GrantTooLarge;
    }
    if !is_ruled(parts, windows.b.len() as u64, q) {
        return Reply::TasksRule;
    }
    if !are_admissible(images, parts.len() / 2) {
        return Reply::NotAdmissible;
    }
    Reply::Done
}
