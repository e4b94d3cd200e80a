// The line that is held, left in its place in the form that is written.
ghost use Rattle.std.specs.Prelude.{◌≡◌, ◌+◌, ◌≤◌, length, take, drop};
ghost use Rattle.point_lines.specs.Line.{padded, widens, renewed_in};

use super::line::{FIRST_AT, LENGTH_DIGITS, SECOND_AT, STATE_AT, STATE_DIGITS, Widths};

/// A line of these widths, the first `shown` bytes held, becomes what is written of it: digits 0 more before each length, and after the state's.
/// How many bytes it has then; none where its widths are not such, or there is no room. What is behind it stays.
pub fn renew(held: &mut [u8], shown: usize, widths: Widths) -> usize
    ensures { (take result held.new ≡ renewed_in held.old shown widths.lengths widths.state) × (result ≤ length held.old)
        × (drop result held.new ≡ drop result held.old) }
{
    let w = widths.lengths;
    let d = widths.state;
    if !widens(held.len(), shown, w, d) {
        return 0;
    }
    let third = insert_zeros(held, shown, STATE_AT + 2 * w + d, STATE_DIGITS - d);
    let second = insert_zeros(held, third, SECOND_AT + w, LENGTH_DIGITS - w);
    insert_zeros(held, second, FIRST_AT, LENGTH_DIGITS - w)
}

// Whether a line of n bytes has its state, and no more digits than the form that is written; and there is room for it in that form.
fn widens(room: usize, n: usize, w: usize, d: usize) -> bool
    ensures { result ≡ widens room n w d }
{
    // One test after another: joined by `&&`, each would be two cases of those after it.
    if w > LENGTH_DIGITS {
        return false;
    }
    if d > STATE_DIGITS {
        return false;
    }
    if n < STATE_AT + 2 * w + d {
        return false;
    }
    if room < n {
        return false;
    }
    room - n >= 2 * (LENGTH_DIGITS - w) + (STATE_DIGITS - d)
}

// n digits 0 are put in at index `at` of the first `len` bytes held; how many there are then.
fn insert_zeros(held: &mut [u8], len: usize, at: usize, n: usize) -> usize
    requires { (at ≤ len) × (len + n ≤ length held.old) }
    ensures { (take result held.new ≡ padded at n (take len held.old)) × (result ≡ len + n)
        × (drop result held.new ≡ drop result held.old) }
{
    if n == 0 {
        return len;
    }
    held.copy_within(at..len, at + n);
    held[at..at + n].fill(b'0');
    len + n
}
