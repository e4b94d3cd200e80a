// A line held against the forms of a point's line, in which '#' stands for a digit and any other byte for itself.
ghost use Rattle.std.specs.Prelude.{◌≡◌, true, SomeIff, ltb, ◌≤◌, ◌<◌, ◌^◌};
ghost use Rattle.std.specs.List.{list_all};
ghost use Rattle.text.specs.Digits.{digit_of};
ghost use Rattle.point_lines.specs.Line.{fits_byte, is_form, is_point, marks, widths_of};
ghost use Rattle.point_lines.specs.Met.{IsPast, IsNumberPast, IsFormEnd};

use machine::window::WINDOW_MAX;
use model::{IMAGE_LEN, OLD_IMAGE_LEN};

/// Digits of a state, and of an old image: two a byte.
pub const STATE_DIGITS: usize = 2 * IMAGE_LEN;

const OLD_STATE_DIGITS: usize = 2 * OLD_IMAGE_LEN;

/// The largest window, in octabytes, and the largest of an older line.
const OCTAS_MAX: u64 = WINDOW_MAX as u64 / 8;

const OLD_OCTAS_MAX: u64 = 0x2000;

/// Digits of a window's length, and of an older line's.
pub const LENGTH_DIGITS: usize = 8;

const OLD_LENGTH_DIGITS: usize = 4;

/// The longest line of a point, its newline left out: 88 bytes are neither a length's nor the state's nor a window's.
pub const LONGEST_LINE: usize = 88 + 2 * LENGTH_DIGITS + STATE_DIGITS + 32 * OCTAS_MAX as usize;

/// Where a line has its first length; its second and its state, which come after w digits and after 2 * w.
pub const FIRST_AT: usize = 23;

pub const SECOND_AT: usize = 24;

pub const STATE_AT: usize = 75;

/// How many digits each length of a line has, and its state.
#[derive(Clone, Copy)]
pub struct Widths {
    pub lengths: usize,
    pub state: usize,
}

/// The widths of a point's line, its newline left out, by its form: that which is written, or an older one.
pub fn widths_of(line: &[u8]) -> Option<Widths>
    ensures { SomeIff result (is_point line.now ≡ true) (widths_of line.now) }
{
    // Four tests: of a loop over a table the proof would say "none before" case by case.
    let written = Widths {
        lengths: LENGTH_DIGITS,
        state: STATE_DIGITS,
    };
    if is_form(line, written, OCTAS_MAX) {
        return Some(written);
    }
    let old = Widths {
        lengths: LENGTH_DIGITS,
        state: OLD_STATE_DIGITS,
    };
    if is_form(line, old, OCTAS_MAX) {
        return Some(old);
    }
    let short = Widths {
        lengths: OLD_LENGTH_DIGITS,
        state: STATE_DIGITS,
    };
    if is_form(line, short, OLD_OCTAS_MAX) {
        return Some(short);
    }
    let short_old = Widths {
        lengths: OLD_LENGTH_DIGITS,
        state: OLD_STATE_DIGITS,
    };
    if is_form(line, short_old, OLD_OCTAS_MAX) {
        return Some(short_old);
    }
    None
}

// Whether a line is of the form with these widths, and neither window has more than `octas_max` octabytes.
fn is_form(line: &[u8], widths: Widths, octas_max: u64) -> bool
    requires { (widths.lengths ≤ 8) × (octas_max < 2 ^ 56) }
    ensures { result ≡ is_form widths.lengths widths.state octas_max line.now }
{
    match form_end(line, widths, octas_max) {
        Some(rest) => rest.is_empty(),
        None => false,
    }
}

// What follows such a form at the front of a line.
fn form_end(line: &[u8], widths: Widths, octas_max: u64) -> Option<&[u8]>
    requires { (widths.lengths ≤ 8) × (octas_max < 2 ^ 56) }
    ensures { IsFormEnd widths.lengths widths.state octas_max line.now result }
{
    let rest = past(line, b"(point (name #) (octas ")?;
    let (a, rest) = past_number(rest, widths.lengths)?;
    let rest = past(rest, b" ")?;
    let (b, rest) = past_number(rest, widths.lengths)?;
    if a > octas_max || b > octas_max {
        return None;
    }
    let windows = 16 * (a + b) as usize;
    let rest = past(rest, b") (bases ################ ################) (state ")?;
    let rest = past_digits(rest, widths.state)?;
    let rest = past(rest, b") (windows ")?;
    let rest = past_digits(rest, windows)?;
    past(rest, b"))")
}

// What follows a part of a form at the front of a line.
fn past<'l>(line: &'l [u8], form: &[u8]) -> Option<&'l [u8]>
    ensures { IsPast form.now line.now result }
{
    let mut rest = line;
    for &c in form {
        let (&b, after) = rest.split_first()?;
        if !fits_byte(c, b) {
            return None;
        }
        rest = after;
    }
    Some(rest)
}

// What follows n digits.
fn past_digits(line: &[u8], n: usize) -> Option<&[u8]>
    ensures { IsPast (marks n) line.now result }
{
    let (digits, rest) = line.split_at_checked(n)?;
    if are_digits(digits) { Some(rest) } else { None }
}

#[tactic(auto, using(text::proofs::Digits::digit_some))]
fn are_digits(bytes: &[u8]) -> bool
    ensures { result ≡ list_all (λ b. ltb (digit_of b) 16) bytes.now }
{
    bytes.iter().all(|&b| text::read::digit(b).is_some())
}

// The number that n digits are, and what follows them.
fn past_number(line: &[u8], n: usize) -> Option<(u64, &[u8])>
    requires { n ≤ 8 }
    ensures { IsNumberPast n line.now result }
{
    let (digits, rest) = line.split_at_checked(n)?;
    Some((text::read::number(digits)?, rest))
}

// Whether a byte is what a byte of a form says.
#[tactic(auto, using(text::proofs::Digits::digit_some), unfolding(crate::specs::Line::fits_byte))]
fn fits_byte(c: u8, b: u8) -> bool
    ensures { result ≡ fits_byte c b }
{
    if c == b'#' {
        text::read::digit(b).is_some()
    } else {
        b == c
    }
}
