// What both programs read: a hexadecimal digit, and where a line ends.
ghost use Rattle.std.specs.Prelude.{◌≡◌, ◌+◌, ◌<◌, ◌≤◌, SomeIff, All, length, ◌==◌, drop, position};
ghost use Rattle.text.specs.Digits.{digit_of, value_of};
ghost use Rattle.text.specs.Pieces.{line_length};

const NEWLINE: u8 = b'\n';

/// The digits of the longest number.
const DIGITS_MOST: usize = 16;

/// The hexadecimal digit, lower case, that a byte is.
#[tactic(auto, unfolding(crate::specs::Digits::digit_of, model::specs::Fill::within))]
pub fn digit(b: u8) -> Option<u8>
    ensures { SomeIff result (digit_of b < 16) (digit_of b) }
{
    match b {
        b'0'..=b'9' => Some(b - b'0'),
        b'a'..=b'f' => Some(b - b'a' + 10),
        _ => None,
    }
}

/// The number that hexadecimal digits are, lower case; none of more than 16, or where a byte is no digit.
pub fn number(digits: &[u8]) -> Option<u64>
    ensures { SomeIff result ((length digits.now ≤ 16) × All (λ b. digit_of b < 16) digits.now)
        (value_of digits.now) }
{
    if digits.len() > DIGITS_MOST {
        return None;
    }
    let mut number = 0;
    for &b in digits {
        let low = digit(b)?;
        number = number * 16 + u64::from(low);
    }
    Some(number)
}

/// Where the line from `at` on ends: at its newline, or at the text's end where it has none.
#[tactic(auto, using(crate::proofs::Pieces::line_position, crate::proofs::Pieces::line_past))]
pub fn line_end(text: &[u8], at: usize) -> usize
    ensures { result ≡ at + line_length (drop at text.now) }
{
    match text.get(at..) {
        Some(rest) => at + newline(rest).unwrap_or(rest.len()),
        None => at,
    }
}

/// Where a text has its first newline.
fn newline(text: &[u8]) -> Option<usize>
    ensures { result ≡ position (λ b. b == NEWLINE) text.now }
{
    text.iter().position(|&b| b == NEWLINE)
}
