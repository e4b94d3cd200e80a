// Text put into a buffer as far as it goes: a pattern with its marks replaced by numbers.
// A place beside the buffer: text is cut at the buffer's end, and its whole length is told.
ghost use Rattle.std.specs.Prelude.{◌≡◌, [], ◌∷◌, ◌+◌, ◌*◌, ◌≤◌, ◌<◌, ◌^◌, length};
ghost use Rattle.text.specs.Text.{glyph, numeral, filled, bad_line};
ghost use Rattle.text.specs.Writing.{Wrote, put_at};

/// Where a number stands in hexadecimal.
const HEX_MARK: u8 = b'#';

/// Where one stands in decimal.
const DECIMAL_MARK: u8 = b'%';

/// Places of a buffer that are written to: the end of a text put there is a number of 64 bits.
const PLACES: usize = 0x8000000000000000;

/// The longest pattern.
const PATTERN_MOST: usize = 65536;

/// A byte, where the buffer has a place for it.
fn put(out: &mut [u8], at: usize, byte: u8) -> usize
    requires { at + 1 < 2 ^ 64 }
    ensures { Wrote out.old at (byte ∷ []) out.new result }
{
    // No `get_mut`: the proof loses what a write through it leaves where the branches join.
    if at < out.len() {
        out[at] = byte;
    }
    at + 1
}

// No from_digit: it answers an Option of a char.
#[tactic(auto, unfolding(crate::specs::Text::glyph))]
fn glyph(digit: u64) -> u8
    requires { digit < 16 }
    ensures { result ≡ glyph digit }
{
    match digit {
        0..=9 => b'0' + digit as u8,
        _ => b'a' + (digit - 10) as u8,
    }
}

// A recursion: its measure is the digits left, and it needs no buffer to turn them round.
/// A number in a base, by at most `more` + 1 digits.
fn numeral(out: &mut [u8], at: usize, base: u64, more: usize, n: u64) -> usize
    requires { (1 < base) × (base ≤ 16) × (at + more + 1 < 2 ^ 64) }
    ensures { Wrote out.old at (numeral base more n) out.new result }
{
    if more == 0 || n < base {
        return put(out, at, glyph(n % base));
    }
    let end = numeral(out, at, base, more - 1, n / base);
    put(out, end, glyph(n % base))
}

/// A pattern, each mark replaced by the next field; where it ends.
fn fill(out: &mut [u8], at: usize, pattern: &[u8], fields: &[u64]) -> usize
    requires { at + 20 * length pattern.now < 2 ^ 64 }
    ensures { Wrote out.old at (filled pattern.now fields.now) out.new result }
{
    let mut end = at;
    let mut fields = fields.iter();
    for &byte in pattern {
        end = match byte {
            HEX_MARK => numeral(out, end, 16, 15, fields.next().copied().unwrap_or(0)),
            DECIMAL_MARK => numeral(out, end, 10, 19, fields.next().copied().unwrap_or(0)),
            _ => put(out, end, byte),
        };
    }
    end
}

/// A pattern, each mark replaced by the next field; where it ends. At a place from 2^63 on, or of a pattern of more than 65,536 bytes,
/// nothing is put.
pub fn write(out: &mut [u8], at: usize, pattern: &[u8], fields: &[u64]) -> usize
    ensures { Wrote out.old at (put_at at pattern.now fields.now) out.new result }
{
    if at >= PLACES || pattern.len() > PATTERN_MOST {
        return at;
    }
    fill(out, at, pattern, fields)
}

/// The line that says that line n is bad.
#[tactic(auto, unfolding(crate::specs::Text::bad_line, crate::specs::Codes::codes))]
pub fn put_bad(out: &mut [u8], at: usize, n: u64) -> usize
    ensures { Wrote out.old at (put_at at bad_line (n ∷ [])) out.new result }
{
    write(out, at, b"(bad %)\n", &[n])
}
