// What a line of a script says. The line is held against the pattern of each form, in which '#' stands for a number.
ghost use Rattle.std.specs.Prelude.{◌≡◌, leb, length, position};
ghost use Rattle.text.specs.Digits.{digit_of};
ghost use Rattle.script.specs.Line.{digits_at, matched, register_form, special_form, step_form, line_of};
ghost use Rattle.script.specs.Reading.{marks, IsNumberAt};

use model::Instruction;

/// A register's number and what it is set to.
#[derive(Clone, Copy)]
pub struct Setting {
    pub index: u8,
    pub value: u64,
}

/// What a line says.
#[derive(Clone, Copy)]
pub enum Form {
    /// `(set (reg 0) 7)`
    Register(Setting),
    /// `(set (special 1f) 5)`
    Special(Setting),
    /// `(step (f2 1 0 5))`
    Step(Instruction),
}

/// What a line says, its newline left out; none where it is of no form.
pub fn read(line: &[u8]) -> Option<Form>
    ensures { result ≡ line_of line.now }
{
    if let Some(values) = matched(b"(set (reg #) #)", line) {
        return register(values);
    }
    if let Some(values) = matched(b"(set (special #) #)", line) {
        return special(values);
    }
    step(matched(b"(step (# # # #))", line)?)
}

// A register's number is a byte.
#[tactic(auto, unfolding(crate::specs::Line::register_form))]
fn register(values: [u64; 2]) -> Option<Form>
    ensures { result ≡ register_form values }
{
    let [index, value] = values;
    let index = u8::try_from(index).ok()?;
    Some(Form::Register(Setting { index, value }))
}

// There are 32 special registers.
#[tactic(auto, unfolding(crate::specs::Line::special_form))]
fn special(values: [u64; 2]) -> Option<Form>
    ensures { result ≡ special_form values }
{
    let [index, value] = values;
    if index >= 32 {
        return None;
    }
    let index = index as u8;
    Some(Form::Special(Setting { index, value }))
}

// Each number of a step is a byte.
#[tactic(auto, unfolding(crate::specs::Line::step_form))]
fn step(values: [u64; 4]) -> Option<Form>
    ensures { result ≡ step_form values }
{
    let [op, x, y, z] = values;
    Some(Form::Step(Instruction {
        op: u8::try_from(op).ok()?,
        x: u8::try_from(x).ok()?,
        y: u8::try_from(y).ok()?,
        z: u8::try_from(z).ok()?,
    }))
}

// The numbers of a line that is of a pattern.
fn matched<const N: usize>(pattern: &[u8], line: &[u8]) -> Option<[u64; N]>
    requires { marks pattern.now ≡ N }
    ensures { result ≡ matched pattern.now line.now }
{
    let mut values = [0; N];
    let mut count = 0;
    let mut rest = line;
    for &c in pattern {
        if c == b'#' {
            let (value, after) = number(rest)?;
            values[count] = value;
            count += 1;
            rest = after;
        } else {
            let (&b, after) = rest.split_first()?;
            if b != c {
                return None;
            }
            rest = after;
        }
    }
    if rest.is_empty() { Some(values) } else { None }
}

// The number at the front of a line, and what follows it: 1 to 16 digits, of which the first is not 0 unless it is alone.
fn number(line: &[u8]) -> Option<(u64, &[u8])>
    ensures { IsNumberAt line.now result }
{
    let (digits, rest) = line.split_at(digits_len(line));
    if digits.is_empty() {
        return None;
    }
    if digits.len() > 1 && digits[0] == b'0' {
        return None;
    }
    Some((text::read::number(digits)?, rest))
}

// How many digits a line begins with.
#[tactic(auto, using(crate::proofs::Digits::digits_position))]
fn digits_len(line: &[u8]) -> usize
    ensures { result ≡ length (digits_at line.now) }
{
    past_digits(line).unwrap_or(line.len())
}

// The first byte that is no digit.
#[tactic(auto, using(crate::proofs::Digits::digit_none))]
fn past_digits(line: &[u8]) -> Option<usize>
    ensures { result ≡ position (λ b. leb 16 (digit_of b)) line.now }
{
    line.iter().position(|&b| text::read::digit(b).is_none())
}
