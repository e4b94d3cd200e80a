//! The program `make points`: lines of points on standard input, each again on standard output, one of an older form in the new; a line that is no
//! point's is told by `(bad N)`, and ends it. A read or a write that fails is told on standard error.
#![tactic(auto)]

ghost use Rattle.std.specs.Prelude.{◌≡◌, ◌+◌, ◌≤◌, ◌<◌, ◌^◌, IfOk, length};
ghost use Rattle.point_lines.specs.Line.{longest_line};
ghost use Rattle.point_lines_program.specs.Chunk.{input_length, held_length, turns_most, at_start, Standing, Shows, Ends, Fed, Refills, Turns, Finishes};

use point_lines::stream::{HELD_LEN, Turn};
use std::io;
use std::io::{Eprint, Print, Read};
use std::process::ExitCode;
use text::report::failure;

/// Bytes of the input that are read at once.
const INPUT_LEN: usize = 65536;

/// Where the program stands: the bytes of the input buffer from `at` to `end` are not looked at yet, and `count` bytes are held of line `number`.
#[derive(Clone, Copy)]
struct Place {
    at: usize,
    end: usize,
    count: usize,
    number: u64,
}

/// What a turn leaves: a text to be written, the first so many bytes held, and what comes after it.
#[derive(Clone, Copy)]
enum After {
    /// The next turn is made from this place.
    On(usize, Place),
    /// Nothing: this is the last text, at the place from which the turn was made.
    Last(usize, Place),
}

/// What keeps the program from its end.
#[derive(Drop)]
enum Failure {
    Read(io::Error),
    Write(io::Error),
    TooLong,
}

// Functions, here and below: a constant has no contract.
fn input_buffer() -> [u8; INPUT_LEN]
    ensures { input_length ≡ length result }
{
    [0; INPUT_LEN]
}

fn held_buffer() -> [u8; HELD_LEN]
    ensures { held_length ≡ length result }
{
    [0; HELD_LEN]
}

/// Nothing is read yet, and the first line is line 1.
fn start() -> Place
    ensures { result ≡ at_start }
{
    Place {
        at: 0,
        end: 0,
        count: 0,
        number: 1,
    }
}

/// So many turns the program makes at most, so that it is seen to end.
fn turns_most() -> u64
    ensures { result ≡ turns_most }
{
    0x8000000000000000
}

/// A turn within the input buffer: its bytes join the line that is held, up to that line's end.
fn show_one(input: &[u8], held: &mut [u8], place: Place) -> After
    requires { Standing input.now held.old place × (place.number + 1 < 2 ^ 64) }
    ensures { Shows input.now held.old place held.new result }
{
    let Place {
        at,
        end,
        number,
        ..
    } = place;
    match point_lines::stream::advance(&input[at..end], held, place.count) {
        Turn::More(count) => {
            let next = Place {
                at: end,
                count,
                ..place
            };
            After::On(0, next)
        }
        Turn::Good {
            used,
            shown,
            widths,
        } => {
            let text = point_lines::anew::renew(held, shown, widths);
            let next = Place {
                at: at + used,
                end,
                count: 0,
                number: number + 1,
            };
            After::On(text, next)
        }
        Turn::Bad => {
            let text = point_lines::stream::put_bad(held, number);
            After::Last(text, place)
        }
    }
}

/// The input has ended: a line that has begun has no newline. The last text.
fn at_end(held: &mut [u8], place: Place) -> usize
    requires { (longest_line < length held.old) × (place.at ≡ place.end) }
    ensures { Ends held.old place held.new result }
{
    if place.count == 0 {
        return 0;
    }
    point_lines::stream::put_bad(held, place.number)
}

/// A read has put k bytes into the buffer, of which nothing was left; none where the input has ended.
fn fed(k: usize, input: &[u8], held: &mut [u8], place: Place) -> After
    requires { Standing input.now held.old place × (place.at ≡ place.end) × (k ≤ length input.now) }
    ensures { Fed k input.now held.old place held.new result }
{
    if k == 0 {
        return After::Last(at_end(held, place), place);
    }
    let next = Place {
        at: 0,
        end: k,
        ..place
    };
    After::On(0, next)
}

/// The input is read once, over a buffer of which nothing is left.
fn refill<I: Read>(
    reader: &mut I,
    input: &mut [u8],
    held: &mut [u8],
    place: Place,
) -> io::Result<After>
    requires { Standing input.old held.old place × (place.at ≡ place.end) }
    ensures { IfOk result (Refills input.old held.old place input.new held.new) }
{
    let k = reader.read(input)?;
    Ok(fed(k, input, held, place))
}

/// A turn: within the input buffer, or a read where nothing of it is left.
fn turn<I: Read>(
    reader: &mut I,
    input: &mut [u8],
    held: &mut [u8],
    place: Place,
) -> io::Result<After>
    requires { Standing input.old held.old place × (place.number + 1 < 2 ^ 64) }
    ensures { IfOk result (Turns input.old held.old place input.new held.new) }
{
    if place.at < place.end {
        return Ok(show_one(input, held, place));
    }
    refill(reader, input, held, place)
}

/// Turns from the first on, each text but the last printed; the last one, and where the program stands then.
fn run<I: Read, R: Print>(
    reader: &mut I,
    rt: &R,
    input: &mut [u8],
    held: &mut [u8],
) -> Result<(usize, Place), Failure>
    requires { (length input.old ≡ input_length) × (longest_line < length held.old) }
    ensures { IfOk result (Finishes held.new) }
{
    let mut place = start();
    for _ in 0..turns_most() {
        match turn(reader, input, held, place).map_err(Failure::Read)? {
            After::On(text, next) => {
                rt.write_all(&held[..text]).map_err(Failure::Write)?;
                place = next;
            }
            After::Last(text, end) => return Ok((text, end)),
        }
    }
    Err(Failure::TooLong)
}

/// What failed is told on standard error.
fn tell<R: Eprint>(rt: &R, what: Failure) -> ExitCode {
    match what {
        Failure::Read(error) => failure(rt, "standard input", error),
        Failure::Write(error) => failure(rt, "standard output", error),
        Failure::TooLong => {
            let _ = eprintln!(rt; "standard input: too long");
            ExitCode::FAILURE
        }
    }
}

fn main(rt: HostRuntime) -> ExitCode {
    let mut input = input_buffer();
    let mut held = held_buffer();
    match run(&mut rt.stdin(), &rt, &mut input, &mut held) {
        Ok((text, _)) => match rt.write_all(&held[..text]) {
            Ok(()) => ExitCode::SUCCESS,
            Err(error) => tell(&rt, Failure::Write(error)),
        },
        Err(what) => tell(&rt, what),
    }
}
