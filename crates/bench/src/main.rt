//! The bench program: a script on standard input, what it prints on standard output. A read or a write that fails is told on
//! standard error.
#![tactic(auto)]

ghost use Rattle.std.specs.Prelude.{◌≡◌, ◌≤◌, length};
ghost use Rattle.script.specs.Script.{input_length, output_length};
ghost use Rattle.bench.specs.Answer.{Joins, ReadWithin, Roomy, Answers};

use script::script::{INPUT_LEN, OUTPUT_LEN};
use std::io;
use std::io::{Print, Read};
use std::process::ExitCode;
use text::report::failure;

// Functions, here and below: a constant has no contract.
fn input_buffer() -> [u8; INPUT_LEN]
    ensures { input_length ≡ length result }
{
    [0; INPUT_LEN]
}

fn output_buffer() -> [u8; OUTPUT_LEN]
    ensures { output_length ≡ length result }
{
    [0; OUTPUT_LEN]
}

/// One read, into what follows the first `done` bytes of `buf`; how many there are then.
fn read_more<I: Read>(reader: &mut I, buf: &mut [u8], done: usize) -> io::Result<usize>
    requires { done ≤ length buf.old }
    ensures { Joins buf.old done buf.new result }
{
    let n = reader.read(&mut buf[done..])?;
    Ok(done + n)
}

// No read_to_end: it takes a Vec.
/// Reads until `buf` is full or the input ends; how many bytes that are.
fn read_all<I: Read>(reader: &mut I, buf: &mut [u8]) -> io::Result<usize>
    ensures { ReadWithin result buf.new }
{
    let mut done = 0;
    while done < buf.len() {
        let next = read_more(reader, buf, done)?;
        if next == done {
            break;
        }
        done = next;
    }
    Ok(done)
}

/// What is printed of a script whose first bytes, as many as `input` holds, were read into it: `got` of them.
fn answer(input: &[u8], got: usize, output: &mut [u8]) -> usize
    requires { Roomy input.now got output.old }
    ensures { Answers input.now got output.new result }
{
    script::script::run(&input[..got], output)
}

fn main(rt: HostRuntime) -> ExitCode {
    let mut input = input_buffer();
    let got = match read_all(&mut rt.stdin(), &mut input) {
        Ok(got) => got,
        Err(error) => return failure(&rt, "standard input", error),
    };
    let mut output = output_buffer();
    let n = answer(&input, got, &mut output);
    match rt.write_all(&output[..n]) {
        Ok(()) => ExitCode::SUCCESS,
        Err(error) => failure(&rt, "standard output", error),
    }
}
