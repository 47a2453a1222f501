// Standard input read whole and standard output written whole, for a program that says on standard error where either fails.
// Neither is buffered: each step is one call of the system, whose failure is seen at once. One that a signal interrupts before it moved a
// byte counts as failed.
#![tactic(auto)]

ghost use Rattle.std.specs.Prelude.{◌≡◌, IsOk, length};
ghost use Rattle.program_stream.specs.Stream.{IsWholeInput, IsWholeOutput, WithinBuffer};

use std::io;
use std::io::{ErrorKind, Read, Write};

// Standard input up to its end, or as much as buf holds: how many bytes stand at the start of buf. Where a read fails, a line in the
// program's name says so.
pub fn read_input(rt: &HostRuntime, program: &[u8], buf: &mut [u8]) -> io::Result<usize>
    ensures { WithinBuffer result buf.new }
{
    let input = read_whole(&mut rt.stdin(), buf);
    if input.is_err() {
        report_failure(rt, program, b": reading standard input failed\n");
    }
    input
}

// All bytes to standard output. Where it did not take them, a line in the program's name says so.
pub fn write_output(rt: &HostRuntime, program: &[u8], bytes: &[u8]) -> io::Result<()>
    ensures { length bytes.now ≡ 0 → IsOk result }
{
    let output = write_whole(&mut rt.stdout(), bytes);
    if output.is_err() {
        report_failure(rt, program, b": writing standard output failed\n");
    }
    output
}

// A line on standard error. Where that fails too, it cannot be reported.
fn report_failure(rt: &HostRuntime, program: &[u8], line: &[u8]) {
    let _ = write_whole(&mut rt.stderr(), program);
    let _ = write_whole(&mut rt.stderr(), line);
}

// Reads until buf is full, the input ends or a read fails. A loop by hand: read_to_end needs a heap, and read_exact fails at a shorter input.
fn read_whole<R: Read>(reader: &mut R, buf: &mut [u8]) -> io::Result<usize>
    ensures within_buffer { WithinBuffer result buf.new }
    ensures whole { IsWholeInput (R.remaining reader.old) (R.remaining reader.new) result buf.new }
{
    let mut done = 0;
    while done < buf.len() {
        let got = reader.read(&mut buf[done..])?;
        if got == 0 {
            break;
        }
        done += got;
    }
    Ok(done)
}

// Writes until all bytes are taken, or a write fails or takes none. A loop by hand: write_all does not promise the clause nothing, and it
// writes again after a signal.
fn write_whole<W: Write>(writer: &mut W, bytes: &[u8]) -> io::Result<()>
    ensures nothing { length bytes.now ≡ 0 → IsOk result }
    ensures bytes { IsWholeOutput (W.contents writer.old) (W.contents writer.new) result bytes.now }
{
    let mut taken = 0;
    while taken < bytes.len() {
        let put = writer.write(&bytes[taken..])?;
        if put == 0 {
            return Err(io::Error::from(ErrorKind::WriteZero));
        }
        taken += put;
    }
    Ok(())
}
