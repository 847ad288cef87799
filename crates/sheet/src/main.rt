// The program `sheet`: reads jets.txt and standard input, and prints the sheet.
#![tactic(auto)]

ghost use Rattle.std.specs.Prelude.{◌≡◌, OnErr, length};
ghost use Rattle.std.specs.Io.{ReadsAtMost};

use records::limits::Limits;
use std::fs::File;
use std::io;
use std::io::ErrorKind;
use std::process::ExitCode;
use std::rt::Files;

// A byte more than a source may have, so that one that is too long is seen to be.
const SOURCE: usize = Limits::SOURCE as usize + 1;

// A byte more than a jet list may have, likewise.
const JETS: usize = sheets::JETS + 1;

// Reads jets.txt; a file that is absent is an empty list. An error leaves the buffer with bytes of no meaning.
fn read_jets<R: Files>(rt: &R, buf: &mut [u8]) -> io::Result<usize>
    ensures ok { ReadsAtMost result buf.new }
    ensures err { OnErr result (length buf.new ≡ length buf.old) }
{
    match File::open(rt, "jets.txt") {
        Ok(mut file) => inputs::read_full(&mut file, buf),
        Err(error) if error.kind() == ErrorKind::NotFound => Ok(0),
        Err(error) => Err(error),
    }
}

// Prints the sheet of a source.
fn print_sheet<R: Print>(rt: &R, source: &[u8], jets: &[u8]) -> io::Result<ExitCode> {
    let mut out = [0u8; print::LISTING];
    let len = sheets::fill_sheet(source, jets, &mut out);
    rt.write_all(&out[..len])?;
    Ok(ExitCode::SUCCESS)
}

// Says why an input cannot be read; nothing is printed then.
fn fail<R: Eprint>(rt: &R, input: &str, error: io::Error) -> io::Result<ExitCode> {
    eprintln!(rt; "sheet: {input}: {error}")?;
    Ok(ExitCode::FAILURE)
}

// Reads standard input and prints its sheet.
fn print_input<R: Input + Print + Eprint>(rt: &R, jets: &[u8]) -> io::Result<ExitCode> {
    let mut source = [0u8; SOURCE];
    match inputs::read_full(&mut rt.reader(), &mut source) {
        Ok(len) => print_sheet(rt, &source[..len], jets),
        Err(error) => fail(rt, "standard input", error),
    }
}

// A list that is too long is refused before any look at the source.
fn main(rt: HostRuntime) -> io::Result<ExitCode> {
    let mut jets = [0u8; JETS];
    match read_jets(&rt, &mut jets) {
        Ok(len) if sheets::JETS < len => print_sheet(&rt, b"", &jets[..len]),
        Ok(len) => print_input(&rt, &jets[..len]),
        Err(error) => fail(&rt, "jets.txt", error),
    }
}
