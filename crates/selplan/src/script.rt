use crate::bench::Bench;
use crate::hex::print_hex;
use crate::line_error::LineError;
use scripts::parsing::parse;
use scripts::request::{Call, Request};
use std::alloc::Global;
use std::io::ErrorKind;
use std::process::ExitCode;
use std::{fs, io, str};
use workbench::answer::Answer;

fn name_of(heap: Global, file: &[u8]) -> Result<String, LineError> {
    match str::from_utf8(file) {
        Ok(name) => Ok(String::from_str(heap, name)?),
        Err(_) => Err(LineError::NameNoText),
    }
}

// What went wrong with a file, if not that memory ran out.
fn file_error(error: io::Error, told: LineError) -> LineError {
    if error.kind() == ErrorKind::OutOfMemory {
        return LineError::Memory(error);
    }
    told
}

fn read_file(rt: &HostRuntime, file: &[u8]) -> Result<Vec<u8>, LineError> {
    let name = name_of(rt.alloc(), file)?;
    fs::read(rt, name.as_str()).map_err(|error| file_error(error, LineError::Unreadable(name)))
}

fn write_file(rt: &HostRuntime, file: &[u8], bytes: &[u8]) -> Result<(), LineError> {
    let name = name_of(rt.alloc(), file)?;
    fs::write(rt, name.as_str(), bytes).map_err(|error| file_error(
        error,
        LineError::Unwritable(name),
    ))
}

// The bytes of the file that a request names to be read.
fn bytes_for(rt: &HostRuntime, request: &Request) -> Result<Vec<u8>, LineError> {
    match request {
        Request::Call(Call::Draw { file, .. }) => read_file(rt, file),
        _ => Ok(Vec::new(rt.alloc())),
    }
}

// What is printed for a line: its answer, and the bytes of a listing that goes into no file.
#[derive(Clone, Copy)]
struct Reply<'a> {
    answer: Answer,
    listing: &'a [u8],
}

// Carries out a line. One of no words has no reply.
fn run_line<'a>(
    rt: &HostRuntime,
    bench: &'a mut Bench,
    line: &[u8],
) -> Result<Option<Reply<'a>>, LineError> {
    let Some(request) = parse(rt.alloc(), line)? else {
        return Ok(None);
    };
    let bytes = bytes_for(rt, &request)?;
    let answer = bench.carry_out(&request, &bytes)?;
    let listing = match (answer, &request) {
        (Answer::Listing(len), Request::Call(Call::List { file: Some(file) })) => {
            write_file(rt, file, bench.listing(len))?;
            &[]
        }
        (Answer::Listing(len), _) => bench.listing(len),
        _ => &[],
    };
    Ok(Some(Reply { answer, listing }))
}

// Carries out each line of a script. Ends with an error status where one was an error.
pub(crate) fn run_script(rt: &HostRuntime, script: &[u8]) -> io::Result<ExitCode> {
    let mut bench = Bench::new(rt.alloc())?;
    let mut code = ExitCode::SUCCESS;
    for (i, line) in script.split(|letter| *letter == b'\n').enumerate() {
        match run_line(rt, &mut bench, line) {
            Ok(None) => {}
            Ok(Some(Reply { answer, listing })) => {
                println!(rt; "{answer}")?;
                print_hex(rt, listing)?;
            }
            Err(LineError::Memory(error)) => return Err(error),
            Err(error) => {
                println!(rt; "ERROR line {}: {error}", i + 1)?;
                code = ExitCode::FAILURE;
            }
        }
    }
    Ok(code)
}
