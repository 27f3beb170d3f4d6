// The words that the program is given, and how it ends.
ghost use Rattle.std.specs.Prelude.{◌≡◌};
ghost use Rattle.cosmetic_top.specs.Statuses.{exit_status, status_of};

use command_inputs::{File, InputRefusal, Status};
use hide_report::ReportError;
use std::alloc::Global;
use std::rt::Env;
use std::{env, io};

/// The words after the program's name. Words that aren't UTF-8 are a faulty command line.
pub fn words(rt: &(impl Env + AllocGlobal)) -> Result<Vec<String>, Status> {
    match all_words(rt) {
        Ok(words) => Ok(words),
        Err(error) if error.kind() == io::ErrorKind::OutOfMemory => Err(Status::NoMemory),
        Err(_) => Err(Status::Usage),
    }
}

fn all_words(rt: &(impl Env + AllocGlobal)) -> io::Result<Vec<String>> {
    let mut words = Vec::new(rt.alloc());
    for word in env::args(rt)?.skip(1) {
        words.push(word)?;
    }
    Ok(words)
}

/// Says on standard error how a run ended, unless all is well.
pub fn tell(rt: &impl Eprint, status: Status) {
    let _ = match status {
        Status::Done => Ok(()),
        Status::Usage => rt.eprintln("cosmetic: usage: cosmetic apply|lists|drill .."),
        Status::ReadFault => rt.eprintln("cosmetic: a file could not be read"),
        Status::WriteFault => rt.eprintln("cosmetic: the output could not be written"),
        Status::NoMemory => rt.eprintln("cosmetic: out of memory"),
        Status::Refused(refusal) => tell_refusal(rt, refusal),
    };
}

fn tell_refusal(rt: &impl Eprint, refusal: InputRefusal) -> io::Result<()> {
    match refusal {
        InputRefusal::TooManyLists => rt.eprintln("cosmetic: refused: more than 32 lists"),
        InputRefusal::AddressTooLong => {
            rt.eprintln("cosmetic: refused: address past 65536 bytes")
        }
        InputRefusal::BadAddress => rt.eprintln("cosmetic: refused: not an address"),
        InputRefusal::AddressTooLarge => rt.eprintln("cosmetic: refused: address too large"),
        InputRefusal::TooLong(file) => tell_too_long(rt, file),
        InputRefusal::PageNotUtf8(at) => {
            eprintln!(rt; "cosmetic: refused: page is not UTF-8 at {at}")
        }
        InputRefusal::PageTooDeep => rt.eprintln("cosmetic: refused: page deeper than 512"),
        InputRefusal::PageTooManyNodes => rt.eprintln("cosmetic: refused: page past 1000000 nodes"),
    }
}

fn tell_too_long(rt: &impl Eprint, file: File) -> io::Result<()> {
    match file {
        File::Suffixes => rt.eprintln("cosmetic: refused: suffixes too long"),
        File::List(number) => eprintln!(rt; "cosmetic: refused: list {number} too long"),
        File::Page => rt.eprintln("cosmetic: refused: page too long"),
        File::Script => rt.eprintln("cosmetic: refused: script too long"),
    }
}

/// How a run ends whose report wasn't written whole.
pub fn status_of(error: ReportError) -> Status
    ensures { result ≡ status_of error }
{
    match error {
        ReportError::WriteFault => Status::WriteFault,
        ReportError::NoMemory => Status::NoMemory,
    }
}

/// The exit status of the program.
pub fn code_of(status: Status) -> u8
    ensures { result ≡ exit_status status }
{
    match status {
        Status::Done => 0,
        Status::Usage => 2,
        Status::ReadFault => 3,
        Status::WriteFault => 4,
        Status::Refused(_) => 5,
        Status::NoMemory => 6,
    }
}
