// Files, read within their limits.
ghost use Rattle.std.specs.Prelude.{◌+◌, ◌≤◌, length, sum_by, IfErr, IfOk};
ghost use Rattle.command_inputs.specs.Due.{file_due};
ghost use Rattle.command_inputs.specs.Inputs.{optional_due, lists_due};
ghost use Rattle.command_inputs.specs.Reads.{IsFileError, ReadsAs};

use crate::{FILE_LIMIT, File, InputRefusal, Status};
use cos_outside::{ReadError, Shelf, read_file};
use listed::{Bytes, Listed, Names, Text};
use std::alloc::Global;

/// Reads a file within a limit.
pub fn read_within<S: Shelf>(
    alloc: Global,
    shelf: &mut S,
    file: File,
    limit: usize,
    name: &str,
) -> Result<Bytes, Status>
    ensures reads { ReadsAs S.tells S.files S.begun S.faults shelf.old shelf.new
        (file_due file limit name.now) result }
    ensures kinds { IfErr result IsFileError }
    ensures within { IfOk result (λ bytes. length bytes ≤ limit) }
{
    match read_file(alloc, shelf, name, limit) {
        Ok(bytes) => Ok(bytes),
        Err(ReadError::Fault) => Err(Status::ReadFault),
        Err(ReadError::TooLong) => Err(Status::Refused(InputRefusal::TooLong(file))),
        Err(ReadError::NoMemory) => Err(Status::NoMemory),
    }
}

/// Reads a file that the words may leave out, which then has no bytes.
pub fn read_optional<S: Shelf>(
    alloc: Global,
    shelf: &mut S,
    file: File,
    name: &Option<Text>,
) -> Result<Bytes, Status>
    ensures reads { ReadsAs S.tells S.files S.begun S.faults shelf.old shelf.new
        (optional_due file name.now) result }
    ensures kinds { IfErr result IsFileError }
    ensures within { IfOk result (λ bytes. length bytes ≤ FILE_LIMIT) }
{
    match name {
        Some(name) => read_within(alloc, shelf, file, FILE_LIMIT, name.as_str()),
        None => Ok(Bytes::new(alloc)),
    }
}

/// Reads the lists, which together have the room of one file.
pub fn read_lists<S: Shelf>(
    alloc: Global,
    shelf: &mut S,
    names: &Names,
) -> Result<Listed<Bytes>, Status>
    requires { length names.now ≤ 32 }
    ensures reads { ReadsAs S.tells S.files S.begun S.faults shelf.old shelf.new
        (lists_due 1 FILE_LIMIT names.now) result }
    ensures kinds { IfErr result IsFileError }
    ensures within { IfOk result (λ lists. sum_by length lists ≤ FILE_LIMIT) }
    ensures few { IfOk result (λ lists. length lists ≤ length names.now) }
{
    let mut lists = Listed::new(alloc);
    let mut room = FILE_LIMIT;
    let mut number = 1;
    'names: for name in names.as_slice() {
        let bytes = read_within(alloc, shelf, File::List(number), room, name.as_str())?;
        room -= bytes.len();
        number += 1;
        lists.push(bytes)?;
    }
    Ok(lists)
}
