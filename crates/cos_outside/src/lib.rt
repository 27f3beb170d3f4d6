//! What the program takes from outside and gives back: a shelf of files, and a sink of bytes.
//!
//! Code that reads and writes is generic in `Shelf` and `Sink`, whose contracts say what each call does to the files, the
//! names begun and the bytes written. `MemoryShelf` and `MemorySink` are fakes that tell all of it and fail where a test
//! wants it; `FileShelf` and `StdSink` are the real things, and tell no contents. `read_file` and `write_whole` read and
//! write whole texts, and `Steps` is a counter for contracts that bound work.
#![tactic(auto)]

ghost use Rattle.std.specs.Prelude.{◌≡◌, ◌<◌};

mod errors;
mod faults;
mod memory_shelf;
mod memory_sink;
mod planned;
mod real;
mod shelf;
mod sink;
mod steps;
mod whole;

pub use errors::{Failed, ReadError};
pub use listed::Bytes;
pub use memory_shelf::{MemoryShelf, NamedFiles};
pub use memory_sink::MemorySink;
pub use planned::Calls;
pub use real::{FileShelf, StdSink};
pub use shelf::Shelf;
pub use sink::Sink;
pub use steps::Steps;
pub use whole::{read_file, write_whole};

#[cfg(test)]
mod tests {
    use super::*;
    use std::alloc::{AllocError, Global};
    use std::marker::Brand;
    use std::sync::ledger::{Blank, Ledger};
    use std::test::Fail;

    fn bytes_of(alloc: Global, text: &[u8]) -> Result<Bytes, AllocError> {
        let mut bytes = Bytes::new(alloc);
        bytes.extend(text)?;
        Ok(bytes)
    }

    fn calls_of(alloc: Global, calls: &[u64]) -> Result<Calls, AllocError> {
        let mut list = Calls::new(alloc);
        list.extend(calls)?;
        Ok(list)
    }

    fn shelf_of(alloc: Global, piece: usize, fails: &[u64]) -> Result<MemoryShelf, AllocError>
        requires { 0 < piece }
    {
        let mut files = NamedFiles::new(alloc);
        files.push((bytes_of(alloc, b"a")?, bytes_of(alloc, b"hello")?))?;
        files.push((bytes_of(alloc, b"b")?, bytes_of(alloc, b"")?))?;
        files.push((bytes_of(alloc, b"a")?, bytes_of(alloc, b"later")?))?;
        Ok(MemoryShelf::new(alloc, files, piece, calls_of(alloc, fails)?))
    }

    #[test]
    fn a_file_is_read_whole(rt: HostRuntime) -> Result<(), Fail> {
        let alloc = rt.alloc();
        for piece in [1, 2, 9] {
            let mut shelf = shelf_of(alloc, piece, &[])?;
            let bytes = read_file(alloc, &mut shelf, "a", 5).map_err(|_| "not read")?;
            assert_eq!(rt;
                bytes.as_slice(),
                b"hello".as_slice(),
                "in pieces of {piece}"
            );
            let none = read_file(alloc, &mut shelf, "b", 0).map_err(|_| "not read")?;
            assert_eq!(rt; none.len(), 0);
        }
        Ok(())
    }

    #[test]
    fn a_file_is_not_read(rt: HostRuntime) -> Result<(), Fail> {
        let alloc = rt.alloc();
        // At piece 2, `begin` is the call 1, and `next` the calls 2 to 5.
        for (name, limit, fails, want) in [
            ("c", 9, 9, ReadError::Fault),
            ("a", 9, 1, ReadError::Fault),
            ("a", 9, 5, ReadError::Fault),
            ("a", 4, 9, ReadError::TooLong),
            ("a", 0, 9, ReadError::TooLong),
        ] {
            let mut shelf = shelf_of(alloc, 2, &[fails])?;
            let error = read_file(alloc, &mut shelf, name, limit)
                .err()
                .ok_or("read")?;
            assert_eq!(rt; error, want, "at {name:?}, {limit} and {fails}");
        }
        Ok(())
    }

    #[test]
    fn bytes_are_written_whole_or_a_call_fails(rt: HostRuntime) -> Result<(), Fail> {
        let alloc = rt.alloc();
        let mut out = MemorySink::new(alloc, calls_of(alloc, &[3])?);
        assert_eq!(rt; write_whole(&mut out, b"one"), Ok(()));
        assert_eq!(rt; write_whole(&mut out, b""), Ok(()));
        assert_eq!(rt; write_whole(&mut out, b" two"), Ok(()));
        assert_eq!(rt; write_whole(&mut out, b"three"), Err(Failed));
        assert_eq!(rt; write_whole(&mut out, b" four"), Ok(()));
        assert_eq!(rt; out.written(), b"one two four".as_slice());
        Ok(())
    }

    #[test]
    fn the_real_things(rt: HostRuntime) -> Result<(), Fail> {
        let alloc = rt.alloc();
        let mut shelf = FileShelf::new(&rt);
        // One file has no byte, and the other one no end.
        let none = read_file(alloc, &mut shelf, "/dev/null", 0).map_err(|_| "not read")?;
        assert_eq!(rt; none.len(), 0);
        for (name, want) in [
            ("/dev/zero", ReadError::TooLong),
            ("/dev", ReadError::Fault),
            ("not there", ReadError::Fault),
        ] {
            let error = read_file(alloc, &mut shelf, name, 5000)
                .err()
                .ok_or("read")?;
            assert_eq!(rt; error, want, "at {name:?}");
        }
        let mut out = StdSink::new(&rt);
        assert_eq!(rt; write_whole(&mut out, b"written\n"), Ok(()));
        assert_eq!(rt; out.write(b""), Ok(0));
        Ok(())
    }

    #[test]
    fn errors_have_texts(rt: HostRuntime) -> Result<(), Fail> {
        let alloc = rt.alloc();
        for (error, want) in [
            (ReadError::Fault, "the file can't be read"),
            (ReadError::TooLong, "the file is too long"),
            (ReadError::NoMemory, "out of memory"),
        ] {
            assert_eq!(rt; format!(in alloc; "{error}")?.as_str(), want);
        }
        assert_eq!(rt; format!(in alloc; "{Failed}")?.as_str(), "the call failed");
        Ok(())
    }

    // Takes two steps on the ledger that the blank stands for.
    fn take_steps<L: Ledger>(blank: Blank)
        requires name { blank.name ≡ L.name }
        requires parts { blank.parts ≡ L.parts }
        requires some { 0 < blank.parts }
    {
        let mut steps = Steps::<L>::new(blank);
        steps.tick();
        steps.tick();
    }

    #[test]
    fn steps_are_taken(_rt: HostRuntime) {
        take_steps::<Brand>(Blank::new(1));
    }
}
