// The files and the output of the system. Nothing proves what they hold: they are the trusted edge.
ghost use Rattle.std.specs.Prelude.{◌≡◌, [], None, false, is_some};

use crate::faults::FaultCount;
use crate::{Failed, Shelf, Sink};
use std::fs;
use std::io::Read;
use std::rt::Files;

/// The files of the system. It tells no contents.
pub struct FileShelf<'r, R: Files> {
    rt: &'r R,
    file: Option<R::File>,
    faults: FaultCount,
}

impl<'r, R: Files> FileShelf<'r, R> {
    /// A shelf with no file in hand.
    pub fn new(rt: &'r R) -> FileShelf<'r, R>
        ensures tells { ⟦<FileShelf<'r, R> as Shelf>⟧.tells result ≡ false }
        ensures in_hand { ⟦<FileShelf<'r, R> as Shelf>⟧.in_hand result ≡ false }
        ensures faults { ⟦<FileShelf<'r, R> as Shelf>⟧.faults result ≡ 0 }
    {
        FileShelf {
            rt,
            file: None,
            faults: FaultCount::new(),
        }
    }
}

impl<R: Files> Drop for FileShelf<'_, R> {
    fn drop(self) {
        let FileShelf {
            rt: _,
            file: _,
            faults: _,
        } = self;
    }
}

impl<'r, R: Files> Shelf for FileShelf<'r, R> {
    ghost tells = { λ _. false };

    ghost files = { λ _ _. None };

    ghost rest = { λ _. [] };

    ghost begun = { λ _. [] };

    ghost in_hand = { λ shelf. is_some shelf.file };

    ghost faults = { λ shelf. shelf.faults.count };

    fn begin(&mut self, name: &str) -> Result<(), Failed> {
        match fs::open(self.rt, name) {
            Ok(file) => {
                self.file = Some(file);
                Ok(())
            }
            Err(_) => {
                self.file = None;
                Err(self.faults.rise())
            }
        }
    }

    fn next(&mut self, buf: &mut [u8]) -> Result<usize, Failed> {
        match &mut self.file {
            Some(file) => match file.read(buf) {
                Ok(count) => Ok(count),
                Err(_) => Err(self.faults.rise()),
            },
            None => unreachable!(),
        }
    }
}

/// The output of the program. It tells no contents.
pub struct StdSink<'r, R: Print> {
    rt: &'r R,
    faults: FaultCount,
}

impl<'r, R: Print> StdSink<'r, R> {
    /// A sink that writes to the standard output.
    pub fn new(rt: &'r R) -> StdSink<'r, R>
        ensures tells { ⟦<StdSink<'r, R> as Sink>⟧.tells result ≡ false }
        ensures faults { ⟦<StdSink<'r, R> as Sink>⟧.faults result ≡ 0 }
    {
        StdSink {
            rt,
            faults: FaultCount::new(),
        }
    }
}

impl<R: Print> Drop for StdSink<'_, R> {
    fn drop(self) {
        let StdSink { rt: _, faults: _ } = self;
    }
}

impl<'r, R: Print> Sink for StdSink<'r, R> {
    ghost tells = { λ _. false };

    ghost written = { λ _. [] };

    ghost faults = { λ sink. sink.faults.count };

    fn write(&mut self, piece: &[u8]) -> Result<usize, Failed> {
        match self.rt.write_some(piece) {
            Ok(count) if 0 < count || piece.is_empty() => Ok(count),
            _ => Err(self.faults.rise()),
        }
    }
}
