ghost use Rattle.std.specs.Prelude.{◌≡◌, ◌<◌, ◌≤◌, ◌+◌, [], ◌∷◌, ◌++◌, length, take, drop, true, false, is_ok, IsTrue, OnOk, OnErr, IfOk, IsErr, max};
ghost use Rattle.std.specs.Option.{option_map};
ghost use Rattle.cos_outside.specs.Causes.{HasCause};
ghost use Rattle.cos_outside.specs.Files.{file_of, bytes_at};
ghost use Rattle.cos_outside.specs.Runs.{AppendsPrefix};

use crate::faults::FaultCount;
use crate::planned::PlannedFaults;
use crate::{Calls, Failed, Shelf};
use listed::{Bytes, Listed, Names, Text};
use std::alloc::{AllocError, Global};

/// Pairs of a name and the file's bytes. Of pairs with equal names the first counts.
pub type NamedFiles = Listed<(Bytes, Bytes)>;

// The file in hand: its place among the files, and the place of its next byte.
#[derive(Clone, Copy)]
struct Hand {
    file: usize,
    at: usize,
}

/// Files in memory, for tests. It tells its meanings, and fails at the calls that it is told to fail at.
///
/// The calls of `begin` and `next` are counted together, from 1. A name that isn't there is a fault, and so is want
/// of memory for its note of the names begun.
#[derive(Drop)]
pub struct MemoryShelf {
    alloc: Global,
    files: NamedFiles,
    piece: usize,
    plan: PlannedFaults,
    faults: FaultCount,
    begun: Names,
    hand: Option<Hand>,
    ghost some: { 0 < piece },
}

impl MemoryShelf {
    ghost use Rattle.cos_outside.specs.MemoryShelf.{plan_of, piece_of};
    ghost use Rattle.cos_outside.specs.PlannedFaults.{IsNewPlan};

    /// A shelf of these files, whose calls of `next` give at most `piece` bytes, and whose calls in `fails` fail.
    pub fn new(alloc: Global, files: NamedFiles, piece: usize, fails: Calls) -> MemoryShelf
        requires { 0 < piece }
        ensures tells { ⟦<MemoryShelf as Shelf>⟧.tells result ≡ true }
        ensures files { ⟦<MemoryShelf as Shelf>⟧.files result ≡ file_of files }
        ensures begun { ⟦<MemoryShelf as Shelf>⟧.begun result ≡ [] }
        ensures in_hand { ⟦<MemoryShelf as Shelf>⟧.in_hand result ≡ false }
        ensures faults { ⟦<MemoryShelf as Shelf>⟧.faults result ≡ 0 }
        ensures plan { IsNewPlan (plan_of result) fails }
        ensures piece { piece_of result ≡ piece }
    {
        MemoryShelf {
            alloc,
            files,
            piece,
            plan: PlannedFaults::new(fails),
            faults: FaultCount::new(),
            begun: Names::new(alloc),
            hand: None,
        }
    }
}

impl Shelf for MemoryShelf {
    ghost use Rattle.cos_outside.specs.MemoryShelf.{files_of, rest_of, names_begun, has_file, fault_count, plan_of, piece_of};
    ghost use Rattle.cos_outside.specs.PlannedFaults.{FailsNext, CountsCall};

    ghost tells = { λ _. true };

    ghost files = { files_of };

    ghost rest = { rest_of };

    ghost begun = { names_begun };

    ghost in_hand = { has_file };

    ghost faults = { fault_count };

    #[tactic(auto, using(crate::proofs::Appending::whole_is_front))]
    fn begin(&mut self, name: &str) -> Result<(), Failed>
        ensures same_files { files_of self.new ≡ files_of self.old }
        ensures noted { OnOk result (names_begun self.new ≡ names_begun self.old ++ name.now ∷ []) }
        ensures noted_or_not { AppendsPrefix (names_begun self.old) (names_begun self.new) (name.now ∷ []) }
        ensures found { OnOk result (files_of self.old name.now ≡ Some (rest_of self.new)) }
        ensures held { has_file self.new ≡ is_ok result }
        ensures cause { HasCause (fault_count self.old) (fault_count self.new) result }
        ensures planned { FailsNext (plan_of self.old) → IsErr result }
        ensures counted { CountsCall (plan_of self.old) (plan_of self.new) }
        ensures same_piece { piece_of self.new ≡ piece_of self.old }
    {
        self.hand = None;
        if self.plan.next_fails() || note(self.alloc, &mut self.begun, name).is_err() {
            return Err(self.faults.rise());
        }
        match find_file(self.files.as_slice(), name.as_bytes()) {
            Some(file) => {
                self.hand = Some(Hand { file, at: 0 });
                Ok(())
            }
            None => Err(self.faults.rise()),
        }
    }

    fn next(&mut self, buf: &mut [u8]) -> Result<usize, Failed>
        requires { IsTrue (has_file self.old) }
        ensures same_files { files_of self.new ≡ files_of self.old }
        ensures same_names { names_begun self.new ≡ names_begun self.old }
        ensures held { IsTrue (has_file self.new) }
        ensures bound { IfOk result (λ count. count ≤ length buf.new) }
        ensures taken { IfOk result (λ count. rest_of self.old ≡ take count buf.new ++ rest_of self.new) }
        ensures end { IfOk result (λ count. count ≡ 0 → 0 < length buf.new → rest_of self.old ≡ []) }
        ensures kept { OnErr result (rest_of self.new ≡ rest_of self.old) }
        ensures cause { HasCause (fault_count self.old) (fault_count self.new) result }
        ensures planned { FailsNext (plan_of self.old) → IsErr result }
        ensures counted { CountsCall (plan_of self.old) (plan_of self.new) }
        ensures in_pieces { IfOk result (λ count. count ≤ piece_of self.old) }
        ensures same_piece { piece_of self.new ≡ piece_of self.old }
    {
        if self.plan.next_fails() {
            return Err(self.faults.rise());
        }
        match self.hand {
            Some(hand) => {
                let bytes = bytes_of(self.files.as_slice(), hand.file);
                let count = give(bytes, hand.at, self.piece, buf);
                self.hand = Some(Hand {
                    file: hand.file,
                    at: hand.at + count,
                });
                Ok(count)
            }
            None => unreachable!(),
        }
    }
}

// Adds a name to those begun.
fn note(alloc: Global, begun: &mut Names, name: &str) -> Result<(), AllocError>
    ensures ok { OnOk result (begun.new ≡ begun.old ++ name.now ∷ []) }
    ensures err { OnErr result (begun.new ≡ begun.old) }
{
    begun.push(Text::of(alloc, name)?)
}

// The place of the first file of a name.
fn find_file(files: &[(Bytes, Bytes)], name: &[u8]) -> Option<usize>
    ensures { option_map (bytes_at files.now) result ≡ file_of files.now name.now }
{
    for (i, file) in files.iter().enumerate() {
        if file.0.as_slice() == name {
            return Some(i);
        }
    }
    None
}

// The bytes of the file at a place.
fn bytes_of(files: &[(Bytes, Bytes)], file: usize) -> &[u8]
    ensures { result.now ≡ bytes_at files.now file }
{
    match files.get(file) {
        Some(file) => file.1.as_slice(),
        None => &[],
    }
}

// Copies the next bytes from a place on to the front of `buf`, at most `piece`.
fn give(bytes: &[u8], at: usize, piece: usize, buf: &mut [u8]) -> usize
    requires { 0 < piece }
    ensures bound { result ≤ length buf.new }
    ensures in_pieces { result ≤ piece }
    ensures taken { drop at bytes.now ≡ take result buf.new ++ drop (at + result) bytes.now }
    ensures end { result ≡ 0 → 0 < length buf.new → drop at bytes.now ≡ [] }
    ensures within { at + result ≤ max at (length bytes.now) }
{
    if bytes.len() <= at {
        return 0;
    }
    let count = piece.min(buf.len()).min(bytes.len() - at);
    buf[..count].copy_from_slice(&bytes[at..at + count]);
    count
}
