ghost use Rattle.std.specs.Prelude.{◌≡◌, ◌⊎◌, ◌<◌, ◌≤◌, [], ◌∷◌, ◌++◌, length, IsTrue, IfOk, OnOk, IsErrOf};
ghost use Rattle.cos_outside.specs.Causes.{HasCause, FaultHasCause};
ghost use Rattle.cos_outside.specs.Runs.{AppendsPrefix};
ghost use Rattle.cos_outside.specs.Reads.{TakesFrom};

use crate::{Failed, ReadError, Shelf, Sink};
use listed::Bytes;
use std::alloc::Global;

// As many bytes are taken at once.
const PIECE: usize = 4096;

/// All bytes of a file. It begins this name alone and once, and takes at most one byte past `limit`.
///
/// `limit` is in bytes. `TooLong` comes exactly where the byte past it was taken, and `Fault` only where the shelf's
/// count of faults rose.
pub fn read_file<S: Shelf>(
    alloc: Global,
    shelf: &mut S,
    name: &str,
    limit: usize,
) -> Result<Bytes, ReadError>
    ensures told { S.tells shelf.new ≡ S.tells shelf.old }
    ensures same_files { S.files shelf.new ≡ S.files shelf.old }
    // The name is begun, this one alone and once; only a fault may leave it out.
    ensures begun { IsTrue (S.tells shelf.old) →
        AppendsPrefix (S.begun shelf.old) (S.begun shelf.new) (name.now ∷ []) }
    ensures begun_once { IsTrue (S.tells shelf.old) →
        IsErrOf result ReadError.Fault ⊎ (S.begun shelf.new ≡ S.begun shelf.old ++ name.now ∷ []) }
    // Only after a fault there may be no file in hand.
    ensures held { IsErrOf result ReadError.Fault ⊎ IsTrue (S.in_hand shelf.new) }

    ensures bytes { IsTrue (S.tells shelf.old) →
        IfOk result (λ bytes. S.files shelf.old name.now ≡ Some bytes) }
    ensures all { IsTrue (S.tells shelf.old) → OnOk result (S.rest shelf.new ≡ []) }
    ensures within { IfOk result (λ bytes. length bytes ≤ limit) }
    // The bytes that were taken, of which one is past the limit exactly at `TooLong`.
    ensures taken { IsTrue (S.tells shelf.old) → IsTrue (S.in_hand shelf.new) →
        TakesFrom (S.files shelf.old name.now) (S.rest shelf.new) limit result }
    ensures cause { FaultHasCause (S.faults shelf.old) (S.faults shelf.new) result }
{
    shelf.begin(name)?;
    take_rest(alloc, shelf, limit)
}

// Takes the rest of the file in hand, at most one byte past `limit`.
fn take_rest<S: Shelf>(alloc: Global, shelf: &mut S, limit: usize) -> Result<Bytes, ReadError>
    requires { IsTrue (S.in_hand shelf.old) }
    ensures told { S.tells shelf.new ≡ S.tells shelf.old }
    ensures same_files { S.files shelf.new ≡ S.files shelf.old }
    ensures same_names { S.begun shelf.new ≡ S.begun shelf.old }
    ensures held { IsTrue (S.in_hand shelf.new) }
    ensures bytes { IsTrue (S.tells shelf.old) → IfOk result (λ bytes. S.rest shelf.old ≡ bytes) }
    ensures all { IsTrue (S.tells shelf.old) → OnOk result (S.rest shelf.new ≡ []) }
    ensures within { IfOk result (λ bytes. length bytes ≤ limit) }
    ensures taken { IsTrue (S.tells shelf.old) →
        TakesFrom (Some (S.rest shelf.old)) (S.rest shelf.new) limit result }
    ensures cause { FaultHasCause (S.faults shelf.old) (S.faults shelf.new) result }
{
    let mut bytes = Bytes::new(alloc);
    let mut buf = [0u8; PIECE];
    'pieces: loop {
        let room = limit - bytes.len();
        let want = if room < PIECE { room + 1 } else { PIECE };
        let count = shelf.next(&mut buf[..want])?;
        if count == 0 {
            return Ok(bytes);
        }
        if room < count {
            return Err(ReadError::TooLong);
        }
        bytes.extend(&buf[..count])?;
    }
}

/// Writes all of `bytes`. After `Failed` a prefix of them was appended. It takes no memory.
pub fn write_whole<O: Sink>(out: &mut O, bytes: &[u8]) -> Result<(), Failed>
    ensures told { O.tells out.new ≡ O.tells out.old }
    ensures whole { IsTrue (O.tells out.old) →
        OnOk result (O.written out.new ≡ O.written out.old ++ bytes.now) }
    ensures front { IsTrue (O.tells out.old) →
        AppendsPrefix (O.written out.old) (O.written out.new) bytes.now }
    ensures cause { HasCause (O.faults out.old) (O.faults out.new) result }
{
    let mut done = 0;
    while done < bytes.len() {
        done += out.write(&bytes[done..])?;
    }
    Ok(())
}
