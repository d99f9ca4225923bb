// Bytes on their way in and out, and the count of faults.
ghost use Rattle.std.specs.Prelude.{◌≡◌, ◌≢◌, ℕ, ◌+◌, ◌<◌, ◌≤◌, List, length, take, IfOk, IfSome, IsOk, OnOk, OnErr, []};
ghost use Rattle.std.specs.Io.KnownBytes.{Appends, Consumes, IsAtEnd};
ghost use Rattle.outside.specs.Answers.{one_more};

use outside::StoreErr;
use std::alloc::Global;
use std::io;
use std::io::{ErrorKind, Read, Write};

// How many bytes are asked for at a time.
const PIECE: usize = 65536;

// Reads to the end, or until more than `limit` bytes came. It takes no more than one byte past the limit.
pub(crate) fn read_up_to<R: Read>(
    alloc: Global,
    from: &mut R,
    limit: u64,
) -> Result<Vec<u8>, StoreErr>
    ensures bytes { IfOk result (λ v. Consumes (R.remaining from.old) (R.remaining from.new) v.items) }
    ensures end { OnOk result (IsAtEnd (R.remaining from.new)) }
    ensures within { IfOk result (λ v. length v.items ≤ limit) }
    ensures too_long { result ≡ Err StoreErr.TooLong
        → IfSome (R.remaining from.old) (λ bytes. limit < length bytes) }
    ensures taken { result ≡ Err StoreErr.TooLong
        → (v : List ℕ) × Consumes (R.remaining from.old) (R.remaining from.new) v × (length v ≤ limit + 1) }
    ensures never_absent { result ≢ Err StoreErr.Absent }
{
    let mut bytes = Vec::new(alloc);
    let mut piece = [0; PIECE];
    loop {
        let left = limit - bytes.len() as u64;
        let asked = left.saturating_add(1).min(PIECE as u64) as usize;
        let Ok(count) = from.read(&mut piece[..asked]) else {
            return Err(StoreErr::Failed);
        };
        if count == 0 {
            return Ok(bytes);
        }
        if count as u64 > left {
            return Err(StoreErr::TooLong);
        }
        bytes
            .extend_from_slice(&piece[..count])
            .map_err(|_| StoreErr::Memory)?;
    }
}

// Writes all of the bytes, or a prefix of them and tells why.
pub(crate) fn write_whole<W: Write>(to: &mut W, bytes: &[u8]) -> io::Result<()>
    ensures all { OnOk result (Appends (W.contents to.old) (W.contents to.new) bytes.now) }
    ensures part { OnErr result
        ((n : ℕ) × Appends (W.contents to.old) (W.contents to.new) (take n bytes.now)) }
    ensures nothing { bytes.now ≡ [] → IsOk result }
{
    let mut done = 0;
    while done < bytes.len() {
        let count = to.write(&bytes[done..])?;
        if count == 0 {
            return Err(io::Error::from(ErrorKind::WriteZero));
        }
        done += count;
    }
    Ok(())
}

// Counts one more fault, where the count can rise.
pub(crate) fn raise(faults: &mut u64)
    ensures { faults.new ≡ one_more faults.old }
{
    *faults = faults.saturating_add(1);
}
