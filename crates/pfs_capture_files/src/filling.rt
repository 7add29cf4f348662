//! A part of a file, read whole.

ghost use Rattle.std.specs.Prelude.{◌≡◌, ◌⊎◌, ◌<◌, ◌≤◌, ℕ, List, [], Some, Err, IfErr, OnOk, drop, length, take};
ghost use Rattle.std.specs.Vec.{vec_capacity};
ghost use Rattle.pfs_streams.specs.Feeds.{HasFailed, read_failures, unread};

use crate::faults::FileFault;
use pfs_streams::Feed;
use std::io::Read;

/// The most bytes that are read by a small chunk, since it is cheaper to make: the head of a record or of a block.
const HEAD: usize = 32;

/// The most that are read by a middle one: a packet without much in it.
const SHORT: usize = 256;

/// Reads so many bytes into the buffer, in place of what it held, or fewer where the file ends before. It returns
/// `FileFault::Read` where a read fails or the bound of reads is reached, `FileFault::Memory` where memory is refused: it asks for
/// none while the buffer has room.
pub fn fill<R: Read>(
    reader: &mut Feed<R>,
    buffer: &mut Vec<u8>,
    count: usize,
) -> Result<(), FileFault>
    requires { count ≤ 524288 }
    ensures bytes { OnOk result ((xs : List ℕ) → unread R.remaining reader.old ≡ Some xs → buffer.new.items ≡ take count xs) }
    ensures rest { OnOk result ((xs : List ℕ) → unread R.remaining reader.old ≡ Some xs → unread R.remaining reader.new ≡ Some (drop count xs)) }
    ensures read { result ≡ Err FileFault.Read → HasFailed reader.new }
    ensures few { (xs : List ℕ) → unread R.remaining reader.old ≡ Some xs → (k : ℕ) × (k ≤ count) × (unread R.remaining reader.new ≡ Some (drop k xs)) }
    ensures fails { IfErr result (λ f. (f ≡ FileFault.Read) ⊎ (f ≡ FileFault.Memory)) }
    ensures sound { (result ≡ Err FileFault.Read) ⊎ (read_failures reader.new ≡ read_failures reader.old) }
    ensures free { result ≡ Err FileFault.Memory → vec_capacity buffer.old < count }
{
    buffer.clear();
    if count <= HEAD {
        return fill_by(reader, buffer, count, &mut [0; HEAD]);
    }
    if count <= SHORT {
        return fill_by(reader, buffer, count, &mut [0; SHORT]);
    }
    fill_by(reader, buffer, count, &mut [0; 1536])
}

/// The same, by reads into a chunk, of a buffer that is empty.
fn fill_by<R: Read>(
    reader: &mut Feed<R>,
    buffer: &mut Vec<u8>,
    count: usize,
    chunk: &mut [u8],
) -> Result<(), FileFault>
    requires few { count ≤ 524288 }
    requires empty { buffer.old.items ≡ [] }
    requires some { 0 < length chunk.old }
    ensures bytes { OnOk result ((xs : List ℕ) → unread R.remaining reader.old ≡ Some xs → buffer.new.items ≡ take count xs) }
    ensures rest { OnOk result ((xs : List ℕ) → unread R.remaining reader.old ≡ Some xs → unread R.remaining reader.new ≡ Some (drop count xs)) }
    ensures read { result ≡ Err FileFault.Read → HasFailed reader.new }
    ensures few { (xs : List ℕ) → unread R.remaining reader.old ≡ Some xs → (k : ℕ) × (k ≤ count) × (unread R.remaining reader.new ≡ Some (drop k xs)) }
    ensures fails { IfErr result (λ f. (f ≡ FileFault.Read) ⊎ (f ≡ FileFault.Memory)) }
    ensures sound { (result ≡ Err FileFault.Read) ⊎ (read_failures reader.new ≡ read_failures reader.old) }
    ensures free { result ≡ Err FileFault.Memory → vec_capacity buffer.old < count }
{
    'chunks: while buffer.len() < count {
        let room = chunk.len().min(count - buffer.len());
        match reader.read(&mut chunk[..room]) {
            Ok(0) => return Ok(()),
            Ok(n) => {
                if buffer.extend_from_slice(&chunk[..n]).is_err() {
                    return Err(FileFault::Memory);
                }
            }
            Err(_) => return Err(FileFault::Read),
        }
    }
    Ok(())
}
