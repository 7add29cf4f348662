//! Numbers in decimal.
#![tactic(auto)]

ghost use Rattle.std.specs.Prelude.{◌≡◌, ◌≤◌, ◌<◌, ◌+◌, ◌++◌, OnErr, OnOk, decimal, length, vec_len};
ghost use Rattle.std.specs.Vec.{vec_capacity};

use itoa::Buffer;
use std::alloc::AllocError;

/// Appends a number in decimal, without zeros in front.
///
/// It fails where the vector had no room for the number and more memory was refused; the vector then holds what it held.
pub fn push_number(out: &mut Vec<u8>, number: u64) -> Result<(), AllocError>
    ensures ok { OnOk result (out.new.items ≡ out.old.items ++ decimal number) }
    ensures err { OnErr result (out.new.items ≡ out.old.items) }
    ensures refused { OnErr result (vec_capacity out.old < vec_len out.old + length (decimal number)) }
    ensures capacity { vec_capacity out.old ≤ vec_capacity out.new }
{
    let mut buffer = Buffer::new();
    out.extend_from_slice(buffer.format(number).as_bytes())
}
