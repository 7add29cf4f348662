//! Numbers, prefixes and the marks of lists.

ghost use Rattle.std.specs.Prelude.{◌≡◌, ◌==◌, ◌++◌, OnOk, codes};
ghost use Rattle.pfs_addr_values.specs.Addresses.{width_of};
ghost use Rattle.pfs_conf_show.specs.Pieces.{bits_text, closed_by, not_text, prefix_text, separator, word_and_number};

use pfs_addr::push_addr;
use pfs_addr_values::{NoMemory, Prefix};
use pfs_numbers::push_number;

/// Appends a word, a space, and a number in decimal.
pub fn push_worded(out: &mut Vec<u8>, word: &[u8], n: u64) -> Result<(), NoMemory>
    ensures { OnOk result (out.new.items ≡ out.old.items ++ word_and_number word.now n) }
{
    out.extend_from_slice(word)?;
    out.extend_from_slice(b" ")?;
    push_number(out, n)?;
    Ok(())
}

/// Appends `!`, where what follows is negated.
pub fn push_not(out: &mut Vec<u8>, negated: bool) -> Result<(), NoMemory>
    ensures { OnOk result (out.new.items ≡ out.old.items ++ not_text negated) }
{
    if negated {
        out.extend_from_slice(b"!")?;
    }
    Ok(())
}

/// Appends a prefix: its address, and where not all bits of that count, a slash and how many do.
pub fn push_prefix(out: &mut Vec<u8>, prefix: Prefix) -> Result<(), NoMemory>
    ensures { OnOk result (out.new.items ≡ out.old.items ++ prefix_text prefix) }
{
    push_addr(out, prefix.addr())?;
    push_bits(out, prefix)
}

fn push_bits(out: &mut Vec<u8>, prefix: Prefix) -> Result<(), NoMemory>
    ensures { OnOk result (out.new.items ≡ out.old.items ++ bits_text prefix) }
{
    if !is_whole(prefix) {
        out.extend_from_slice(b"/")?;
        push_number(out, u64::from(prefix.bits()))?;
    }
    Ok(())
}

/// Whether all bits of the address count.
fn is_whole(prefix: Prefix) -> bool
    ensures { result ≡ (prefix.bits == width_of prefix.addr) }
{
    prefix.bits() == prefix.addr().width()
}

/// What comes before an item of a list that has begun or not.
pub fn push_separator(out: &mut Vec<u8>, opening: &[u8], begun: bool) -> Result<(), NoMemory>
    ensures { OnOk result (out.new.items ≡ out.old.items ++ separator opening.now begun) }
{
    out.extend_from_slice(if begun { b", " } else { opening })?;
    Ok(())
}

/// What follows the items of a list, if there are any.
pub fn push_closing(out: &mut Vec<u8>, closing: &[u8], begun: bool) -> Result<(), NoMemory>
    ensures { OnOk result (out.new.items ≡ out.old.items ++ closed_by closing.now begun) }
{
    if begun {
        out.extend_from_slice(closing)?;
    }
    Ok(())
}
