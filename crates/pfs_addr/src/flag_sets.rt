//! Sets of TCP flags in texts.

ghost use Rattle.std.specs.Prelude.{◌≡◌, ◌≤◌, ◌<◌, ◌+◌, ◌++◌, OnErr, OnOk, Some, length, vec_len};
ghost use Rattle.std.specs.Vec.{vec_capacity};
ghost use Rattle.pfs_addr_values.specs.FlagSets.{flags_of, is_flag_letter, letter_text, letters_text};
ghost use Rattle.pfs_addr.specs.LetterSteps.{with_letter};

use pfs_addr_values::{Flags, NoMemory};

/// The flags that this text names: letters of `FSRPAUEW` in any order, with repetition, possibly none. `None` for a
/// text with any other byte. It takes no memory.
pub fn parse_flags(text: &[u8]) -> Option<Flags>
    ensures { result ≡ flags_of text.now }
{
    let mut flags = Flags::default();
    for letter in text {
        if !is_letter(*letter) {
            return None;
        }
        flags = with_letter(flags, *letter);
    }
    Some(flags)
}

/// The flags with that of one letter more.
fn with_letter(flags: Flags, letter: u8) -> Flags
    ensures { result ≡ with_letter flags letter }
{
    match letter {
        b'F' => Flags { fin: true, ..flags },
        b'S' => Flags { syn: true, ..flags },
        b'R' => Flags { rst: true, ..flags },
        b'P' => Flags { psh: true, ..flags },
        b'A' => Flags { ack: true, ..flags },
        b'U' => Flags { urg: true, ..flags },
        b'E' => Flags { ece: true, ..flags },
        b'W' => Flags { cwr: true, ..flags },
        _ => flags,
    }
}

fn is_letter(b: u8) -> bool
    ensures { result ≡ is_flag_letter b }
{
    matches!(b, b'F' | b'S' | b'R' | b'P' | b'A' | b'U' | b'E' | b'W')
}

/// Appends the letters of flags, in the order `FSRPAUEW`, which `parse_flags` reads as them.
///
/// `NoMemory` where the vector had no room for the letters and more memory was refused; some of them may have been appended
/// then.
#[tactic(auto, using(crate::proofs::LetterTexts::flags_again))]
pub fn push_flags(out: &mut Vec<u8>, flags: Flags) -> Result<(), NoMemory>
    ensures ok { OnOk result (out.new.items ≡ out.old.items ++ letters_text flags) }
    ensures refused { OnErr result (vec_capacity out.old < vec_len out.old + length (letters_text flags)) }
    ensures capacity { vec_capacity out.old ≤ vec_capacity out.new }
    ensures again { flags_of (letters_text flags) ≡ Some flags }
{
    push_letter(out, flags.fin, b"F")?;
    push_letter(out, flags.syn, b"S")?;
    push_letter(out, flags.rst, b"R")?;
    push_letter(out, flags.psh, b"P")?;
    push_letter(out, flags.ack, b"A")?;
    push_letter(out, flags.urg, b"U")?;
    push_letter(out, flags.ece, b"E")?;
    push_letter(out, flags.cwr, b"W")
}

fn push_letter(out: &mut Vec<u8>, is_set: bool, letter: &[u8]) -> Result<(), NoMemory>
    ensures ok { OnOk result (out.new.items ≡ out.old.items ++ letter_text is_set letter.now) }
    ensures refused { OnErr result (vec_capacity out.old < vec_len out.old + length (letter_text is_set letter.now)) }
    ensures capacity { vec_capacity out.old ≤ vec_capacity out.new }
{
    if is_set {
        out.extend_from_slice(letter)?;
    }
    Ok(())
}
