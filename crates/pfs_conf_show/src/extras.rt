//! What a rule has behind its parameters, beside `flags` and its state.

ghost use Rattle.std.specs.Prelude.{◌≡◌, ◌++◌, OnOk};
ghost use Rattle.pfs_conf_show.specs.Filters.{asked_text, extras_text, received_on_text, tag_text, tagged_text};

use crate::pieces::push_not;
use pfs_addr_values::NoMemory;
use pfs_conf_values::{Came, Interface, TagName, Tagged};

/// Appends what a rule says of tags and of how a packet came: `tag`, `tagged` and `received-on`, each behind a space.
pub fn push_extras(out: &mut Vec<u8>, tag: Option<TagName>, came: Came) -> Result<(), NoMemory>
    ensures { OnOk result (out.new.items ≡ out.old.items ++ extras_text tag came) }
{
    push_tag(out, tag)?;
    push_tagged(out, came.tagged)?;
    push_received_on(out, came.received_on)
}

fn push_tag(out: &mut Vec<u8>, tag: Option<TagName>) -> Result<(), NoMemory>
    ensures { OnOk result (out.new.items ≡ out.old.items ++ tag_text tag) }
{
    if let Some(name) = tag {
        out.extend_from_slice(b" tag ")?;
        out.extend_from_slice(name.as_bytes())?;
    }
    Ok(())
}

fn push_tagged(out: &mut Vec<u8>, tagged: Option<Tagged>) -> Result<(), NoMemory>
    ensures { OnOk result (out.new.items ≡ out.old.items ++ tagged_text tagged) }
{
    if let Some(tagged) = tagged {
        push_asked(out, tagged.negated, b"tagged ", tagged.name.as_bytes())?;
    }
    Ok(())
}

fn push_received_on(out: &mut Vec<u8>, received_on: Option<Interface>) -> Result<(), NoMemory>
    ensures { OnOk result (out.new.items ≡ out.old.items ++ received_on_text received_on) }
{
    if let Some(interface) = received_on {
        push_asked(
            out,
            interface.negated,
            b"received-on ",
            interface.name.as_bytes(),
        )?;
    }
    Ok(())
}

/// A word and a name that is asked for, with `!` before it where it must not be.
fn push_asked(out: &mut Vec<u8>, negated: bool, word: &[u8], name: &[u8]) -> Result<(), NoMemory>
    ensures { OnOk result (out.new.items ≡ out.old.items ++ asked_text negated word.now name.now) }
{
    out.extend_from_slice(b" ")?;
    push_not(out, negated)?;
    out.extend_from_slice(word)?;
    out.extend_from_slice(name)?;
    Ok(())
}
