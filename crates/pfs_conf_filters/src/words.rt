//! The names of interfaces and of tags.

ghost use Rattle.std.specs.Prelude.{◌≡◌};
ghost use Rattle.pfs_conf_tokens.specs.Tokens.{head};
ghost use Rattle.pfs_conf_tokens.specs.TokenResults.{Gives};
ghost use Rattle.pfs_conf_filters.specs.Values.{may_name_interface};
ghost use Rattle.pfs_conf_filters.specs.Reading.{interface_at, tag_name_at};

use pfs_addr_values::{IfName, Name, parse_ifname};
use pfs_conf_tokens::{Cursor, Key, Refusal, Why, take_value};
use pfs_conf_values::TagName;

/// The name of an interface: any word that is a name of 1 to 15 bytes, but `any` and `rdomain`.
#[tactic(auto, unfolding(crate::specs::Reading::interface_at))]
pub fn interface_name(cursor: &mut Cursor) -> Result<IfName, Refusal>
    ensures { Gives result cursor.new (interface_at cursor.old) }
{
    if !may_name_interface(cursor.key()) {
        return Err(Refusal::Stop(Why::Plain));
    }
    let name = parse_ifname(cursor.text());
    take_value(cursor, Why::Plain, name)
}

fn may_name_interface(key: Key) -> bool
    ensures { result ≡ may_name_interface key }
{
    match key {
        Key::Any | Key::Rdomain => false,
        _ => key.is_word(),
    }
}

/// The name of a tag: any word that is a name of 1 to 63 bytes.
#[tactic(auto, unfolding(crate::specs::Reading::tag_name_at))]
pub fn tag_name(cursor: &mut Cursor) -> Result<TagName, Refusal>
    ensures { Gives result cursor.new (tag_name_at cursor.old) }
{
    if !cursor.key().is_word() {
        return Err(Refusal::Stop(Why::Plain));
    }
    let tag = Name::parse(cursor.text());
    take_value(cursor, Why::Plain, tag)
}
