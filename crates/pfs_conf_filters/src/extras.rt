//! What a rule has behind its parameters, beside `flags` and its state.

ghost use Rattle.std.specs.Prelude.{◌≡◌, true};
ghost use Rattle.pfs_conf_tokens.specs.TokenResults.{Gives};
ghost use Rattle.pfs_conf_tokens.specs.Reading.{on_front};
ghost use Rattle.pfs_conf_filters.specs.Grammar.{no_extras};
ghost use Rattle.pfs_conf_filters.specs.Reading.{asked_by, asks_both, extra_at, received_on_at, tag_at, tagged_at};

use crate::phrases::Extras;
use crate::words::{interface_name, tag_name};
use pfs_conf_tokens::{Cursor, Key, Refusal, Why};
use pfs_conf_values::{Interface, Tagged};

impl Extras {
    /// None is given.
    pub fn new() -> Extras
        ensures { result ≡ no_extras }
    {
        Extras {
            tag: None,
            tagged: None,
            received_on: None,
        }
    }

    /// Whether both parts are given that a `!` may begin.
    fn ask_both(&self) -> bool
        ensures { result ≡ asks_both self.now }
    {
        self.tagged.is_some() && self.received_on.is_some()
    }
}

/// Reads `tag NAME`, `tagged NAME` or `received-on IF`, of which a `!` may be before the last two, and adds it to those that a
/// rule has already. One that it has is refused as repeated, at its word. (pf.conf(5), PARAMETERS, "tag", "tagged" and
/// "received-on")
///
/// At any other token the cursor stays, and reading stops. It takes no memory.
#[tactic(auto, unfolding(crate::specs::Reading::extra_at))]
pub fn read_extra(cursor: &mut Cursor, extras: Extras) -> Result<Extras, Refusal>
    ensures { Gives result cursor.new (extra_at extras cursor.old) }
{
    match cursor.key() {
        Key::Tag => {
            if extras.tag.is_some() {
                return Err(Refusal::Stop(Why::Again));
            }
            cursor.advance();
            tag(cursor, extras)
        }
        Key::Not => {
            if extras.ask_both() {
                return Err(Refusal::Stop(Why::Again));
            }
            cursor.advance();
            asked(cursor, extras, true)
        }
        _ => asked(cursor, extras, false),
    }
}

#[tactic(auto, unfolding(crate::specs::Reading::tag_at))]
fn tag(cursor: &mut Cursor, extras: Extras) -> Result<Extras, Refusal>
    ensures { Gives result cursor.new (tag_at extras cursor.old) }
{
    let tag = tag_name(cursor)?;
    Ok(Extras {
        tag: Some(tag),
        ..extras
    })
}

/// `tagged NAME` or `received-on IF`, with a `!` before it or not.
fn asked(cursor: &mut Cursor, extras: Extras, negated: bool) -> Result<Extras, Refusal>
    ensures { Gives result cursor.new (on_front (λ t. asked_by extras negated t.key) cursor.old) }
{
    match cursor.key() {
        Key::Tagged => {
            if extras.tagged.is_some() {
                return Err(Refusal::Stop(Why::Again));
            }
            cursor.advance();
            tagged(cursor, extras, negated)
        }
        Key::ReceivedOn => {
            if extras.received_on.is_some() {
                return Err(Refusal::Stop(Why::Again));
            }
            cursor.advance();
            received_on(cursor, extras, negated)
        }
        _ => Err(Refusal::Stop(Why::Plain)),
    }
}

#[tactic(auto, unfolding(crate::specs::Reading::tagged_at))]
fn tagged(cursor: &mut Cursor, extras: Extras, negated: bool) -> Result<Extras, Refusal>
    ensures { Gives result cursor.new (tagged_at extras negated cursor.old) }
{
    let name = tag_name(cursor)?;
    Ok(Extras {
        tagged: Some(Tagged { name, negated }),
        ..extras
    })
}

#[tactic(auto, unfolding(crate::specs::Reading::received_on_at))]
fn received_on(cursor: &mut Cursor, extras: Extras, negated: bool) -> Result<Extras, Refusal>
    ensures { Gives result cursor.new (received_on_at extras negated cursor.old) }
{
    let name = interface_name(cursor)?;
    Ok(Extras {
        received_on: Some(Interface { name, negated }),
        ..extras
    })
}
