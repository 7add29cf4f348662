//! `flags`, and the sets of flags that it asks for.

ghost use Rattle.std.specs.Prelude.{◌≡◌, ◌==◌, length};
ghost use Rattle.pfs_conf_tokens.specs.TokenResults.{Gives};
ghost use Rattle.pfs_conf_filters.specs.Values.{flag_test_of, exactly};
ghost use Rattle.pfs_conf_filters.specs.Reading.{flags_at};

use pfs_addr::parse_flags;
use pfs_addr_values::Flags;
use pfs_conf_tokens::{Cursor, Key, Refusal, Why, split_at_byte, take_value};
use pfs_conf_values::FlagTest;

/// Reads `flags any`, or `flags a/b` as one word: letters of `FSRPAUEW` in any order, of which a may be empty and b not.
/// A letter of a that is not in b is accepted; such a test fails for every packet.
/// (pf.conf(5), PARAMETERS, "flags")
///
/// At any other token the cursor stays, and reading stops. It takes no memory.
#[tactic(auto, unfolding(crate::specs::Reading::flags_at))]
pub fn read_flags(cursor: &mut Cursor) -> Result<FlagTest, Refusal>
    ensures { Gives result cursor.new (flags_at cursor.old) }
{
    cursor.expect(Key::Flags)?;
    if cursor.take(Key::Any) {
        return Ok(FlagTest::Any);
    }
    if !cursor.key().is_word() {
        return Err(Refusal::Stop(Why::Plain));
    }
    let test = parse_flag_test(cursor.text());
    take_value(cursor, Why::Plain, test)
}

/// The test that a word says: a/b asks that of the flags b exactly a are set.
#[tactic(auto, unfolding(crate::specs::Values::flag_test_of))]
fn parse_flag_test(text: &[u8]) -> Option<FlagTest>
    ensures { result ≡ flag_test_of text.now }
{
    let (set, among) = split_at_byte(text, b'/')?;
    if has_no_letter(among) {
        return None;
    }
    exactly(parse_flags(set), parse_flags(among))
}

fn has_no_letter(among: &[u8]) -> bool
    ensures { result ≡ (length among.now == 0) }
{
    among.is_empty()
}

fn exactly(set: Option<Flags>, among: Option<Flags>) -> Option<FlagTest>
    ensures { result ≡ exactly set among }
{
    Some(FlagTest::Exactly {
        set: set?,
        among: among?,
    })
}
