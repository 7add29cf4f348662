//! Words that say a value, and the names of tables among such values.

ghost use Rattle.std.specs.Prelude.{◌≡◌, Option};
ghost use Rattle.pfs_conf_tokens.specs.Reading.{act};
ghost use Rattle.pfs_conf_tokens.specs.TokenResults.{Gives};
ghost use Rattle.pfs_conf_tokens.specs.Values.{table_name_at, valued};

use crate::cursors::Cursor;
use crate::refusals::{Refusal, Why};
use pfs_addr_values::Name;

/// Goes over the token in front if it says a value, and gives that; else the cursor stays, and `why` says what was
/// wanted.
pub fn take_value<T>(cursor: &mut Cursor, why: Why, value: Option<T>) -> Result<T, Refusal>
    ensures { Gives result cursor.new (act (valued why value) cursor.old) }
{
    match value {
        Some(value) => {
            cursor.advance();
            Ok(value)
        }
        None => Err(Refusal::Stop(why)),
    }
}

/// The name of a table: any word that is a name of 1 to 31 bytes.
#[tactic(auto, unfolding(crate::specs::Values::table_name_at))]
pub fn table_name(cursor: &mut Cursor) -> Result<Name<31>, Refusal>
    ensures { Gives result cursor.new (table_name_at cursor.old) }
{
    if !cursor.key().is_word() {
        return Err(Refusal::Stop(Why::Plain));
    }
    let name = Name::parse(cursor.text());
    take_value(cursor, Why::Plain, name)
}
