//! Decimal numbers in texts.

ghost use Rattle.std.specs.Prelude.{◌≡◌, ◌≤◌, Some, None, if◌then◌else◌, length};
ghost use Rattle.std.specs.List.{list_all};
ghost use Rattle.std.specs.Str.Parse.{digits_value};
ghost use Rattle.pfs_addr_values.specs.Numbers.{is_digit, number_of};

/// The number that this text is, if it is one: 1 to 10 decimal digits and nothing else, so at most 9999999999. Leading
/// zeros are read. `None` for every other text, an empty one too. It takes no memory. (pf.conf(5), GRAMMAR, "number";
/// the length is own to this profile)
#[tactic(auto, unfolding(pfs_addr_values::specs::Numbers::number_of))]
pub fn parse_number(text: &[u8]) -> Option<u64>
    ensures { result ≡ number_of text.now }
{
    if text.is_empty() || text.len() > 10 {
        return None;
    }
    value(text)
}

/// The value of so few digits; none where another byte is among them.
fn value(text: &[u8]) -> Option<u64>
    requires { length text.now ≤ 10 }
    ensures { result ≡ (if list_all is_digit text.now then Some (digits_value 10 text.now) else None) }
{
    let mut n = 0;
    for b in text {
        if !is_digit(*b) {
            return None;
        }
        n = n * 10 + u64::from(*b - b'0');
    }
    Some(n)
}

fn is_digit(b: u8) -> bool
    ensures { result ≡ is_digit b }
{
    matches!(b, b'0'..=b'9')
}
