//! The row of what pf answered for a packet.

ghost use Rattle.std.specs.Prelude.{◌≡◌, ◌++◌, ◌+◌, ◌<◌, ◌≤◌, OnErr, OnOk, decimal, length, vec_len};
ghost use Rattle.std.specs.Vec.{vec_capacity};
ghost use Rattle.pfs_capture_answers.specs.Answers.{action_word, anchor_byte, anchor_column, answer_row, answer_start, hex_digit, reason_column, reason_name, rewritten_word, rule_column, why_columns};

use pfs_addr_values::NoMemory;
use pfs_capture_packets::LoggedAnswer;
use pfs_numbers::push_number;

/// The first row of a file of answers, which names its columns.
pub const ANSWER_HEADER: &[u8] = b"row,action,rule,anchor,subrule,reason,rewritten\n";

/// Appends the row of what pf answered for the packet in the row of this number in a trace, from 1.
///
/// `NoMemory` where the vector had no room for the row and more memory was refused; a part of it may have been appended then.
pub fn push_answer(out: &mut Vec<u8>, number: u64, answer: &LoggedAnswer) -> Result<(), NoMemory>
    ensures text { OnOk result (out.new.items ≡ out.old.items ++ answer_row number answer.now) }
    ensures refused { OnErr result (vec_capacity out.old < vec_len out.old + length (answer_row number answer.now)) }
    ensures capacity { vec_capacity out.old ≤ vec_capacity out.new }
{
    push_start(out, number, answer.action)?;
    push_rule(out, answer.rule, b",")?;
    push_anchor(out, answer.anchor_name())?;
    out.extend_from_slice(b",")?;
    push_rule(out, answer.subrule, b",")?;
    push_why(out, answer)
}

/// Appends the columns in front of the rule.
fn push_start(out: &mut Vec<u8>, number: u64, action: u8) -> Result<(), NoMemory>
    ensures text { OnOk result (out.new.items ≡ out.old.items ++ answer_start number action) }
    ensures refused { OnErr result (vec_capacity out.old < vec_len out.old + length (answer_start number action)) }
    ensures capacity { vec_capacity out.old ≤ vec_capacity out.new }
{
    push_number(out, number)?;
    out.extend_from_slice(b",")?;
    push_action(out, action)?;
    out.extend_from_slice(b",")?;
    Ok(())
}

fn push_action(out: &mut Vec<u8>, action: u8) -> Result<(), NoMemory>
    ensures text { OnOk result (out.new.items ≡ out.old.items ++ action_word action) }
    ensures refused { OnErr result (vec_capacity out.old < vec_len out.old + length (action_word action)) }
    ensures capacity { vec_capacity out.old ≤ vec_capacity out.new }
{
    match action {
        0 => out.extend_from_slice(b"pass")?,
        1 => out.extend_from_slice(b"block")?,
        12 => out.extend_from_slice(b"match")?,
        _ => push_number(out, u64::from(action))?,
    }
    Ok(())
}

/// Appends the number of a rule, or nothing where there is none, and what ends its column.
fn push_rule(out: &mut Vec<u8>, number: u32, end: &[u8]) -> Result<(), NoMemory>
    ensures text { OnOk result (out.new.items ≡ out.old.items ++ (rule_column number ++ end.now)) }
    ensures refused { OnErr result (vec_capacity out.old < vec_len out.old + length (rule_column number ++ end.now)) }
    ensures capacity { vec_capacity out.old ≤ vec_capacity out.new }
{
    if number != u32::MAX {
        push_number(out, u64::from(number))?;
    }
    out.extend_from_slice(end)?;
    Ok(())
}

/// Appends the columns behind the rule: why, and whether the packet was translated.
fn push_why(out: &mut Vec<u8>, answer: &LoggedAnswer) -> Result<(), NoMemory>
    ensures text { OnOk result (out.new.items ≡ out.old.items ++ why_columns answer.now) }
    ensures refused { OnErr result (vec_capacity out.old < vec_len out.old + length (why_columns answer.now)) }
    ensures capacity { vec_capacity out.old ≤ vec_capacity out.new }
{
    push_reason(out, answer.reason)?;
    out.extend_from_slice(b",")?;
    out.extend_from_slice(rewritten_word(answer.rewritten).as_bytes())?;
    out.extend_from_slice(b"\n")?;
    Ok(())
}

/// Appends the name of a reason, or its number where it has none.
fn push_reason(out: &mut Vec<u8>, reason: u8) -> Result<(), NoMemory>
    ensures text { OnOk result (out.new.items ≡ out.old.items ++ reason_column reason) }
    ensures refused { OnErr result (vec_capacity out.old < vec_len out.old + length (reason_column reason)) }
    ensures capacity { vec_capacity out.old ≤ vec_capacity out.new }
{
    let name = reason_name(reason);
    if name.is_empty() {
        push_number(out, u64::from(reason))?;
        return Ok(());
    }
    out.extend_from_slice(name.as_bytes())?;
    Ok(())
}

/// The name of a reason; empty where it has none.
fn reason_name(reason: u8) -> &'static str
    ensures { result.now ≡ reason_name reason }
{
    match reason {
        0 => "match",
        1 => "bad-offset",
        2 => "fragment",
        3 => "short",
        4 => "normalize",
        5 => "memory",
        6 => "bad-timestamp",
        7 => "congestion",
        8 => "ip-option",
        9 => "proto-cksum",
        10 => "state-mismatch",
        11 => "state-insert",
        12 => "state-limit",
        13 => "src-limit",
        14 => "synproxy",
        15 => "translate",
        16 => "no-route",
        _ => "",
    }
}

fn rewritten_word(rewritten: Option<bool>) -> &'static str
    ensures { result.now ≡ rewritten_word rewritten }
{
    match rewritten {
        Some(true) => "yes",
        Some(false) => "no",
        None => "",
    }
}

fn push_anchor(out: &mut Vec<u8>, name: &[u8]) -> Result<(), NoMemory>
    ensures text { OnOk result (out.new.items ≡ out.old.items ++ anchor_column name.now) }
    ensures refused { OnErr result (vec_capacity out.old < vec_len out.old + length (anchor_column name.now)) }
    ensures capacity { vec_capacity out.old ≤ vec_capacity out.new }
{
    for byte in name {
        push_anchor_byte(out, *byte)?;
    }
    Ok(())
}

fn push_anchor_byte(out: &mut Vec<u8>, byte: u8) -> Result<(), NoMemory>
    ensures text { OnOk result (out.new.items ≡ out.old.items ++ anchor_byte byte) }
    ensures refused { OnErr result (vec_capacity out.old < vec_len out.old + length (anchor_byte byte)) }
    ensures capacity { vec_capacity out.old ≤ vec_capacity out.new }
{
    match byte {
        b'a'..=b'z' | b'A'..=b'Z' | b'0'..=b'9' | b'_' | b'-' | b'.' | b'/' => {
            out.extend_from_slice(&[byte])?;
        }
        _ => out.extend_from_slice(&[b'%', hex_digit(byte / 16), hex_digit(byte % 16)])?,
    }
    Ok(())
}

/// A digit in base 16.
fn hex_digit(number: u8) -> u8
    requires { number < 16 }
    ensures { result ≡ hex_digit number }
{
    if number < 10 {
        b'0' + number
    } else {
        b'A' - 10 + number
    }
}
