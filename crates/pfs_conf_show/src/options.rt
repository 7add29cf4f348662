//! The state clauses of rules.

ghost use Rattle.std.specs.Prelude.{◌≡◌, ◌++◌, IfOk, OnOk, codes, decimal};
ghost use Rattle.std.specs.List.{flat_map};
ghost use Rattle.pfs_conf_values.specs.Timeouts.{timeout_names};
ghost use Rattle.pfs_conf_show.specs.Pieces.{begun_after, text_if_given, going_on, word_and_number};
ghost use Rattle.pfs_conf_show.specs.Options.{flush_text, kept_text, options_text, overload_text, rate_text, rule_timeout_text, scope_text, sloppy_texts, state_text};

use crate::pieces::{push_closing, push_separator, push_worded};
use crate::settings::{TIMEOUT_NAMES, timeout_word};
use crate::tables::push_table_ref;
use pfs_addr_values::NoMemory;
use pfs_conf_values::{Action, Config, Overload, Rate, RuleTimeouts, Scope, StateOptions};
use pfs_numbers::push_number;

/// Appends the end of a rule: how it keeps state, with its options, or ` no state`. Nothing for `match` and `block`.
pub fn push_state(out: &mut Vec<u8>, config: &Config, action: &Action) -> Result<(), NoMemory>
    ensures { OnOk result (out.new.items ≡ out.old.items ++ state_text config.now.tables action.now) }
{
    match action {
        Action::Match | Action::Block => Ok(()),
        Action::Pass => {
            out.extend_from_slice(b" no state")?;
            Ok(())
        }
        Action::Keep(options) => {
            push_kept(out, options.synproxy)?;
            push_options(out, config, options)
        }
    }
}

/// How the state clause of a rule that keeps state begins.
fn push_kept(out: &mut Vec<u8>, synproxy: bool) -> Result<(), NoMemory>
    ensures { OnOk result (out.new.items ≡ out.old.items ++ kept_text synproxy) }
{
    if synproxy {
        out.extend_from_slice(b" synproxy state")?;
    } else {
        out.extend_from_slice(b" keep state")?;
    }
    Ok(())
}

/// Each option that is given goes on with the list; the answer is whether the list has begun by then.
fn push_options(out: &mut Vec<u8>, config: &Config, options: &StateOptions) -> Result<(), NoMemory>
    ensures { OnOk result (out.new.items ≡ out.old.items ++ options_text config.now.tables options.now) }
{
    let begun = push_count(out, false, b"max", options.max)?;
    let begun = push_scope(out, begun, options.scope)?;
    let begun = push_count(out, begun, b"max-src-nodes", options.max_src_nodes)?;
    let begun = push_count(out, begun, b"max-src-states", options.max_src_states)?;
    let begun = push_count(out, begun, b"max-src-conn", options.max_src_conn)?;
    let begun = push_rate(out, begun, options.max_src_conn_rate)?;
    let begun = push_overload(out, begun, config, options.overload)?;
    let begun = push_sloppy(out, begun, options.sloppy)?;
    let begun = push_rule_timeouts(out, begun, &options.timeouts)?;
    push_closing(out, b")", begun)
}

fn push_count(
    out: &mut Vec<u8>,
    begun: bool,
    word: &[u8],
    count: Option<u32>,
) -> Result<bool, NoMemory>
    ensures text { OnOk result (out.new.items ≡ out.old.items ++ going_on (codes " (") begun (text_if_given (word_and_number word.now) count)) }
    ensures begun { IfOk result (λ b. b ≡ begun_after begun (text_if_given (word_and_number word.now) count)) }
{
    let Some(count) = count else {
        return Ok(begun);
    };
    push_separator(out, b" (", begun)?;
    push_worded(out, word, u64::from(count))?;
    Ok(true)
}

fn push_scope(out: &mut Vec<u8>, begun: bool, scope: Option<Scope>) -> Result<bool, NoMemory>
    ensures text { OnOk result (out.new.items ≡ out.old.items ++ going_on (codes " (") begun (text_if_given scope_text scope)) }
    ensures begun { IfOk result (λ b. b ≡ begun_after begun (text_if_given scope_text scope)) }
{
    let Some(scope) = scope else {
        return Ok(begun);
    };
    push_separator(out, b" (", begun)?;
    match scope {
        Scope::Rule => out.extend_from_slice(b"source-track rule")?,
        Scope::Global => out.extend_from_slice(b"source-track global")?,
    }
    Ok(true)
}

fn push_rate(out: &mut Vec<u8>, begun: bool, rate: Option<Rate>) -> Result<bool, NoMemory>
    ensures text { OnOk result (out.new.items ≡ out.old.items ++ going_on (codes " (") begun (text_if_given rate_text rate)) }
    ensures begun { IfOk result (λ b. b ≡ begun_after begun (text_if_given rate_text rate)) }
{
    let Some(rate) = rate else {
        return Ok(begun);
    };
    push_separator(out, b" (", begun)?;
    push_rate_text(out, b"max-src-conn-rate", rate)?;
    Ok(true)
}

fn push_rate_text(out: &mut Vec<u8>, word: &[u8], rate: Rate) -> Result<(), NoMemory>
    ensures { OnOk result (out.new.items ≡ out.old.items ++ (word_and_number word.now rate.limit ++ (codes "/" ++ decimal rate.seconds))) }
{
    push_worded(out, word, u64::from(rate.limit))?;
    out.extend_from_slice(b"/")?;
    push_number(out, u64::from(rate.seconds))?;
    Ok(())
}

fn push_overload(
    out: &mut Vec<u8>,
    begun: bool,
    config: &Config,
    overload: Option<Overload>,
) -> Result<bool, NoMemory>
    ensures text { OnOk result (out.new.items ≡ out.old.items ++ going_on (codes " (") begun (text_if_given (overload_text config.now.tables) overload)) }
    ensures begun { IfOk result (λ b. b ≡ begun_after begun (text_if_given (overload_text config.now.tables) overload)) }
{
    let Some(overload) = overload else {
        return Ok(begun);
    };
    push_separator(out, b" (", begun)?;
    out.extend_from_slice(b"overload ")?;
    push_table_ref(out, config, overload.table)?;
    push_flush(out, overload.flush)?;
    Ok(true)
}

fn push_flush(out: &mut Vec<u8>, flush: Option<Scope>) -> Result<(), NoMemory>
    ensures { OnOk result (out.new.items ≡ out.old.items ++ flush_text flush) }
{
    match flush {
        Some(Scope::Rule) => out.extend_from_slice(b" flush")?,
        Some(Scope::Global) => out.extend_from_slice(b" flush global")?,
        None => (),
    }
    Ok(())
}

fn push_sloppy(out: &mut Vec<u8>, begun: bool, sloppy: bool) -> Result<bool, NoMemory>
    ensures text { OnOk result (out.new.items ≡ out.old.items ++ going_on (codes " (") begun (sloppy_texts sloppy)) }
    ensures begun { IfOk result (λ b. b ≡ begun_after begun (sloppy_texts sloppy)) }
{
    if !sloppy {
        return Ok(begun);
    }
    push_separator(out, b" (", begun)?;
    out.extend_from_slice(b"sloppy")?;
    Ok(true)
}

fn push_rule_timeouts(
    out: &mut Vec<u8>,
    begun: bool,
    timeouts: &RuleTimeouts,
) -> Result<bool, NoMemory>
    ensures text { OnOk result (out.new.items ≡ out.old.items ++ going_on (codes " (") begun (flat_map (rule_timeout_text timeouts.now) timeout_names)) }
    ensures begun { IfOk result (λ b. b ≡ begun_after begun (flat_map (rule_timeout_text timeouts.now) timeout_names)) }
{
    let mut going = begun;
    for name in &TIMEOUT_NAMES {
        going = push_count(out, going, timeout_word(*name), timeouts.get(*name))?;
    }
    Ok(going)
}
