//! What rules and anchors say, with the tables by their numbers.

ghost use Rattle.std.specs.Prelude.{◌≡◌, IfOk, OnOk, IfSome};
ghost use Rattle.pfs_conf_values.specs.LoadRules.{IsHost, IsSide};
ghost use Rattle.pfs_conf.specs.Statements.{action_of, anchor_said, came_said, default_flags, name_host, name_overload, name_rule, name_hosts, number_host, number_overload, number_side, passing, rule_said, state_options};
ghost use Rattle.pfs_conf.specs.PhraseBounds.{IsAnchorText, IsRuleText, IsTableName};

use crate::phrases::{AnchorText, RuleText};
use pfs_addr_values::{Flags, NoMemory};
use pfs_conf_filters::{Extras, Head, Verb};
use pfs_conf_options::{Options, OverloadText, StateClause};
use pfs_conf_settings::Draft;
use pfs_conf_values::{
    Action, Anchor, Came, Filter, FlagTest, Host, Rule, Side, TableName, TableNo,
};

/// What a rule says. Its tables are used, that of the source first and that of `overload` last.
pub fn number_rule(draft: &mut Draft, text: &RuleText) -> Result<Rule, NoMemory>
    requires { IsRuleText text.now }
    ensures value { IfOk result (λ r. r ≡ rule_said text.now draft.old) }
    ensures named { OnOk result (draft.new ≡ name_rule text.now draft.old) }
{
    let from = number_side(draft, text.parameters.hosts.source())?;
    let to = number_side(draft, text.parameters.hosts.destination())?;
    let table = number_overload(draft, overload_of(&text.clauses.state))?;
    let action = action_of(text.verb, &text.clauses.state, table);
    let flags = text.clauses.flags.unwrap_or(default_flags(&action));
    let head = text.parameters.head;
    let family = text.clauses.translation.given_family(head.family);
    let filter = filter(Head { family, ..head }, from, to, flags);
    Ok(Rule {
        quick: head.marks.quick,
        filter,
        came: came(&text.clauses.extras),
        tag: text.clauses.extras.tag,
        translation: text.clauses.translation,
        action,
    })
}

/// What the head of an anchor says. Its tables are used, that of the source first.
pub fn number_anchor(draft: &mut Draft, text: &AnchorText) -> Result<Anchor, NoMemory>
    requires { IsAnchorText text.now }
    ensures value { IfOk result (λ a. a ≡ anchor_said text.now draft.old) }
    ensures named { OnOk result (draft.new ≡ name_hosts text.now.parameters.hosts draft.old) }
{
    let from = number_side(draft, text.parameters.hosts.source())?;
    let to = number_side(draft, text.parameters.hosts.destination())?;
    let flags = text.flags.unwrap_or(FlagTest::Any);
    let filter = filter(text.parameters.head, from, to, flags);
    Ok(Anchor {
        name: text.name,
        quick: text.parameters.head.marks.quick,
        filter,
    })
}

fn came(extras: &Extras) -> Came
    ensures { result ≡ came_said extras.now }
{
    Came {
        tagged: extras.tagged,
        received_on: extras.received_on,
    }
}

fn filter(head: Head, from: Side<TableNo>, to: Side<TableNo>, flags: FlagTest) -> Filter
    ensures { result ≡ record { dir = head.dir; on = head.on; family = head.family; proto = head.proto; from = from; to = to; flags = flags } }
{
    Filter {
        dir: head.dir,
        on: head.on,
        family: head.family,
        proto: head.proto,
        from,
        to,
        flags,
    }
}

fn number_side(draft: &mut Draft, side: Side<TableName>) -> Result<Side<TableNo>, NoMemory>
    requires { IsSide IsTableName side }
    ensures value { IfOk result (λ s. s ≡ number_side side draft.old) }
    ensures named { OnOk result (draft.new ≡ name_host side.host draft.old) }
{
    let host = number_host(draft, side.host)?;
    Ok(Side {
        host,
        ports: side.ports,
    })
}

fn number_host(draft: &mut Draft, host: Host<TableName>) -> Result<Host<TableNo>, NoMemory>
    requires { IsHost IsTableName host }
    ensures value { IfOk result (λ h. h ≡ number_host host draft.old) }
    ensures named { OnOk result (draft.new ≡ name_host host draft.old) }
{
    match host {
        Host::Any => Ok(Host::Any),
        Host::Prefix { prefix, negated } => Ok(Host::Prefix { prefix, negated }),
        Host::Table { table, negated } => {
            let table = draft.number_of(table)?;
            Ok(Host::Table { table, negated })
        }
    }
}

fn number_overload(
    draft: &mut Draft,
    overload: Option<OverloadText>,
) -> Result<Option<TableNo>, NoMemory>
    requires { IfSome overload (λ v. IsTableName v.table) }
    ensures value { IfOk result (λ t. t ≡ number_overload overload draft.old) }
    ensures named { OnOk result (draft.new ≡ name_overload overload draft.old) }
{
    match overload {
        None => Ok(None),
        Some(overload) => {
            let table = draft.number_of(overload.table)?;
            Ok(Some(table))
        }
    }
}

/// The options of a state clause; none without one.
pub fn state_options(state: &Option<StateClause>) -> Options
    ensures { result ≡ state_options state.now }
{
    match state {
        None => Options::new(),
        Some(clause) => clause.options(),
    }
}

/// The `overload` of a state clause, if it has one.
fn overload_of(state: &Option<StateClause>) -> Option<OverloadText>
    ensures { result ≡ (state_options state.now).overload }
{
    match state {
        None => None,
        Some(StateClause::No) => None,
        Some(StateClause::Keep(options)) => options.overload,
    }
}

/// A pass rule keeps state unless it says `no state`; a match rule decides nothing. (pf.conf(5), STATEFUL FILTERING)
fn action_of(verb: Verb, state: &Option<StateClause>, table: Option<TableNo>) -> Action
    ensures { result ≡ action_of verb state.now table }
{
    match verb {
        Verb::Match => Action::Match,
        Verb::Block { .. } => Action::Block,
        Verb::Pass => passing(state, table),
    }
}

fn passing(state: &Option<StateClause>, table: Option<TableNo>) -> Action
    ensures { result ≡ passing state.now table }
{
    match state {
        None => Action::Keep(Options::new().resolved(table)),
        Some(StateClause::No) => Action::Pass,
        Some(StateClause::Keep(options)) => Action::Keep(options.resolved(table)),
    }
}

/// S/SA for a rule that keeps state, so that a TCP state begins with the first packet of a connection. (pf.conf(5), PARAMETERS,
/// "flags")
fn default_flags(action: &Action) -> FlagTest
    ensures { result ≡ default_flags action.now }
{
    match action {
        Action::Match | Action::Block | Action::Pass => FlagTest::Any,
        Action::Keep(_) => FlagTest::Exactly {
            set: Flags {
                fin: false,
                syn: true,
                rst: false,
                psh: false,
                ack: false,
                urg: false,
                ece: false,
                cwr: false,
            },
            among: Flags {
                fin: false,
                syn: true,
                rst: false,
                psh: false,
                ack: true,
                urg: false,
                ece: false,
                cwr: false,
            },
        },
    }
}
