//! The load rules: which one a statement, or a text, is the first to break.

ghost use Rattle.std.specs.Prelude.{◌≡◌, IfSome};
ghost use Rattle.std.specs.Option.{option_map};
ghost use Rattle.pfs_conf.specs.Statements.{anchor_breaks, cookies_break, is_full, keeps_on_block, rule_breaks, text_breaks, translates_family, translates_no_way};

use crate::numbering::state_options;
use crate::phrases::{AnchorText, RuleText};
use crate::progress::Progress;
use pfs_conf_filters::Verb;
use pfs_conf_options::StateClause;
use pfs_conf_settings::{Draft, has_broken_shares};
use pfs_conf_tokens::LoadRule;
use pfs_conf_values::Syncookies;

/// The first load rule that a rule breaks. (own to this profile)
pub fn rule_breaks(draft: &Draft, text: &RuleText) -> Option<LoadRule>
    ensures { result ≡ rule_breaks draft.now text.now }
{
    let options = state_options(&text.clauses.state);
    if text.parameters.lack_proto() {
        Some(LoadRule::PortWithoutProto)
    } else if keeps_on_block(text.verb, &text.clauses.state) {
        Some(LoadRule::StateOnBlock)
    } else if options.has_overload_alone() {
        Some(LoadRule::OverloadAlone)
    } else if options.has_global_connections() {
        Some(LoadRule::GlobalConn)
    } else if options.has_global_retention() {
        Some(LoadRule::GlobalRetention)
    } else if options.has_broken_pair() {
        Some(LoadRule::AdaptivePair)
    } else if translates_no_way(text) {
        Some(LoadRule::TranslationWithoutWay)
    } else if translates_family(text) {
        Some(LoadRule::TranslationFamily)
    } else if is_full(draft) {
        Some(LoadRule::TooManyRules)
    } else {
        None
    }
}

/// The first load rule that the head of an anchor inside so many others breaks. (own to this profile)
pub fn anchor_breaks(depth: u8, draft: &Draft, text: &AnchorText) -> Option<LoadRule>
    ensures { result ≡ anchor_breaks depth draft.now text.now }
{
    if text.parameters.lack_proto() {
        Some(LoadRule::PortWithoutProto)
    } else if depth >= 16 {
        Some(LoadRule::TooDeep)
    } else if is_full(draft) {
        Some(LoadRule::TooManyRules)
    } else {
        None
    }
}

/// The load rule that `set syncookies` breaks. (own to this profile)
pub fn cookies_break(syncookies: Syncookies) -> Option<LoadRule>
    ensures { result ≡ cookies_break syncookies }
{
    if has_broken_shares(syncookies) {
        Some(LoadRule::CookiePair)
    } else {
        None
    }
}

/// The first load rule that a text as a whole breaks, and the line at which it is reported. (own to this profile)
pub fn text_breaks(progress: &Progress) -> Option<(LoadRule, u64)>
    ensures { result ≡ text_breaks progress.now }
{
    if let Some(rule) = progress.draft.const_overload() {
        return Some((LoadRule::ConstOverload, progress.lines.at(rule.0)));
    }
    if progress.draft.has_broken_pair() {
        Some((LoadRule::AdaptivePair, 0))
    } else if progress.draft.has_too_many_tables() {
        Some((LoadRule::TooManyTables, 0))
    } else if progress.draft.has_unprofiled_cookies() {
        Some((LoadRule::NeedsProfile, 0))
    } else if progress.draft.has_unprofiled_routes() {
        Some((LoadRule::NeedsProfile, 0))
    } else if let Some(rule) = progress.draft.unprofiled() {
        Some((LoadRule::NeedsProfile, progress.lines.at(rule.0)))
    } else if progress.draft.has_too_many_entries() {
        Some((LoadRule::TooManyEntries, 0))
    } else {
        None
    }
}

fn keeps_on_block(verb: Verb, state: &Option<StateClause>) -> bool
    ensures { result ≡ keeps_on_block verb state.now }
{
    match verb {
        Verb::Block { .. } => matches!(state, Some(StateClause::Keep(_))),
        Verb::Match | Verb::Pass => false,
    }
}

fn translates_no_way(text: &RuleText) -> bool
    ensures { result ≡ translates_no_way text.now }
{
    let dir = text.parameters.head.dir;
    text.clauses.translation.lacks_way(dir)
}

fn translates_family(text: &RuleText) -> bool
    ensures { result ≡ translates_family text.now }
{
    let written = text.parameters.head.family;
    let source = text.parameters.hosts.source().host.family();
    let destination = text.parameters.hosts.destination().host.family();
    text.clauses
        .translation
        .mixes_families(written, source, destination)
}

fn is_full(draft: &Draft) -> bool
    ensures { result ≡ is_full draft.now }
{
    draft.item_count() >= 10_000
}
