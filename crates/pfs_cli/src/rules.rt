//! From a rules text to its configuration.

ghost use Rattle.std.specs.Prelude.{◌≡◌, ◌≢◌, Some, Err, ◌<◌, ◌≤◌, ◌+◌, ℕ, List, true, IfOk, IfErr, length, drop};
ghost use Rattle.pfs_streams.specs.Feeds.{IsSound, IsSpent, bound_of, unread, has_ended, read_failures};
ghost use Rattle.pfs_streams.specs.RulesKept.{KeepsEnough, rules_limit};
ghost use Rattle.pfs_conf.specs.Reads.{Reads};
ghost use Rattle.pfs_cli.specs.Refusing.{IsFeedFault, RefusesRules, RefusesText, fault_of};

use crate::endings::{feed_fault, rules_fault};
use crate::faults::ReplayFault;
use pfs_conf::{Config, Kind, LoadFault, load};
use pfs_streams::{Feed, read_rules};
use std::alloc::Global;
use std::io::Read;

/// The configuration of the rules text that a feed gives.
pub(crate) fn read_config<R: Read>(
    alloc: Global,
    rules: &mut Feed<R>,
) -> Result<Config, ReplayFault>
    requires { read_failures rules.old ≡ 0 }
    ensures ok { IfOk result (λ c. (rs : List ℕ) → unread R.remaining rules.old ≡ Some rs → Reads rs c) }
    ensures err { IfErr result (λ f. (rs : List ℕ) → unread R.remaining rules.old ≡ Some rs → RefusesText rs f) }
    ensures ended { IfOk result (λ c. has_ended rules.new ≡ true) }
    ensures few { (rs : List ℕ) → unread R.remaining rules.old ≡ Some rs → (k : ℕ) × (k ≤ rules_limit + 1) × (unread R.remaining rules.new ≡ Some (drop k rs)) }
    ensures read { result ≡ Err ReplayFault.Read → 0 < read_failures rules.new }
    ensures endless { result ≡ Err ReplayFault.Endless → IsSpent rules.new }
    ensures memory { result ≡ Err ReplayFault.Memory → IsSound rules.new }
    ensures bound { bound_of rules.new ≡ bound_of rules.old }
    ensures sound { IfOk result (λ c. IsSound rules.new) }
    ensures no_write { IfErr result (λ f. f ≢ ReplayFault.Write) }
{
    let text = match read_text(alloc, rules) {
        Ok(text) => text,
        Err(fault) => return Err(fault),
    };
    match load_config(alloc, text) {
        Ok(config) => Ok(config),
        Err(fault) => Err(rules_fault(fault, rules)),
    }
}

/// The bytes of a rules text. Of one that is too long, no more is read than shows this.
fn read_text<R: Read>(alloc: Global, rules: &mut Feed<R>) -> Result<Vec<u8>, ReplayFault>
    requires { read_failures rules.old ≡ 0 }
    ensures text { IfOk result (λ v. (rs : List ℕ) → unread R.remaining rules.old ≡ Some rs → KeepsEnough v.items rs) }
    ensures ended { IfOk result (λ v. length v.items ≤ rules_limit → has_ended rules.new ≡ true) }
    ensures sound { IfOk result (λ v. read_failures rules.new ≡ 0) }
    ensures few { (rs : List ℕ) → unread R.remaining rules.old ≡ Some rs → (k : ℕ) × (k ≤ rules_limit + 1) × (unread R.remaining rules.new ≡ Some (drop k rs)) }
    ensures kinds { IfErr result (λ f. IsFeedFault f) }
    ensures read { result ≡ Err ReplayFault.Read → 0 < read_failures rules.new }
    ensures endless { result ≡ Err ReplayFault.Endless → IsSpent rules.new }
    ensures memory { result ≡ Err ReplayFault.Memory → IsSound rules.new }
    ensures bound { bound_of rules.new ≡ bound_of rules.old }
{
    match read_rules(alloc, rules) {
        Ok(text) => Ok(text),
        Err(_) => Err(feed_fault(rules)),
    }
}

/// The configuration of a rules text.
pub(crate) fn load_config(alloc: Global, text: Vec<u8>) -> Result<Config, ReplayFault>
    ensures ok { IfOk result (λ c. Reads text.items c) }
    ensures err { IfErr result (λ f. RefusesRules text.items f) }
{
    match load(alloc, text.as_slice()) {
        Ok(config) => Ok(config),
        Err(fault) => Err(of_rules(fault)),
    }
}

/// The fault of a replay of rules with this fault: out of memory has a fault of its own.
fn of_rules(fault: LoadFault) -> ReplayFault
    ensures { result ≡ fault_of fault }
{
    match fault.kind {
        Kind::Memory => ReplayFault::Memory,
        _ => ReplayFault::Rules(fault),
    }
}
