//! The SYN cookies that are out, under the secret in use and the one before.

ghost use Rattle.std.specs.Prelude.{◌≡◌, IsOk, OnErr, OnOk, true};
ghost use Rattle.std.specs.FinSet.{contains};
ghost use Rattle.pfs_cookies.specs.Cookies.{IsApart, cookies_given, cookies_taken, cookies_turned, has_cookie, no_cookies, out_count};

use crate::key_sets::KeySet;
use pfs_addr_values::{FlowKey, NoMemory};
use pfs_conf_values::RulesHasher;
use std::alloc::Global;
use std::marker::Model;
use std::mem;

/// The SYN cookies that are out: the keys of connections whose SYN pf answered, and of which it holds nothing else. Each is
/// under one of two secrets, the one in use or the one before. A key has one cookie at most (own).
/// (pf.conf(5), OPTIONS, "set syncookies")
///
/// Clauses see it as `CookiesOut`: the finite set of the keys under each secret. A key is looked up once in each, by `has` in
/// the second only if it is not in the first.
#[derive(Drop)]
pub struct Cookies {
    fresh: KeySet,
    former: KeySet,
}

impl Model for Cookies {
    ghost use Rattle.pfs_cookies.specs.Cookies.{CookiesOut, IsApart, cookies_code};

    ghost Value = { CookiesOut };

    ghost coded = { cookies_code };

    ghost view = { λ c. record { fresh = c.fresh; former = c.former } };

    ghost invariant = { λ c. IsApart (record { fresh = c.fresh; former = c.former }) };
}

impl Cookies {
    /// None is out. The keys come from a stranger, and will be found by this hasher. It takes no memory.
    pub fn new(alloc: Global, hasher: RulesHasher) -> Cookies
        ensures { result ≡ no_cookies }
    {
        Cookies {
            fresh: KeySet::new(alloc, hasher),
            former: KeySet::new(alloc, hasher),
        }
    }

    /// Whether the key has a cookie out, under either secret.
    pub fn has(&self, key: &FlowKey) -> bool
        ensures { result ≡ has_cookie self.now key.now }
    {
        self.fresh.has(key) || self.former.has(key)
    }

    /// How many cookies are out, under both secrets. No key is counted twice.
    pub fn out(&self) -> u64
        ensures count { result ≡ out_count self.now }
        ensures once { IsApart self.now }
    {
        self.fresh.len() + self.former.len()
    }

    /// The key gets a cookie under the secret in use, in place of the one that it had. `NoMemory` where memory for it is
    /// refused; nothing changes then. None is needed for a key that has one under the secret in use.
    pub fn give(&mut self, key: &FlowKey) -> Result<(), NoMemory>
        ensures ok { OnOk result (self.new ≡ cookies_given self.old key.now) }
        ensures err { OnErr result (self.new ≡ self.old) }
        ensures no_memory { contains self.old.fresh key.now ≡ true → IsOk result }
    {
        match self.fresh.add(key) {
            Err(NoMemory) => Err(NoMemory),
            Ok(()) => {
                self.former.remove(key);
                Ok(())
            }
        }
    }

    /// Whether the key had a cookie out, under either secret; it has none after. It takes no memory.
    pub fn take(&mut self, key: &FlowKey) -> bool
        ensures had { result ≡ has_cookie self.old key.now }
        ensures taken { self.new ≡ cookies_taken self.old key.now }
    {
        let (fresh, former) = (self.fresh.remove(key), self.former.remove(key));
        fresh || former
    }

    /// The other secret is used from now on: what was out under it is forgotten, and its memory given back. It takes no
    /// memory.
    pub fn turn(&mut self)
        ensures { self.new ≡ cookies_turned self.old }
    {
        let none = self.fresh.none_beside();
        self.former = mem::replace(&mut self.fresh, none);
    }
}
