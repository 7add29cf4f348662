//! How indexes hash: with SipHash, begun with what a sender of packets does not know.

ghost use Rattle.std.specs.Prelude.{◌≡◌};
ghost use Rattle.std.specs.Hash.DefaultHasher as sip;
ghost use Rattle.pfs_conf_values.specs.Configs.{conf_of};
ghost use Rattle.pfs_conf_values.specs.Hashing.{after_conf, after_items, begun_with, hasher_of, hasher_of_text, item_word};

use crate::items::Item;
use crate::limits::Limits;
use crate::profiles::Profile;
use crate::routes::Route;
use crate::syncookies::Syncookies;
use crate::tables::{TableDef, feed_tables};
use crate::timeouts::Timeouts;
use std::hash::{BuildHasher, DefaultHasher, FoldHasher, Hash, Hasher};

/// The hasher of an index whose keys a stranger chooses: SipHash that was fed with the rules' own hash. Each key goes on from a
/// copy of it. So a sender who does not know the rules cannot tell which keys meet in one place. One who knows or
/// guesses them can search: some 65,000 tries for each key in a chosen place of 65,536. (own to this profile)
#[derive(Debug, Clone, Copy)]
pub struct RulesHasher {
    begun: DefaultHasher,
}

impl RulesHasher {
    /// The hasher of a configuration: it was fed with all that this says: profile, SYN cookies, routes, limits, timeouts, tables with their entries, and items.
    /// It goes through them once, and takes no memory.
    pub(crate) fn of_parts(
        profile: Profile,
        syncookies: Syncookies,
        routes: &[Route],
        limits: &Limits,
        timeouts: &Timeouts,
        tables: &[TableDef],
        items: &[Item],
    ) -> RulesHasher
        ensures { result.begun ≡ hasher_of (conf_of profile syncookies routes.now limits.now timeouts.now tables.now items.now) }
    {
        let mut rules = DefaultHasher::new();
        profile.hash(&mut rules);
        syncookies.hash(&mut rules);
        routes.hash(&mut rules);
        limits.hash(&mut rules);
        timeouts.hash(&mut rules);
        feed_tables(tables, &mut rules);
        feed_items(items, &mut rules);
        RulesHasher::begun_with(&rules)
    }

    /// The hasher that was fed with the bytes of a text. It goes through them once, and takes no memory.
    pub fn of_text(text: &[u8]) -> RulesHasher
        ensures { result.begun ≡ hasher_of_text text.now }
    {
        let mut rules = DefaultHasher::new();
        rules.write(text);
        RulesHasher::begun_with(&rules)
    }

    /// The hasher that was fed with what another answers. Its keys begin on a whole word.
    fn begun_with(rules: &DefaultHasher) -> RulesHasher
        ensures { result.begun ≡ begun_with rules.now }
    {
        let mut begun = DefaultHasher::new();
        begun.write_u64(rules.finish());
        RulesHasher { begun }
    }
}

impl BuildHasher for RulesHasher {
    type Hasher = DefaultHasher;

    ghost build_hasher = { λ h. h.begun };

    fn build_hasher(&self) -> DefaultHasher {
        self.begun
    }
}

/// Feeds a hasher with how many items there are, and with a word of each.
fn feed_items(items: &[Item], state: &mut DefaultHasher)
    ensures { state.new ≡ after_items state.old items.now }
{
    items.len().hash(state);
    for item in items {
        state.write_u64(item_word(item));
    }
}

/// All that an item says, in one word. To fold it takes a tenth of the steps that SipHash takes for its many short parts, and the words
/// go into SipHash.
fn item_word(item: &Item) -> u64
    ensures { result ≡ item_word item.now }
{
    let mut word = FoldHasher::default();
    item.hash(&mut word);
    word.finish()
}
