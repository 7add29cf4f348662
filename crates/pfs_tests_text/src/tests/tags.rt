//! Match rules, tags, and the interface by which a packet came, as they are read and as they are meant.

ghost use Rattle.std.specs.Prelude.{◌<◌, ◌^◌, length};

use pfs_addr_values::{IfName, TagNo, parse_ifname};
use pfs_conf::{Action, FlagTest, RuleNo, load};
use pfs_conf_filters::{Extras, Marks, Statement, Verb, read_extra, read_parameters, read_verb};
use pfs_conf_tokens::{Cursor, Key, Refusal, Why};
use pfs_conf_values::{Came, Interface, TagName, Tagged};
use pfs_tests_cases::{holds, same};
use std::test::Fail;

/// What is read of one part.
fn extra(text: &[u8], extras: Extras) -> Result<Extras, Refusal>
    requires { length text.now < 2 ^ 63 }
{
    read_extra(&mut Cursor::new(text), extras)
}

fn given(tag: Option<TagName>, tagged: Option<Tagged>, received_on: Option<Interface>) -> Extras {
    Extras {
        tag,
        tagged,
        received_on,
    }
}

fn asked(name: TagName) -> Option<Tagged> {
    Some(Tagged {
        name,
        negated: false,
    })
}

fn not_by(name: IfName) -> Option<Interface> {
    Some(Interface {
        name,
        negated: true,
    })
}

#[test]
fn each_part_is_added(rt: HostRuntime) -> Result<(), Fail> {
    let a = TagName::parse(b"A").ok_or("a name")?;
    let em0 = parse_ifname(b"em0").ok_or("a name")?;
    same!(rt; Extras::new(), given(None, None, None));
    same!(rt; extra(b"tag A", Extras::new()), Ok(given(Some(a), None, None)));
    let tag = given(Some(a), None, None);
    same!(rt; extra(b"tagged A", tag), Ok(given(Some(a), asked(a), None)));
    let tagged = given(Some(a), asked(a), None);
    same!(rt; extra(b"!received-on em0", tagged), Ok(given(Some(a), asked(a), not_by(em0))));
    Ok(())
}

#[test]
fn parts_are_added_once(rt: HostRuntime) -> Result<(), Fail> {
    let a = TagName::parse(b"A").ok_or("a name")?;
    let em0 = parse_ifname(b"em0").ok_or("a name")?;
    for text in [b"tag B".as_slice(), b"tagged B", b"received-on B", b"!"] {
        if text.len() < 100 {
            let all = given(Some(a), asked(a), not_by(em0));
            same!(rt; extra(text, all), Err(Refusal::Stop(Why::Again)), text);
        }
    }
    Ok(())
}

#[test]
fn other_parts_are_none(rt: HostRuntime) {
    for (text, why, at) in [
        (b"quick".as_slice(), Why::Plain, b"quick".as_slice()),
        (b"! quick", Why::Plain, b"quick"),
        (b"!tag A", Why::Plain, b"tag"),
        (b"tag (", Why::Plain, b"("),
        (b"tagged !", Why::Plain, b"!"),
        (b"received-on any", Why::Plain, b"any"),
    ] {
        if text.len() < 100 {
            let mut cursor = Cursor::new(text);
            same!(rt; read_extra(&mut cursor, Extras::new()), Err(Refusal::Stop(why)), text);
            same!(rt; cursor.text(), at);
        }
    }
}

/// `log` and `quick` of a match rule, if its parameters are read.
fn marks(cursor: &mut Cursor) -> Option<Marks> {
    match read_parameters(cursor, Statement::Match) {
        Ok(parameters) => Some(parameters.head.marks),
        Err(_) => None,
    }
}

/// A match rule has neither `quick` nor a state.
#[test]
fn match_rules_are_read(rt: HostRuntime) {
    let mut cursor = Cursor::new(b"match log quick");
    same!(rt; read_verb(&mut cursor), Ok(Verb::Match));
    same!(rt; (Verb::Match.statement(), Verb::Match.takes_state()), (Statement::Match, false));
    same!(rt; (Verb::Pass.statement(), Verb::Pass.takes_state()), (Statement::Rule, true));
    let block = Verb::Block { has_policy: true };
    same!(rt; (block.statement(), block.takes_state()), (Statement::Rule, true));
    let log = Marks {
        log: true,
        quick: false,
    };
    same!(rt; marks(&mut cursor), Some(log));
    same!(rt; cursor.key(), Key::Quick);
}

/// What rules say, and which tags are known: those that a rule gives, by the first such rule.
#[test]
fn rules_have_their_tags(rt: HostRuntime) -> Result<(), Fail> {
    let text =
        b"match in tag A\npass quick ! tagged A tag B\nblock received-on em0 tag A\nset profile openbsd-7.4";
    let config = load(rt.alloc(), text)?;
    let a = TagName::parse(b"A").ok_or("a name")?;
    let b = TagName::parse(b"B").ok_or("a name")?;
    let c = TagName::parse(b"C").ok_or("a name")?;
    let em0 = parse_ifname(b"em0").ok_or("a name")?;
    let first = config.rule(RuleNo(0)).ok_or("a rule")?;
    holds!(rt; first.action == Action::Match && first.filter.flags == FlagTest::Any);
    same!(rt; (first.quick, first.tag, first.came), (false, Some(a), Came { tagged: None, received_on: None }));
    let second = config.rule(RuleNo(1)).ok_or("a rule")?;
    let not_a = Came {
        tagged: Some(Tagged {
            name: a,
            negated: true,
        }),
        received_on: None,
    };
    same!(rt; (second.quick, second.tag, second.came), (true, Some(b), not_a));
    let third = config.rule(RuleNo(2)).ok_or("a rule")?;
    let by_em0 = Came {
        tagged: None,
        received_on: Some(Interface {
            name: em0,
            negated: false,
        }),
    };
    same!(rt; (third.quick, third.tag, third.came), (false, Some(a), by_em0));
    same!(rt; (config.tag_named(&a), config.tag_named(&b), config.tag_named(&c)), (Some(TagNo(0)), Some(TagNo(1)), None));
    Ok(())
}
