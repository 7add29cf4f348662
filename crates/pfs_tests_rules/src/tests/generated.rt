//! Verdicts of generated rulesets, whose neighbours ask much the same, beside a plain evaluation.

ghost use Rattle.std.specs.Prelude.{◌<◌};

use super::asking::Rules;
use super::packets::packet_on;
use super::plain::{Evaluation, PlainMarks, PlainStep};
use pfs_addr_values::{Addr, Dir, Packet, Proto, TagNo};
use pfs_conf::load;
use pfs_tests_cases::{CaseError, SYN, SYN_ACK, same};
use std::alloc::{AllocError, Global};
use std::process::Abort;
use std::test::Fail;

/// The profile and two tables, which are in front of each ruleset.
const HEAD: &[u8] = b"set profile openbsd-7.4
table <t> { 10.0.0.0/8, !10.1.0.0/16, 10.1.2.3, 2001:db8::/32, !2001:db8:2::/48 }
table <bad> { 203.0.113.9, 2001:db8:1::9 }
";

/// How many parameters an item has here.
const PARAMETERS: usize = 9;

/// A source of numbers that look random, the same in each run.
#[derive(Drop)]
struct Numbers(u64);

impl Numbers {
    fn below(&mut self, most: u32) -> u32
        requires { 0 < most }
        ensures { result < most }
    {
        self.0 = self
            .0
            .wrapping_mul(6_364_136_223_846_793_005)
            .wrapping_add(1_442_695_040_888_963_407);
        ((self.0 >> 33) % u64::from(most)) as u32
    }

    fn once_in(&mut self, most: u32) -> bool
        requires { 0 < most }
    {
        self.below(most) == 0
    }

    fn packet(&mut self) -> Result<Packet, CaseError> {
        let dir = if self.once_in(3) { Dir::Out } else { Dir::In };
        let ifname: &[u8] = if self.once_in(3) { b"em1" } else { b"em0" };
        let source = match self.below(6) {
            0 => Addr::V4([10, 1, 2, 3]),
            1 => Addr::V4([10, 1, 0, 9]),
            2 => Addr::V4([10, 2, 0, 1]),
            3 => Addr::V4([203, 0, 113, 9]),
            4 => ipv6(1),
            _ => ipv6(2),
        };
        let port = if self.once_in(2) { 80 } else { 53 };
        if self.once_in(3) {
            return packet_on(ifname, dir, Proto::Udp, source, port, SYN);
        }
        let flags = if self.once_in(3) { SYN_ACK } else { SYN };
        packet_on(ifname, dir, Proto::Tcp, source, port, flags)
    }
}

/// The host 9 of a network of 2001:db8::/32, by its number.
fn ipv6(network: u8) -> Addr {
    Addr::V6([0x20, 1, 0xd, 0xb8, 0, network, 0, 0, 0, 0, 0, 0, 0, 0, 0, 9])
}

/// What an item asks: for each parameter, by its place in the text, a choice.
#[derive(Clone, Copy, Debug, PartialEq, Eq)]
struct DrawnPacket {
    choices: [u32; PARAMETERS],
}

impl DrawnPacket {
    /// The same, but for one parameter.
    fn changed(self, numbers: &mut Numbers) -> DrawnPacket {
        let changed = numbers.below(9) as usize;
        let choice = numbers.below(6);
        let mut asked = self;
        for (parameter, old) in asked.choices.iter_mut().enumerate() {
            if parameter == changed {
                *old = choice;
            }
        }
        asked
    }

    /// Appends what is asked. Ports are asked of TCP and UDP alone.
    fn write(&self, text: &mut Vec<u8>, quick: bool) -> Result<(), AllocError> {
        let has_ports = self.choices[3] < 2;
        for (parameter, choice) in self.choices.iter().enumerate() {
            if has_ports || (parameter != 5 && parameter != 7) {
                text.extend_from_slice(words(parameter, *choice))?;
            }
            if quick && parameter == 0 {
                text.extend_from_slice(b" quick")?;
            }
        }
        Ok(())
    }
}

/// The words of a parameter, by its place in the text.
fn words(parameter: usize, choice: u32) -> &'static [u8] {
    match (parameter, choice) {
        (0, 0) => b" in",
        (0, 1) => b" out",
        (1, 0) => b" on em0",
        (1, 1) => b" on em1",
        (1, 2) => b" on ! em1",
        (2, 0) => b" inet",
        (2, 1) => b" inet6",
        (3, 0) => b" proto tcp",
        (3, 1) => b" proto udp",
        (3, 2) => b" proto esp",
        (4, 0) => b" from <t>",
        (4, 1) => b" from ! <t>",
        (4, 2) => b" from 10.1.0.0/16",
        (4, 3) => b" from ! <bad>",
        (4, 5) => b" from ! 2001:db8:1::/48",
        (4, _) => b" from any",
        (5, 0) => b" port 1000",
        (5, 1) => b" port 1001",
        (6, 0) => b" to ! <bad>",
        (6, 1) => b" to 192.0.2.0/24",
        (6, 2) => b" to 10.0.0.0/8",
        (6, 3) => b" to 2001:db8::/64",
        (6, _) => b" to any",
        (7, 0) => b" port 80",
        (7, 1) => b" port 53",
        (8, 0) => b" flags S/SA",
        (8, 1) => b" flags S/S",
        _ => b"",
    }
}

/// What a rule does besides.
fn marks(numbers: &mut Numbers) -> PlainMarks {
    PlainMarks {
        is_match: numbers.once_in(4),
        tag: one_of_three(numbers.below(8)),
        tagged: one_of_three(numbers.below(9)),
        negated: numbers.once_in(2),
    }
}

fn one_of_three(tag: u32) -> Option<u32> {
    if tag < 3 { Some(tag) } else { None }
}

/// Appends what a rule asks of tags, and the tag that it gives.
fn write_marks(marks: &PlainMarks, text: &mut Vec<u8>) -> Result<(), AllocError> {
    if let Some(tag) = marks.tag {
        text.extend_from_slice(b" tag")?;
        text.extend_from_slice(name(tag))?;
    }
    if let Some(tag) = marks.tagged {
        text.extend_from_slice(if marks.negated {
            b" ! tagged"
        } else {
            b" tagged"
        })?;
        text.extend_from_slice(name(tag))?;
    }
    Ok(())
}

/// The name of a tag.
fn name(tag: u32) -> &'static [u8] {
    match tag {
        0 => b" a",
        1 => b" b",
        _ => b" c",
    }
}

/// A ruleset that is being made.
#[derive(Drop)]
struct Ruleset {
    text: Vec<u8>,
    items: Vec<DrawnItem>,
    open: usize,
}

/// An item, and the rules of a text that has its filter alone, as a rule.
#[derive(Drop)]
struct DrawnItem {
    depth: usize,
    quick: bool,
    marks: Option<PlainMarks>,
    alone: Rules,
}

impl Ruleset {
    /// What is in front, without an item.
    fn new(alloc: Global) -> Result<Ruleset, AllocError> {
        Ok(Ruleset {
            text: Vec::from_slice(alloc, HEAD)?,
            items: Vec::new(alloc),
            open: 0,
        })
    }

    /// Leaves anchors until an item would be at this depth.
    fn leave(&mut self, depth: usize) -> Result<(), AllocError> {
        for _ in depth..self.open {
            self.text.extend_from_slice(b"}\n")?;
        }
        self.open = self.open.min(depth);
        Ok(())
    }

    /// Appends a rule with these marks, or an anchor.
    fn push(
        &mut self,
        alloc: Global,
        asked: &DrawnPacket,
        quick: bool,
        marks: Option<PlainMarks>,
    ) -> Result<(), Fail> {
        let mut alone = Vec::from_slice(alloc, HEAD)?;
        alone.extend_from_slice(b"block")?;
        asked.write(&mut alone, false)?;
        alone.extend_from_slice(b"\n")?;
        let item = DrawnItem {
            depth: self.open,
            quick,
            marks,
            alone: Rules::of(alloc, &load(alloc, &alone)?)?,
        };
        self.items.push(item).map_err(|_| "no memory")?;
        self.write(asked, quick, &marks)?;
        if marks.is_none() {
            self.open = self.open.saturating_add(1);
        }
        Ok(())
    }

    /// Appends the text of an item.
    fn write(
        &mut self,
        asked: &DrawnPacket,
        quick: bool,
        marks: &Option<PlainMarks>,
    ) -> Result<(), AllocError> {
        self.text.extend_from_slice(verb(marks))?;
        asked.write(&mut self.text, quick)?;
        match marks {
            Some(marks) => {
                write_marks(marks, &mut self.text)?;
                self.text.extend_from_slice(b"\n")
            }
            None => self.text.extend_from_slice(b" {\n"),
        }
    }
}

/// The word with which an item begins.
fn verb(marks: &Option<PlainMarks>) -> &'static [u8] {
    match marks {
        None => b"anchor",
        Some(marks) if marks.is_match => b"match",
        Some(_) => b"block",
    }
}

/// A ruleset of some items, nested at random, most of which differ from their neighbour in one parameter.
fn generate(alloc: Global, numbers: &mut Numbers) -> Result<Ruleset, Fail> {
    let mut ruleset = Ruleset::new(alloc)?;
    let mut asked = DrawnPacket {
        choices: [4; PARAMETERS],
    };
    for _ in 0..4 + numbers.below(16) {
        if numbers.once_in(4) {
            ruleset.leave(numbers.below(4) as usize)?;
        }
        if !numbers.once_in(3) {
            asked = asked.changed(numbers);
        }
        let is_anchor = ruleset.open < 4 && numbers.once_in(3);
        let marks = if is_anchor {
            None
        } else {
            Some(marks(numbers))
        };
        // a `match` rule has no `quick`
        let quick = numbers.once_in(6) && !marks.is_some_and(|marks| marks.is_match);
        ruleset.push(alloc, &asked, quick, marks)?;
    }
    ruleset.leave(0)?;
    Ok(ruleset)
}

/// The plain evaluation of a packet.
fn evaluated(items: &[DrawnItem], packet: &Packet) -> Evaluation {
    let mut evaluation = Evaluation::new();
    for (place, item) in items.iter().enumerate() {
        let (decided, _) = item.alone.ask(packet);
        let step = PlainStep {
            depth: item.depth,
            quick: item.quick,
            holds: decided.is_some(),
            marks: item.marks,
        };
        evaluation = evaluation.behind(place, &step);
    }
    evaluation
}

/// The number by which a tag is known: that of the first rule that gives it.
fn known(items: &[DrawnItem], tag: Option<u32>) -> Option<TagNo> {
    let tag = tag?;
    let place = items.iter().position(|item| item
        .marks
        .is_some_and(|marks| marks.tag == Some(tag)))?;
    Some(TagNo(u16::try_from(place).ok()?))
}

#[test]
fn generated_rulesets_answer_as_a_plain_walk_does(rt: HostRuntime) -> Result<(), Fail> {
    let mut numbers = Numbers(7);
    let (mut decided, mut undecided, mut fewer) = (0u32, 0u32, 0u32);
    for _ in 0..400 {
        let ruleset = generate(rt.alloc(), &mut numbers)?;
        let config = load(rt.alloc(), &ruleset.text)?;
        let rules = Rules::of(rt.alloc(), &config)?;
        for _ in 0..20 {
            let packet = numbers.packet()?;
            let plain = evaluated(&ruleset.items, &packet);
            let (decision, visits) = rules.decide(&packet);
            let rule = decision.rule;
            same!(rt; rule.map(|rule| rule.0 as usize), plain.found);
            same!(rt; decision.packet, packet.with_tag(known(&ruleset.items, plain.tag)));
            assert!(rt; visits <= plain.visits, "{visits} visits");
            if visits < plain.visits {
                fewer = fewer.saturating_add(1);
            }
            if rule.is_some() {
                decided = decided.saturating_add(1);
            } else {
                undecided = undecided.saturating_add(1);
            }
        }
    }
    assert!(rt;
        decided > 2_000 && undecided > 500 && fewer > 2_000,
        "{decided} decided, {undecided} not, {fewer} with fewer visits"
    );
    Ok(())
}
