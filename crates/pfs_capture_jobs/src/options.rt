//! The command line of the program, for `clap`.

ghost use Rattle.std.specs.Prelude.{◌≡◌, IfOk, codes, false};
ghost use Rattle.clap.specs.Words.{app_of, new_rule, rule_of};
ghost use Rattle.clap.specs.declared.builder.command.Command.TheViews.{out-Command};
ghost use Rattle.clap.specs.declared.builder.action.ArgAction.TheVariants as action;
ghost use Rattle.pfs_capture_jobs.specs.Asked.{answers_app, answers_rule, named_rule, option_rule, pfstrace_app, sides_app};

use clap::{Arg, ArgAction, Command};
use pfs_words::line_buffered;
use std::alloc::{AllocError, Global};

/// What `--version` prints after the program's name.
const VERSION: &str = "0.1.0";

/// The command line of the program.
pub fn pfstrace<'a>(alloc: Global) -> Result<Command<'a>, AllocError>
    ensures app { IfOk result (λ c. app_of c ≡ pfstrace_app) }
    ensures local { IfOk result (λ c. (out-Command c).has_globals ≡ false) }
{
    with_answers(alloc)?
        .arg(line_buffered(
            alloc,
            "Writes each row before it reads more of the capture.",
        ))?
        .arg(capture(alloc))
}

fn with_answers<'a>(alloc: Global) -> Result<Command<'a>, AllocError>
    ensures app { IfOk result (λ c. app_of c ≡ answers_app) }
    ensures local { IfOk result (λ c. (out-Command c).has_globals ≡ false) }
{
    let answers = answers(alloc)?;
    with_sides(alloc)?.arg(interface_name(alloc))?.arg(answers)
}

fn with_sides<'a>(alloc: Global) -> Result<Command<'a>, AllocError>
    ensures app { IfOk result (λ c. app_of c ≡ sides_app) }
    ensures local { IfOk result (λ c. (out-Command c).has_globals ≡ false) }
{
    Command::new(alloc, "pfstrace")
        .version(VERSION)
        .about(
            "Writes a trace for pfsrc of captures, pcap or pcapng, and tells on standard error what became of their frames.",
        )
        .after_help(
            "Example: pfstrace --inside 192.0.2.0/24,2001:db8::/32 web.pcap > trace\nWithout a file, and of the file -, it reads standard input. A log of pflog(4) and a Linux cooked capture tell the directions themselves.\nStatus: 0 done, 1 a fault in the capture, 2 words that are not understood, 4 reading, writing or memory failed.",
        )
        .arg(mac(alloc))?
        .arg(inside(alloc))?
        .arg(outside(alloc))
}

/// An option of this name.
fn option<'a>(alloc: Global, name: &'a str, action: ArgAction, help: &'a str) -> Arg<'a>
    ensures rule { rule_of result ≡ option_rule action name.entry.now }
    ensures local { result.global ≡ false }
{
    Arg::new(alloc, name).long(name).action(action).help(help)
}

fn mac<'a>(alloc: Global) -> Arg<'a>
    ensures rule { rule_of result ≡ named_rule action.Append (codes "mac") }
    ensures local { result.global ≡ false }
{
    option(
        alloc,
        "mac",
        ArgAction::Append,
        "The addresses of the interface on its Ethernet, as ifconfig prints them behind lladdr: a frame from one is out, one to it or to a group is in. Nothing else says it as surely.",
    )
    .value_name("ADDRESS")
}

fn inside<'a>(alloc: Global) -> Arg<'a>
    ensures rule { rule_of result ≡ named_rule action.Append (codes "inside") }
    ensures local { result.global ≡ false }
{
    option(
        alloc,
        "inside",
        ArgAction::Append,
        "The networks behind the interface, and the firewall's own addresses: a packet to them from elsewhere is in, one from them to elsewhere is out.",
    )
    .value_name("PREFIX")
}

fn outside<'a>(alloc: Global) -> Arg<'a>
    ensures rule { rule_of result ≡ named_rule action.Append (codes "outside") }
    ensures local { result.global ≡ false }
{
    option(
        alloc,
        "outside",
        ArgAction::Append,
        "In place of --inside, the networks in front of the interface, as the local ones are of an inner interface: a packet from them to elsewhere is in, one to them from elsewhere is out.",
    )
    .value_name("PREFIX")
}

fn interface_name<'a>(alloc: Global) -> Arg<'a>
    ensures rule { rule_of result ≡ option_rule action.Set (codes "interface") }
    ensures local { result.global ≡ false }
{
    option(
        alloc,
        "interface",
        ArgAction::Set,
        "The interface of every record, em0 if it is not given. Given again, it begins the words of another interface, with a capture of its own; one capture alone is that of all, and each frame is of the interface that its block names.",
    )
}

fn answers<'a>(alloc: Global) -> Result<Arg<'a>, AllocError>
    ensures rule { IfOk result (λ a. rule_of a ≡ answers_rule) }
    ensures local { IfOk result (λ a. a.global ≡ false) }
{
    option(
        alloc,
        "answers",
        ArgAction::Set,
        "Of a log of pflog(4), writes there for each record its row, what pf did, and by which rule. A file of this name is made anew.",
    )
    .value_name("FILE")
    .alias("told")
}

fn capture<'a>(alloc: Global) -> Arg<'a>
    ensures rule { rule_of result ≡ new_rule (codes "CAPTURE") }
    ensures local { result.global ≡ false }
{
    Arg::new(alloc, "CAPTURE").help(
        "A capture of tcpdump or of pflogd, or any other pcap or pcapng file; - is standard input.",
    )
}
