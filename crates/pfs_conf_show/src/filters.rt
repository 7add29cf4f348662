//! The parameters of rules and anchors.

ghost use Rattle.std.specs.Prelude.{◌≡◌, ◌++◌, OnOk};
ghost use Rattle.pfs_conf_show.specs.Filters.{dir_text, family_text, flags_text, host_text, hosts_text, is_every_side, on_text, parameters_text, ports_text, proto_text, quick_text, range_text, side_text};

use crate::pieces::{push_not, push_prefix};
use crate::tables::push_table_ref;
use pfs_addr::push_flags;
use pfs_addr_values::{Dir, NoMemory, Proto};
use pfs_conf_values::{Config, Family, Filter, FlagTest, Host, Interface, Ports, Side, TableNo};
use pfs_numbers::push_number;

/// Appends what a rule or an anchor asks of a packet, from its direction to its flags, and `quick`, each word behind a space.
pub fn push_parameters(
    out: &mut Vec<u8>,
    config: &Config,
    quick: bool,
    filter: &Filter,
) -> Result<(), NoMemory>
    ensures { OnOk result (out.new.items ≡ out.old.items ++ parameters_text config.now.tables quick filter.now) }
{
    push_dir(out, filter.dir)?;
    push_quick(out, quick)?;
    push_on(out, filter.on)?;
    push_family(out, filter.family)?;
    push_proto(out, filter.proto)?;
    push_hosts(out, config, &filter.from, &filter.to)?;
    push_flag_test(out, filter.flags)
}

fn push_dir(out: &mut Vec<u8>, dir: Option<Dir>) -> Result<(), NoMemory>
    ensures { OnOk result (out.new.items ≡ out.old.items ++ dir_text dir) }
{
    match dir {
        Some(Dir::In) => out.extend_from_slice(b" in")?,
        Some(Dir::Out) => out.extend_from_slice(b" out")?,
        None => (),
    }
    Ok(())
}

fn push_quick(out: &mut Vec<u8>, quick: bool) -> Result<(), NoMemory>
    ensures { OnOk result (out.new.items ≡ out.old.items ++ quick_text quick) }
{
    if quick {
        out.extend_from_slice(b" quick")?;
    }
    Ok(())
}

fn push_on(out: &mut Vec<u8>, on: Option<Interface>) -> Result<(), NoMemory>
    ensures { OnOk result (out.new.items ≡ out.old.items ++ on_text on) }
{
    if let Some(interface) = on {
        out.extend_from_slice(b" on ")?;
        push_not(out, interface.negated)?;
        out.extend_from_slice(interface.name.as_bytes())?;
    }
    Ok(())
}

fn push_family(out: &mut Vec<u8>, family: Option<Family>) -> Result<(), NoMemory>
    ensures { OnOk result (out.new.items ≡ out.old.items ++ family_text family) }
{
    match family {
        Some(Family::Inet) => out.extend_from_slice(b" inet")?,
        Some(Family::Inet6) => out.extend_from_slice(b" inet6")?,
        None => (),
    }
    Ok(())
}

fn push_proto(out: &mut Vec<u8>, proto: Option<Proto>) -> Result<(), NoMemory>
    ensures { OnOk result (out.new.items ≡ out.old.items ++ proto_text proto) }
{
    match proto {
        Some(Proto::Tcp) => out.extend_from_slice(b" proto tcp")?,
        Some(Proto::Udp) => out.extend_from_slice(b" proto udp")?,
        Some(proto) => {
            out.extend_from_slice(b" proto ")?;
            push_number(out, u64::from(proto.number()))?;
        }
        None => (),
    }
    Ok(())
}

fn push_hosts(
    out: &mut Vec<u8>,
    config: &Config,
    from: &Side<TableNo>,
    to: &Side<TableNo>,
) -> Result<(), NoMemory>
    ensures { OnOk result (out.new.items ≡ out.old.items ++ hosts_text config.now.tables from.now to.now) }
{
    if is_every_side(from) && is_every_side(to) {
        out.extend_from_slice(b" all")?;
        return Ok(());
    }
    out.extend_from_slice(b" from ")?;
    push_side(out, config, from)?;
    out.extend_from_slice(b" to ")?;
    push_side(out, config, to)
}

/// Whether a side is any host at any port.
fn is_every_side(side: &Side<TableNo>) -> bool
    ensures { result ≡ is_every_side side.now }
{
    matches!(side.host, Host::Any) && side.ports.is_none()
}

fn push_side(out: &mut Vec<u8>, config: &Config, side: &Side<TableNo>) -> Result<(), NoMemory>
    ensures { OnOk result (out.new.items ≡ out.old.items ++ side_text config.now.tables side.now) }
{
    push_host(out, config, side.host)?;
    push_ports(out, side.ports)
}

fn push_host(out: &mut Vec<u8>, config: &Config, host: Host<TableNo>) -> Result<(), NoMemory>
    ensures { OnOk result (out.new.items ≡ out.old.items ++ host_text config.now.tables host) }
{
    match host {
        Host::Any => {
            out.extend_from_slice(b"any")?;
            Ok(())
        }
        Host::Prefix { prefix, negated } => {
            push_not(out, negated)?;
            push_prefix(out, prefix)
        }
        Host::Table { table, negated } => {
            push_not(out, negated)?;
            push_table_ref(out, config, table)
        }
    }
}

/// Appends ` port ` with a port or a range, where ports are asked for.
pub fn push_ports(out: &mut Vec<u8>, ports: Option<Ports>) -> Result<(), NoMemory>
    ensures { OnOk result (out.new.items ≡ out.old.items ++ ports_text ports) }
{
    if let Some(ports) = ports {
        out.extend_from_slice(b" port ")?;
        push_number(out, u64::from(ports.low))?;
        push_range_end(out, ports)?;
    }
    Ok(())
}

fn push_range_end(out: &mut Vec<u8>, ports: Ports) -> Result<(), NoMemory>
    ensures { OnOk result (out.new.items ≡ out.old.items ++ range_text ports) }
{
    if ports.low != ports.high {
        out.extend_from_slice(b":")?;
        push_number(out, u64::from(ports.high))?;
    }
    Ok(())
}

fn push_flag_test(out: &mut Vec<u8>, flags: FlagTest) -> Result<(), NoMemory>
    ensures { OnOk result (out.new.items ≡ out.old.items ++ flags_text flags) }
{
    match flags {
        FlagTest::Any => {
            out.extend_from_slice(b" flags any")?;
            Ok(())
        }
        FlagTest::Exactly { set, among } => {
            out.extend_from_slice(b" flags ")?;
            push_flags(out, set)?;
            out.extend_from_slice(b"/")?;
            push_flags(out, among)
        }
    }
}
