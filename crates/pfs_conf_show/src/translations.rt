//! What a rule translates.

ghost use Rattle.std.specs.Prelude.{◌≡◌, ◌++◌, OnOk};
ghost use Rattle.pfs_conf_show.specs.Filters.{nat_ports_text, nat_to_text, rdr_port_text, rdr_to_text, translation_text};

use crate::filters::push_ports;
use pfs_addr::push_addr;
use pfs_addr_values::NoMemory;
use pfs_conf_values::{NatPorts, NatTo, RdrTo, Translation};
use pfs_numbers::push_number;

/// Appends `nat-to` and `rdr-to` of a rule, each behind a space, where it has them.
pub fn push_translation(out: &mut Vec<u8>, translation: Translation) -> Result<(), NoMemory>
    ensures { OnOk result (out.new.items ≡ out.old.items ++ translation_text translation) }
{
    push_nat_to(out, translation.nat_to)?;
    push_rdr_to(out, translation.rdr_to)
}

fn push_nat_to(out: &mut Vec<u8>, nat_to: Option<NatTo>) -> Result<(), NoMemory>
    ensures { OnOk result (out.new.items ≡ out.old.items ++ nat_to_text nat_to) }
{
    if let Some(nat_to) = nat_to {
        out.extend_from_slice(b" nat-to ")?;
        push_addr(out, nat_to.addr)?;
        push_nat_ports(out, nat_to.ports)?;
    }
    Ok(())
}

fn push_nat_ports(out: &mut Vec<u8>, ports: NatPorts) -> Result<(), NoMemory>
    ensures { OnOk result (out.new.items ≡ out.old.items ++ nat_ports_text ports) }
{
    match ports {
        NatPorts::Usual => Ok(()),
        NatPorts::Given(ports) => push_ports(out, Some(ports)),
        NatPorts::Static => {
            out.extend_from_slice(b" static-port")?;
            Ok(())
        }
    }
}

fn push_rdr_to(out: &mut Vec<u8>, rdr_to: Option<RdrTo>) -> Result<(), NoMemory>
    ensures { OnOk result (out.new.items ≡ out.old.items ++ rdr_to_text rdr_to) }
{
    if let Some(rdr_to) = rdr_to {
        out.extend_from_slice(b" rdr-to ")?;
        push_addr(out, rdr_to.addr)?;
        push_port(out, rdr_to.port)?;
    }
    Ok(())
}

fn push_port(out: &mut Vec<u8>, port: Option<u16>) -> Result<(), NoMemory>
    ensures { OnOk result (out.new.items ≡ out.old.items ++ rdr_port_text port) }
{
    if let Some(port) = port {
        out.extend_from_slice(b" port ")?;
        push_number(out, u64::from(port))?;
    }
    Ok(())
}
