//! The row of a packet.

ghost use Rattle.std.specs.Prelude.{◌≡◌, ◌≤◌, ◌<◌, ◌+◌, ◌++◌, ℕ, List, [], Ok, Option, Some, OnErr, OnOk, length, true, false, vec_len};
ghost use Rattle.std.specs.Vec.{vec_capacity};
ghost use Rattle.csv.specs.Machine.{next_record};
ghost use Rattle.csv.specs.Reading.{default_config};
ghost use Rattle.csv.specs.declared.parser.State.TheVariants as state;
ghost use Rattle.pfs_addr_values.specs.Addresses.{addr_text, same_family};
ghost use Rattle.pfs_addr.specs.Texts.{addr_of};
ghost use Rattle.pfs_addr_values.specs.Names.{is_name};
ghost use Rattle.pfs_conf_values.specs.Configs.{Conf};
ghost use Rattle.pfs_trace.specs.Events.{event_at, falls};
ghost use Rattle.pfs_trace.specs.Rows.{IsSaid, event_of, packet_row, port_text, row_dir, row_end, row_fields, row_proto, start_text};

use pfs_addr::{push_addr, push_flags};
use pfs_addr_values::{Dir, Endpoint, NoMemory, Packet, Proto};
use pfs_numbers::push_number;

/// A packet with the moment of its row.
#[derive(Clone, Copy)]
pub struct Row {
    /// The second in which it was seen.
    pub second: u64,
    /// The packet, on its interface.
    pub packet: Packet,
}

/// Appends the row of a packet whose ends are of one family, that has flags only of TCP, and that was seen by the second
/// 4294967295. A replay reads its text as nine columns, whatever follows, and the columns as that packet, where no later moment
/// comes before it.
///
/// `NoMemory` where the vector had no room for the row and more memory was refused; a part of it may have been appended then.
pub fn push_row(out: &mut Vec<u8>, row: &Row) -> Result<(), NoMemory>
    requires family { same_family row.now.packet.source.addr row.now.packet.destination.addr ≡ true }
    requires second { row.now.second ≤ 4294967295 }
    requires name { is_name 15 row.now.packet.ifname ≡ true }
    requires said { IsSaid row.now.packet }
    ensures text { OnOk result (out.new.items ≡ out.old.items ++ packet_row row.now) }
    ensures refused { OnErr result (vec_capacity out.old < vec_len out.old + length (packet_row row.now)) }
    ensures capacity { vec_capacity out.old ≤ vec_capacity out.new }
    ensures read { OnOk result ((rest : List ℕ) → next_record default_config state.StartRecord [] [] (packet_row row.now ++ rest) ≡ Some (row_fields row.now, state.StartRecord, rest)) }
    ensures again { OnOk result ((conf : Conf) (number : ℕ) (last : Option ℕ) → falls last row.now.second ≡ false → event_at conf number last (row_fields row.now) ≡ Ok (event_of row.now)) }
{
    push_start(out, row)?;
    push_end(out, row.packet.proto(), row.packet.source())?;
    push_end(out, row.packet.proto(), row.packet.destination())?;
    push_flags(out, row.packet.flags())?;
    out.extend_from_slice(b"\n")?;
    Ok(())
}

/// Appends the columns in front of the ends of the packet.
fn push_start(out: &mut Vec<u8>, row: &Row) -> Result<(), NoMemory>
    ensures text { OnOk result (out.new.items ≡ out.old.items ++ start_text row.now) }
    ensures refused { OnErr result (vec_capacity out.old < vec_len out.old + length (start_text row.now)) }
    ensures capacity { vec_capacity out.old ≤ vec_capacity out.new }
{
    let ifname = row.packet.ifname();
    push_number(out, row.second)?;
    out.extend_from_slice(dir_word(row.packet.dir()).as_bytes())?;
    out.extend_from_slice(ifname.as_bytes())?;
    push_proto(out, row.packet.proto())
}

fn dir_word(dir: Dir) -> &'static str
    ensures { result.now ≡ row_dir dir }
{
    match dir {
        Dir::In => ",in,",
        Dir::Out => ",out,",
    }
}

fn push_proto(out: &mut Vec<u8>, proto: Proto) -> Result<(), NoMemory>
    ensures text { OnOk result (out.new.items ≡ out.old.items ++ row_proto proto) }
    ensures refused { OnErr result (vec_capacity out.old < vec_len out.old + length (row_proto proto)) }
    ensures capacity { vec_capacity out.old ≤ vec_capacity out.new }
{
    match proto {
        Proto::Tcp => out.extend_from_slice(b",tcp,")?,
        Proto::Udp => out.extend_from_slice(b",udp,")?,
        Proto::Other(_) => {
            out.extend_from_slice(b",")?;
            push_number(out, u64::from(proto.number()))?;
            out.extend_from_slice(b",")?;
        }
    }
    Ok(())
}

/// Appends the columns of an end, its port where the protocol has ports.
fn push_end(out: &mut Vec<u8>, proto: Proto, end: Endpoint) -> Result<(), NoMemory>
    ensures text { OnOk result (out.new.items ≡ out.old.items ++ row_end proto end) }
    ensures refused { OnErr result (vec_capacity out.old < vec_len out.old + length (row_end proto end)) }
    ensures capacity { vec_capacity out.old ≤ vec_capacity out.new }
    ensures again { addr_of (addr_text end.addr) ≡ Some end.addr }
{
    push_addr(out, end.addr)?;
    out.extend_from_slice(b",")?;
    push_port(out, proto, end.port)?;
    out.extend_from_slice(b",")?;
    Ok(())
}

fn push_port(out: &mut Vec<u8>, proto: Proto, port: u16) -> Result<(), NoMemory>
    ensures text { OnOk result (out.new.items ≡ out.old.items ++ port_text proto port) }
    ensures refused { OnErr result (vec_capacity out.old < vec_len out.old + length (port_text proto port)) }
    ensures capacity { vec_capacity out.old ≤ vec_capacity out.new }
{
    if proto.has_ports() {
        push_number(out, u64::from(port))?;
    }
    Ok(())
}
