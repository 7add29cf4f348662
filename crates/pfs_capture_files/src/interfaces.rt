//! The interfaces of a section.

ghost use Rattle.std.specs.Prelude.{◌≡◌, ◌+◌, ◌<◌, ◌≤◌, ◌==◌, ◌^◌, false, IfErr, IfOk, length};
ghost use Rattle.pfs_capture_files.specs.Faults.{is_outside};
ghost use Rattle.pfs_capture_files.specs.Interfaces.{IsNamed, interface_of, name_told, offset_of, units_of, units_told};

use crate::faults::FileFault;
use crate::options::{OptionWanted, find_option};
use crate::orders::{Order, read_u32, read_u64};
use pfs_addr_values::IfName;
use pfs_capture_packets::name_at;

/// An interface of a section, as its block describes it.
#[derive(Clone, Copy)]
pub struct InterfaceBlock {
    /// The type of its link.
    pub link: u16,
    /// Its name, where the block says one that an interface of pf can have.
    pub name: Option<IfName>,
    /// The most bytes of a frame that were kept, 0 for any number.
    pub kept: u32,
    /// How many units of its moments a second has.
    pub units: u64,
    /// How many seconds are to be added to its moments, modulo 2^64.
    pub offset: u64,
}

/// The interface of this link type that a block describes, of which this is what follows the link type, without its last length.
pub fn interface_of(order: Order, link: u16, body: &[u8]) -> Result<InterfaceBlock, FileFault>
    ensures is { result ≡ interface_of order link body.now }
    ensures name { IfOk result (λ i. IsNamed i.name) }
    ensures of_file { IfErr result (λ f. is_outside f ≡ false) }
{
    if body.len() < 4 {
        return Err(FileFault::Block);
    }
    let units = units_told(order, body)?;
    let name = name_told(order, body);
    let kept = read_u32(order, body, 0);
    let offset = offset_of(order, body);
    Ok(InterfaceBlock {
        link,
        name,
        kept,
        units,
        offset,
    })
}

/// The name, where an option says one that an interface of pf can have. Some writers end it by zeros.
fn name_told(order: Order, body: &[u8]) -> Option<IfName>
    ensures is { result ≡ name_told order body.now }
    ensures name { IsNamed result }
{
    let wanted = OptionWanted {
        code: 2,
        least: 0,
        most: 65_535,
    };
    match find_option(order, body, wanted, 4) {
        Some(place) => name_at(&body[place.at..place.at + place.size]),
        None => None,
    }
}

/// How many units a second has: a million where no option says it.
fn units_told(order: Order, body: &[u8]) -> Result<u64, FileFault>
    ensures is { result ≡ units_told order body.now }
    ensures of_file { IfErr result (λ f. is_outside f ≡ false) }
{
    let wanted = OptionWanted {
        code: 9,
        least: 1,
        most: 1,
    };
    match find_option(order, body, wanted, 4) {
        Some(place) => units_of(body[place.at]),
        None => Ok(1_000_000),
    }
}

/// How many units a second has, by the byte that says it.
#[tactic(auto, using(crate::proofs::Powers::tens, crate::proofs::Powers::twos))]
fn units_of(byte: u8) -> Result<u64, FileFault>
    ensures is { result ≡ units_of byte }
    ensures of_file { IfErr result (λ f. is_outside f ≡ false) }
{
    if byte <= 19 {
        return Ok(10u64.pow(u32::from(byte)));
    }
    if byte >= 128 && byte <= 191 {
        return Ok(2u64.pow(u32::from(byte - 128)));
    }
    Err(FileFault::Resolution)
}

/// How many seconds are to be added: none where no option says it.
fn offset_of(order: Order, body: &[u8]) -> u64
    ensures { result ≡ offset_of order body.now }
{
    let wanted = OptionWanted {
        code: 14,
        least: 8,
        most: 8,
    };
    match find_option(order, body, wanted, 4) {
        Some(place) => read_u64(order, body, place.at),
        None => 0,
    }
}
