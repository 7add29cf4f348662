//! The blocks of a pcapng file.

ghost use Rattle.std.specs.Prelude.{◌≡◌, ◌≢◌, ◌-◌, ◌≤◌, [], false, Err, IfErr, IfOk, length};
ghost use Rattle.pfs_capture_files.specs.Blocks.{TakesItem, with_interface, block_head, body_item, held_in, described_at, is_version, order_of_block, order_of_magic, packet_on, with_section};
ghost use Rattle.pfs_capture_files.specs.Faults.{is_outside};
ghost use Rattle.pfs_capture_files.specs.Frames.{IsSoundItem};
ghost use Rattle.pfs_capture_files.specs.Interfaces.{IsNamed, interface_of, then_known};

use crate::faults::FileFault;
use crate::frames::{FileItem, enhanced_frame, simple_frame};
use crate::interfaces::{InterfaceBlock, interface_of};
use crate::orders::{Order, read_u16, read_u32};
use std::alloc::Global;
use std::marker::Model;

/// The kind of a section's block, which reads the same in both byte orders.
pub const SECTION: u32 = 0x0a0d_0d0a;

/// The most interfaces of a section.
const MOST_INTERFACES: usize = 1_024;

/// What is known of the section that is read: its byte order, and its interfaces.
#[derive(Drop)]
pub struct Section {
    order: Order,
    interfaces: Vec<InterfaceBlock>,
}

impl Model for Section {
    ghost use Rattle.pfs_capture_files.specs.Known.{AreNamed, Known};

    ghost Value = { Known };

    ghost view = { λ s. record { order = s.order; interfaces = s.interfaces.items } };

    ghost invariant = { λ s. AreNamed s.interfaces.items };
}

/// How a block begins.
#[derive(Clone, Copy)]
pub struct BlockHead {
    /// The byte order of its numbers.
    pub order: Order,
    /// Its kind.
    pub kind: u32,
    /// How many bytes of it follow its first twelve.
    pub count: usize,
    /// The third number of four bytes.
    pub third: u32,
    /// The first half of the third number.
    pub half: u16,
}

/// How a block begins by its first twelve bytes, in a section of this byte order.
pub fn block_head(order: Order, head: &[u8]) -> Result<BlockHead, FileFault>
    ensures is { result ≡ block_head order head.now }
    ensures few { IfOk result (λ h. h.count ≤ 524288) }
    ensures of_file { IfErr result (λ f. is_outside f ≡ false) }
{
    if head.len() < 12 {
        return Err(FileFault::Cut);
    }
    let kind = read_u32(order, head, 0);
    let order = order_of_block(order, kind, head)?;
    let whole = read_u32(order, head, 4);
    if whole < 12 || whole % 4 != 0 {
        return Err(FileFault::Block);
    }
    if whole > 524_288 {
        return Err(FileFault::TooLong);
    }
    Ok(BlockHead {
        order,
        kind,
        count: whole as usize - 12,
        third: read_u32(order, head, 8),
        half: read_u16(order, head, 8),
    })
}

/// The byte order of a block of this kind: a section's own, and of a section's block what it begins with.
fn order_of_block(order: Order, kind: u32, head: &[u8]) -> Result<Order, FileFault>
    requires { 12 ≤ length head.now }
    ensures is { result ≡ order_of_block order kind head.now }
    ensures of_file { IfErr result (λ f. is_outside f ≡ false) }
{
    if kind != SECTION {
        return Ok(order);
    }
    order_of_magic(read_u32(Order::Big, head, 8))
}

fn order_of_magic(magic: u32) -> Result<Order, FileFault>
    ensures is { result ≡ order_of_magic magic }
    ensures of_file { IfErr result (λ f. is_outside f ≡ false) }
{
    match magic {
        0x1a2b_3c4d => Ok(Order::Big),
        0x4d3c_2b1a => Ok(Order::Little),
        _ => Err(FileFault::Block),
    }
}

impl Section {
    /// A section of this byte order without interfaces.
    pub fn new(alloc: Global, order: Order) -> Section
        ensures { result ≡ record { order = order; interfaces = [] } }
    {
        Section {
            order,
            interfaces: Vec::new(alloc),
        }
    }

    /// The byte order of the section.
    pub fn order(&self) -> Order
        ensures { result ≡ self.now.order }
    {
        self.order
    }

    /// What a block holds, by how it begins and what follows; what is known of the section changes as it says. At a fault anything
    /// may be known. It takes memory for an interface alone.
    pub fn take(&mut self, head: BlockHead, rest: &[u8]) -> Result<FileItem, FileFault>
        ensures is { TakesItem (body_item self.old head rest.now) result self.new }
        ensures frame { IfOk result IsSoundItem }
        ensures free { result ≡ Err FileFault.Memory → head.kind ≡ 1 }
        ensures read { result ≢ Err FileFault.Read }
    {
        match head.kind {
            SECTION => self.begin(head.order, &rest[..front(rest)]),
            1 => self.describe(head.order, head.half, &rest[..front(rest)]),
            _ => self.held(head, rest),
        }
    }

    /// Begins a section, by its byte order and what its block holds after that: its version, and how long it is.
    fn begin(&mut self, order: Order, body: &[u8]) -> Result<FileItem, FileFault>
        ensures is { TakesItem (with_section order body.now) result self.new }
        ensures frame { IfOk result IsSoundItem }
        ensures of_file { IfErr result (λ f. is_outside f ≡ false) }
    {
        if body.len() < 12 {
            return Err(FileFault::Block);
        }
        if !is_version(read_u16(order, body, 0), read_u16(order, body, 2)) {
            return Err(FileFault::Version);
        }
        self.order = order;
        self.interfaces.clear();
        Ok(FileItem::Other)
    }

    /// Adds the interface of this link type that a block describes.
    fn describe(&mut self, order: Order, link: u16, body: &[u8]) -> Result<FileItem, FileFault>
        ensures is { TakesItem (then_known (interface_of order link body.now) (λ i. with_interface self.old i)) result self.new }
        ensures frame { IfOk result IsSoundItem }
        ensures read { result ≢ Err FileFault.Read }
    {
        match interface_of(order, link, body) {
            Ok(interface) => self.add(&interface),
            Err(fault) => Err(fault),
        }
    }

    fn add(&mut self, interface: &InterfaceBlock) -> Result<FileItem, FileFault>
        requires { IsNamed interface.now.name }
        ensures is { TakesItem (with_interface self.old interface.now) result self.new }
        ensures frame { IfOk result IsSoundItem }
        ensures read { result ≢ Err FileFault.Read }
    {
        if self.interfaces.len() >= MOST_INTERFACES {
            return Err(FileFault::Interfaces);
        }
        match self.interfaces.push(*interface) {
            Ok(()) => Ok(FileItem::Other),
            Err(_) => Err(FileFault::Memory),
        }
    }

    /// What a block holds that changes nothing of its section.
    fn held(&self, head: BlockHead, rest: &[u8]) -> Result<FileItem, FileFault>
        ensures is { result ≡ held_in self.now head rest.now }
        ensures frame { IfOk result IsSoundItem }
        ensures of_file { IfErr result (λ f. is_outside f ≡ false) }
    {
        let body = &rest[..front(rest)];
        match head.kind {
            2 => self.packet(head.order, usize::from(head.half), body),
            3 => {
                let interface = self.interface(0)?;
                let frame = simple_frame(&interface, head.third, body)?;
                Ok(FileItem::Frame(frame))
            }
            6 => self.packet(head.order, head.third as usize, body),
            _ => Ok(FileItem::Other),
        }
    }

    /// The frame of a packet block with its moment, on the interface of this number.
    fn packet(&self, order: Order, number: usize, body: &[u8]) -> Result<FileItem, FileFault>
        ensures is { result ≡ packet_on self.now order number body.now }
        ensures frame { IfOk result IsSoundItem }
        ensures of_file { IfErr result (λ f. is_outside f ≡ false) }
    {
        let interface = self.interface(number)?;
        let frame = enhanced_frame(order, &interface, body)?;
        Ok(FileItem::Frame(frame))
    }

    /// The interface of this number, from 0.
    fn interface(&self, number: usize) -> Result<InterfaceBlock, FileFault>
        ensures is { result ≡ described_at self.now number }
        ensures name { IfOk result (λ i. IsNamed i.name) }
        ensures of_file { IfErr result (λ f. is_outside f ≡ false) }
    {
        match self.interfaces.get(number) {
            Some(interface) => Ok(*interface),
            None => Err(FileFault::Block),
        }
    }
}

/// Whether sections of this version are read.
fn is_version(major: u16, minor: u16) -> bool
    ensures { result ≡ is_version major minor }
{
    major == 1 && (minor == 0 || minor == 2)
}

/// How many bytes are in front of a block's last length.
fn front(rest: &[u8]) -> usize
    ensures is { result ≡ length rest.now - 4 }
    ensures within { result ≤ length rest.now }
{
    rest.len().saturating_sub(4)
}
