//! The two forms of capture files.

ghost use Rattle.std.specs.Prelude.{◌≡◌, ◌⊎◌, ◌<◌, ◌≤◌, false, ℕ, List, Some, Err, IfErr, IfOk, OnErr, drop, length};
ghost use Rattle.std.specs.Vec.{vec_capacity};
ghost use Rattle.pfs_streams.specs.Feeds.{HasFailed, read_failures, unread};
ghost use Rattle.pfs_capture_files.specs.declared.forms.Form.TheVariants as form;
ghost use Rattle.pfs_capture_files.specs.Faults.{is_outside};
ghost use Rattle.pfs_capture_files.specs.Frames.{IsFrame, IsSoundItem};
ghost use Rattle.pfs_capture_files.specs.Forms.{Begins, IsWithinStart, ReadsItem, block_turn, blocks_start, classic_form, classic_start, frame_turn, record_turn, rest_turn, start_of, start_of_magic, start_of_version, turn_of, what_begins};

use crate::blocks::{BlockHead, SECTION, Section, block_head};
use crate::classic::{FileHeader, LengthOrder, Precision, lengths_of, record_frame};
use crate::faults::FileFault;
use crate::filling::fill;
use crate::frames::{FileItem, Frame};
use crate::orders::{Order, read_u16, read_u32};
use pfs_streams::Feed;
use std::alloc::Global;
use std::io::Read;

/// The form of a capture file, and what is known of it while it is read.
#[derive(Drop)]
pub enum Form {
    /// pcap: what its header says.
    Classic(FileHeader),
    /// pcapng: its section.
    Blocks(Section),
}

/// What a file is by its first bytes.
#[derive(Clone, Copy)]
enum Start {
    Classic(Order, Precision, LengthOrder),
    Blocks,
}

/// Reads how a capture begins. `buffer` is for what is read, and what it held is given up.
///
/// It returns `FileFault::Empty`, `FileFault::Gzip` or `FileFault::NotCapture` for a file that is no capture,
/// `FileFault::Version` for one of a version that is not read, `FileFault::Cut` for one that ends too early,
/// `FileFault::Block` or `FileFault::TooLong` for a first block that is none, `FileFault::Read` where a read failed, and
/// `FileFault::Memory` where memory was refused. (pcap, section 4; pcapng, section 4.1)
pub fn read_start<R: Read>(
    alloc: Global,
    reader: &mut Feed<R>,
    buffer: &mut Vec<u8>,
) -> Result<Form, FileFault>
    ensures is { (xs : List ℕ) → unread R.remaining reader.old ≡ Some xs → Begins (start_of xs) result (unread R.remaining reader.new) }
    ensures within { OnErr result ((xs : List ℕ) → unread R.remaining reader.old ≡ Some xs → IsWithinStart (start_of xs) (unread R.remaining reader.new)) }
    ensures read { result ≡ Err FileFault.Read → HasFailed reader.new }
    ensures sound { (result ≡ Err FileFault.Read) ⊎ (read_failures reader.new ≡ read_failures reader.old) }
{
    fill(reader, buffer, 12)?;
    match what_begins(buffer)? {
        Start::Classic(order, precision, lengths) => {
            start_classic(reader, buffer, order, precision, lengths)
        }
        Start::Blocks => start_blocks(alloc, reader, buffer),
    }
}

/// Reads the next item of a capture whose form is known. Of a frame, `buffer` holds its bytes afterwards, among
/// others; what it held is given up.
///
/// It returns `FileFault::Cut` where the file ends within the item, `FileFault::TooLong`, `FileFault::Block`,
/// `FileFault::Version`, `FileFault::Interfaces` or `FileFault::Resolution` where the item is none that is read,
/// `FileFault::Read` where a read failed, and `FileFault::Memory` where memory was refused; then nothing more can be
/// read. (pcap, section 5; pcapng, section 3.1)
pub fn read_item<R: Read>(
    reader: &mut Feed<R>,
    buffer: &mut Vec<u8>,
    form: &mut Form,
) -> Result<FileItem, FileFault>
    ensures is { (xs : List ℕ) → unread R.remaining reader.old ≡ Some xs → ReadsItem (turn_of form.old xs) result form.new buffer.new.items (unread R.remaining reader.new) }
    ensures frame { IfOk result IsSoundItem }
    ensures read { result ≡ Err FileFault.Read → HasFailed reader.new }
    ensures sound { (result ≡ Err FileFault.Read) ⊎ (read_failures reader.new ≡ read_failures reader.old) }
{
    match form {
        Form::Classic(header) => next_record(reader, buffer, *header),
        Form::Blocks(section) => next_block(reader, buffer, section),
    }
}

fn what_begins(head: &[u8]) -> Result<Start, FileFault>
    ensures is { result ≡ what_begins head.now }
    ensures of_file { IfErr result (λ f. is_outside f ≡ false) }
{
    if head.is_empty() {
        return Err(FileFault::Empty);
    }
    if head.len() < 12 {
        return Err(FileFault::NotCapture);
    }
    start_of_magic(read_u32(Order::Big, head, 0), head)
}

/// What a file is by the number that it begins with, and its first twelve bytes.
fn start_of_magic(magic: u32, head: &[u8]) -> Result<Start, FileFault>
    requires { 12 ≤ length head.now }
    ensures is { result ≡ start_of_magic magic head.now }
    ensures of_file { IfErr result (λ f. is_outside f ≡ false) }
{
    match magic {
        0xa1b2_c3d4 => start_of_version(Order::Big, Precision::Microseconds, head),
        0xa1b2_3c4d => start_of_version(Order::Big, Precision::Nanoseconds, head),
        0xd4c3_b2a1 => start_of_version(Order::Little, Precision::Microseconds, head),
        0x4d3c_b2a1 => start_of_version(Order::Little, Precision::Nanoseconds, head),
        SECTION => Ok(Start::Blocks),
        _ if magic / 65_536 == 0x1f8b => Err(FileFault::Gzip),
        _ => Err(FileFault::NotCapture),
    }
}

/// How a pcap file begins by its version, which follows its first number.
fn start_of_version(order: Order, precision: Precision, head: &[u8]) -> Result<Start, FileFault>
    requires { 12 ≤ length head.now }
    ensures is { result ≡ start_of_version order precision head.now }
    ensures of_file { IfErr result (λ f. is_outside f ≡ false) }
{
    let lengths = lengths_of(read_u16(order, head, 4), read_u16(order, head, 6))?;
    Ok(Start::Classic(order, precision, lengths))
}

/// Reads the second half of a pcap file's header.
fn start_classic<R: Read>(
    reader: &mut Feed<R>,
    buffer: &mut Vec<u8>,
    order: Order,
    precision: Precision,
    lengths: LengthOrder,
) -> Result<Form, FileFault>
    ensures is { (xs : List ℕ) → unread R.remaining reader.old ≡ Some xs → Begins (classic_start order precision lengths xs) result (unread R.remaining reader.new) }
    ensures within { OnErr result ((xs : List ℕ) → unread R.remaining reader.old ≡ Some xs → IsWithinStart (classic_start order precision lengths xs) (unread R.remaining reader.new)) }
    ensures read { result ≡ Err FileFault.Read → HasFailed reader.new }
    ensures sound { (result ≡ Err FileFault.Read) ⊎ (read_failures reader.new ≡ read_failures reader.old) }
{
    fill(reader, buffer, 12)?;
    classic_form(order, precision, lengths, buffer)
}

fn classic_form(
    order: Order,
    precision: Precision,
    lengths: LengthOrder,
    rest: &[u8],
) -> Result<Form, FileFault>
    ensures is { result ≡ classic_form order precision lengths rest.now }
    ensures of_file { IfErr result (λ f. is_outside f ≡ false) }
{
    if rest.len() < 12 {
        return Err(FileFault::Cut);
    }
    let link = read_u32(order, rest, 8) % 65_536;
    Ok(Form::Classic(FileHeader {
        order,
        precision,
        lengths,
        link: link as u16,
    }))
}

/// Reads what follows the first twelve bytes of a section's block.
fn start_blocks<R: Read>(
    alloc: Global,
    reader: &mut Feed<R>,
    buffer: &mut Vec<u8>,
) -> Result<Form, FileFault>
    ensures is { (xs : List ℕ) → unread R.remaining reader.old ≡ Some xs → Begins (blocks_start buffer.old.items xs) result (unread R.remaining reader.new) }
    ensures within { OnErr result ((xs : List ℕ) → unread R.remaining reader.old ≡ Some xs → IsWithinStart (blocks_start buffer.old.items xs) (unread R.remaining reader.new)) }
    ensures read { result ≡ Err FileFault.Read → HasFailed reader.new }
    ensures sound { (result ≡ Err FileFault.Read) ⊎ (read_failures reader.new ≡ read_failures reader.old) }
{
    let head = block_head(Order::Big, buffer)?;
    let mut section = Section::new(alloc, head.order);
    read_rest(reader, buffer, &mut section, head)?;
    Ok(Form::Blocks(section))
}

/// Reads a record of a pcap file.
fn next_record<R: Read>(
    reader: &mut Feed<R>,
    buffer: &mut Vec<u8>,
    header: FileHeader,
) -> Result<FileItem, FileFault>
    ensures is { (xs : List ℕ) → unread R.remaining reader.old ≡ Some xs → ReadsItem (record_turn header xs) result (form.Classic header) buffer.new.items (unread R.remaining reader.new) }
    ensures frame { IfOk result IsSoundItem }
    ensures read { result ≡ Err FileFault.Read → HasFailed reader.new }
    ensures sound { (result ≡ Err FileFault.Read) ⊎ (read_failures reader.new ≡ read_failures reader.old) }
{
    fill(reader, buffer, 16)?;
    if buffer.is_empty() {
        return Ok(FileItem::End);
    }
    let frame = record_frame(header, buffer)?;
    read_frame(reader, buffer, header, frame)
}

/// Reads the bytes of a record whose header is read.
fn read_frame<R: Read>(
    reader: &mut Feed<R>,
    buffer: &mut Vec<u8>,
    header: FileHeader,
    frame: Frame,
) -> Result<FileItem, FileFault>
    requires few { frame.count ≤ 524288 }
    requires frame { IsFrame frame }
    ensures is { (xs : List ℕ) → unread R.remaining reader.old ≡ Some xs → ReadsItem (frame_turn header frame xs) result (form.Classic header) buffer.new.items (unread R.remaining reader.new) }
    ensures frame { IfOk result IsSoundItem }
    ensures read { result ≡ Err FileFault.Read → HasFailed reader.new }
    ensures sound { (result ≡ Err FileFault.Read) ⊎ (read_failures reader.new ≡ read_failures reader.old) }
{
    fill(reader, buffer, frame.count)?;
    if buffer.len() < frame.count {
        return Err(FileFault::Cut);
    }
    Ok(FileItem::Frame(frame))
}

/// Reads a block of a pcapng file.
fn next_block<R: Read>(
    reader: &mut Feed<R>,
    buffer: &mut Vec<u8>,
    section: &mut Section,
) -> Result<FileItem, FileFault>
    ensures is { (xs : List ℕ) → unread R.remaining reader.old ≡ Some xs → ReadsItem (block_turn section.old xs) result (form.Blocks section.new) buffer.new.items (unread R.remaining reader.new) }
    ensures frame { IfOk result IsSoundItem }
    ensures read { result ≡ Err FileFault.Read → HasFailed reader.new }
    ensures sound { (result ≡ Err FileFault.Read) ⊎ (read_failures reader.new ≡ read_failures reader.old) }
{
    fill(reader, buffer, 12)?;
    if buffer.is_empty() {
        return Ok(FileItem::End);
    }
    let head = block_head(section.order(), buffer)?;
    read_rest(reader, buffer, section, head)
}

/// Reads what follows the first twelve bytes of a block. It asks for memory for an interface, and where the buffer has no room.
fn read_rest<R: Read>(
    reader: &mut Feed<R>,
    buffer: &mut Vec<u8>,
    section: &mut Section,
    head: BlockHead,
) -> Result<FileItem, FileFault>
    requires { head.count ≤ 524288 }
    ensures is { (xs : List ℕ) → unread R.remaining reader.old ≡ Some xs → ReadsItem (rest_turn section.old head xs) result (form.Blocks section.new) buffer.new.items (unread R.remaining reader.new) }
    ensures frame { IfOk result IsSoundItem }
    ensures few { (xs : List ℕ) → unread R.remaining reader.old ≡ Some xs → (k : ℕ) × (k ≤ head.count) × (unread R.remaining reader.new ≡ Some (drop k xs)) }
    ensures read { result ≡ Err FileFault.Read → HasFailed reader.new }
    ensures sound { (result ≡ Err FileFault.Read) ⊎ (read_failures reader.new ≡ read_failures reader.old) }
    ensures free { result ≡ Err FileFault.Memory → (head.kind ≡ 1) ⊎ (vec_capacity buffer.old < head.count) }
{
    fill(reader, buffer, head.count)?;
    if buffer.len() < head.count {
        return Err(FileFault::Cut);
    }
    section.take(head, buffer)
}
