// The session of a run on a volume that may only be read: files over a volume in memory that takes no change, and where the script is.

ghost use Rattle.std.specs.Prelude.{◌≡◌, ℕ, ◌≤◌, ◌++◌, Bool, IfOk, OnOk, false, List};
ghost use Rattle.fs_model.specs.Proper.{IsProper};
ghost use Rattle.plain_backing.specs.Spending.{is_spent};
ghost use Rattle.fs_model.specs.declared.backing_answers.Mode.TheVariants.{ReadOnly};
ghost use Rattle.script_text.specs.declared.part.Part.TheVariants.{Line, Mount, Unmount};
ghost use Rattle.script_text.specs.Script.{IsInRange};
ghost use Rattle.script_run.specs.Replies.{IsPartCalled, is_fault};
ghost use Rattle.script_run.specs.Reading.{IsReadPart, IsReadReply, number_after, numbers_after, reading_on};
ghost use Rattle.script_run.specs.Readers.{IsBackingClosed, reading_of, seen_over};

use crate::session::{files_over, stepped};
use buffered_files::clean_files_are_those_of_the_backing;
use fs_model::{Cause, Mode, Op, Refusal, Reply, Space};
use plain_backing::{PlainBacking, Tree};
use script_text::{Part, write_mount_for_reading, write_reply};
use std::alloc::Global;
use ubifs_base::{Geometry, Memory};
use vfs_ops::Fs;

/// Files over such a volume, why it may only be read, whether it is mounted, and the time in seconds since 1970. At each caller's number stands how
/// many lines of it are behind the last line of another kind.
#[derive(Drop)]
pub(crate) struct Reader {
    pub(crate) fs: Fs<PlainBacking>,
    pub(crate) cause: Cause,
    pub(crate) mounted: bool,
    pub(crate) now: u64,
    pub(crate) numbers: [u64; 17],
}

/// A session on a volume with this tree, which isn't mounted. No number of its space is asked for.
pub(crate) fn first_reader(
    alloc: Global,
    geometry: Geometry,
    tree: Tree,
    cause: Cause,
) -> Result<Reader, Memory>
    requires proper { IsProper tree }
    requires unspent { is_spent (ReadOnly cause) ≡ false }
    ensures closed { IfOk result (λ reader. IsBackingClosed cause reader.fs.backing reader.fs.kept) }
    ensures cause { IfOk result (λ reader. reader.cause ≡ cause) }
    ensures opening { IfOk result (λ reader. reading_of reader ≡ reading_on tree) }
{
    let space = Space {
        used: tree.bytes(),
        held: 0,
        credits: 0,
        empty: 0,
        index: 0,
        weight: 0,
        main: geometry.main_lebs(),
    };
    let backing = PlainBacking::new(alloc, geometry, tree, space, 0, Mode::ReadOnly { cause })?;
    let fs = files_over(alloc, backing)?;
    Ok(Reader {
        fs,
        cause,
        mounted: false,
        now: 0,
        numbers: [0; 17],
    })
}

/// Does what a line of a script says, and appends what it prints. The error is want of memory.
pub(crate) fn read_next(
    alloc: Global,
    reader: Reader,
    part: Part,
    text: &mut Vec<u8>,
) -> Result<Reader, Memory>
    requires closed { IsBackingClosed reader.cause reader.fs.backing reader.fs.kept }
    requires range { IsInRange part }
    ensures closed { IfOk result (λ new. IsBackingClosed reader.cause new.fs.backing new.fs.kept) }
    ensures cause { IfOk result (λ new. new.cause ≡ reader.cause) }
    ensures part { IfOk result (λ new. (line : List ℕ) × IsReadPart reader.cause (reading_of reader) part line (reading_of new) × (text.new.items ≡ text.old.items ++ line)) }
{
    match part {
        Part::Unmount => read_unmounted(alloc, reader, text),
        other => read_further(reader, other, text),
    }
}

// Does what a line says that is no unmount.
fn read_further(reader: Reader, part: Part, text: &mut Vec<u8>) -> Result<Reader, Memory>
    requires closed { IsBackingClosed reader.cause reader.fs.backing reader.fs.kept }
    requires range { IsInRange part }
    requires other { part ≡ Unmount → ⊥ }
    ensures closed { IfOk result (λ new. IsBackingClosed reader.cause new.fs.backing new.fs.kept) }
    ensures cause { IfOk result (λ new. new.cause ≡ reader.cause) }
    ensures part { IfOk result (λ new. (line : List ℕ) × IsReadPart reader.cause (reading_of reader) part line (reading_of new) × (text.new.items ≡ text.old.items ++ line)) }
{
    let mut reader = reader;
    read_part(&mut reader, part, text)?;
    Ok(reader)
}

// Does it where the session stands.
fn read_part(reader: &mut Reader, part: Part, text: &mut Vec<u8>) -> Result<(), Memory>
    requires closed { IsBackingClosed reader.old.cause reader.old.fs.backing reader.old.fs.kept }
    requires range { IsInRange part }
    requires other { part ≡ Unmount → ⊥ }
    ensures closed { OnOk result (IsBackingClosed reader.old.cause reader.new.fs.backing reader.new.fs.kept) }
    ensures cause { OnOk result (reader.new.cause ≡ reader.old.cause) }
    ensures part { OnOk result ((line : List ℕ) × IsReadPart reader.old.cause (reading_of reader.old) part line (reading_of reader.new) × (text.new.items ≡ text.old.items ++ line)) }
{
    match part {
        Part::Mount => read_mounted(reader, text),
        Part::Now { now } => {
            reader.now = now;
            reader.numbers = [0; 17];
            Ok(())
        }
        Part::Workers { .. } => {
            reader.numbers = [0; 17];
            Ok(())
        }
        Part::Line { caller, op } => read_served(reader, caller, op, text),
        Part::Unmount => unreachable!(),
    }
}

// Mounts the volume.
fn read_mounted(reader: &mut Reader, text: &mut Vec<u8>) -> Result<(), Memory>
    requires closed { IsBackingClosed reader.old.cause reader.old.fs.backing reader.old.fs.kept }
    ensures closed { OnOk result (IsBackingClosed reader.old.cause reader.new.fs.backing reader.new.fs.kept) }
    ensures cause { OnOk result (reader.new.cause ≡ reader.old.cause) }
    ensures part { OnOk result ((line : List ℕ) × IsReadPart reader.old.cause (reading_of reader.old) Mount line (reading_of reader.new) × (text.new.items ≡ text.old.items ++ line)) }
{
    write_mount_for_reading(reader.cause, text)?;
    reader.mounted = true;
    reader.numbers = [0; 17];
    Ok(())
}

// Unmounts it: nobody has a file open any more.
fn read_unmounted(alloc: Global, reader: Reader, text: &mut Vec<u8>) -> Result<Reader, Memory>
    requires closed { IsBackingClosed reader.cause reader.fs.backing reader.fs.kept }
    ensures closed { IfOk result (λ new. IsBackingClosed reader.cause new.fs.backing new.fs.kept) }
    ensures cause { IfOk result (λ new. new.cause ≡ reader.cause) }
    ensures part { IfOk result (λ new. (line : List ℕ) × IsReadPart reader.cause (reading_of reader) Unmount line (reading_of new) × (text.new.items ≡ text.old.items ++ line)) }
{
    clean_files_are_those_of_the_backing();
    text.extend_from_slice(b"unmount unchanged\n".as_slice())?;
    let backing = reader.fs.into_parts();
    let fs = files_over(alloc, backing)?;
    Ok(Reader {
        fs,
        cause: reader.cause,
        mounted: false,
        now: reader.now,
        numbers: [0; 17],
    })
}

// Does a caller's operation, and prints the reply.
fn read_served(reader: &mut Reader, caller: u16, op: Op, text: &mut Vec<u8>) -> Result<(), Memory>
    requires closed { IsBackingClosed reader.old.cause reader.old.fs.backing reader.old.fs.kept }
    requires call { IsPartCalled (Line caller op) }
    requires caller { caller ≤ 16 }
    ensures closed { OnOk result (IsBackingClosed reader.old.cause reader.new.fs.backing reader.new.fs.kept) }
    ensures cause { OnOk result (reader.new.cause ≡ reader.old.cause) }
    ensures part { OnOk result ((line : List ℕ) × IsReadPart reader.old.cause (reading_of reader.old) (Line caller op) line (reading_of reader.new) × (text.new.items ≡ text.old.items ++ line)) }
{
    let reply = read_replied(&mut reader.fs, reader.cause, caller, reader.now, op)?;
    let number = next_number(&mut reader.numbers, caller)?;
    write_reply(caller, number, &reply, text)?;
    Ok(())
}

// The next number of a caller's lines.
fn next_number(numbers: &mut [u64; 17], caller: u16) -> Result<u64, Memory>
    requires caller { caller ≤ 16 }
    ensures number { IfOk result (λ number. number ≡ number_after numbers.old caller) }
    ensures numbers { OnOk result (numbers.new ≡ numbers_after numbers.old caller) }
{
    let Some(number) = numbers[usize::from(caller)].checked_add(1) else {
        return Err(Memory);
    };
    numbers[usize::from(caller)] = number;
    Ok(number)
}

// The reply to a caller's operation. Want of memory ends the run. No call of a volume in memory fails; if one did, that would end it too.
fn read_replied(
    fs: &mut Fs<PlainBacking>,
    cause: Cause,
    caller: u16,
    now: u64,
    op: Op,
) -> Result<Reply, Memory>
    requires closed { IsBackingClosed cause fs.old.backing fs.old.kept }
    requires call { IsPartCalled (Line caller op) }
    ensures closed { OnOk result (IsBackingClosed cause fs.new.backing fs.new.kept) }
    ensures replied { IfOk result (λ reply. (mounted : Bool) (numbers : List ℕ) → IsReadReply cause (record { files = seen_over fs.old.backing fs.old.kept; mounted = mounted; now = now; numbers = numbers }) caller op reply (seen_over fs.new.backing fs.new.kept)) }
{
    let reply = stepped(fs, caller, now, op);
    if is_fault(&reply) {
        return Err(Memory);
    }
    Ok(reply)
}

// Whether an operation was refused for want of memory, or because the volume failed.
fn is_fault(reply: &Reply) -> bool
    ensures { result ≡ is_fault reply.now }
{
    match reply {
        Reply::Refused {
            refusal: Refusal::Enomem | Refusal::Eio { .. },
        } => true,
        _ => false,
    }
}
