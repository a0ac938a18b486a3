// The host's edges, and a caller that is proved from the traits alone.

ghost use Rattle.std.specs.Prelude.{◌≡◌, ◌++◌, List, ℕ, Some, Option, IsTrue, OnOk, IfErr};
ghost use Rattle.std.specs.Str.{bytes_eq};
ghost use Rattle.std.specs.Map.{update};
ghost use Rattle.ubifs_base.specs.Faults.{Rose};
ghost use Rattle.io_edges.specs.declared.keeper.KeepFault.TheVariants.{Missing};

use io_edges::{
    FileKeeper, KeepFault, Keeper, MemKeeper, MemSink, OutSink, Pieces, Sink, SinkFault,
};
use std::alloc::Global;
use std::collections::BTreeMap;
use std::path::PathBuf;
use std::test::Fail;
use std::{env, fs};
use ubifs_base::{Bytes, Memory};

// Why `publish` stopped.
#[derive(Drop)]
enum PublishFault {
    Keep(KeepFault),
    Sink(SinkFault),
}

// Reads a file, writes its bytes to the sink, and then to a second file.
fn publish<K: Keeper, O: Sink>(
    keeper: &mut K,
    sink: &mut O,
    from: &str,
    to: &str,
) -> Result<(), PublishFault>
    ensures both { OnOk result (IsTrue (K.state keeper.old).tells → IsTrue (O.state sink.old).tells → ((bytes : List ℕ)
        × ((K.state keeper.old).content from.now ≡ Some bytes)
        × ((O.state sink.new).text ≡ (O.state sink.old).text ++ bytes)
        × ((other : List ℕ) → (K.state keeper.new).content other ≡ update bytes_eq (K.state keeper.old).content to.now (Some bytes) other))) }
    ensures telling { ((K.state keeper.new).tells ≡ (K.state keeper.old).tells) × ((O.state sink.new).tells ≡ (O.state sink.old).tells) }
{
    let bytes = keeper.read(from).map_err(PublishFault::Keep)?;
    sink.write(&bytes).map_err(PublishFault::Sink)?;
    keeper.write(to, &bytes).map_err(PublishFault::Keep)?;
    Ok(())
}

// Whether a file that is written twice has the later bytes, and no call fails.
fn is_written_and_read_back<K: Keeper>(keeper: &mut K, name: &str) -> Result<bool, KeepFault> {
    keeper.write(name, b"first")?;
    keeper.write(name, b"whole")?;
    let bytes = keeper.read(name)?;
    Ok(bytes.as_slice() == b"whole".as_slice() && keeper.faults() == 0)
}

// Three pieces, each of two bytes, which are its number.
#[derive(Drop)]
struct Steps {}

impl Pieces for Steps {
    ghost use Rattle.std.specs.Prelude.{replicate};

    ghost pieces = { λ _. record { count = 3; size = 2; piece = λ k. replicate 2 k } };

    fn count(&self) -> u32 {
        3
    }

    fn size(&self) -> u32 {
        2
    }

    fn read(&mut self, number: u32, out: &mut [u8]) -> Result<(), Memory> {
        out.fill(number as u8);
        Ok(())
    }
}

// Whether a file that is written piece by piece over a longer one has these bytes alone, and no call fails.
fn is_written_in_pieces<K: Keeper>(keeper: &mut K, name: &str) -> Result<bool, KeepFault> {
    keeper.write(name, b"longer than all pieces")?;
    keeper.write_pieces(name, &mut Steps {})?;
    let bytes = keeper.read(name)?;
    Ok(bytes.as_slice() == b"\0\0\x01\x01\x02\x02".as_slice() && keeper.faults() == 0)
}

// The name of a file in a folder.
fn name_in(alloc: Global, mut folder: PathBuf) -> Result<String, Fail> {
    folder.push("ubifs-io-edges-test")?;
    match folder.as_path().to_str() {
        Some(name) => Ok(String::from_str(alloc, name)?),
        None => Err(Fail::from("no path")),
    }
}

#[test]
fn host_file_is_written_and_read_back(rt: HostRuntime) -> Result<(), Fail> {
    let name = name_in(rt.alloc(), env::temp_dir(&rt)?)?;
    let mut keeper = FileKeeper::new(rt.alloc(), rt.clone()?);
    let written = is_written_and_read_back(&mut keeper, &name);
    let pieces = is_written_in_pieces(&mut keeper, &name);
    fs::remove_file(&rt, &name)?;
    let missing = keeper.read(&name).err();
    assert_eq!(rt;
        (written, pieces, missing, keeper.faults()),
        (Ok(true), Ok(true), Some(KeepFault::Failed { count: 1 }), 1,)
    );
    Ok(())
}

#[test]
fn standard_output_takes_a_piece(rt: HostRuntime) -> Result<(), Fail> {
    let mut sink = OutSink::new(rt.clone()?);
    sink.write(b"taken\n")?;
    assert_eq!(rt; sink.faults(), 0);
    Ok(())
}

// A keeper of one file, whose fourth call fails.
fn one_file(alloc: Global) -> Result<MemKeeper, Memory> {
    let mut files = BTreeMap::new(alloc);
    files.insert(
        String::from_str(alloc, "a")?,
        Bytes::from_slice(alloc, b"text")?,
    )?;
    Ok(MemKeeper::new(alloc, files, vec![in alloc; 4]?))
}

fn is_done(keeper: &mut MemKeeper, sink: &mut MemSink, from: &str, to: &str) -> bool {
    publish(keeper, sink, from, to).is_ok()
}

// Why a file isn't read.
fn fault_of(keeper: &mut MemKeeper, name: &str) -> Option<KeepFault> {
    keeper.read(name).err()
}

// One file is published, and the next one isn't, since the sink fails.
fn is_published(alloc: Global) -> Result<bool, Memory> {
    let mut keeper = one_file(alloc)?;
    let mut sink = MemSink::new(alloc, vec![in alloc; 2]?);
    Ok(
        is_done(&mut keeper, &mut sink, "a", "b")
            && !is_done(&mut keeper, &mut sink, "b", "c")
            && sink.text() == b"text".as_slice()
            && keeper.faults() == 0
            && sink.faults() == 1
            && fault_of(&mut keeper, "b") == Some(KeepFault::Failed { count: 1 })
            && fault_of(&mut keeper, "c") == Some(KeepFault::Missing),
    )
}

// The same of a keeper in memory, whose fourth call fails.
fn takes_pieces(alloc: Global) -> Result<bool, Memory> {
    let mut keeper = one_file(alloc)?;
    let written = is_written_in_pieces(&mut keeper, "a");
    let failed = keeper.write_pieces("a", &mut Steps {}).err();
    Ok(written == Ok(true) && failed == Some(KeepFault::Failed { count: 1 }))
}

#[test]
fn memory_is_published_and_takes_pieces(rt: HostRuntime) {
    assert_eq!(rt;
        (is_published(rt.alloc()), takes_pieces(rt.alloc())),
        (Ok(true), Ok(true))
    );
}
