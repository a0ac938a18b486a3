// The properties of LEBs beside a set.

ghost use Rattle.std.specs.Prelude.{◌≡◌, ◌≤◌, IfOk};
ghost use Rattle.ubifs_base.specs.RawOf.{raw_of};
ghost use Rattle.lprops_tree.specs.MainArea.{IsWithinLeb};

use crate::leaves::mixed;
use lprops_tree::Props;
use media_lpt::{LebKind, Lprop};
use std::alloc::Global;
use std::collections::BTreeSet;
use std::time::Instant;
use ubifs_base::{GeomFault, Geometry, Memory, RawGeometry};

/// How many changes are timed.
const MANY: u32 = 1_000_000;

/// How many without a word.
const FEW: u32 = 1000;

/// How many main LEBs there are.
const LEBS: u32 = 8192;

/// The sum of the victims of a thousand changes.
pub(crate) fn few(alloc: Global) -> anyhow::Result<u64> {
    let geo = geometry()?;
    Ok(in_props(alloc, &geo, FEW)?)
}

/// Changes one of 8,192 LEBs and picks the one with the fewest used bytes, a million times, of a `BTreeSet` of used bytes and numbers for the word
/// `set`, and else of a `Props`, and prints the sum of the victims and the nanoseconds that all of it took.
pub(crate) fn timed(rt: &HostRuntime, kind: &str) -> anyhow::Result<()> {
    let geo = geometry()?;
    let start = Instant::now(rt)?;
    let sum = if kind == "set" {
        in_set(rt.alloc(), &geo, MANY)?
    } else {
        in_props(rt.alloc(), &geo, MANY)?
    };
    println!(rt; "{sum} {}", start.elapsed(rt)?.as_nanos())?;
    Ok(())
}

// LEBs of 65,536 bytes in units of 2,048.
fn geometry() -> Result<Geometry, GeomFault> {
    Geometry::new(&RawGeometry::plain(65536, 2048, LEBS, 8))
}

// The sum of the victims after each of so many changes. At first all LEBs are full.
fn in_props(alloc: Global, geo: &Geometry, changes: u32) -> Result<u64, Memory> {
    let first = geo.main_first();
    let mut props = full(alloc, geo)?;
    let mut sum = 0u64;
    for i in 0..changes {
        change(geo, &mut props, first.wrapping_add(place(i)), used(i));
        if let Some(lnum) = props.pick_victim(u32::MAX) {
            sum = sum.wrapping_add(u64::from(lnum));
        }
    }
    Ok(sum)
}

fn full(alloc: Global, geo: &Geometry) -> Result<Props, Memory>
    ensures { IfOk result (λ props. props.geo ≡ raw_of geo.now) }
{
    let list = vec![in alloc; leb(geo, geo.leb_size); geo.main_lebs() as usize]?;
    Props::from_list(alloc, geo, list.as_slice())
}

fn leb(geo: &Geometry, used: u32) -> (Lprop, LebKind)
    ensures { IsWithinLeb (raw_of geo.now) result.0 }
{
    let prop = Lprop {
        free: 0,
        dirty: geo.leb_size.saturating_sub(used),
        index: false,
    };
    (prop, LebKind::Leaf)
}

// Sets the used bytes of a LEB, if there is one of this number.
fn change(geo: &Geometry, props: &mut Props, lnum: u32, used: u32)
    requires { props.old.geo ≡ raw_of geo.now }
    ensures { props.new.geo ≡ raw_of geo.now }
{
    if lnum >= geo.main_first() && lnum < geo.leb_cnt {
        let leb = leb(geo, used);
        props.set(lnum, leb.0, leb.1);
    }
}

// The same sum by a set, beside a list of the used bytes by place.
fn in_set(alloc: Global, geo: &Geometry, changes: u32) -> Result<u64, Memory> {
    let first = geo.main_first();
    let mut bytes = vec![in alloc; geo.leb_size; LEBS as usize]?;
    let mut set = BTreeSet::new(alloc);
    for at in 0..LEBS {
        set.insert((geo.leb_size, first.wrapping_add(at)))?;
    }
    let mut sum = 0u64;
    for i in 0..changes {
        let at = place(i);
        let lnum = first.wrapping_add(at);
        if let Some(old) = bytes.get_mut(at as usize) {
            set.remove(&(*old, lnum));
            *old = used(i);
            set.insert((*old, lnum))?;
        }
        if let Some(victim) = set.first() {
            sum = sum.wrapping_add(u64::from(victim.1));
        }
    }
    Ok(sum)
}

// Which LEB is changed.
fn place(i: u32) -> u32
    ensures { result ≤ 8191 }
{
    mixed(i) % LEBS
}

// To how many used bytes: a multiple of 8 up to the LEB.
fn used(i: u32) -> u32
    ensures { result ≤ 65536 }
{
    mixed(i ^ 0x5555_5555) % 8193 * 8
}
