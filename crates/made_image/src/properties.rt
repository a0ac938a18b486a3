// The properties of the main LEBs, and their sums.

ghost use Rattle.std.specs.Prelude.{◌≡◌, ◌≤◌, ◌+◌, ◌-◌, ◌%◌, ◌<◌, ◌^◌, ◌++◌, [], ◌∷◌, length, map, IfOk, OnOk, sum};
ghost use Rattle.std.specs.List.{sum_by};
ghost use Rattle.ubifs_base.specs.Areas.{main_lebs};
ghost use Rattle.ubifs_base.specs.RawOf.{raw_of};
ghost use Rattle.laid_main.specs.Props.{AreBytesTaken, laid_props, prop_behind};
ghost use Rattle.made_image.specs.Around.{dark_in, dead_in};

use media_lpt::Lprop;
use std::alloc::{AllocError, Global};
use ubifs_base::Geometry;
use volume_format::in_units;

// The properties of all main LEBs: those with leaves, those with index nodes, and the empty ones.
pub(crate) fn properties(
    alloc: Global,
    geometry: &Geometry,
    leaves: &[u32],
    index: &[u32],
) -> Result<Vec<Lprop>, AllocError>
    requires leaves { AreBytesTaken (raw_of geometry.now) leaves.now }
    requires index { AreBytesTaken (raw_of geometry.now) index.now }
    requires few { length leaves.now + length index.now ≤ main_lebs (raw_of geometry.now) }
    ensures props { IfOk result (λ props. props.items ≡ laid_props (raw_of geometry.now) leaves.now index.now) }
{
    let mut props = Vec::new(alloc);
    push_all(geometry, leaves, false, &mut props)?;
    push_all(geometry, index, true, &mut props)?;
    let empty = Lprop {
        free: geometry.leb_size,
        dirty: 0,
        index: false,
    };
    let rest = geometry.main_lebs() as usize - (leaves.len() + index.len());
    let mut empties = vec![in alloc; empty; rest]?;
    props.append(&mut empties)?;
    Ok(props)
}

// Appends the properties of LEBs of which so many bytes are taken.
fn push_all(
    geometry: &Geometry,
    used: &[u32],
    index: bool,
    props: &mut Vec<Lprop>,
) -> Result<(), AllocError>
    requires used { AreBytesTaken (raw_of geometry.now) used.now }
    ensures pushed { OnOk result (props.new.items ≡ props.old.items ++ map (λ bytes. prop_behind (raw_of geometry.now) bytes index) used.now) }
{
    for bytes in used {
        props.push(behind(geometry, *bytes, index))?;
    }
    Ok(())
}

// What is left of a main LEB behind so many bytes and their units.
fn behind(geometry: &Geometry, len: u32, index: bool) -> Lprop
    requires fits { len ≤ geometry.now.leb_size }
    ensures { result ≡ prop_behind (raw_of geometry.now) len index }
{
    let size = in_units(geometry, len);
    Lprop {
        free: geometry.leb_size - size,
        dirty: size - len,
        index,
    }
}

// The sum of these numbers.
pub(crate) fn sum_of(numbers: &[u32]) -> u64
    requires { length numbers.now < 2 ^ 31 }
    ensures { result ≡ sum numbers.now }
{
    let mut total: u64 = 0;
    for number in numbers {
        total += *number as u64;
    }
    total
}

// The free bytes of all these LEBs.
pub(crate) fn free_of(props: &[Lprop]) -> u64
    requires { length props.now < 2 ^ 31 }
    ensures { result ≡ sum_by (λ prop. prop.free) props.now }
{
    let mut total: u64 = 0;
    for prop in props {
        total += prop.free as u64;
    }
    total
}

// The dirty bytes of all these LEBs.
pub(crate) fn dirty_of(props: &[Lprop]) -> u64
    requires { length props.now < 2 ^ 31 }
    ensures { result ≡ sum_by (λ prop. prop.dirty) props.now }
{
    let mut total: u64 = 0;
    for prop in props {
        total += prop.dirty as u64;
    }
    total
}

// The dead bytes of all these LEBs.
pub(crate) fn dead_of(geometry: &Geometry, props: &[Lprop]) -> u64
    requires { length props.now < 2 ^ 31 }
    ensures { result ≡ sum_by (dead_in (raw_of geometry.now)) props.now }
{
    let mut total: u64 = 0;
    for prop in props {
        total += dead_bytes(geometry, prop);
    }
    total
}

// The dark bytes of all these LEBs.
pub(crate) fn dark_of(geometry: &Geometry, props: &[Lprop]) -> u64
    requires { length props.now < 2 ^ 31 }
    ensures { result ≡ sum_by (dark_in (raw_of geometry.now)) props.now }
{
    let mut total: u64 = 0;
    for prop in props {
        total += dark_bytes(geometry, prop);
    }
    total
}

// The bytes of a LEB that are dead.
fn dead_bytes(geometry: &Geometry, prop: &Lprop) -> u64
    ensures number { result ≡ dead_in (raw_of geometry.now) prop.now }
    ensures few { result < 2 ^ 33 }
{
    let space = prop.free as u64 + prop.dirty as u64;
    if prop.index {
        return 0;
    }
    if space < in_units(geometry, 56) as u64 {
        return space;
    }
    0
}

// The bytes of a LEB that are dark.
fn dark_bytes(geometry: &Geometry, prop: &Lprop) -> u64
    ensures number { result ≡ dark_in (raw_of geometry.now) prop.now }
    ensures few { result < 2 ^ 33 }
{
    let space = prop.free as u64 + prop.dirty as u64;
    if prop.index {
        return 0;
    }
    if space < in_units(geometry, 56) as u64 {
        return 0;
    }
    let dark = in_units(geometry, 4256) as u64;
    if space < dark {
        return space;
    }
    if space - dark < 56 {
        return space - 56;
    }
    dark
}
