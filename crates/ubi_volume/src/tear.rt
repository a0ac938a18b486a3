// A write into which a cut falls.

ghost use Rattle.std.specs.Prelude.{◌≡◌, ◌+◌, ◌-◌, ◌<◌, ◌≤◌, ℕ, List, length, take, drop, replicate, All, slice_get};
ghost use Rattle.ubifs_base.specs.NodeLaws.{IsBytes};
ghost use Rattle.ubi_volume.specs.Lebs.{bytes_in, written_in, IsLeft, IsLeb, IsReplaced};
ghost use Rattle.ubi_volume.specs.Patterns.{unit_left, write_left};
ghost use Rattle.ubi_volume.specs.Effects.{final_leb};
ghost use Rattle.ubi_volume.specs.Volume.{put, Torn};

use crate::leb::{Leb, copy_at};

// Where a cut falls into a write: in the unit behind `done` bytes, of which `digit` says what it holds then.
#[derive(Clone, Copy)]
pub(crate) struct Tear {
    pub(crate) done: usize,
    pub(crate) unit: usize,
    pub(crate) digit: u64,
}

// Puts bytes into a LEB, as far as the cut lets it.
pub(crate) fn tear_leb(
    lebs: &mut [Leb],
    size: u32,
    lnum: usize,
    offs: u32,
    bytes: &[u8],
    tear: Tear,
)
    requires lnum { lnum < length lebs.old }
    requires sizes { All (IsLeb size) lebs.old }
    requires range { offs + length bytes.now ≤ size }
    requires inside { tear.done + tear.unit ≤ length bytes.now }
    requires open { written_in (slice_get lebs.old lnum) ≤ offs }
    ensures torn { Torn offs (length bytes.now) (bytes_in (slice_get lebs.old lnum)) (bytes_in (slice_get lebs.new lnum)) }
    ensures left { (c : List ℕ) → IsLeft (slice_get lebs.new lnum) c → c ≡ bytes_in (slice_get lebs.new lnum) }
    ensures put { IsReplaced size lebs.old lebs.new lnum (final_leb (write_left tear.unit tear.done tear.digit offs bytes.now (bytes_in (slice_get lebs.old lnum))) (offs + length bytes.now)) }
{
    let leb = &mut lebs[lnum];
    tear_at(&mut leb.content, offs as usize, bytes, tear);
    leb.written = offs + bytes.len() as u32;
    leb.undo = false;
}

fn tear_at(buffer: &mut [u8], offs: usize, bytes: &[u8], tear: Tear)
    requires range { offs + length bytes.now ≤ length buffer.old }
    requires inside { tear.done + tear.unit ≤ length bytes.now }
    ensures put { buffer.new ≡ write_left tear.unit tear.done tear.digit offs bytes.now buffer.old }
    ensures torn { Torn offs (length bytes.now) buffer.old buffer.new }
    ensures bytes { IsBytes buffer.new }
    ensures blank { (written size : ℕ) → written ≤ offs → drop written buffer.old ≡ replicate (size - written) 255
        → drop (offs + length bytes.now) buffer.new ≡ replicate (size - (offs + length bytes.now)) 255 }
{
    write_until(buffer, offs, bytes, tear);
}

// The units before that in which the cut falls, and that one.
#[tactic(auto, unfolding(crate::specs::Patterns::write_left))]
fn write_until(buffer: &mut [u8], offs: usize, bytes: &[u8], tear: Tear)
    requires range { offs + length bytes.now ≤ length buffer.old }
    requires inside { tear.done + tear.unit ≤ length bytes.now }
    ensures { buffer.new ≡ write_left tear.unit tear.done tear.digit offs bytes.now buffer.old }
{
    let (before, rest) = bytes.split_at(tear.done);
    copy_at(buffer, offs, before);
    tear_unit_at(
        buffer,
        offs + tear.done,
        rest.split_at(tear.unit).0,
        tear.digit,
    );
}

fn tear_unit_at(buffer: &mut [u8], place: usize, new: &[u8], digit: u64)
    requires { place + length new.now ≤ length buffer.old }
    ensures { buffer.new ≡ put place (unit_left digit (take (length new.now) (drop place buffer.old)) new.now) buffer.old }
{
    tear_unit(&mut buffer[place..place + new.len()], new, digit);
}

#[tactic(auto, unfolding(crate::specs::Patterns::unit_left))]
fn tear_unit(old: &mut [u8], new: &[u8], digit: u64)
    requires { length new.now ≡ length old.old }
    ensures made { old.new ≡ unit_left digit old.old new.now }
    ensures len { length old.new ≡ length old.old }
{
    match digit {
        0 => {}
        1 => old.copy_from_slice(new),
        2 => old.fill(0),
        _ => {
            let half = new.len() / 2;
            let (front, back) = old.split_at_mut(half);
            front.copy_from_slice(new.split_at(half).0);
            back.fill(0xff);
        }
    }
}
