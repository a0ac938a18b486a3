// What an index of full nodes weighs.

ghost use Rattle.std.specs.Prelude.{◌≡◌, ◌≤◌, ◌*◌, ◌^◌};
ghost use Rattle.plain_backing.specs.FullIndex.{full_index_weight};

use ubifs_base::Geometry;

/// What an index over so many leaves weighs, each of whose nodes is full but for the last of a level: its nodes, and the
/// full ones.
pub fn full_index_weight(geo: &Geometry, leaves: u64) -> u64
    requires few { leaves ≤ 2 ^ 40 }
    ensures weight { result ≡ full_index_weight geo.now.fanout leaves }
    ensures lowest { leaves ≤ geo.now.fanout * result }
{
    let fanout = geo.fanout as u64;
    let mut weight = 0;
    let mut siblings = leaves;
    'rising: while siblings > fanout {
        weight += siblings / fanout;
        siblings = siblings.div_ceil(fanout);
        weight += siblings;
    }
    weight + 1 + siblings / fanout
}
