// The heads over a volume in memory: units of 512 bytes in LEBs of 16,384.

use journal_heads::{Heads, Place};
use std::test::Fail;
use ubi_volume::{MemVolume, VolShape, Volume};
use ubifs_base::{Geometry, JournalHead, RawGeometry};

const GEOMETRY: RawGeometry = RawGeometry {
    leb_size: 16384,
    min_io: 512,
    log_lebs: 4,
    lpt_lebs: 2,
    orph_lebs: 1,
    leb_cnt: 74,
    max_leb_cnt: 74,
    fanout: 8,
    lsave_cnt: 256,
    big: false,
};

#[test]
fn each_head_writes_its_own_leb(rt: HostRuntime) -> Result<(), Fail> {
    let shape = VolShape {
        leb_size: 16384,
        min_io: 512,
        leb_cnt: 3,
    };
    let geo = Geometry::new(&GEOMETRY)?;
    let mut volume = MemVolume::new(rt.alloc(), shape)?;
    let mut heads = Heads::new(rt.alloc(), &geo)?;
    heads.attach(JournalHead::Base, 2);
    heads.attach(JournalHead::Data, 0);
    let begin = Place { lnum: 0, offs: 0 };
    assert_eq!(rt;
        (
            heads.at(JournalHead::Collector),
            heads.at(JournalHead::Data)
        ),
        (None, Some(begin))
    );
    // Which head has room for so many bytes.
    let rows = [
        (JournalHead::Collector, 1, false),
        (JournalHead::Base, 16384, true),
        (JournalHead::Base, 16385, false),
    ];
    for (head, len, wanted) in rows {
        assert_eq!(rt; heads.fits(head, len), wanted);
    }
    let place = heads.put(&mut volume, JournalHead::Data, &[7; 632])?;
    assert_eq!(rt;
        (
            place,
            heads.tail(JournalHead::Data).len(),
            heads.tail(JournalHead::Base).len()
        ),
        (begin, 120, 0)
    );
    // Put and not synced: the LEB has the unit that filled, and the rest waits.
    let mut seam = [0u8; 2];
    volume.read(0, 511, &mut seam)?;
    assert_eq!(rt; seam, [7, 0xff]);
    heads.sync_all(&mut volume)?;
    assert_eq!(rt;
        heads.at(JournalHead::Data),
        Some(Place {
            lnum: 0,
            offs: 1024
        })
    );
    let mut bytes = [0u8; 5];
    volume.read(0, 631, &mut bytes)?;
    assert_eq!(rt; bytes, [7, 0x31, 0x18, 0x10, 0x06]);
    Ok(())
}
