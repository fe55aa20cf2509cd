//! The edges of each area of the map, and the accesses that aren't allowed there.

use super::*;

/// ROM and RAM of 256 KiB each.
type Small = MemMap<0x4_0000, 0x4_0000>;

/// ROM and RAM of 1 MiB each.
type Large = MemMap<0x10_0000, 0x10_0000>;

#[test]
fn fetches(rt: HostRuntime) {
    for (pc, word) in [
        (0, Some(0)),
        (1, None),
        (2, None),
        (4, Some(1)),
        (0x3_fffc, Some(0xffff)),
        (0x4_0000, None),
        (0x1000_0000, None),
        (0x2000_0000, None),
        (0xffff_fffc, None),
    ] {
        assert_eq!(rt; Small::fetch(pc), word, "at {pc}");
    }
    assert_eq!(rt; Large::fetch(0xf_fffc), Some(0x3_ffff));
    assert_eq!(rt; Large::fetch(0x10_0000), None);
}

#[test]
fn loads(rt: HostRuntime) {
    for (address, width, from) in [
        (0, Width::Word, Loads::Rom(0)),
        (0x3_fffc, Width::Word, Loads::Rom(0x3_fffc)),
        (0x3_ffff, Width::Byte, Loads::Rom(0x3_ffff)),
        (0x4_0000, Width::Byte, Loads::Trap),
        (0x0fff_ffff, Width::Byte, Loads::Trap),
        (0x1000_0000, Width::Half, Loads::Ram(0)),
        (0x1003_fffe, Width::Half, Loads::Ram(0x3_fffe)),
        (0x1004_0000, Width::Half, Loads::Trap),
        (0x1fff_fffc, Width::Word, Loads::Trap),
        (0x2000_0000, Width::Word, Loads::InPort(0)),
        (0x2000_03fc, Width::Word, Loads::InPort(255)),
        (0x2000_0400, Width::Word, Loads::Trap),
        (0x2000_0000, Width::Half, Loads::Trap),
        (0x2000_0000, Width::Byte, Loads::Trap),
        (0x2000_1000, Width::Word, Loads::Trap),
        (0x1000_0001, Width::Half, Loads::Trap),
        (0x1000_0002, Width::Word, Loads::Trap),
        (0xffff_ffff, Width::Byte, Loads::Trap),
    ] {
        assert_eq!(rt; Small::load(address, width.bytes()), from, "at {address}");
    }
    assert_eq!(rt; Large::load(0xf_fffc, 4), Loads::Rom(0xf_fffc));
    assert_eq!(rt; Large::load(0x10_0000, 4), Loads::Trap);
    assert_eq!(rt; Large::load(0x100f_fffc, 4), Loads::Ram(0xf_fffc));
    assert_eq!(rt; Large::load(0x1010_0000, 4), Loads::Trap);
}

#[test]
fn stores(rt: HostRuntime) {
    for (address, width, to) in [
        (0, Width::Word, Stores::Trap),
        (0x3_ffff, Width::Byte, Stores::Trap),
        (0x0fff_fffc, Width::Word, Stores::Trap),
        (0x1000_0000, Width::Word, Stores::Ram(0)),
        (0x1003_fffc, Width::Word, Stores::Ram(0x3_fffc)),
        (0x1003_ffff, Width::Byte, Stores::Ram(0x3_ffff)),
        (0x1004_0000, Width::Byte, Stores::Trap),
        (0x2000_0000, Width::Word, Stores::Trap),
        (0x2000_0ffc, Width::Word, Stores::Trap),
        (0x2000_1000, Width::Word, Stores::OutPort(0)),
        (0x2000_13fc, Width::Word, Stores::OutPort(255)),
        (0x2000_1400, Width::Word, Stores::Trap),
        (0x2000_1000, Width::Half, Stores::Trap),
        (0x2000_1000, Width::Byte, Stores::Trap),
        (0x1000_0003, Width::Half, Stores::Trap),
        (0x1000_0002, Width::Word, Stores::Trap),
        (0xffff_fffc, Width::Word, Stores::Trap),
    ] {
        assert_eq!(rt; Small::store(address, width.bytes()), to, "at {address}");
    }
    assert_eq!(rt; Large::store(0x100f_fffc, 4), Stores::Ram(0xf_fffc));
    assert_eq!(rt; Large::store(0x1010_0000, 4), Stores::Trap);
}
