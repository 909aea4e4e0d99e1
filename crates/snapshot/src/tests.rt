ghost use Rattle.std.specs.Prelude.{◌+◌, ◌≤◌, length};

use crate::{PackRefused, pack, unpack};
use world_text::{read_world, write_world};

// The document of three lines.
const EMPTY: &[u8] = b"world 1\ntick 0\nend\n";

// Its snapshot: the mark, the version, no header line, tick number 0 and no slot.
const EMPTY_PACKED: [u8; 28] = [
    0x57, 0x4f, 0x52, 0x4c, 0x44, 0x53, 0x4e, 0x50, 1, 0, 0, 0, 0, 0, 0, 0, 0, 0, 0, 0, 0, 0, 0, 0,
    0, 0, 0, 0,
];

// A document of one entity with one component.
const ONE: &[u8] = b"world 1\ncomponent a int\ntick 0\nlive 0\npool a\nrow 0:0 -2\nend\n";

// Its snapshot.
const ONE_PACKED: [u8; 66] = [
    0x57, 0x4f, 0x52, 0x4c, 0x44, 0x53, 0x4e, 0x50, 1, 0, 0, 0, 1, 0, 0, 0, 0x0f, 0, 0x63, 0x6f,
    0x6d, 0x70, 0x6f, 0x6e, 0x65, 0x6e, 0x74, 0x20, 0x61, 0x20, 0x69, 0x6e, 0x74, 0, 0, 0, 0, 0, 0,
    0, 0, 1, 0, 0, 0, 1, 0, 0, 0, 0, 1, 0, 0, 0, 0, 0, 0, 0, 0xfe, 0xff, 0xff, 0xff, 0xff, 0xff,
    0xff, 0xff,
];

// A snapshot whose one header line begins a system that the tick number follows.
const OPEN_PACKED: [u8; 38] = [
    0x57, 0x4f, 0x52, 0x4c, 0x44, 0x53, 0x4e, 0x50, 1, 0, 0, 0, 1, 0, 0, 0, 8, 0, 0x73, 0x79, 0x73,
    0x74, 0x65, 0x6d, 0x20, 0x73, 0, 0, 0, 0, 0, 0, 0, 0, 0, 0, 0, 0,
];

// The snapshot of the document of three lines, with other bytes from a place on.
fn changed(place: usize, bytes: &[u8]) -> [u8; 28]
    requires { place + length bytes.now ≤ 28 }
{
    let mut all = EMPTY_PACKED;
    all[place..place + bytes.len()].copy_from_slice(bytes);
    all
}

// Where unpacking refuses these bytes.
fn bad_offset(rt: HostRuntime, bytes: &[u8]) -> Option<u64> {
    match unpack(rt.alloc(), bytes) {
        Err(PackRefused::BadAt { offset }) => Some(offset),
        _ => None,
    }
}

#[test]
fn documents_are_packed(rt: HostRuntime) {
    for (text, packed) in [
        (EMPTY, EMPTY_PACKED.as_slice()),
        (ONE, ONE_PACKED.as_slice()),
    ] {
        let document = read_world(rt.alloc(), text).expect(&rt, "memory");
        let bytes = pack(rt.alloc(), &document).expect(&rt, "memory");
        assert!(rt; bytes.as_slice() == packed && bytes.capacity() == packed.len());
        let again = unpack(rt.alloc(), packed).expect(&rt, "memory");
        let printed = write_world(rt.alloc(), &again).expect(&rt, "memory");
        assert!(rt; printed.as_slice() == text);
    }
}

#[test]
fn a_cut_snapshot_is_bad_where_a_field_is_missing(rt: HostRuntime) {
    for size in 0..28 {
        let start = match size {
            0..8 => 0,
            8..12 => 8,
            12..16 => 12,
            16..24 => 16,
            _ => 24,
        };
        assert!(rt; bad_offset(rt, &EMPTY_PACKED[..size]) == Some(start));
    }
}

#[test]
fn a_bad_field_is_told_by_its_start(rt: HostRuntime) {
    assert!(rt; bad_offset(rt, &changed(0, &[0x58])) == Some(0));
    assert!(rt; bad_offset(rt, &changed(8, &[2])) == Some(8));
    assert!(rt; bad_offset(rt, &changed(12, &[0xe1, 0x11])) == Some(12));
    assert!(rt; bad_offset(rt, &changed(12, &[1])) == Some(16));
    assert!(rt; bad_offset(rt, &changed(16, &[1, 0x10, 0xa5, 0xd4, 0xe8])) == Some(16));
    assert!(rt; bad_offset(rt, &changed(24, &[0, 0, 0x10])) == Some(24));
    assert!(rt; bad_offset(rt, &changed(24, &[1])) == Some(28));
    assert!(rt; bad_offset(rt, &OPEN_PACKED) == Some(26));
}

#[test]
fn a_bad_byte_within_a_field_or_behind_the_last_is_told(rt: HostRuntime) {
    let mut bytes = ONE_PACKED;
    bytes[45] = 2;
    assert!(rt; bad_offset(rt, &bytes) == Some(45));
    let long = [EMPTY_PACKED.as_slice(), &[0]].concat(rt.alloc());
    let long = long.expect(&rt, "memory");
    assert!(rt; bad_offset(rt, &long) == Some(28));
}
