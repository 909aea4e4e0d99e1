//! Binary snapshots, from the words of the program to its status and its output.

use super::*;

const MARK: &[u8] = b"WORLDSNP";

// Numbers of four bytes, and one of eight.
const NONE: &[u8] = b"\0\0\0\0";

const ONE: &[u8] = b"\x01\0\0\0";

const TICK_0: &[u8] = b"\0\0\0\0\0\0\0\0";

// The document of three lines: the mark, the version, no header line, tick number 0 and no slot.
const EMPTY_FIELDS: [&[u8]; 5] = [MARK, ONE, NONE, TICK_0, NONE];

// A document of one entity with one component.
const ENTITY: &[u8] = b"world 1\ncomponent a int\ntick 0\nlive 0\npool a\nrow 0:0 -2\nend\n";

const HEADER_LINE: &[u8] = b"\x0f\0component a int";

// The same: one header line, tick number 0, one slot, and one row of the one component.
const ENTITY_FIELDS: [&[u8]; 10] = [
    MARK,
    ONE,
    ONE,
    HEADER_LINE,
    TICK_0,
    ONE,
    b"\x01\0\0\0\0",
    ONE,
    NONE,
    b"\xfe\xff\xff\xff\xff\xff\xff\xff",
];

// Fields, one after another.
fn joined(alloc: Global, fields: &[&[u8]]) -> Result<Vec<u8>, Fail> {
    let mut bytes = Vec::new(alloc);
    for field in fields {
        bytes.extend_from_slice(field)?;
    }
    Ok(bytes)
}

// Whether these fields are no snapshot, which is told as it stands beside them.
fn try_bad_fields(rt: &impl Abort, alloc: Global, rows: &[(&[&[u8]], &[u8])]) -> Result<(), Fail> {
    for (fields, told) in rows {
        let run = run_on(alloc, "unpack", &joined(alloc, fields)?)?;
        expect(rt, &run, 3, b"", told);
    }
    Ok(())
}

#[test]
fn a_document_is_packed_and_unpacked(rt: HostRuntime) -> Result<(), Fail> {
    let empty = joined(rt.alloc(), &EMPTY_FIELDS)?;
    let entity = joined(rt.alloc(), &ENTITY_FIELDS)?;
    assert_eq!(rt; empty.len(), 28);
    assert_eq!(rt; entity.len(), 66);
    let packed: [(&[u8], &[u8]); 2] = [(EMPTY, &empty), (ENTITY, &entity)];
    try_printed(&rt, rt.alloc(), "pack", &packed)?;
    let unpacked: [(&[u8], &[u8]); 2] = [(&empty, EMPTY), (&entity, ENTITY)];
    try_printed(&rt, rt.alloc(), "unpack", &unpacked)
}

#[test]
fn a_bad_document_is_told_by_its_line_and_a_bad_snapshot_by_its_offset(
    rt: HostRuntime,
) -> Result<(), Fail> {
    let lines: [(&[u8], &[u8]); 2] = [
        (b"world 1\ntick 0\n", b"world: line 3\n"),
        (b"WORLDSNP", b"world: line 1\n"),
    ];
    try_bad(&rt, rt.alloc(), "pack", &lines)?;
    let offsets: [(&[u8], &[u8]); 2] = [
        (b"WORLDSNP\x01\0", b"world: offset 8\n"),
        (EMPTY, b"world: offset 0\n"),
    ];
    try_bad(&rt, rt.alloc(), "unpack", &offsets)
}

#[test]
fn a_snapshot_that_is_cut_is_told_by_its_first_field_that_is_not_whole(
    rt: HostRuntime,
) -> Result<(), Fail> {
    let empty = joined(rt.alloc(), &EMPTY_FIELDS)?;
    for size in 0..28 {
        let told: &[u8] = match size {
            0..8 => b"world: offset 0\n",
            8..12 => b"world: offset 8\n",
            12..16 => b"world: offset 12\n",
            16..24 => b"world: offset 16\n",
            _ => b"world: offset 24\n",
        };
        let cut: Vec<u8> = empty.iter().take(size).copied().collect(rt.alloc())?;
        try_bad(&rt, rt.alloc(), "unpack", &[(cut.as_slice(), told)])?;
    }
    Ok(())
}

#[test]
fn a_bad_field_is_told_by_where_it_starts(rt: HostRuntime) -> Result<(), Fail> {
    let past_header_limit: &[u8] = b"\xe1\x11\0\0";
    let past_tick_limit: &[u8] = b"\x01\x10\xa5\xd4\xe8\0\0\0";
    let past_slot_limit: &[u8] = b"\0\0\x10\0";
    let open_system: &[u8] = b"\x08\0system s";
    let slot_of_no_state: &[u8] = b"\x02\0\0\0\0";
    let minus_two: &[u8] = b"\xfe\xff\xff\xff\xff\xff\xff\xff";
    let rows: [(&[&[u8]], &[u8]); 10] = [
        (
            &[b"XORLDSNP", ONE, NONE, TICK_0, NONE],
            b"world: offset 0\n",
        ),
        (
            &[MARK, b"\x02\0\0\0", NONE, TICK_0, NONE],
            b"world: offset 8\n",
        ),
        (
            &[MARK, ONE, past_header_limit, TICK_0, NONE],
            b"world: offset 12\n",
        ),
        (&[MARK, ONE, ONE, TICK_0, NONE], b"world: offset 16\n"),
        (
            &[MARK, ONE, NONE, past_tick_limit, NONE],
            b"world: offset 16\n",
        ),
        (
            &[MARK, ONE, NONE, TICK_0, past_slot_limit],
            b"world: offset 24\n",
        ),
        (&[MARK, ONE, NONE, TICK_0, ONE], b"world: offset 28\n"),
        (
            &[MARK, ONE, ONE, open_system, TICK_0, NONE],
            b"world: offset 26\n",
        ),
        (
            &[MARK, ONE, NONE, TICK_0, NONE, b"\0"],
            b"world: offset 28\n",
        ),
        (
            &[
                MARK,
                ONE,
                ONE,
                HEADER_LINE,
                TICK_0,
                ONE,
                slot_of_no_state,
                ONE,
                NONE,
                minus_two,
            ],
            b"world: offset 45\n",
        ),
    ];
    try_bad_fields(&rt, rt.alloc(), &rows)
}
