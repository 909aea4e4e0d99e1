use super::*;
use std::test::Fail;

fn entity(index: u32, version: u32) -> Entity {
    Entity { index, version }
}

#[test]
fn texts_are_read_and_printed(rt: HostRuntime) -> Result<(), Fail> {
    let rows = [
        ("0:0", entity(0, 0)),
        ("null", entity(1_048_575, 4_095)),
        ("1048575:7", entity(1_048_575, 7)),
        ("7:4095", entity(7, 4_095)),
    ];
    for (text, entity) in rows {
        assert_eq!(rt;
            parse_entity(P20_12, text.as_bytes()),
            Some(entity),
            "at {text}"
        );
        let mut printed = Vec::new(rt.alloc());
        entity.push_text(P20_12, &mut printed)?;
        assert_eq!(rt; printed.as_slice(), text.as_bytes(), "at {text}");
    }
    Ok(())
}

#[test]
fn other_texts_are_refused(rt: HostRuntime) {
    let rows = [
        "1048575:4095",
        "1048576:0",
        "0:4096",
        "01:0",
        "0:00",
        ":",
        "1",
        "",
        "1:2:3",
        "null ",
        "-1:0",
    ];
    for text in rows {
        assert_eq!(rt; parse_entity(P20_12, text.as_bytes()), None, "at {text}");
    }
}

#[test]
fn the_widest_identifier_fits(rt: HostRuntime) -> Result<(), Fail> {
    let widest = entity(4_294_967_294, 4_294_967_295);
    let mut printed = Vec::new(rt.alloc());
    widest.push_text(P32_32, &mut printed)?;
    assert_eq!(rt; printed.as_slice(), b"4294967294:4294967295".as_slice());
    assert_eq!(rt; parse_entity(P32_32, &printed), Some(widest));
    Ok(())
}

#[test]
fn numbers_end_at_the_limit(rt: HostRuntime) {
    assert_eq!(rt; read_nat(b"18446744073709551615", u64::MAX), Some(u64::MAX));
    assert_eq!(rt; read_nat(b"18446744073709551616", u64::MAX), None);
    assert_eq!(rt; read_nat(b"10", 9), None);
}

#[test]
fn numbers_are_taken_as_far_as_their_digits_go(rt: HostRuntime) {
    let rows = [
        ("7", 9, Some((7, ""))),
        ("0,1", 9, Some((0, ",1"))),
        ("255:1", 255, Some((255, ":1"))),
        ("256:1", 255, None),
        ("10", 9, None),
        ("00 ", 9, None),
        (" 1", 9, None),
        ("", 9, None),
    ];
    for (text, limit, taken) in rows {
        let taken = taken.map(|x: (u64, &str)| (x.0, x.1.as_bytes()));
        assert_eq!(rt; take_nat(text.as_bytes(), limit), taken, "at {text}");
    }
}

#[test]
fn identifiers_are_taken_from_the_front(rt: HostRuntime) {
    let rows = [
        ("3:1 null", Some((entity(3, 1), " null"))),
        ("null,", Some((entity(1_048_575, 4_095), ","))),
        ("nullnull", Some((entity(1_048_575, 4_095), "null"))),
        ("0:0:0", Some((entity(0, 0), ":0"))),
        ("null5", None),
        ("0:04", None),
        ("0:40960", None),
        ("1048575:4095,", None),
        ("3;1", None),
        ("nul", None),
    ];
    for (text, taken) in rows {
        let taken = taken.map(|x: (Entity, &str)| (x.0, x.1.as_bytes()));
        assert_eq!(rt; take_entity(P20_12, text.as_bytes()), taken, "at {text}");
    }
}

#[test]
fn fields_hold_identifiers(rt: HostRuntime) {
    let rows = [
        (entity(0, 1), 4_294_967_296),
        (entity(1_048_575, 7), 30_065_819_647),
        (entity(1_048_575, 4_095), -1),
    ];
    for (entity, field) in rows {
        assert_eq!(rt; entity.to_field(P20_12), field);
        assert_eq!(rt; Entity::from_field(P20_12, field), entity);
    }
    assert!(rt; entity(1_048_575, 7).is_null(P20_12));
}

#[test]
fn bits_are_identifiers_up_to_the_width(rt: HostRuntime) {
    let rows = [
        (P20_12, 0xFFFF_FFFF, Some(entity(1_048_575, 4_095))),
        (P20_12, 1_048_581, Some(entity(5, 1))),
        (P20_12, 4_294_967_296, None),
        (P20_12, u64::MAX, None),
        (P32_32, 4_294_967_296, Some(entity(0, 1))),
        (P32_32, u64::MAX, Some(entity(4_294_967_295, 4_294_967_295))),
    ];
    for (profile, bits, read) in rows {
        assert_eq!(rt; Entity::from_bits(profile, bits), read, "at {bits}");
    }
    let widest = Entity {
        index: 1_048_575,
        version: 4_095,
    };
    assert_eq!(rt; widest.to_bits(P20_12), 0xFFFF_FFFF);
    let fifth = Entity {
        index: 5,
        version: 1,
    };
    assert_eq!(rt; fifth.to_bits(P20_12), 1_048_581);
    assert_eq!(rt; fifth.to_bits(P32_32), 4_294_967_301);
}

#[test]
fn the_version_after_the_last_is_0(rt: HostRuntime) {
    assert_eq!(rt; next_version(P20_12, 0), 1);
    assert_eq!(rt; next_version(P20_12, 4_093), 4_094);
    assert_eq!(rt; next_version(P20_12, 4_094), 0);
    assert_eq!(rt; next_version(P32_32, 4_294_967_294), 0);
}

#[test]
fn a_text_is_cut_at_the_first_such_byte(rt: HostRuntime) {
    let parts = split_once(b"a,b,c", b',');
    assert_eq!(rt; parts, Some((b"a".as_slice(), b"b,c".as_slice())));
}

#[test]
fn a_text_is_cut_at_the_last_such_byte(rt: HostRuntime) {
    let parts = rsplit_once(b"a,b,c", b',');
    assert_eq!(rt; parts, Some((b"a,b".as_slice(), b"c".as_slice())));
}

#[test]
fn lists_lend_what_they_were_made_of(rt: HostRuntime) -> Result<(), Fail> {
    let alloc = rt.alloc();
    let name = Name::from_vec(Vec::from_slice(alloc, b"Position")?);
    assert_eq!(rt; name.as_slice(), b"Position".as_slice());
    let pools = Pools::from_vec(Vec::from_slice(alloc, &[2, 0])?);
    assert_eq!(rt; pools.as_slice(), [2, 0].as_slice());
    let entities = Entities::from_vec(Vec::from_slice(alloc, &[entity(3, 1)])?);
    assert_eq!(rt; entities.as_slice(), [entity(3, 1)].as_slice());
    let counts = Counts::from_vec(Vec::from_slice(alloc, &[5, 6])?);
    assert_eq!(rt; counts.as_slice(), [5, 6].as_slice());
    Ok(())
}

#[test]
fn the_laws_are_called() {
    fields_and_identifiers();
    bits_and_identifiers();
    equal_lookups::<u32>(&[]);
    matches_are_exact();
    matches_ascend();
}
