use super::*;
use entity_id::{Entity, Name, P20_12, P32_32};
use std::alloc::Global;
use std::test::Fail;

#[test]
fn whole_numbers_end_at_their_limits(rt: HostRuntime) {
    let read = [
        ("0", 0),
        ("-1", -1),
        ("9223372036854775807", i64::MAX),
        ("-9223372036854775808", i64::MIN),
    ];
    for (text, number) in read {
        assert_eq!(rt; read_int(text.as_bytes()), Some(number), "at {text}");
    }
    let refused = [
        "",
        "-",
        "-0",
        "01",
        "+1",
        "1 ",
        "9223372036854775808",
        "-9223372036854775809",
    ];
    for text in refused {
        assert_eq!(rt; read_int(text.as_bytes()), None, "at {text}");
    }
    assert_eq!(rt; take_int(b"-7 8"), Some((-7, b" 8".as_slice())));
}

#[test]
fn names_have_their_form(rt: HostRuntime) {
    for text in ["a", "z9_", "owner", "abcdefghijklmnopqrstuvwxyz_01234"] {
        assert!(rt; is_name(text.as_bytes()), "at {text}");
    }
    let refused = [
        "",
        "1a",
        "_a",
        "Name",
        "na-me",
        "own",
        "get",
        "not",
        "abcdefghijklmnopqrstuvwxyz_012345",
    ];
    for text in refused {
        assert!(rt; !is_name(text.as_bytes()), "at {text}");
    }
}

#[test]
fn identifiers_live_by_index_and_version(rt: HostRuntime) {
    let slots = [
        Slot {
            version: 3,
            live: true,
        },
        Slot {
            version: 1,
            live: false,
        },
    ];
    let rows = [
        (0, 3, true),
        (0, 2, false),
        (1, 1, false),
        (2, 0, false),
        (4_294_967_295, 3, false),
    ];
    for (index, version, live) in rows {
        assert_eq!(rt;
            is_live(&slots, Entity { index, version }),
            live,
            "at {index}:{version}"
        );
    }
}

#[test]
fn rows_fit_by_their_kinds(rt: HostRuntime) -> Result<(), Fail> {
    let target = Decl {
        name: Name::from_vec(Vec::new(rt.alloc())),
        count: 2,
        kinds: [Kind::Int, Kind::Ref, Kind::Int, Kind::Int],
    };
    assert_eq!(rt; target.field_kinds(), [Kind::Int, Kind::Ref].as_slice());
    let version = 4_294_967_296;
    let rows = [
        ([i64::MIN, -1, 0, 0], true),
        ([5, 1_048_574 + 4_094 * version, 0, 0], true),
        ([5, 1_048_575, 0, 0], false),
        ([5, 4_095 * version, 0, 0], false),
        ([5, -2, 0, 0], false),
        ([5, 0, 1, 0], false),
        ([5, 0, 0, -1], false),
    ];
    for (f, fit) in rows {
        assert_eq!(rt; target.fits(P20_12, &Row { f }), fit, "at {f:?}");
    }
    Ok(())
}

#[test]
fn lists_lend_what_they_were_made_from(rt: HostRuntime) -> Result<(), Fail> {
    let entity = Entity {
        index: 1,
        version: 2,
    };
    let row = Row { f: [1, 2, 3, 4] };
    let mut rows = Rows::from_vec(Vec::new(rt.alloc()));
    rows.push(entity, row)?;
    assert_eq!(rt; rows.as_slice(), [(entity, row)].as_slice());
    let mut free = Vec::new(rt.alloc());
    free.push(7)?;
    assert_eq!(rt; FreeList::from_vec(free).as_slice(), [7].as_slice());
    Ok(())
}

fn component(alloc: Global, name: &str, count: u32) -> Result<Decl, Fail> {
    Ok(Decl {
        name: Name::from_vec(Vec::from_slice(alloc, name.as_bytes())?),
        count,
        kinds: [Kind::Int; 4],
    })
}

#[test]
fn tokens_name_the_first_component_and_its_fields(rt: HostRuntime) -> Result<(), Fail> {
    let alloc = rt.alloc();
    let decls = [
        component(alloc, "position", 2)?,
        component(alloc, "tag", 0)?,
        component(alloc, "position", 4)?,
        component(alloc, "a.b", 1)?,
    ];
    let names = [
        ("position", Some(0)),
        ("tag", Some(1)),
        ("tags", None),
        ("a.b", None),
        ("", None),
    ];
    for (token, pool) in names {
        assert_eq!(rt; read_name(token.as_bytes(), &decls), pool, "at {token}");
    }
    let fields = [
        ("position.1", Some(FieldAt { pool: 0, field: 1 })),
        ("a.b.0", None),
        ("position.2", None),
        ("position.01", None),
        ("position.", None),
        ("position", None),
        ("tag.0", None),
        (".0", None),
    ];
    for (token, field) in fields {
        assert_eq!(rt; read_field(token.as_bytes(), &decls), field, "at {token}");
    }
    Ok(())
}

#[test]
fn tokens_spell_values_of_their_kind(rt: HostRuntime) {
    let rows = [
        ("-9", Kind::Int, Some(-9)),
        ("9223372036854775808", Kind::Int, None),
        ("null", Kind::Int, None),
        ("null", Kind::Ref, Some(-1)),
        ("2:1", Kind::Ref, Some(4_294_967_298)),
        ("1048574:4094", Kind::Ref, Some(17_583_597_158_398)),
        ("1048575:0", Kind::Ref, None),
        ("0:4095", Kind::Ref, None),
        ("-1", Kind::Ref, None),
    ];
    for (token, kind, field) in rows {
        assert_eq!(rt;
            read_value(P20_12, token.as_bytes(), kind),
            field,
            "at {token}"
        );
    }
    assert_eq!(rt;
        read_value(P32_32, b"1048575:4095", Kind::Ref),
        Some(17_587_892_125_695)
    );
    assert!(rt;
        !is_target(
            P20_12,
            Entity {
                index: 0,
                version: 4_095
            }
        )
    );
}

#[test]
fn refusals_have_their_numbers(rt: HostRuntime) {
    let rows = [
        (Refusal::Dead, 1),
        (Refusal::Conflict { with: 7 }, 5),
        (Refusal::HasInner { with: 0 }, 12),
        (Refusal::Unknown, 14),
    ];
    for (refusal, number) in rows {
        assert_eq!(rt; refusal.number(), number, "at {refusal:?}");
    }
}

#[test]
fn the_laws_are_called() {
    commands_keep_worlds_lawful();
    commands_keep_components();
    refused_commands_change_nothing();
    commands_in_parts();
    commands_ignore_the_tick();
    entities_live_until_destroyed();
    commands_tell_live_entities();
    commands_list_in_order();
    orders_keep_worlds_lawful();
    orders_in_parts();
    ticks_in_parts();
    ticks_keep_worlds_lawful();
}

#[test]
fn the_laws_of_groups_are_called() {
    lists_ascend();
    packed_groups();
    nested_groups();
    rows_are_sorted();
    sorts_are_whole();
}
