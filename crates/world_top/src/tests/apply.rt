//! Scripts, from the words of the program to its status and its output.

use super::*;
use itoa::Buffer;

#[test]
fn an_old_version_is_dead(rt: HostRuntime) -> Result<(), Fail> {
    let input = b"world 1\ntick 0\nend\nscript\ncreate\ndestroy 0:0\ncreate\ndestroy 0:0\nend\n";
    let output = b"entity 0:0\nok\nentity 0:1\ndead\nworld 1\ntick 0\nlive 1\nend\n";
    try_printed(&rt, rt.alloc(), "apply", &[(input, output)])
}

#[test]
fn versions_begin_again_behind_the_last(rt: HostRuntime) -> Result<(), Fail> {
    let input = b"world 1\ntick 0\nfree 4094\nnext 0\nend\nscript\ncreate\ndestroy 0:4094\ncreate\n\
        valid 0:0\nvalid 0:4094\nend\n";
    let output = b"entity 0:4094\nok\nentity 0:0\nyes\nno\nworld 1\ntick 0\nlive 0\nend\n";
    try_printed(&rt, rt.alloc(), "apply", &[(input, output)])
}

// As many `create` lines as there may be slots, and then four lines more.
fn script_of_a_full_world(alloc: Global) -> Result<Vec<u8>, Fail> {
    let mut input = Vec::from_slice(alloc, b"world 1\ntick 0\nend\nscript\n")?;
    for _ in 0..1_048_575 {
        input.extend_from_slice(b"create\n")?;
    }
    input.extend_from_slice(b"create\ndestroy 5:0\ncreate\ncreate\nend\n")?;
    Ok(input)
}

// Their replies, and the world that they leave.
fn output_of_a_full_world(alloc: Global) -> Result<Vec<u8>, Fail> {
    let mut output = Vec::new(alloc);
    let mut buffer = Buffer::new();
    for index in 0u64..1_048_575 {
        output.extend_from_slice(b"entity ")?;
        output.extend_from_slice(buffer.format(index).as_bytes())?;
        output.extend_from_slice(b":0\n")?;
    }
    output.extend_from_slice(b"full\nok\nentity 5:1\nfull\nworld 1\ntick 0\n")?;
    for index in 0u64..1_048_575 {
        let slot: &[u8] = if index == 5 { b"live 1\n" } else { b"live 0\n" };
        output.extend_from_slice(slot)?;
    }
    output.extend_from_slice(b"end\n")?;
    Ok(output)
}

#[test]
fn a_full_world_refuses_to_create(rt: HostRuntime) -> Result<(), Fail> {
    let input = script_of_a_full_world(rt.alloc())?;
    let output = output_of_a_full_world(rt.alloc())?;
    try_printed(&rt, rt.alloc(), "apply", &[(&input, &output)])
}

#[test]
fn the_index_released_last_is_given_out_first(rt: HostRuntime) -> Result<(), Fail> {
    let input = b"world 1\ntick 0\nend\nscript\ncreate\ncreate\ncreate\ncreate\n\
        destroy 1:0\ndestroy 3:0\ndestroy 2:0\ncreate\ncreate\ncreate\nend\n";
    let output = b"entity 0:0\nentity 1:0\nentity 2:0\nentity 3:0\nok\nok\nok\nentity 2:1\n\
        entity 3:1\nentity 1:1\nworld 1\ntick 0\nlive 0\nlive 1\nlive 1\nlive 1\nend\n";
    try_printed(&rt, rt.alloc(), "apply", &[(input, output)])
}

#[test]
fn hints_are_taken_where_they_can_be(rt: HostRuntime) -> Result<(), Fail> {
    let input = b"world 1\ntick 0\nend\nscript\n\
        hint 4:7\nhint 4:0\nhint 1:5\nhint null\nhint 9:4095\ncreate\nend\n";
    let output = b"entity 4:7\nentity 3:0\nentity 1:5\nentity 2:0\nentity 0:0\nentity 5:0\n\
        world 1\ntick 0\nlive 0\nlive 5\nlive 0\nlive 0\nlive 7\nlive 0\nend\n";
    try_printed(&rt, rt.alloc(), "apply", &[(input, output)])
}

#[test]
fn rows_are_added_read_and_removed(rt: HostRuntime) -> Result<(), Fail> {
    let input = b"world 1\ncomponent a int\ntick 0\nlive 0\npool a\nend\nscript\n\
        emplace 0:0 a 4\nget 0:0 a\nemplace 0:0 a 5\nremove 0:0 a\nget 0:0 a\nremove 3:0 a\nend\n";
    let output = b"ok\nrow 4\npresent\nremoved 1\nabsent\ndead\n\
        world 1\ncomponent a int\ntick 0\nlive 0\npool a\nend\n";
    try_printed(&rt, rt.alloc(), "apply", &[(input, output)])
}

#[test]
fn rows_are_replaced_patched_erased_and_cleared(rt: HostRuntime) -> Result<(), Fail> {
    let input = b"world 1\ncomponent a int\ntick 0\nlive 0\npool a\nend\nscript\n\
        emplace 0:0 a 4\nemplace 0:0 a 5\nget 0:0 a\nreplace 0:0 a 6\npatch 0:0 a.0 7\n\
        get 0:0 a\nremove 0:0 a\nreplace 0:0 a 1\nremove 0:0 a\nerase 0:0 a\norphan 0:0\n\
        emplace_or_replace 0:0 a 2\nall_of 0:0 a\nany_of 9:0 a\nclear a\nalive\nsize\nend\n";
    let output = b"ok\npresent\nrow 4\nok\nok\nrow 7\nremoved 1\nabsent\nremoved 0\nabsent\nyes\n\
        ok\nyes\ndead\ncleared 1\nalive 1\nsize 1\n\
        world 1\ncomponent a int\ntick 0\nlive 0\npool a\nend\n";
    try_printed(&rt, rt.alloc(), "apply", &[(input, output)])
}

#[test]
fn rows_end_with_their_entity(rt: HostRuntime) -> Result<(), Fail> {
    let input = b"world 1\ncomponent a int\ncomponent b entity\ntick 7\nlive 0\nlive 2\n\
        pool a\nrow 0:0 1\nrow 1:2 -2\npool b\nrow 1:2 0:0\nend\n\
        script\ndestroy 1:2\ndestroy null\nemplace 1:2 a 3\ncreate\nemplace 1:3 b null\n\
        remove 1:3 a\nend\n";
    let output = b"ok\ndead\ndead\nentity 1:3\nok\nremoved 0\n\
        world 1\ncomponent a int\ncomponent b entity\ntick 7\nlive 0\nlive 3\n\
        pool a\nrow 0:0 1\npool b\nrow 1:3 null\nend\n";
    try_printed(&rt, rt.alloc(), "apply", &[(input, output)])
}

#[test]
fn bad_lines_are_counted_over_document_and_script(rt: HostRuntime) -> Result<(), Fail> {
    let rows: [(&[u8], &[u8]); 8] = [
        (b"world 1\ntick x\nend\nscript\nend\n", b"world: line 2\n"),
        (b"world 1\ntick 0\nend\n", b"world: line 4\n"),
        (b"world 1\ntick 0\nend\nscripts\nend\n", b"world: line 4\n"),
        (b"world 1\ntick 0\nend\nscript\n", b"world: line 5\n"),
        (
            b"world 1\ntick 0\nend\nscript\ncreate\ncreate \nend\n",
            b"world: line 6\n",
        ),
        (
            b"world 1\ntick 0\nend\nscript\nget 0:0 a\nend\n",
            b"world: line 5\n",
        ),
        (
            b"world 1\ntick 0\nend\nscript\nvalid 1048575:4095\nend\n",
            b"world: line 5\n",
        ),
        (
            b"world 1\ntick 0\nend\nscript\ncreate\nend\nend\n",
            b"world: line 7\n",
        ),
    ];
    try_bad(&rt, rt.alloc(), "apply", &rows)
}
