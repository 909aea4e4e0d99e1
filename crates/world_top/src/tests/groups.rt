//! Scripts with groups and sorts, from the words of the program to its status and its output.

use super::*;

#[test]
fn members_match_all_pools_and_no_excluded_one(rt: HostRuntime) -> Result<(), Fail> {
    let input = b"world 1\ncomponent position int\ncomponent velocity int\n\
        component health int\ncomponent frozen\n\
        group own position velocity get health not frozen\n\
        tick 0\nlive 0\nlive 0\nlive 0\npool position\npool velocity\npool health\npool frozen\nend\n\
        script\nemplace 0:0 position 1\nemplace 0:0 velocity 1\nmembers 0\nemplace 0:0 health 9\n\
        members 0\nemplace 1:0 health 8\nemplace 1:0 velocity 2\nemplace 1:0 position 2\n\
        emplace 2:0 frozen\nemplace 2:0 velocity 3\nemplace 2:0 health 7\nemplace 2:0 position 3\n\
        members 0\nremove 2:0 frozen\nmembers 0\nerase 0:0 health\nmembers 0\nend\n";
    let output = b"ok\nok\nmembers\nok\nmembers 0:0\nok\nok\nok\nok\nok\nok\nok\n\
        members 0:0 1:0\nremoved 1\nmembers 0:0 1:0 2:0\nok\nmembers 1:0 2:0\n\
        world 1\ncomponent position int\ncomponent velocity int\n\
        component health int\ncomponent frozen\n\
        group own position velocity get health not frozen\n\
        tick 0\nlive 0\nlive 0\nlive 0\n\
        pool position\nrow 0:0 1\nrow 1:0 2\nrow 2:0 3\n\
        pool velocity\nrow 0:0 1\nrow 1:0 2\nrow 2:0 3\n\
        pool health\nrow 1:0 8\nrow 2:0 7\npool frozen\nend\n";
    try_printed(&rt, rt.alloc(), "apply", &[(input, output)])
}

#[test]
fn watches_hear_of_a_member_that_is_destroyed(rt: HostRuntime) -> Result<(), Fail> {
    let input = b"world 1\ncomponent position int\ncomponent velocity int\n\
        component health int\ncomponent frozen\n\
        group own position velocity get health not frozen\n\
        tick 0\nlive 0\nlive 0\nlive 0\npool position\npool velocity\npool health\npool frozen\nend\n\
        script\nwatch destroy position\nwatch destroy frozen\nemplace 0:0 position 1\n\
        emplace 0:0 velocity 2\nemplace 0:0 health 3\nemplace 0:0 frozen\nmembers 0\n\
        destroy 0:0\nmembers 0\nunwatch 1\nunwatch 1\nend\n";
    let output = b"watch 0\nwatch 1\nok\nok\nok\nok\nmembers\nok\nmembers\nunwatched 1\n\
        heard 1 destroy frozen 0:0\nunknown\nheard 0 destroy position 0:0\n\
        world 1\ncomponent position int\ncomponent velocity int\n\
        component health int\ncomponent frozen\n\
        group own position velocity get health not frozen\n\
        tick 0\nfree 1\nlive 0\nlive 0\nnext 0\n\
        pool position\npool velocity\npool health\npool frozen\nend\n";
    try_printed(&rt, rt.alloc(), "apply", &[(input, output)])
}

#[test]
fn groups_nest_and_each_refusal_has_its_word(rt: HostRuntime) -> Result<(), Fail> {
    let input = b"world 1\ncomponent a int\ncomponent b\ncomponent c\ncomponent d\n\
        group own a\ngroup own a b\ngroup own a b c\n\
        tick 0\nlive 0\npool a\npool b\npool c\npool d\nend\nscript\n\
        emplace 0:0 a 5\nemplace 0:0 c\nemplace 0:0 b\nmembers 0\nmembers 1\nmembers 2\n\
        remove 0:0 a\nmembers 0\nmembers 2\ngroup own a d\nsort group 0 a.0\nsort pool a.0\n\
        members 7\ngroup own b a\nend\n";
    let output = b"ok\nok\nok\nmembers 0:0\nmembers 0:0\nmembers 0:0\nremoved 1\nmembers\n\
        members\nconflict 1\ninner 1\nowned 0\nno group\ngroup 1\n\
        world 1\ncomponent a int\ncomponent b\ncomponent c\ncomponent d\n\
        group own a\ngroup own a b\ngroup own a b c\ntick 0\nlive 0\n\
        pool a\npool b\nrow 0:0\npool c\nrow 0:0\npool d\nend\n";
    try_printed(&rt, rt.alloc(), "apply", &[(input, output)])
}

#[test]
fn a_group_may_be_inner_to_two_that_are_apart(rt: HostRuntime) -> Result<(), Fail> {
    let input = b"world 1\ncomponent a\ncomponent b\ncomponent x\ncomponent y\n\
        group own a get x\ngroup own b get y\ngroup own a b get x y\n\
        tick 0\nlive 0\nlive 0\npool a\npool b\npool x\npool y\nend\nscript\n\
        emplace 0:0 a\nemplace 0:0 x\nmembers 0\nemplace 0:0 b\nmembers 2\nemplace 0:0 y\n\
        members 1\nmembers 2\nemplace 1:0 b\nemplace 1:0 y\nmembers 1\nerase 0:0 x\nmembers 0\n\
        members 1\nmembers 2\nend\n";
    let output = b"ok\nok\nmembers 0:0\nok\nmembers\nok\nmembers 0:0\nmembers 0:0\nok\nok\n\
        members 0:0 1:0\nok\nmembers\nmembers 0:0 1:0\nmembers\n\
        world 1\ncomponent a\ncomponent b\ncomponent x\ncomponent y\n\
        group own a get x\ngroup own b get y\ngroup own a b get x y\ntick 0\nlive 0\nlive 0\n\
        pool a\nrow 0:0\npool b\nrow 0:0\nrow 1:0\npool x\npool y\nrow 0:0\nrow 1:0\nend\n";
    try_printed(&rt, rt.alloc(), "apply", &[(input, output)])
}

#[test]
fn a_sort_is_told_from_the_back_and_views_are_not_sorted(rt: HostRuntime) -> Result<(), Fail> {
    let input = b"world 1\ncomponent k int\ncomponent m\ntick 0\nlive 0\nlive 0\nlive 0\nlive 0\n\
        pool k\nrow 0:0 3\nrow 1:0 1\nrow 2:0 1\nrow 3:0 2\npool m\nrow 2:0\nend\nscript\n\
        sort pool k.0\nview k\nview k not m\nview m k\ngroup own k m\nmembers 0\nend\n";
    let output = b"sorted 1:0 2:0 3:0 0:0\nview 0:0 1:0 2:0 3:0\nview 0:0 1:0 3:0\nview 2:0\n\
        group 0\nmembers 2:0\n\
        world 1\ncomponent k int\ncomponent m\ngroup own k m\ntick 0\nlive 0\nlive 0\nlive 0\n\
        live 0\npool k\nrow 0:0 3\nrow 1:0 1\nrow 2:0 1\nrow 3:0 2\npool m\nrow 2:0\nend\n";
    try_printed(&rt, rt.alloc(), "apply", &[(input, output)])
}

#[test]
fn names_of_a_group_may_stand_in_any_order(rt: HostRuntime) -> Result<(), Fail> {
    let input = b"world 1\ncomponent a\ncomponent b\ncomponent c\ngroup own b a not c\n\
        tick 0\nlive 0\npool a\npool b\npool c\nend\nscript\n\
        group own a b not c\ngroup own c get c\ngroup own c get b a not b\ngroup own c get b a\n\
        emplace 0:0 b\nemplace 0:0 a\nmembers 0\nclear b\nmembers 0\nend\n";
    let output = b"group 0\nbad\nbad\ngroup 1\nok\nok\nmembers 0:0\ncleared 1\nmembers\n\
        world 1\ncomponent a\ncomponent b\ncomponent c\ngroup own a b not c\n\
        group own c get a b\ntick 0\nlive 0\npool a\nrow 0:0\npool b\npool c\nend\n";
    try_printed(&rt, rt.alloc(), "apply", &[(input, output)])
}

#[test]
fn a_group_line_that_may_not_stand_is_bad(rt: HostRuntime) -> Result<(), Fail> {
    let rows: [(&[u8], &[u8]); 8] = [
        (
            b"world 1\ncomponent a\ngroup own a get a\ntick 0\npool a\nend\n",
            b"world: line 3\n",
        ),
        (
            b"world 1\ncomponent a\ngroup own b\ntick 0\npool a\nend\n",
            b"world: line 3\n",
        ),
        (
            b"world 1\ncomponent a\ngroup own a\ngroup own a\ntick 0\npool a\nend\n",
            b"world: line 4\n",
        ),
        (
            b"world 1\ncomponent a\ncomponent b\ncomponent c\ngroup own a b\ngroup own b c\n\
                tick 0\npool a\npool b\npool c\nend\n",
            b"world: line 6\n",
        ),
        (
            b"world 1\ncomponent a\ngroup own a\ncomponent b\ntick 0\npool a\npool b\nend\n",
            b"world: line 4\n",
        ),
        (
            b"world 1\ncomponent a\ntick 0\ngroup own a\npool a\nend\n",
            b"world: line 4\n",
        ),
        (
            b"world 1\ncomponent a\ngroup get a\ntick 0\npool a\nend\n",
            b"world: line 3\n",
        ),
        (
            b"world 1\ncomponent a\ngroup own a get\ntick 0\npool a\nend\n",
            b"world: line 3\n",
        ),
    ];
    try_bad(&rt, rt.alloc(), "snapshot", &rows)
}
