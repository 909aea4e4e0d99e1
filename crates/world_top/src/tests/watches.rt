//! Scripts that listen.

use super::*;

#[test]
fn watches_hear_until_they_end(rt: HostRuntime) -> Result<(), Fail> {
    let input = b"world 1\ncomponent position int\ncomponent velocity int\n\
        component health int\ncomponent frozen\ntick 0\nlive 0\nlive 0\nlive 0\n\
        pool position\npool velocity\npool health\npool frozen\nend\nscript\n\
        watch destroy position\nwatch destroy frozen\nemplace 0:0 position 1\n\
        emplace 0:0 velocity 2\nemplace 0:0 health 3\nemplace 0:0 frozen\ndestroy 0:0\n\
        unwatch 1\nunwatch 1\nend\n";
    let output = b"watch 0\nwatch 1\nok\nok\nok\nok\nok\nunwatched 1\n\
        heard 1 destroy frozen 0:0\nunknown\nheard 0 destroy position 0:0\n\
        world 1\ncomponent position int\ncomponent velocity int\n\
        component health int\ncomponent frozen\ntick 0\nfree 1\nlive 0\nlive 0\nnext 0\n\
        pool position\npool velocity\npool health\npool frozen\nend\n";
    try_printed(&rt, rt.alloc(), "apply", &[(input, output)])
}

#[test]
fn a_component_is_watched_eight_times_ever(rt: HostRuntime) -> Result<(), Fail> {
    let input = b"world 1\ncomponent a int\ntick 0\nlive 0\npool a\nend\nscript\n\
        watch construct a\nwatch construct a\nwatch construct a\nwatch construct a\n\
        watch construct a\nwatch construct a\nwatch construct a\nwatch construct a\n\
        watch construct a\nunwatch 0\nwatch construct a\nwatch update a\nunwatch 8\nunwatch 9\nend\n";
    let output = b"watch 0\nwatch 1\nwatch 2\nwatch 3\nwatch 4\nwatch 5\nwatch 6\nwatch 7\n\
        too many\nunwatched 0\ntoo many\nwatch 8\nunwatched 0\nunknown\n\
        world 1\ncomponent a int\ntick 0\nlive 0\npool a\nend\n";
    try_printed(&rt, rt.alloc(), "apply", &[(input, output)])
}
