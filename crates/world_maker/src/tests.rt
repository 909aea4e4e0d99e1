ghost use Rattle.world_model.specs.Worlds.{IsLawful};

use crate::frame::FRAME;
use crate::{make_world, summary};
use registry::Registry;
use signal_sink::Recorder;
use std::alloc::Global;
use std::test::Fail;
use world_model::World;
use world_text::write_world;

// What stands between the header of the made world of number 1 with 2 entities and its end.
const ROWS_OF_TWO: &[u8] = b"tick 0\nlive 0\nlive 0\n\
pool position\nrow 0:0 149 249\nrow 1:0 742 836\n\
pool velocity\nrow 0:0 1 1\nrow 1:0 -4 4\n\
pool health\nrow 0:0 84\nrow 1:0 79\n\
pool team\nrow 0:0 3\nrow 1:0 0\n\
pool target\nrow 0:0 1:0\nrow 1:0 0:0\n\
pool damage\nrow 0:0 4\nrow 1:0 2\n\
pool timer\nrow 0:0 22\nrow 1:0 34\n\
pool frozen\n\
pool marked\nrow 0:0 0\nrow 1:0 0\nend\n";

// How many bytes of the frame stand before its line of the tick.
const HEADER_SIZE: usize = 1_429;

// The text of the made world of number 1 with 2 entities.
fn text_of_two(alloc: Global) -> Result<Vec<u8>, Fail> {
    Ok([&FRAME[..HEADER_SIZE], ROWS_OF_TWO].concat(alloc)?)
}

// The summary of a world in a registry that nobody listens to.
fn summary_of(alloc: Global, world: &World, tick: u64) -> Result<Vec<u8>, Fail>
    requires { IsLawful 1048575 world.now }
{
    let registry: Registry<Recorder> = Registry::load(alloc, world, 1_048_575)?;
    Ok(summary(alloc, &registry, world.decls.as_slice(), tick)?)
}

#[test]
fn a_made_world_without_entities_is_its_frame(rt: HostRuntime) -> Result<(), Fail> {
    for number in [0, 1, 65_536, 4_294_967_295] {
        let document = make_world(rt.alloc(), number, 0)?;
        let text = write_world(rt.alloc(), &document)?;
        assert!(rt; text.as_slice() == FRAME);
    }
    Ok(())
}

#[test]
fn a_made_world_of_two_entities(rt: HostRuntime) -> Result<(), Fail> {
    let document = make_world(rt.alloc(), 1, 2)?;
    let text = write_world(rt.alloc(), &document)?;
    let expected = text_of_two(rt.alloc())?;
    assert!(rt; text.as_slice() == expected.as_slice());
    Ok(())
}

#[test]
fn summaries_of_made_worlds(rt: HostRuntime) -> Result<(), Fail> {
    for (number, count, tick, expected) in [
        (
            1,
            2,
            0,
            b"entities 2\nrows 16\nmembers 2 2 2\nsum 2206\ntick 0\n".as_slice(),
        ),
        (
            1,
            0,
            3,
            b"entities 0\nrows 0\nmembers 0 0 0\nsum 0\ntick 3\n".as_slice(),
        ),
        (
            65_536,
            3,
            0,
            b"entities 3\nrows 27\nmembers 0 0 3\nsum 3462\ntick 0\n".as_slice(),
        ),
        (
            4_294_967_295,
            5,
            0,
            b"entities 5\nrows 40\nmembers 5 5 5\nsum 6934\ntick 0\n".as_slice(),
        ),
    ] {
        let document = make_world(rt.alloc(), number, count)?;
        let text = summary_of(rt.alloc(), &document.world, tick)?;
        assert!(rt; text.as_slice() == expected);
    }
    Ok(())
}
