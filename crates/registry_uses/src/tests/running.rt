//! Commands carried out, and what they are answered.

ghost use Rattle.std.specs.Prelude.{◌≡◌, ◌<◌};
ghost use Rattle.registry_uses.specs.Samples.{IsPlayable};

use super::groups::group;
use super::samples::{FIRST, SECOND, Sample, entity, number};
use entity_id::{Entities, Entity};
use sparse_set::Steps;
use std::alloc::Global;
use std::marker::Brand;
use std::process::Abort;
use std::sync::ledger::{Blank, Ledger};
use std::test::Fail;
use world_model::{Command, Refusal, Reply};

impl Sample {
    fn runs(&mut self, rt: &impl Abort, command: Command, wanted: Reply)
        requires { IsPlayable command }
    {
        let reply = self.run::<Brand>(Blank::new(1), command);
        assert!(rt; is_same(&reply, &wanted), "{reply:?}");
    }

    fn run<G: Ledger>(&mut self, blank: Blank, command: Command) -> Reply
        requires asked { IsPlayable command }
        requires name { blank.name ≡ G.name }
        requires parts { blank.parts ≡ G.parts }
        requires some { 0 < blank.parts }
    {
        let mut steps = Steps::<G>::new(blank);
        self.registry.run(&command, &mut steps)
    }
}

// Whether two replies of the kinds below are the same.
fn is_same(reply: &Reply, wanted: &Reply) -> bool {
    match (reply, wanted) {
        (Reply::Done, Reply::Done) => true,
        (Reply::Made(made), Reply::Made(other)) => made == other,
        (Reply::Number(count), Reply::Number(other)) => count == other,
        (Reply::GroupNumber(group), Reply::GroupNumber(other)) => group == other,
        (Reply::Listed(list), Reply::Listed(other)) => list.as_slice() == other.as_slice(),
        (Reply::Refused(cause), Reply::Refused(other)) => cause == other,
        _ => false,
    }
}

#[test]
fn commands_are_carried_out_and_answered(rt: HostRuntime) -> Result<(), Fail> {
    let mut sample = Sample::load(rt.alloc())?;
    let added = Command::Emplace {
        entity: SECOND,
        pool: 0,
        row: number(9),
    };
    sample.runs(&rt, added, Reply::Done);
    sample.has(&rt, SECOND, 0, Ok(number(9)));
    sample.runs(&rt, Command::Create, Reply::Made(entity(1, 5)));
    sample.knows(&rt, entity(1, 5), true);
    let cleared = Command::Clear { pool: 2 };
    sample.runs(&rt, cleared, Reply::Refused(Refusal::NoPool));
    sample.runs(&rt, Command::Size, Reply::Number(3));
    sample.has_told(&rt, &[SECOND], &[], &[])
}

#[test]
fn a_destruction_by_its_command_is_carried_out(rt: HostRuntime) -> Result<(), Fail> {
    let mut sample = Sample::load(rt.alloc())?;
    sample.runs(&rt, Command::Destroy { entity: FIRST }, Reply::Done);
    sample.knows(&rt, FIRST, false);
    let again = Command::Destroy { entity: FIRST };
    sample.runs(&rt, again, Reply::Refused(Refusal::Dead));
    sample.has_told(&rt, &[], &[], &[FIRST])
}

#[test]
fn groups_and_sorts_by_their_commands_are_carried_out(rt: HostRuntime) -> Result<(), Fail> {
    let mut sample = Sample::load(rt.alloc())?;
    let decl = group(rt.alloc(), &[1], &[], &[])?;
    sample.runs(
        &rt,
        Command::SortPool { pool: 1, field: 0 },
        listed(rt.alloc(), &[FIRST, SECOND])?,
    );
    sample.lists(&rt, 1, Ok(&[SECOND, FIRST]));
    sample.runs(&rt, Command::Group { decl }, Reply::GroupNumber(0));
    sample.runs(
        &rt,
        Command::Members { group: 0 },
        listed(rt.alloc(), &[FIRST, SECOND])?,
    );
    let sorted = Command::SortGroup {
        group: 0,
        pool: 1,
        field: 0,
    };
    sample.runs(&rt, sorted, listed(rt.alloc(), &[FIRST, SECOND])?);
    sample.has_members(&rt, 0, Ok(&[SECOND, FIRST]));
    let owned = Command::SortPool { pool: 1, field: 0 };
    sample.runs(&rt, owned, Reply::Refused(Refusal::Owned { by: 0 }));
    sample.runs(
        &rt,
        Command::Members { group: 1 },
        Reply::Refused(Refusal::NoGroup),
    );
    Ok(())
}

fn listed(alloc: Global, entities: &[Entity]) -> Result<Reply, Fail> {
    Ok(Reply::Listed(Entities::from_vec(Vec::from_slice(alloc, entities)?)))
}
