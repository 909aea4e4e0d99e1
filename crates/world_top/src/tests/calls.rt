//! Lines of scripts through the calls of the libraries: read, carried out on a registry, and answered.

ghost use Rattle.std.specs.Prelude.{◌≡◌, ◌<◌, ◌≤◌};
ghost use Rattle.std.specs.List.{AllByRecursion};
ghost use Rattle.entity_id.specs.Identifiers.{p20_12};
ghost use Rattle.row_lang.specs.Naming.{AreNamedDecls};
ghost use Rattle.world_text.specs.Documents.{HasAscendingLists, IsLawfulDocument};
ghost use Rattle.world_text.specs.Formats.{tick_limit, version_1};

use super::*;
use registry::Registry;
use signal_sink::Recorder;
use sparse_set::Steps;
use std::alloc::Global;
use std::marker::Brand;
use std::sync::ledger::{Blank, Ledger};
use world_model::Decl;
use world_text::{
    Document, SystemList, VERSION_1, push_reply, push_world, read_command, read_front,
};

// What these lines are answered behind a document, and then the text of the document that they leave.
fn answers<G: Ledger>(
    alloc: Global,
    document: &[u8],
    lines: &[&[u8]],
    blank: Blank,
) -> Result<Vec<u8>, Fail>
    requires name { blank.name ≡ G.name }
    requires parts { blank.parts ≡ G.parts }
    requires some { 0 < blank.parts }
{
    let mut steps = Steps::<G>::new(blank);
    let front = read_front(alloc, document)?;
    let mut out = Vec::new(alloc);
    answer_from(alloc, &front.document, lines, &mut out, &mut steps)?;
    Ok(out)
}

// Appends what lines are answered from this world on, and the text of the document that they leave.
fn answer_from<G: Ledger>(
    alloc: Global,
    document: &Document,
    lines: &[&[u8]],
    out: &mut Vec<u8>,
    steps: &mut Steps<G>,
) -> Result<(), Fail>
    requires { IsLawfulDocument document.now }
{
    let world = &document.world;
    let mut registry = Registry::load(alloc, world, VERSION_1.slot_limit)?;
    answer_all(
        alloc,
        &mut registry,
        world.decls.as_slice(),
        lines,
        out,
        steps,
    )?;
    print(alloc, &registry, world.tick, out)
}

// Appends what lines are answered.
fn answer_all<G: Ledger>(
    alloc: Global,
    registry: &mut Registry<Recorder>,
    decls: &[Decl],
    lines: &[&[u8]],
    out: &mut Vec<u8>,
    steps: &mut Steps<G>,
) -> Result<(), Fail>
    requires named { AreNamedDecls decls.now }
    requires decls { registry.old.world.decls ≡ decls.now }
    requires profile { registry.old.world.profile ≡ p20_12 }
    requires ascending { AllByRecursion HasAscendingLists registry.old.world.groups }
    ensures decls { registry.new.world.decls ≡ registry.old.world.decls }
    ensures profile { registry.new.world.profile ≡ registry.old.world.profile }
    ensures limit { registry.new.limit ≡ registry.old.limit }
    ensures ascending { AllByRecursion HasAscendingLists registry.new.world.groups }
{
    for line in lines {
        answer(alloc, registry, decls, line, out, steps)?;
    }
    Ok(())
}

// Appends the text of the document that a registry stands for, without systems.
fn print(
    alloc: Global,
    registry: &Registry<Recorder>,
    tick: u64,
    out: &mut Vec<u8>,
) -> Result<(), Fail>
    requires named { AreNamedDecls registry.now.world.decls }
    requires profile { registry.now.world.profile ≡ p20_12 }
    requires ascending { AllByRecursion HasAscendingLists registry.now.world.groups }
    requires limit { registry.now.limit ≡ version_1.slot_limit }
    requires tick { tick ≤ tick_limit }
{
    let world = registry.save(tick)?;
    let systems = SystemList::from_vec(Vec::new(alloc));
    push_world(out, &Document { world, systems })?;
    Ok(())
}

// Carries out the command that a line spells, and appends its reply.
fn answer<G: Ledger>(
    alloc: Global,
    registry: &mut Registry<Recorder>,
    decls: &[Decl],
    line: &[u8],
    out: &mut Vec<u8>,
    steps: &mut Steps<G>,
) -> Result<(), Fail>
    requires named { AreNamedDecls decls.now }
    requires decls { registry.old.world.decls ≡ decls.now }
    requires profile { registry.old.world.profile ≡ p20_12 }
    requires ascending { AllByRecursion HasAscendingLists registry.old.world.groups }
    ensures decls { registry.new.world.decls ≡ registry.old.world.decls }
    ensures profile { registry.new.world.profile ≡ registry.old.world.profile }
    ensures limit { registry.new.limit ≡ registry.old.limit }
    ensures ascending { AllByRecursion HasAscendingLists registry.new.world.groups }
{
    let command = read_command(alloc, line, decls)?;
    let reply = registry.run(&command, steps);
    push_reply(&command, &reply, decls, out)?;
    Ok(())
}

#[test]
fn each_command_is_read_carried_out_and_answered(rt: HostRuntime) -> Result<(), Fail> {
    let document = b"world 1\ncomponent a int\ntick 0\nlive 0\npool a\nend\n";
    let lines: [&[u8]; 21] = [
        b"emplace 0:0 a 4",
        b"emplace 0:0 a 5",
        b"get 0:0 a",
        b"replace 0:0 a 6",
        b"patch 0:0 a.0 7",
        b"get 0:0 a",
        b"remove 0:0 a",
        b"replace 0:0 a 1",
        b"remove 0:0 a",
        b"erase 0:0 a",
        b"orphan 0:0",
        b"emplace_or_replace 0:0 a 2",
        b"all_of 0:0 a",
        b"any_of 9:0 a",
        b"sort pool a.0",
        b"group own a",
        b"members 0",
        b"sort group 0 a.0",
        b"clear a",
        b"alive",
        b"size",
    ];
    let out = answers::<Brand>(rt.alloc(), document, &lines, Blank::new(1))?;
    assert_eq!(rt;
        out.as_slice(),
        b"ok\npresent\nrow 4\nok\nok\nrow 7\nremoved 1\nabsent\nremoved 0\nabsent\nyes\nok\nyes\ndead\n\
        sorted 0:0\ngroup 0\nmembers 0:0\nsorted 0:0\ncleared 1\nalive 1\nsize 1\n\
        world 1\ncomponent a int\ngroup own a\ntick 0\nlive 0\npool a\nend\n"
            .as_slice()
    );
    Ok(())
}

#[test]
fn hints_are_read_carried_out_and_answered(rt: HostRuntime) -> Result<(), Fail> {
    let lines: [&[u8]; 6] = [
        b"hint 4:7",
        b"hint 4:0",
        b"hint 1:5",
        b"hint null",
        b"hint 9:4095",
        b"create",
    ];
    let out = answers::<Brand>(rt.alloc(), EMPTY, &lines, Blank::new(1))?;
    assert_eq!(rt;
        out.as_slice(),
        b"entity 4:7\nentity 3:0\nentity 1:5\nentity 2:0\nentity 0:0\nentity 5:0\n\
        world 1\ntick 0\nlive 0\nlive 5\nlive 0\nlive 0\nlive 7\nlive 0\nend\n"
            .as_slice()
    );
    Ok(())
}
