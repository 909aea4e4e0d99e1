ghost use Rattle.std.specs.Prelude.{◌≡◌, ◌++◌, ◌∷◌, ◌≤◌, [], OnOk};
ghost use Rattle.std.specs.Fmt.{decimal};
ghost use Rattle.ecs_io.specs.Streams.{Grows, GrowsByFront, HasCause};
ghost use Rattle.world_top.specs.Endings.{fault_line, fault_words};

use super::{FaultAt, Outcome};
use ecs_io::{Sink, WriteFailed, write_all};
use itoa::Buffer;

/// Writes the line that tells an outcome, and nothing where all is done.
pub fn report<E: Sink>(faults: &mut E, outcome: Outcome) -> Result<(), WriteFailed>
    ensures front { GrowsByFront (E.holds faults.old) (E.holds faults.new) (fault_line outcome) }
    ensures whole { OnOk result (Grows (E.holds faults.old) (E.holds faults.new) (fault_line outcome)) }
    ensures cause { HasCause (E.faults faults.old) (E.faults faults.new) result }
{
    write_all(faults, words_of(outcome))?;
    match outcome {
        Outcome::BadInput { at } => write_number(faults, at.number()),
        _ => Ok(()),
    }
}

fn words_of(outcome: Outcome) -> &'static [u8]
    ensures { result.now ≡ fault_words outcome }
{
    match outcome {
        Outcome::Done => b"",
        Outcome::Usage => b"world: usage\n",
        Outcome::BadInput {
            at: FaultAt::Line { .. },
        } => b"world: line ",
        Outcome::BadInput {
            at: FaultAt::Offset { .. },
        } => b"world: offset ",
        Outcome::ReadFault => b"world: read fault\n",
        Outcome::WriteFault => b"world: write fault\n",
        Outcome::TooLong => b"world: input too long\n",
        Outcome::OutOfMemory => b"world: out of memory\n",
        Outcome::TickLimit => b"world: tick limit\n",
    }
}

fn write_number<E: Sink>(faults: &mut E, number: u64) -> Result<(), WriteFailed>
    ensures front { GrowsByFront (E.holds faults.old) (E.holds faults.new)
        (decimal number ++ 10 ∷ []) }
    ensures whole { OnOk result (Grows (E.holds faults.old) (E.holds faults.new)
        (decimal number ++ 10 ∷ [])) }
    ensures cause { HasCause (E.faults faults.old) (E.faults faults.new) result }
{
    let mut buffer = Buffer::new();
    write_all(faults, buffer.format(number).as_bytes())?;
    write_all(faults, b"\n")
}
