//! Rows of documents and of replies as text, written from their end to their front.

ghost use Rattle.std.specs.Prelude.{◌≡◌, ◌+◌, ◌*◌, ◌≤◌, ◌++◌, ◌∷◌, [], length, drop, map};
ghost use Rattle.std.specs.Fmt.{signed_decimal};
ghost use Rattle.std.specs.List.{zip};
ghost use Rattle.world_text.specs.Formats.{version_1};
ghost use Rattle.world_text.specs.Lines.{line_text, value_text, values_text};
ghost use Rattle.world_text.specs.Documents.{value_in, values_in, row_line};

use super::format::VERSION_1;
use super::printing::{ROOM, write_word};
use entity_id::Entity;
use itoa::write_digits;
use world_model::{Decl, Kind, Row};

// Writes the line of a row at the end of the buffer, and says where it begins.
pub(super) fn write_row(decl: &Decl, entry: &(Entity, Row), line: &mut [u8; ROOM]) -> usize
    ensures within { result ≤ 128 }
    ensures written { drop result line.new ≡
        line_text version_1 (row_line version_1.profile decl.now entry.now) ++ 10 ∷ [] }
{
    let values = write_row_end(decl, &entry.1, line);
    let entity = entry.0.write_text(VERSION_1.profile, line, values);
    write_word(b"row ", line, entity)
}

// Writes the values of a row and the end of its line at the end of the buffer, and says where they
// begin.
pub(super) fn write_row_end(decl: &Decl, row: &Row, line: &mut [u8; ROOM]) -> usize
    ensures within { (39 ≤ result) × (result ≤ 127) }
    ensures written { drop result line.new ≡
        values_text version_1.profile (values_in version_1.profile decl.now row.now) ++ 10 ∷ [] }
{
    line[ROOM - 1] = b'\n';
    write_values(decl.field_kinds(), &row.f, line, ROOM - 1)
}

// Writes the values of a row, each behind a space, as far as both slices go, so that they end at
// `end`, and says where they begin.
fn write_values(kinds: &[Kind], fields: &[i64], buf: &mut [u8], end: usize) -> usize
    requires { (22 * length fields.now ≤ end) × (end ≤ length buf.old) }
    ensures within { (result ≤ end) × (end ≤ result + 22 * length fields.now) }
    ensures written { drop result buf.new ≡ values_text version_1.profile
        (map (λ pair. value_in version_1.profile pair.0 pair.1) (zip kinds.now fields.now)) ++
        drop end buf.old }
{
    let count = kinds.len().min(fields.len());
    let mut at = end;
    for place in (0..count).rev() {
        at = write_value(kinds[place], fields[place], buf, at);
    }
    at
}

// Writes a space and a value so that they end at `end`, and says where they begin.
fn write_value(kind: Kind, field: i64, buf: &mut [u8], end: usize) -> usize
    requires { (22 ≤ end) × (end ≤ length buf.old) }
    ensures within { (result ≤ end) × (end ≤ result + 22) }
    ensures written { drop result buf.new ≡
        32 ∷ value_text version_1.profile (value_in version_1.profile kind field) ++
        drop end buf.old }
{
    let text = match kind {
        Kind::Int => write_integer(field, buf, end),
        Kind::Ref => Entity::from_field(VERSION_1.profile, field).write_text(
            VERSION_1.profile,
            buf,
            end,
        ),
    };
    buf[text - 1] = b' ';
    text - 1
}

// Writes an integer so that it ends at `end`, and says where it begins.
fn write_integer(number: i64, buf: &mut [u8], end: usize) -> usize
    requires { (20 ≤ end) × (end ≤ length buf.old) }
    ensures within { (result ≤ end) × (end ≤ result + 20) }
    ensures written { drop result buf.new ≡ signed_decimal number ++ drop end buf.old }
{
    let digits = write_digits(number.unsigned_abs(), buf, end);
    if number >= 0 {
        return digits;
    }
    buf[digits - 1] = b'-';
    digits - 1
}
