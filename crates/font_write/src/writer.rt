//! The file of a source, sent piece by piece: its header, its records and its tables. OpenType 1.9,
//! Organization of an OpenType Font.
ghost use Rattle.std.specs.Prelude.{◌≡◌, ◌+◌, ◌≤◌, ◌<◌, length};
ghost use Rattle.sfnt_bytes.specs.declared.directory.TheConstants.{MAX_FILE};
ghost use Rattle.sfnt_bytes.specs.declared.tag.TheConstants.{ALL_SLOTS};
ghost use Rattle.sfnt_bytes.specs.Directory.{slot_at};
ghost use Rattle.font_theory.specs.Bytes.{padded};
ghost use Rattle.font_theory.specs.File.{entry_bytes, writing_of};
ghost use Rattle.font_write.specs.Parts.{bodies_to, record_at, start_of};
ghost use Rattle.font_write.specs.Inside.{planned_bodies, planned_records, planned_table};
ghost use Rattle.font_write.specs.Plan.{IsMeasure, IsPlan, planned_file};
ghost use Rattle.font_write.specs.Trace.{HasRoom, Sends};

use crate::bytes::{header, padding, send_padding, three_words};
use crate::made::{Made, made_in};
use crate::made_cmap::send_cmap;
use crate::made_glyf::send_glyf;
use crate::made_head::send_head;
use crate::made_loca::send_loca;
use crate::plan::{Measure, Plan};
use crate::sink::{Sink, Stopped};
use crate::source::Source;
use font_theory::Profile;
use sfnt_bytes::{ALL_SLOTS, Tag, slot_in, tag_of};

// Sends the table in a slot, where there is one.
fn send_table<S: Source, K: Sink>(
    source: &S,
    plan: &Plan,
    slot: usize,
    sink: &mut K,
) -> Result<(), Stopped>
    requires plan { IsPlan (S.content_of source.now) plan.now }
    requires small { length (planned_file plan.now (S.content_of source.now)) ≤ MAX_FILE }
    requires slot { slot < ALL_SLOTS }
    requires room { HasRoom (K.trace sink.old)
        (length (planned_table plan.now (S.content_of source.now) slot)) }
    ensures { Sends (K.trace sink.old) (K.trace sink.new)
        (planned_table plan.now (S.content_of source.now) slot) result }
{
    match made_in(slot) {
        Some(Made::Cmap) => send_cmap(source, plan.profile, plan.counts.groups, sink),
        Some(Made::Glyf) => send_glyf(source, plan.profile, plan.counts.outlines, sink),
        Some(Made::Head) => send_head(source, plan.profile, plan.adjustment, sink),
        Some(Made::Loca) => send_loca(source, sink),
        None => match source.copied(slot) {
            Some(bytes) => sink.take(bytes),
            None => Ok(()),
        },
    }
}

// Sends a record of the directory.
fn send_entry<K: Sink>(
    tag: Tag,
    checksum: u32,
    offset: u32,
    length: u32,
    sink: &mut K,
) -> Result<(), Stopped>
    requires { HasRoom (K.trace sink.old) 16 }
    ensures { Sends (K.trace sink.old) (K.trace sink.new)
        (entry_bytes (record { tag = tag; checksum = checksum; offset = offset; length = length })) result }
{
    sink.take(&tag.0)?;
    sink.take(&three_words(checksum, offset, length))
}

// Sends the record at a place, where there is a table.
fn send_record<S: Source, K: Sink>(
    source: &S,
    profile: Profile,
    measure: Measure,
    place: usize,
    offset: u32,
    sink: &mut K,
) -> Result<(), Stopped>
    requires measure { IsMeasure (writing_of profile) (S.content_of source.now) (slot_at place) measure }
    requires place { place < ALL_SLOTS }
    requires offset { offset ≡ start_of (writing_of profile) (S.content_of source.now) + length
        (bodies_to (writing_of profile) (S.content_of source.now) place) }
    requires room { HasRoom (K.trace sink.old)
        (length (record_at (writing_of profile) (S.content_of source.now) place)) }
    ensures { Sends (K.trace sink.old) (K.trace sink.new)
        (record_at (writing_of profile) (S.content_of source.now) place) result }
{
    if measure.is_there {
        return send_entry(
            tag_of(slot_in(place)),
            measure.checksum,
            offset,
            measure.length,
            sink,
        );
    }
    Ok(())
}

// Sends all records.
fn send_records<S: Source, K: Sink>(source: &S, plan: &Plan, sink: &mut K) -> Result<(), Stopped>
    requires plan { IsPlan (S.content_of source.now) plan.now }
    requires small { length (planned_file plan.now (S.content_of source.now)) ≤ MAX_FILE }
    requires room { HasRoom (K.trace sink.old) (length (planned_records plan.now (S.content_of source.now))) }
    ensures { Sends (K.trace sink.old) (K.trace sink.new)
        (planned_records plan.now (S.content_of source.now)) result }
{
    let mut offset = 12 + 16 * u32::from(plan.count);
    for place in 0..ALL_SLOTS {
        let measure = plan.measures[place];
        send_record(source, plan.profile, measure, place, offset, sink)?;
        offset += measure.length + padding(measure.length as usize) as u32;
    }
    Ok(())
}

// Sends the table at a place, padded.
fn send_body<S: Source, K: Sink>(
    source: &S,
    plan: &Plan,
    place: usize,
    sink: &mut K,
) -> Result<(), Stopped>
    requires plan { IsPlan (S.content_of source.now) plan.now }
    requires small { length (planned_file plan.now (S.content_of source.now)) ≤ MAX_FILE }
    requires place { place < ALL_SLOTS }
    requires room { HasRoom (K.trace sink.old)
        (length (padded (planned_table plan.now (S.content_of source.now) (slot_at place)))) }
    ensures { Sends (K.trace sink.old) (K.trace sink.new)
        (padded (planned_table plan.now (S.content_of source.now) (slot_at place))) result }
{
    send_table(source, plan, slot_in(place), sink)?;
    send_padding(plan.measures[place].length as usize, sink)
}

// Sends all tables, each padded.
fn send_bodies<S: Source, K: Sink>(source: &S, plan: &Plan, sink: &mut K) -> Result<(), Stopped>
    requires plan { IsPlan (S.content_of source.now) plan.now }
    requires small { length (planned_file plan.now (S.content_of source.now)) ≤ MAX_FILE }
    requires room { HasRoom (K.trace sink.old) (length (planned_bodies plan.now (S.content_of source.now))) }
    ensures { Sends (K.trace sink.old) (K.trace sink.new)
        (planned_bodies plan.now (S.content_of source.now)) result }
{
    for place in 0..ALL_SLOTS {
        send_body(source, plan, place, sink)?;
    }
    Ok(())
}

/// Sends the file of a source: its header, its records, and its tables, each padded. It stops where
/// the sink does.
pub fn send_file<S: Source, K: Sink>(source: &S, plan: &Plan, sink: &mut K) -> Result<(), Stopped>
    requires plan { IsPlan (S.content_of source.now) plan.now }
    requires room { HasRoom (K.trace sink.old) (length (planned_file plan.now (S.content_of source.now))) }
    ensures { Sends (K.trace sink.old) (K.trace sink.new)
        (planned_file plan.now (S.content_of source.now)) result }
{
    sink.take(&header(plan.count))?;
    send_records(source, plan, sink)?;
    send_bodies(source, plan, sink)
}
