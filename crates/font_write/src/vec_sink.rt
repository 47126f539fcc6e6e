//! A vector as a sink, and a file in memory.
ghost use Rattle.std.specs.Prelude.{◌≡◌, ◌+◌, ◌≤◌, length, vec_capacity, IfOk, OnErr};
ghost use Rattle.sfnt_bytes.specs.declared.directory.TheConstants.{MAX_FILE as MOST_BYTES};
ghost use Rattle.font_write.specs.Plan.{IsPlan, planned_file};

use crate::plan::Plan;
use crate::sink::{Sink, Stopped};
use crate::source::Source;
use crate::writer::send_file;
use sfnt_bytes::{MAX_FILE, Memory, NoMemory};
use std::alloc::Allocator;

// Bytes in memory that was asked for before, so that it never stops.
#[derive(Drop)]
struct VecSink<A: Allocator> {
    bytes: Vec<u8, A>,
    // How many bytes less than `MAX_FILE` there is room for. They count as taken.
    lacking: usize,
    ghost room: { MOST_BYTES ≤ lacking + vec_capacity bytes },
}

impl<A: Allocator> Sink for VecSink<A> {
    ghost use Rattle.std.specs.Prelude.{◌+◌, Some, [], false};

    ghost trace = { λ s. record {
      fixed = [];
      count = s.lacking + s.bytes.len;
      taken = Some s.bytes.items;
      shown = Some s.bytes.items;
      stopped = false;
    } };

    fn take(&mut self, bytes: &[u8]) -> Result<(), Stopped> {
        let Ok(()) = self.bytes.extend_from_slice(bytes) else {
            unreachable!()
        };
        Ok(())
    }
}

/// The file of a source in one vector, for which memory is asked once: `size` bytes.
///
/// # Errors
///
/// `NoMemory` where that request is refused.
pub fn write_file<S: Source, A: Memory>(
    alloc: A,
    source: &S,
    plan: &Plan,
    size: usize,
) -> Result<Vec<u8, A>, NoMemory>
    requires plan { IsPlan (S.content_of source.now) plan.now }
    requires size { size ≡ length (planned_file plan.now (S.content_of source.now)) }
    requires small { length (planned_file plan.now (S.content_of source.now)) ≤ MOST_BYTES }
    ensures file { IfOk result (λ v. v.items ≡ planned_file plan.now (S.content_of source.now)) }
    ensures memory { OnErr result (A.refuses size) }
{
    let mut sink = VecSink {
        bytes: alloc.room_for(size)?,
        lacking: MAX_FILE as usize - size,
    };
    let Ok(()) = send_file(source, plan, &mut sink) else {
        unreachable!()
    };
    Ok(sink.bytes)
}
