//! One inlet or one outlet alone, over readers and writers that fail at each call in turn.
use fakes::devices::{Failure, Narrow, Pieces};
use font_cut::{BASE6, Outlet, WriteFault};
use std::alloc::Global;
use std::io::ErrorKind;
use streams::{Inlet, ReadError};

// Returns how many bytes of Base6 go by before the call of this number, at most `piece` a call.
fn bytes_before(call: u64, piece: usize) -> u64 {
    (piece as u64)
        .saturating_mul(call.saturating_sub(1))
        .min(428)
}

// Returns whether Base6 is sent up to the write of this number, which fails.
fn is_sent_up_to(alloc: Global, piece: usize, k: u64, failure: Failure) -> bool {
    let mut outlet = Outlet::new(Narrow::new(alloc, piece, failure));
    let answer = outlet.put(&BASE6);
    let written = bytes_before(k, piece);
    let is_stated = match answer {
        Ok(()) => written == 428 && !outlet.is_broken(),
        Err(fault) => { written < 428 && fault == WriteFault { written } && outlet.is_broken() }
    };
    let is_counted = outlet.written() == written;
    let writer = outlet.into_inner();
    let held = writer.held();
    is_stated && is_counted && held.len() as u64 == written && BASE6.starts_with(held)
}

#[test]
fn short_writer(rt: HostRuntime) {
    for piece in [1, 7, 100, 4096] {
        for k in 1..430u64 {
            let failure = Failure::AtWrite(k, ErrorKind::Interrupted);
            let is_told = is_sent_up_to(rt.alloc(), piece, k, failure);
            assert!(rt; is_told, "{piece} {failure:?}");
            let failure = Failure::TakesNoneAt(k);
            let is_told = is_sent_up_to(rt.alloc(), piece, k, failure);
            assert!(rt; is_told, "{piece} {failure:?}");
        }
    }
}

// Returns whether Base6 is read to its end, which takes this number of reads, or up to the read `k`, which
// fails.
fn is_read_up_to(alloc: Global, piece: usize, reads: u64, k: u64) -> bool {
    let failure = Failure::AtRead(k, ErrorKind::Interrupted);
    let mut inlet = Inlet::new(Pieces::new(&BASE6, piece, failure));
    let is_new = inlet.is_fresh() && !inlet.is_broken();
    let came = bytes_before(k, piece);
    let is_stated = match inlet.read_all(alloc) {
        Ok(file) => k > reads && file.as_slice() == BASE6.as_slice(),
        Err(error) => k <= reads && error == ReadError::ReadFault(came),
    };
    is_new && is_stated && !inlet.is_fresh() && inlet.is_broken() == (k <= reads)
}

#[test]
fn failing_reads_of_read_all(rt: HostRuntime) {
    // how many bytes a read, and how many reads give all of the file and then none
    for (piece, reads) in [(1, 429), (7, 63), (4096, 2)] {
        for k in 1..431u64 {
            let is_told = is_read_up_to(rt.alloc(), piece, reads, k);
            assert!(rt; is_told, "{piece} {k}");
        }
    }
}
