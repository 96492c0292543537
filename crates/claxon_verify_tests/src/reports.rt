//! Reports of streams.
use claxon::input::ReadBytes;
use claxon_command_line::progress::Progress;
use claxon_report::Report;
use claxon_testing::doubles::sinks::Sink;
use claxon_verify::{verify, verify_parts};
use std::alloc::{Allocator, Global};
use std::io::ErrorKind;

/// The report of a stream, without a line of progress.
pub fn report_of<R: ReadBytes, A: Allocator + Copy>(
    alloc: A,
    input: &mut R,
    computes_md5: bool,
) -> claxon::Result<Report<A>> {
    report_with(alloc, input, computes_md5, 999)
}

/// The same, where so many places are wanted after the first.
pub fn report_with<R: ReadBytes, A: Allocator + Copy>(
    alloc: A,
    input: &mut R,
    computes_md5: bool,
    more: usize,
) -> claxon::Result<Report<A>> {
    let mut errors = Sink::new(0, 0, false, ErrorKind::Other);
    let mut progress = Progress::new(&mut errors, None);
    let report = verify(alloc, input, computes_md5, more, &mut progress);
    progress.clear();
    report
}

/// The report of a stream by its parts.
pub fn report_by_parts<R: ReadBytes>(
    alloc: Global,
    input: &mut R,
    computes_md5: bool,
) -> claxon::Result<Report> {
    let mut errors = Sink::new(0, 0, false, ErrorKind::Other);
    let mut progress = Progress::new(&mut errors, None);
    let report = verify_parts(alloc, input, computes_md5, 999, &mut progress);
    progress.clear();
    report
}
