//! The command `verify`: whether FLAC files are right.
ghost use Rattle.std.specs.Prelude.{IfOk, IfSome};
ghost use Rattle.claxon.specs.ShownHead.{HasBitDepth};

use claxon::Error;
use claxon::input::{BufferedReader, ReadBytes};
use claxon::metadata::StreamInfo;
use claxon_command_line::folders::{
    add_contents, is_flac_name, is_folder, is_no_file, is_real_folder,
};
use claxon_command_line::input::{Input, STANDARD, open_input};
use claxon_command_line::messages::{Part, print_error, shown_name};
use claxon_command_line::names::{escaped_bytes, not_utf8_name, read_name};
use claxon_command_line::progress::{Position, Progress, file_label};
use claxon_program::Program;
use claxon_recovery::{Parts, info_of_frame};
use claxon_report::Report;
use claxon_verdict::container::container;
use claxon_verdict::options::{FileNames, NamedFiles, Options, VerifyRequest, parse};
use claxon_verdict::print::{
    PrintOptions, print_failure, print_not_read, print_report, print_summary, print_unread,
    print_wrong_head,
};
use claxon_verdict::tally::Tally;
use claxon_verdict::verdict::{Verdict, WrongHead};
use claxon_verify::{verify, verify_frames, verify_parts};
use std::alloc::Global;
use std::io::{Cursor, Read, Write};
use std::rt::Files;
use std::str;

/// What the command says about itself.
pub const PROGRAM: Program = Program {
    name: "claxon verify",
    arguments: "[--no-md5] [--brief] [--json] [-q] [-r] [--summary] [--places N] [--files0-from FILE] [--] FILE..",
    commands: &[],
    help: "Decodes FLAC files to their ends and says of each, in a line, whether it is
right: every frame can be decoded, none is missing or repeated, all have the
channels, bit depth and sample rate of the streaminfo, and the samples are as
many as it says, and have its MD5 sum. After a fault decoding goes on with the
next frame. A file that isn't right has a line for each place that isn't:
its bytes, its samples and what is wrong. Bytes A to B are those from A on
before B, and so are samples. A file that the format allows and claxon doesn't
decode, as one with an ID3v2 tag in front, or in Ogg or MP4, is not supported,
and not wrong.

  FILE       a FLAC file; - is standard input
  --no-md5   doesn't compute the MD5 sum, which takes less time
  --brief    prints the first place alone, on the line of the file
  --json     prints an object of JSON for each file, on a line
  -q, --quiet
             prints nothing about files that are right and have an MD5 sum
  -r, --recursive
             takes a folder as all files below it whose names end with .flac or
             .FLAC, in order of names; pipes and devices are passed over, and
             symbolic links to folders aren't followed
  --summary  prints last how many files are right, wrong and so on
  --places N prints at most N places of a file, 1000 without this option, and
             counts the others
  --files0-from FILE
             reads the names of the files from this file, or from standard
             input for -; each ends with a zero byte, as of find -print0
  --         ends the options
  -h, --help shows this text
  -V, --version
             shows the version

Status: 0 if all are right, 1 if one is wrong, can't be read, or the output
fails, else 3 if one isn't supported; 2 if the arguments are wrong.
",
};

/// Does what the arguments say, and returns the exit status: 0 if all files are right, 1 if one is wrong or can't be read, or
/// the output fails, else 3 if one isn't supported; or 2 for arguments that the usage line doesn't have. There is a line on
/// `output` for each file, and for each place that isn't right; or one on `errors` for a file that can't be read, unless the
/// output is JSON. A failed write to `errors` is ignored. After a failed write to `output` the other files aren't read.
pub fn command<Q: Files + AllocGlobal, I: Read + Copy, W: Write, E: Write>(
    rt: &Q,
    words: &[String],
    input: I,
    output: &mut W,
    shows_progress: bool,
    errors: &mut E,
) -> u8
where
    Q::File: Read,
{
    match parse(words) {
        Ok(VerifyRequest { files, options }) => {
            let job = Job {
                options,
                shows_progress,
            };
            let tally = match files {
                NamedFiles::Operands(names) => verify_operands(
                    rt, job, names, input, output, errors,
                ),
                NamedFiles::List(list) => verify_list(rt, job, list, input, output, errors),
            };
            finish(rt.alloc(), options.print, tally, output, errors)
        }
        Err(notice) => PROGRAM.print(rt.alloc(), notice, output, errors),
    }
}

// How files are verified.
#[derive(Clone, Copy)]
struct Job {
    options: Options,
    shows_progress: bool,
}

// A file, and where it stands among others.
#[derive(Clone, Copy)]
struct NamedFile<'a> {
    name: &'a str,
    // The files before it.
    before: Tally,
    // How many files there are, if that is known.
    total: Option<u64>,
}

// Ends a run with these files, of which None is that the output failed, and returns the exit status.
fn finish<W: Write, E: Write>(
    alloc: Global,
    options: PrintOptions,
    tally: Option<Tally>,
    output: &mut W,
    errors: &mut E,
) -> u8 {
    let Some(tally) = tally else {
        return 1;
    };
    if options.has_summary && !print_summary(alloc, tally, options, output, errors) {
        return 1;
    }
    tally.status()
}

fn verify_operands<Q: Files + AllocGlobal, I: Read + Copy, W: Write, E: Write>(
    rt: &Q,
    job: Job,
    names: FileNames<'_>,
    input: I,
    output: &mut W,
    errors: &mut E,
) -> Option<Tally>
where
    Q::File: Read,
{
    let total = if job.options.is_recursive {
        None
    } else {
        Some(names.total() as u64)
    };
    let mut before = Tally::new();
    for name in names {
        let file = NamedFile {
            name,
            before,
            total,
        };
        before = verify_named(rt, job, file, input, output, errors)?;
    }
    Some(before)
}

// The files that are named in a list.
fn verify_list<Q: Files + AllocGlobal, I: Read + Copy, W: Write, E: Write>(
    rt: &Q,
    job: Job,
    list: &str,
    input: I,
    output: &mut W,
    errors: &mut E,
) -> Option<Tally>
where
    Q::File: Read,
{
    let mut before = Tally::new();
    let mut names = match open(rt, list, input) {
        Ok(names) => names,
        Err(error) => return Some(list_failed(rt.alloc(), list, before, &error, errors)),
    };
    let mut name = Vec::new(rt.alloc());
    for _ in 0..u64::MAX {
        match read_name(&mut names, &mut name) {
            Ok(true) => {}
            Ok(false) => return Some(before),
            Err(error) => return Some(list_failed(rt.alloc(), list, before, &error, errors)),
        }
        before = match listed_name(list, name.as_slice()) {
            Ok(name) => {
                let total = None;
                let file = NamedFile {
                    name,
                    before,
                    total,
                };
                verify_named(rt, job, file, input, output, errors)?
            }
            Err(reason) => {
                let shown = escaped_bytes(rt.alloc(), name.as_slice());
                let options = job.options.print;
                before.with(print_unread(rt.alloc(), shown, reason, options, output, errors)?)
            }
        };
    }
    None
}

// Prints that a list can't be read.
fn list_failed<E: Write>(
    alloc: Global,
    list: &str,
    before: Tally,
    error: &Error,
    errors: &mut E,
) -> Tally {
    print_error(alloc, list, Part::Head, error, errors);
    before.with(Verdict::NotRead)
}

// A name of a list, or why it can't be opened. Standard input can't be the list and a file in it.
fn listed_name<'a>(list: &str, name: &'a [u8]) -> Result<&'a str, &'static str> {
    match str::from_utf8(name) {
        Ok(name) if list == STANDARD && name == STANDARD => {
            Err("standard input is the list of names")
        }
        Ok(name) => Ok(name),
        Err(_) => Err(NOT_UTF8),
    }
}

// Why a file whose name isn't UTF-8 can't be opened.
const NOT_UTF8: &str = "the name isn't UTF-8; use: claxon verify - < FILE";

// A file, or the FLAC files below a folder where these are wanted.
fn verify_named<Q: Files + AllocGlobal, I: Read + Copy, W: Write, E: Write>(
    rt: &Q,
    job: Job,
    file: NamedFile<'_>,
    input: I,
    output: &mut W,
    errors: &mut E,
) -> Option<Tally>
where
    Q::File: Read,
{
    let name = file.name;
    if let Some(shown) = not_utf8_name(name) {
        let (alloc, options) = (rt.alloc(), job.options.print);
        let shown = String::from_str(alloc, shown);
        let verdict = print_unread(alloc, shown, NOT_UTF8, options, output, errors)?;
        return Some(file.before.with(verdict));
    }
    if job.options.is_recursive && name != STANDARD && is_folder(rt, name) {
        return verify_folder(rt, job, file, input, output, errors);
    }
    verify_one(rt, job, file, input, output, errors)
}

// The FLAC files below a folder, in order of names. Symbolic links to folders aren't followed.
fn verify_folder<Q: Files + AllocGlobal, I: Read + Copy, W: Write, E: Write>(
    rt: &Q,
    job: Job,
    folder: NamedFile<'_>,
    input: I,
    output: &mut W,
    errors: &mut E,
) -> Option<Tally>
where
    Q::File: Read,
{
    let (alloc, options) = (rt.alloc(), job.options.print);
    let mut paths = Vec::new(alloc);
    let mut before = list(rt, options, folder, &mut paths, output, errors)?;
    for _ in 0..u64::MAX {
        let Some(path) = paths.pop() else {
            break;
        };
        let path = path.as_slice();
        before = match str::from_utf8(path) {
            Ok(name) => {
                let total = None;
                let entry = NamedFile {
                    name,
                    before,
                    total,
                };
                if is_real_folder(rt, name) {
                    list(rt, options, entry, &mut paths, output, errors)?
                } else if is_flac_name(name) && !is_no_file(rt, name) {
                    verify_one(rt, job, entry, input, output, errors)?
                } else {
                    before
                }
            }
            Err(_) => {
                let shown = escaped_bytes(alloc, path);
                before.with(print_unread(alloc, shown, NOT_UTF8, options, output, errors)?)
            }
        };
    }
    if before.files() > folder.before.files() {
        return Some(before);
    }
    let verdict = print_not_read(alloc, folder.name, "no FLAC files", options, output, errors)?;
    Some(before.with(verdict))
}

// Adds what lies in a folder, or prints that it can't be read.
fn list<Q: Files + AllocGlobal, W: Write, E: Write>(
    rt: &Q,
    options: PrintOptions,
    folder: NamedFile<'_>,
    paths: &mut Vec<Vec<u8>>,
    output: &mut W,
    errors: &mut E,
) -> Option<Tally> {
    match add_contents(rt, folder.name, paths) {
        Ok(()) => Some(folder.before),
        Err(error) => {
            let alloc = rt.alloc();
            let verdict = print_failure(alloc, folder.name, &error, options, output, errors)?;
            Some(folder.before.with(verdict))
        }
    }
}

// Verifies a file and prints what is said of it: None if the output fails.
fn verify_one<Q: Files + AllocGlobal, I: Read + Copy, W: Write, E: Write>(
    rt: &Q,
    job: Job,
    file: NamedFile<'_>,
    input: I,
    output: &mut W,
    errors: &mut E,
) -> Option<Tally>
where
    Q::File: Read,
{
    let (alloc, options, name) = (rt.alloc(), job.options.print, file.name);
    let verdict = match verify_shown(rt, job, file, input, errors) {
        Ok(Verified::Stream(report)) => print_report(alloc, name, &report, options, output, errors),
        Ok(Verified::Frames(head)) => {
            print_wrong_head(alloc, name, &head, options, output, errors)
        }
        Err(_) if name != STANDARD && is_folder(rt, name) => {
            print_not_read(alloc, name, IS_FOLDER, options, output, errors)
        }
        Err(error) => print_failure(alloc, name, &error, options, output, errors),
    };
    Some(file.before.with(verdict?))
}

// Why a folder isn't read.
const IS_FOLDER: &str = "Is a directory; with -r the FLAC files below it are verified";

// Verifies a file, with a line of progress.
fn verify_shown<Q: Files + AllocGlobal, I: Read + Copy, E: Write>(
    rt: &Q,
    job: Job,
    file: NamedFile<'_>,
    input: I,
    errors: &mut E,
) -> claxon::Result<Verified>
where
    Q::File: Read,
{
    let (name, total) = (file.name, file.total);
    let number = file.before.files().saturating_add(1);
    let position = Position { number, total };
    let label = if job.shows_progress {
        file_label(rt.alloc(), position, shown_name(name, Part::Frame))?
    } else {
        String::new(rt.alloc())
    };
    let shown = if job.shows_progress {
        Some(label.as_str())
    } else {
        None
    };
    let mut progress = Progress::new(errors, shown);
    let answer = verify_file(rt, job.options, name, input, &mut progress);
    progress.clear();
    answer
}

fn open<Q: Files + AllocGlobal, I: Read + Copy>(
    rt: &Q,
    name: &str,
    input: I,
) -> claxon::Result<BufferedReader<Input<Q::File, I>>>
where
    Q::File: Read,
{
    let input = open_input(rt, name, input)?;
    BufferedReader::new(rt.alloc(), input)
}

// What was found in a file.
#[derive(Drop)]
enum Verified {
    // Its head and its frames.
    Stream(Report),
    // Its frames, as the head is wrong.
    Frames(WrongHead),
}

// Verifies a file: again by its parts, if it has places and can be read again, so that damage ends where the next frame begins;
// or by its frames alone, if its head is wrong. A file in Ogg or MP4 isn't supported by this name.
fn verify_file<Q: Files + AllocGlobal, I: Read + Copy, E: Write>(
    rt: &Q,
    options: Options,
    name: &str,
    input: I,
    progress: &mut Progress<'_, '_, E>,
) -> claxon::Result<Verified>
where
    Q::File: Read,
{
    match verify_once(rt, options, name, input, progress) {
        Ok(report) if is_worth_parts(&report) && is_lasting(rt, name) => {
            match verify_again(rt, options, name, input, progress) {
                Ok(again) if !again.is_right => Ok(Verified::Stream(again)),
                _ => Ok(Verified::Stream(report)),
            }
        }
        Ok(report) => Ok(Verified::Stream(report)),
        Err(error) if is_wrong(&error) && is_lasting(rt, name) => {
            match verify_without_head(rt, options, name, input, progress) {
                Ok(Some(frames)) => Ok(Verified::Frames(WrongHead { error, frames })),
                _ => Err(error),
            }
        }
        Err(error) => Err(error),
    }
}

// Verifies a file, which is read once.
fn verify_once<Q: Files + AllocGlobal, I: Read + Copy, E: Write>(
    rt: &Q,
    options: Options,
    name: &str,
    input: I,
    progress: &mut Progress<'_, '_, E>,
) -> claxon::Result<Report>
where
    Q::File: Read,
{
    let mut source = open_input(rt, name, input)?;
    let front = front_of(rt.alloc(), &mut source)?;
    let format = container(front.as_slice());
    let mut source = BufferedReader::new(rt.alloc(), Cursor::new(front).chain(source))?;
    match verify(
        rt.alloc(),
        &mut source,
        options.computes_md5,
        options.more_places,
        progress,
    ) {
        Err(Error::FormatError(_)) if let Some(format) = format => Err(Error::Unsupported(format)),
        answer => answer,
    }
}

// Whether a file can be read again by its name.
fn is_lasting<Q: Files>(rt: &Q, name: &str) -> bool {
    name != STANDARD && !is_no_file(rt, name)
}

// Whether an error says that a head is wrong, and not that it isn't supported or can't be read.
fn is_wrong(error: &Error) -> bool {
    matches!(Verdict::of_error(error), Verdict::Wrong)
}

// Whether a stream that could be read has a place that isn't right, where a fault may be in any, and its frames are small.
fn is_worth_parts(report: &Report) -> bool {
    report.found.places.first.is_some()
        && !report.found.notes.has_failed_read
        && has_small_frames(&report.info)
}

// How many bytes a frame may have in a file that is verified by its parts. So many are held twice, beside the samples of a block:
// with more, 4 MiB of memory wouldn't do.
const MAX_FRAME: usize = 512 * 1024;

// Whether a frame of the largest block has no more bytes, though its samples, and those of a side channel, are verbatim.
fn has_small_frames(info: &StreamInfo) -> bool {
    let samples = info.max_block_size as usize * info.channels.min(8) as usize;
    samples * (info.bits_per_sample.min(32) as usize + 1) / 8 <= MAX_FRAME
}

// Verifies a file by its parts.
fn verify_again<Q: Files + AllocGlobal, I: Read + Copy, E: Write>(
    rt: &Q,
    options: Options,
    name: &str,
    input: I,
    progress: &mut Progress<'_, '_, E>,
) -> claxon::Result<Report>
where
    Q::File: Read,
{
    let mut source = open(rt, name, input)?;
    verify_parts(
        rt.alloc(),
        &mut source,
        options.computes_md5,
        options.more_places,
        progress,
    )
}

// Verifies the frames of a file whose head is wrong, by the format of the first one that says it; None if there is none, or they
// may be large.
fn verify_without_head<Q: Files + AllocGlobal, I: Read + Copy, E: Write>(
    rt: &Q,
    options: Options,
    name: &str,
    input: I,
    progress: &mut Progress<'_, '_, E>,
) -> claxon::Result<Option<Report>>
where
    Q::File: Read,
{
    let Some(info) = find_format(rt.alloc(), open(rt, name, input)?)? else {
        return Ok(None);
    };
    if !has_small_frames(&info) {
        return Ok(None);
    }
    let mut source = open(rt, name, input)?;
    let report = verify_frames(rt.alloc(), &mut source, info, options.more_places, progress)?;
    if report.found.frames == 0 {
        return Ok(None);
    }
    Ok(Some(report))
}

// What the first frame that says its whole format itself says of its stream, if there is one.
fn find_format<R: ReadBytes>(alloc: Global, source: R) -> claxon::Result<Option<StreamInfo>>
where
    R: Drop,
    ensures { IfOk result (λ found. IfSome found HasBitDepth) }
{
    let mut parts = Parts::new(alloc, source, None, 0)?;
    match parts.next_frame()? {
        Some(there) => Ok(Some(info_of_frame(&there.frame.info))),
        None => Ok(None),
    }
}

// The first bytes of an input: as many as a `BufferedReader` reads. A read that fails is left to be tried again.
fn front_of<R: Read>(alloc: Global, input: &mut R) -> claxon::Result<Vec<u8>> {
    let mut front = Vec::new(alloc);
    front.resize(2048, 0u8)?;
    let length = input.read(front.as_mut_slice()).unwrap_or(0);
    front.truncate(length);
    Ok(front)
}
