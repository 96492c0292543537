//! The command `wav`: a FLAC file as a WAV file.
ghost use Rattle.std.specs.Prelude.{◌≡◌, false};
ghost use Rattle.claxon.specs.FlacReader.{flac_metadata_only};
ghost use Rattle.claxon_commands.specs.WavStatus.{status_after};
ghost use Rattle.claxon_wav.specs.Conversion.{ConversionIsSound};

use crate::counted::CountedReader;
use crate::rescue::rescue_status;
use claxon::FlacReader;
use claxon::input::ReadBytes;
use claxon::metadata::StreamInfo;
use claxon_command_line::arguments::{Argument, Arguments, Notice};
use claxon_command_line::input::{Input, STANDARD, open_input};
use claxon_command_line::messages::{Part, print_error, print_message};
use claxon_command_line::names::not_utf8_name;
use claxon_command_line::progress::Progress;
use claxon_command_line::text::count_text;
use claxon_program::Program;
use claxon_recovery::Parts;
use claxon_rescue::{RescueOptions, Rescued, rescue_file};
use claxon_verdict::text::frame_text;
use claxon_wav::{Conversion, Error, Mismatch, Plan, Result, write_file, write_stream};
use std::alloc::{AllocError, Global};
use std::cell::Cell;
use std::fs::OpenFile;
use std::io::{self, ErrorKind, Read, Write};
use std::os::unix::fs::MetadataExt;
use std::path::Path;
use std::rc::Rc;
use std::rt::Files;
use std::{fs, result};

/// What the command says about itself.
pub const PROGRAM: Program = Program {
    name: "claxon wav",
    arguments: "[-f] [--no-md5] [--through-damage | --skip-damage] FILE [OUT.wav]",
    commands: &[],
    help: "Converts a FLAC file to a WAV file.

  FILE       the FLAC file; - is standard input
  OUT.wav    the WAV file; - is standard output. Without it: FILE with .wav as its
             extension, or standard output for standard input
  -f         replaces OUT.wav if it exists
  --no-md5   doesn't compute the MD5 sum, which takes less time
  --through-damage
             goes on after damage: writes the samples of each whole frame at
             their time, and silence where samples are missing
  --skip-damage
             the same, with nothing in place of samples that are missing
  --         ends the options
  -h, --help shows this text
  -V, --version
             shows the version

Samples before a fault are written too. Another number of samples than in the
streaminfo is a fault, and so is another MD5 sum, if the streaminfo has one. All
samples are written then. With --through-damage or --skip-damage, whose output
is a file, there is a line for each range of samples that aren't written, and
one of how many are missing in all.

Status: 0 if there was no fault, 1 if there was one, or samples weren't written,
2 if the arguments are wrong.
",
};

/// Does what the arguments say, and returns the exit status: 0, 1 for a fault, which has a line on `errors`, or 2 for
/// arguments that the usage line doesn't have. A failed write to `errors` is ignored.
pub fn command<Q: Files + AllocGlobal, I: Read + Copy, W: Write + Drop, E: Write>(
    rt: &Q,
    words: &[String],
    input: I,
    output: W,
    shows_progress: bool,
    errors: &mut E,
) -> u8 {
    match parse(words, shows_progress) {
        Ok(request) => convert_request(rt, request, input, output, errors),
        Err(notice) => {
            let mut output = output;
            PROGRAM.print(rt.alloc(), notice, &mut output, errors)
        }
    }
}

// What a command line asks for.
#[derive(Clone, Copy)]
struct WavRequest<'a> {
    // The name of the input.
    from: &'a str,
    // The name of the output, if it is given.
    to: Option<&'a str>,
    // The output may exist.
    replaces: bool,
    computes_md5: bool,
    // Whether it goes on after damage, and if so, whether it writes silence where samples are missing.
    fills_gaps: Option<bool>,
    shows_progress: bool,
}

fn parse<'a>(
    words: &'a [String],
    shows_progress: bool,
) -> result::Result<WavRequest<'a>, Notice<'a>> {
    let mut arguments = Arguments::new(words);
    let (mut from, mut to) = (None, None);
    let (mut replaces, mut computes_md5, mut fills_gaps) = (false, true, None);
    while let Some(argument) = arguments.next() {
        match argument {
            Argument::Option("-f") => replaces = true,
            Argument::Option("--no-md5") => computes_md5 = false,
            Argument::Option("--through-damage") if fills_gaps.is_none() => fills_gaps = Some(true),
            Argument::Option("--skip-damage") if fills_gaps.is_none() => fills_gaps = Some(false),
            Argument::Option("--through-damage" | "--skip-damage") => return Err(Notice::Usage),
            Argument::Option(option) => return Err(Notice::of_option(option)),
            Argument::Operand(name) if not_utf8_name(name).is_some() => return Err(Notice::NotUtf8),
            Argument::Operand(name) if from.is_none() => from = Some(name),
            Argument::Operand(name) if to.is_none() => to = Some(name),
            Argument::Operand(_) => return Err(Notice::Usage),
        }
    }
    match from {
        Some(from) => Ok(WavRequest {
            from,
            to,
            replaces,
            computes_md5,
            fills_gaps,
            shows_progress,
        }),
        None => Err(Notice::Usage),
    }
}

// Names the output, and converts.
fn convert_request<Q: Files + AllocGlobal, I: Read + Copy, W: Write + Drop, E: Write>(
    rt: &Q,
    request: WavRequest<'_>,
    input: I,
    output: W,
    errors: &mut E,
) -> u8 {
    match output_name(rt.alloc(), request) {
        Ok(to) => match request.fills_gaps {
            Some(fills_gaps) => rescue(rt, request, to.as_str(), fills_gaps, input, errors),
            None => convert_file(rt, request, to.as_str(), input, output, errors),
        },
        Err(error) => {
            let error = claxon::Error::from(error);
            print_error(rt.alloc(), request.from, Part::Head, &error, errors);
            1
        }
    }
}

// The name of the output: the one that is given, or that of the input with another extension.
fn output_name(alloc: Global, request: WavRequest<'_>) -> result::Result<String, AllocError> {
    match request.to {
        Some(to) => String::from_str(alloc, to),
        None if request.from == STANDARD => String::from_str(alloc, STANDARD),
        None => Ok(
            Path::new(request.from)
                .with_extension(alloc, "wav")?
                .into_string(),
        ),
    }
}

// How a line of progress begins, if there is one.
fn progress_label<'a>(request: WavRequest<'_>) -> Option<&'a str> {
    if request.shows_progress {
        Some("")
    } else {
        None
    }
}

// The output is created after the head is read, so that a fault there leaves an existing file as it is.
fn convert_file<Q: Files + AllocGlobal, I: Read + Copy, W: Write + Drop, E: Write>(
    rt: &Q,
    request: WavRequest<'_>,
    to: &str,
    input: I,
    output: W,
    errors: &mut E,
) -> u8 {
    let opened = match open_input(rt, request.from, input) {
        Ok(input) => FlacReader::new(rt.alloc(), input),
        Err(error) => Err(claxon::Error::IoError(error)),
    };
    match opened {
        Ok(mut flac) => {
            let info = flac.streaminfo();
            let mut progress = Progress::new(errors, progress_label(request));
            progress.start(info.samples);
            let outcome = write_wav(rt, request, to, &mut flac, output, &mut progress);
            progress.end();
            conversion_status(rt.alloc(), request.from, to, &info, outcome, errors)
        }
        Err(error) => {
            print_error(rt.alloc(), request.from, Part::Head, &error, errors);
            1
        }
    }
}

// Writes what is whole of a damaged file, as `convert_file` does of one that isn't.
fn rescue<Q: Files + AllocGlobal, I: Read + Copy, E: Write>(
    rt: &Q,
    request: WavRequest<'_>,
    to: &str,
    fills_gaps: bool,
    input: I,
    errors: &mut E,
) -> u8 {
    match open_counted(rt, request.from, input) {
        Ok((mut flac, start)) => {
            let options = RescueOptions {
                start,
                fills_gaps,
                max_ranges: MAX_RANGES,
            };
            let info = flac.streaminfo();
            let mut progress = Progress::new(errors, progress_label(request));
            progress.start(info.samples);
            let outcome = write_rescued(rt, request, to, &mut flac, options, &mut progress);
            progress.end();
            rescue_status(rt.alloc(), request.from, to, &info, outcome, errors)
        }
        Err(error) => {
            print_error(rt.alloc(), request.from, Part::Head, &error, errors);
            1
        }
    }
}

// Opens a file, and tells the position of the first byte after its head.
fn open_counted<Q: Files + AllocGlobal, I: Read + Copy>(
    rt: &Q,
    name: &str,
    input: I,
) -> claxon::Result<(FlacReader<CountedReader<Input<Q::File, I>>>, u64)> {
    let count = Rc::new(rt.alloc(), Cell::new(0))?;
    let reader = match open_input(rt, name, input) {
        Ok(input) => CountedReader::new(input, count.clone()?),
        Err(error) => return Err(claxon::Error::IoError(error)),
    };
    let mut flac = FlacReader::new(rt.alloc(), reader)?;
    let buffered = flac.input().buffered().len() as u64;
    Ok((flac, count.get().wrapping_sub(buffered)))
}

// How many ranges of samples that aren't written have a line.
const MAX_RANGES: usize = 1000;

// Writes the WAV file of a damaged one. Its header may have to be corrected, so it has to be a file.
fn write_rescued<Q: Files + AllocGlobal, R: Read + Drop, E: Write>(
    rt: &Q,
    request: WavRequest<'_>,
    to: &str,
    flac: &mut FlacReader<R>,
    options: RescueOptions,
    progress: &mut Progress<'_, '_, E>,
) -> Result<Rescued> {
    let plan = Plan::of_stream(flac, request.computes_md5)?;
    let info = flac.streaminfo();
    if to == STANDARD {
        return Err(Error::from(io::Error::from(ErrorKind::NotSeekable)));
    }
    let mut file = create(rt, request, to)?;
    if !is_regular(&file) {
        return Err(Error::from(io::Error::from(ErrorKind::NotSeekable)));
    }
    let mut parts = Parts::new(rt.alloc(), flac.input(), Some(info), options.start)?;
    rescue_file(
        rt.alloc(),
        &mut parts,
        info,
        &mut file,
        plan,
        options,
        progress,
    )
}

// Writes the WAV file.
fn write_wav<Q: Files + AllocGlobal, R: Read + Drop, W: Write + Drop, E: Write>(
    rt: &Q,
    request: WavRequest<'_>,
    to: &str,
    flac: &mut FlacReader<R>,
    mut output: W,
    progress: &mut Progress<'_, '_, E>,
) -> Result<Conversion>
    requires { flac_metadata_only flac.old ≡ false }
    ensures is_sound { ConversionIsSound request.entry.computes_md5 R.remaining flac.old result }
{
    let plan = Plan::of_stream(flac, request.computes_md5)?;
    let alloc = rt.alloc();
    if to == STANDARD {
        return write_stream(alloc, flac, &mut output, plan, progress);
    }
    let mut file = create(rt, request, to)?;
    if is_regular(&file) {
        return write_file(alloc, flac, &mut file, plan, progress);
    }
    write_stream(alloc, flac, &mut file, plan, progress)
}

// That the MD5 sum of the samples is another one.
const OTHER_MD5: &str = "the MD5 sum of the samples isn't that of the streaminfo";

// What the streaminfo says otherwise than so many samples.
fn mismatch_text(
    alloc: Global,
    mismatch: Mismatch,
    found: u32,
) -> result::Result<String, AllocError> {
    match mismatch {
        Mismatch::Samples(known) => samples_text(alloc, known, found),
        Mismatch::Md5 => String::from_str(alloc, OTHER_MD5),
    }
}

// That another number of samples was found than the streaminfo says.
fn samples_text(alloc: Global, known: u64, found: u32) -> result::Result<String, AllocError> {
    let counted = count_text(alloc, u64::from(found), "sample")?;
    let were = if found == 1 { "was" } else { "were" };
    format!(in alloc; "{counted} {were} found, but the streaminfo says {known}")
}

// Prints what went wrong, and returns the exit status.
pub(crate) fn conversion_status<E: Write>(
    alloc: Global,
    from: &str,
    to: &str,
    info: &StreamInfo,
    outcome: Result<Conversion>,
    errors: &mut E,
) -> u8
    ensures { result ≡ status_after info.now.samples outcome }
{
    match outcome {
        Ok(conversion) => {
            let Some(mismatch) = conversion.mismatch(info) else {
                return 0;
            };
            let text = mismatch_text(alloc, mismatch, conversion.samples);
            print_message(alloc, from, Part::Head, text, errors);
            1
        }
        Err(error) => {
            print_conversion_error(alloc, from, to, error, errors);
            1
        }
    }
}

fn print_conversion_error<E: Write>(
    alloc: Global,
    from: &str,
    to: &str,
    error: Error,
    errors: &mut E,
) {
    match error {
        Error::Claxon(error) => {
            print_message(alloc, from, Part::Frame, frame_text(alloc, &error), errors);
        }
        Error::Output(cause) => {
            let error = claxon::Error::IoError(cause);
            print_error(alloc, to, Part::Output, &error, errors);
        }
        error => {
            let (name, part) = match error {
                Error::SameFile | Error::Exists => (to, Part::Output),
                _ => (from, Part::Frame),
            };
            print_message(alloc, name, part, format!(in alloc; "{error}"), errors);
        }
    }
}

// Creates the output. A device or a pipe holds nothing that could be lost, so its name may exist.
fn create<Q: Files>(rt: &Q, request: WavRequest<'_>, to: &str) -> Result<Q::File> {
    if is_same_file(rt, request.from, to) {
        return Err(Error::SameFile);
    }
    if !request.replaces && Path::new(to).is_file(rt) {
        return Err(Error::Exists);
    }
    Ok(fs::create(rt, to)?)
}

// Whether an open file can seek, as far as its type tells.
fn is_regular<F: OpenFile>(file: &F) -> bool {
    match file.metadata() {
        Ok(metadata) => metadata.is_file(),
        Err(_) => false,
    }
}

// Creating the output would empty the input.
fn is_same_file<Q: Files>(rt: &Q, from: &str, to: &str) -> bool {
    let from = if from == STANDARD { "/dev/stdin" } else { from };
    match (fs::metadata(rt, from), fs::metadata(rt, to)) {
        (Ok(from), Ok(to)) => from.ino() != 0 && from.ino() == to.ino() && from.dev() == to.dev(),
        _ => false,
    }
}
