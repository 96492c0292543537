//! The command `trace`: the result of each call of the decoder for a file, going on after errors.
ghost use Rattle.std.specs.Prelude.{◌≤◌};

use claxon::input::ReadBytes;
use claxon::metadata::StreamInfo;
use claxon::{Block, Error, FlacReader, Result};
use claxon_blocks::frames::read_block;
use claxon_command_line::arguments::{Argument, Arguments, Notice};
use claxon_command_line::fnv::{OFFSET_BASIS, hash_on};
use claxon_command_line::input::{STANDARD, open_input};
use claxon_command_line::messages::{Part, print_error, print_message};
use claxon_command_line::names::not_utf8_name;
use claxon_command_line::result_text::ResultText;
use claxon_command_line::text::count_text;
use claxon_program::Program;
use std::alloc::{AllocError, Allocator, Global};
use std::io::{BufWriter, Read, Write};
use std::result;
use std::rt::Files;

/// What the command says about itself.
pub const PROGRAM: Program = Program {
    name: "claxon trace",
    arguments: "[--brief] [--faults N] FILE",
    commands: &[],
    help: "Shows what each frame of a FLAC file is decoded to, for bug reports: a line for the
head, and one for the result of each call for a block, a fault too, after which
the next call is made.

  FILE        a FLAC file; - is standard input
  --brief     one line for a run of the same fault, with its number
  --faults N  stops after N faults, 0 for never: 10000 by default, or never with
              --brief
  --          ends the options
  -h, --help  shows this text
  -V, --version
              shows the version

Status: 0 if there was no fault, 1 if there was one, the file can't be read, or
the output fails; 2 if the arguments are wrong.
",
};

// In garbage each pair of bytes is an error.
const MAX_FAULTS: u64 = 10_000;

/// Does what the arguments say, and returns the exit status: 0 without faults; 1 with faults, or if the file or the output
/// fails, which has a line on `errors`; 2 for arguments that the usage line doesn't have. A failed write to `errors` is
/// ignored.
pub fn command<Q: Files + AllocGlobal, I: Read + Copy, W: Write + Drop, E: Write>(
    rt: &Q,
    words: &[String],
    input: I,
    output: W,
    errors: &mut E,
) -> u8 {
    match parse(words) {
        Ok(request) => run(rt, request, input, output, errors),
        Err(notice) => {
            let mut output = output;
            PROGRAM.print(rt.alloc(), notice, &mut output, errors)
        }
    }
}

// What a command line asks for. After `max_faults` faults the trace stops; 0 is never.
#[derive(Clone, Copy)]
struct TraceRequest<'a> {
    name: &'a str,
    max_faults: u64,
    is_brief: bool,
}

fn parse<'a>(words: &'a [String]) -> result::Result<TraceRequest<'a>, Notice<'a>> {
    let mut arguments = Arguments::new(words);
    let (mut name, mut max_faults, mut is_brief) = (None, None, false);
    while let Some(argument) = arguments.next() {
        match argument {
            Argument::Option("--brief") => is_brief = true,
            Argument::Option("--faults") => max_faults = Some(number(arguments.value())?),
            Argument::Option(option) => return Err(Notice::of_option(option)),
            Argument::Operand(operand) if not_utf8_name(operand).is_some() => return Err(
                Notice::NotUtf8,
            ),
            Argument::Operand(operand) if name.is_none() => name = Some(operand),
            Argument::Operand(_) => return Err(Notice::Usage),
        }
    }
    let max_faults = max_faults.unwrap_or(if is_brief { 0 } else { MAX_FAULTS });
    match name {
        Some(name) => Ok(TraceRequest {
            name,
            max_faults,
            is_brief,
        }),
        None => Err(Notice::Usage),
    }
}

fn number<'a>(word: Option<&str>) -> result::Result<u64, Notice<'a>> {
    match word {
        Some(word) => match word.parse::<u64>() {
            Ok(number) => Ok(number),
            Err(_) => Err(Notice::Usage),
        },
        None => Err(Notice::Usage),
    }
}

fn run<Q: Files + AllocGlobal, I: Read + Copy, W: Write + Drop, E: Write>(
    rt: &Q,
    request: TraceRequest<'_>,
    input: I,
    output: W,
    errors: &mut E,
) -> u8 {
    match open_input(rt, request.name, input) {
        Ok(input) => {
            let outcome = trace_to(rt.alloc(), request, input, output);
            trace_status(rt.alloc(), request, outcome, errors)
        }
        Err(cause) => {
            let error = Error::IoError(cause);
            print_error(rt.alloc(), request.name, Part::Head, &error, errors);
            1
        }
    }
}

fn trace_to<R: Read + Drop, W: Write + Drop>(
    alloc: Global,
    request: TraceRequest<'_>,
    input: R,
    output: W,
) -> Result<Ending> {
    let mut output = BufWriter::new(alloc, output)?;
    let ending = trace(alloc, request, input, &mut output)?;
    output.flush()?;
    Ok(ending)
}

// Prints how the trace ended, and returns the exit status.
fn trace_status<E: Write>(
    alloc: Global,
    request: TraceRequest<'_>,
    outcome: Result<Ending>,
    errors: &mut E,
) -> u8 {
    match outcome {
        Ok(Ending::Clean) => return 0,
        Ok(Ending::Faulty) => {}
        Ok(Ending::Failed(part, error)) => print_error(alloc, request.name, part, &error, errors),
        Ok(Ending::Stopped) => {
            let text = stopped_text(alloc, request.max_faults);
            print_message(alloc, request.name, Part::Frame, text, errors);
        }
        Err(error) => print_error(alloc, STANDARD, Part::Output, &error, errors),
    }
    1
}

fn stopped_text(alloc: Global, faults: u64) -> result::Result<String, AllocError> {
    let counted = count_text(alloc, faults, "fault")?;
    format!(in alloc; "stopped after {counted}")
}

// How a trace ended.
#[derive(Drop)]
enum Ending {
    // There was no error.
    Clean,
    // There were errors, and the last result was the end or the error of the head.
    Faulty,
    // The last result was an error that isn't a fault of the stream.
    Failed(Part, Error),
    // The limit of errors was reached, and the stream may go on.
    Stopped,
}

// The end after a last error.
fn ending_of(part: Part, error: Error) -> Ending {
    match error {
        Error::IoError(_) | Error::OutOfMemory => Ending::Failed(part, error),
        _ => Ending::Faulty,
    }
}

// Writes a line for the head and one for each call that reads a block, going on after errors until the end, an `IoError`, or
// the number of errors after which to stop. An error is the output's.
fn trace<R: Read + Drop, W: Write>(
    alloc: Global,
    request: TraceRequest<'_>,
    input: R,
    output: &mut W,
) -> Result<Ending> {
    match FlacReader::new(alloc, input) {
        Ok(flac) => trace_stream(alloc, request, flac, output),
        Err(error) => {
            let mut line = fault_label(alloc, &error);
            line.text("\n");
            line.write_to(output)?;
            Ok(ending_of(Part::Head, error))
        }
    }
}

fn trace_stream<R: Read + Drop, W: Write>(
    alloc: Global,
    request: TraceRequest<'_>,
    flac: FlacReader<R>,
    output: &mut W,
) -> Result<Ending> {
    let mut flac = flac;
    let info = flac.streaminfo();
    head_line(alloc, &info).write_to(output)?;
    let mut faults = Faults::new(alloc, request.is_brief);
    let ending = trace_frames(
        alloc,
        request.max_faults,
        flac.input(),
        info,
        &mut faults,
        output,
    );
    let last = faults.write_last(output);
    let ending = ending?;
    last?;
    Ok(ending)
}

fn trace_frames<R: ReadBytes, W: Write>(
    alloc: Global,
    max_faults: u64,
    input: &mut R,
    info: StreamInfo,
    faults: &mut Faults,
    output: &mut W,
) -> Result<Ending>
    requires min_bit_depth { 1 ≤ info.bits_per_sample }
    requires max_bit_depth { info.bits_per_sample ≤ 32 }
{
    for _ in 0..u64::MAX {
        match read_block(input, info, Vec::new(alloc)) {
            Ok(Some(block)) => faults.write_line(block_line(alloc, &block), output)?,
            Ok(None) => {
                faults.write_line(end_line(alloc), output)?;
                break;
            }
            Err(fault) => {
                faults.write_fault(fault_label(alloc, &fault.error), output)?;
                if let Error::IoError(_) = fault.error {
                    return Ok(ending_of(Part::Frame, fault.error));
                }
                if faults.count == max_faults {
                    return Ok(Ending::Stopped);
                }
            }
        }
    }
    Ok(if faults.count == 0 {
        Ending::Clean
    } else {
        Ending::Faulty
    })
}

// The faults so far.
#[derive(Drop)]
struct Faults {
    count: u64,
    // Whether a run of the same fault takes one line: the last text, and how often it came without being written yet.
    is_brief: bool,
    last: ResultText,
    repeats: u64,
}

impl Faults {
    fn new(alloc: Global, is_brief: bool) -> Faults {
        Faults {
            count: 0,
            is_brief,
            last: ResultText::new(alloc),
            repeats: 0,
        }
    }

    // Writes a line that isn't a fault's.
    fn write_line<W: Write>(&mut self, line: ResultText, output: &mut W) -> Result<()> {
        self.write_last(output)?;
        line.write_to(output)
    }

    // Counts a fault, and writes its text, or keeps it until another line comes.
    fn write_fault<W: Write>(&mut self, text: ResultText, output: &mut W) -> Result<()> {
        self.count = self.count.saturating_add(1);
        if self.is_brief && self.repeats > 0 && self.last.as_bytes() == text.as_bytes() {
            self.repeats = self.repeats.saturating_add(1);
            return Ok(());
        }
        self.write_last(output)?;
        self.last = text;
        self.repeats = 1;
        if self.is_brief {
            return Ok(());
        }
        self.write_last(output)
    }

    // Writes the line of a fault that isn't written yet.
    fn write_last<W: Write>(&mut self, output: &mut W) -> Result<()> {
        if self.repeats == 0 {
            return Ok(());
        }
        if self.repeats > 1 {
            self.last.counts(&[(", ", self.repeats)]);
            self.last.text(" times");
        }
        self.last.text("\n");
        self.repeats = 0;
        self.last.write_to(output)
    }
}

fn end_line(alloc: Global) -> ResultText {
    let mut line = ResultText::new(alloc);
    line.text("end\n");
    line
}

fn fault_label(alloc: Global, error: &Error) -> ResultText {
    let mut text = ResultText::new(alloc);
    text.text("fault ");
    text.fault(error);
    text
}

fn head_line(alloc: Global, info: &StreamInfo) -> ResultText {
    let mut line = ResultText::new(alloc);
    line.text("head ");
    line.streaminfo(info);
    line.text("\n");
    line
}

fn block_line<A: Allocator>(alloc: Global, block: &Block<A>) -> ResultText {
    let mut hash = OFFSET_BASIS;
    for ch in 0..block.channels() {
        hash = hash_on(hash, block.channel(ch));
    }
    let mut line = ResultText::new(alloc);
    line.counts(&[
        ("block time ", block.time()),
        (" channels ", u64::from(block.channels())),
        (" duration ", u64::from(block.duration())),
    ]);
    line.text(" fnv ");
    line.hexadecimal(&hash.to_be_bytes());
    line.text("\n");
    line
}
