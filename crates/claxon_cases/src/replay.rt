//! Lines `number length bytes: answer`, in which the number is a bit depth, a type or a choice of options, and the bytes are
//! hexadecimal.
use crate::answers::AnswerText;
use crate::blocks::answer_of_block;
use crate::frames::answer_of_frames;
use crate::streams::answer_of_stream;
use crate::subframes::answer_of_subframe;
use claxon::Result;
use claxon_command_line::result_text::ResultText;
use std::alloc::Global;
use std::io::Write;

/// The kind of the lines of a file.
#[derive(Clone, Copy)]
pub enum Kind {
    /// A subframe with a bit depth and a number of samples.
    Subframe,
    /// A metadata block with a type and a number of bytes.
    Block,
    /// Frames with a bit depth and a maximum block size, or zeros if neither is known. There are as many calls as answers.
    Frame,
    /// A stream with options, and a number of samples to print.
    Stream,
}

/// A line without its answer.
#[derive(Drop)]
pub struct Case {
    pub number: u32,
    pub length: u32,
    pub bytes: Vec<u8>,
}

/// Prints each line with another answer, and the number of lines that agree.
pub fn replay<W: Write>(
    alloc: Global,
    kind: Kind,
    name: &str,
    lines: &str,
    output: &mut W,
) -> Result<()> {
    let mut report = ResultText::new(alloc);
    let agreeing = compare_lines(alloc, kind, name, lines, &mut report);
    output.write_all(report.as_bytes())?;
    writeln!(output, "{name} {agreeing} lines agree")?;
    Ok(())
}

// Reports each line with another answer, and returns the number of lines that agree.
fn compare_lines(
    alloc: Global,
    kind: Kind,
    name: &str,
    lines: &str,
    report: &mut ResultText,
) -> u32 {
    let mut agreeing = 0u32;
    for line in lines.lines() {
        if is_answered(alloc, kind, name, line, report) {
            agreeing = agreeing.wrapping_add(1);
        }
    }
    agreeing
}

fn is_answered(alloc: Global, kind: Kind, name: &str, line: &str, report: &mut ResultText) -> bool {
    let Some((text, want)) = line.split_once(": ") else {
        report.parts(&[name, ": no answer: ", line, "\n"]);
        return false;
    };
    let answer = answer_of(alloc, kind, text, want);
    let agrees = answer.as_bytes() == want.as_bytes();
    if !agrees {
        report.parts(&[name, ": ", text, ": "]);
        report.bytes(answer.as_bytes());
        report.parts(&[", and not ", want, "\n"]);
    }
    agrees
}

// The decoder's result, in the form of a line's answer.
fn answer_of(alloc: Global, kind: Kind, text: &str, want: &str) -> ResultText {
    let mut answer = ResultText::new(alloc);
    let Some(case) = read_case(alloc, text) else {
        answer.text("no case");
        return answer;
    };
    match kind {
        Kind::Subframe => answer_of_subframe(alloc, &case, &mut answer),
        Kind::Block => answer_of_block(alloc, &case, &mut answer),
        Kind::Frame => answer_of_frames(alloc, &case, want.split('|').count(), &mut answer),
        Kind::Stream => answer_of_stream(alloc, &case, &mut answer),
    }
    answer
}

// None also if memory is refused.
fn read_case(alloc: Global, text: &str) -> Option<Case> {
    let mut words = text.split(' ');
    let number = words.next()?.parse::<u32>().ok()?;
    let length = words.next()?.parse::<u32>().ok()?;
    let bytes = read_bytes(alloc, words.next()?)?;
    Some(Case {
        number,
        length,
        bytes,
    })
}

fn read_bytes(alloc: Global, digits: &str) -> Option<Vec<u8>> {
    let mut bytes = Vec::new(alloc);
    for pair in digits.as_bytes().chunks_exact(2) {
        bytes.push(value_of(pair[0]) << 4 | value_of(pair[1])).ok()?;
    }
    Some(bytes)
}

// The value of a hexadecimal digit.
fn value_of(digit: u8) -> u8 {
    match digit {
        b'a'..=b'f' => digit - b'a' + 10,
        _ => digit & 0b1111,
    }
}
