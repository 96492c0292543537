//! The arguments of a command: options, and names of files.
ghost use Rattle.std.specs.Prelude.{◌≡◌, ◌≤◌, IsOkUnless};
ghost use Rattle.claxon_input.specs.declared.error.Error.TheVariants.{OutOfMemory};

use crate::names::word_of;
use claxon_input::error::{Error, Result};
use std::alloc::Alloc;
use std::env::FillError;
use std::io::ErrorKind;
use std::rt::Env;
use std::{env, result};

/// The arguments after the program's name, or None if one of them isn't UTF-8.
///
/// # Errors
///
/// Only `OutOfMemory`.
pub fn words<Q: Env + Alloc>(rt: &Q) -> Result<Option<Vec<String<Q::A>, Q::A>>>
    ensures { IsOkUnless result OutOfMemory }
{
    match env::args(rt) {
        Ok(words) => Ok(Some(words.skip(1).collect(rt.alloc())?)),
        Err(error) if error.kind() == ErrorKind::InvalidData => Ok(None),
        Err(_) => Err(Error::OutOfMemory),
    }
}

/// The arguments after the program's name, each as `word_of` has it.
///
/// # Errors
///
/// Only `OutOfMemory`.
pub fn all_words<Q: Env + AllocGlobal>(rt: &Q) -> Result<Vec<String>>
    ensures { IsOkUnless result OutOfMemory }
{
    let mut words = Vec::new(rt.alloc());
    for index in 1..usize::MAX {
        let Some(argument) = argument_bytes(rt, index)? else {
            break;
        };
        words.push(word_of(rt.alloc(), argument.as_slice())?)?;
    }
    Ok(words)
}

// The bytes of an argument, or None if there are no more.
fn argument_bytes<Q: Env + AllocGlobal>(rt: &Q, index: usize) -> Result<Option<Vec<u8>>>
    ensures { IsOkUnless result OutOfMemory }
{
    let mut size = 256usize;
    for _ in 0..usize::BITS {
        let mut bytes = Vec::new(rt.alloc());
        bytes.resize(size, 0u8)?;
        match rt.arg(index, bytes.as_mut_slice()) {
            Ok(length) => {
                bytes.truncate(length);
                return Ok(Some(bytes));
            }
            Err(FillError::NotPresent) => return Ok(None),
            Err(FillError::TooLong) => size = size.saturating_mul(2),
        }
    }
    Err(Error::OutOfMemory)
}

/// An argument.
pub enum Argument<'a> {
    /// A word that begins with `-`, but for `-` itself. There is none after the word `--`.
    Option(&'a str),

    /// Any other word, as the name of a file, or `-` for a standard stream.
    Operand(&'a str),
}

/// The arguments of a command line, in order. The first word `--` isn't one: it ends the options.
#[derive(Drop)]
pub struct Arguments<'a> {
    words: &'a [String],
    has_options: bool,
}

impl<'a> Arguments<'a> {
    ghost use Rattle.std.specs.Prelude.{map};
    ghost use Rattle.std.specs.String.{string_bytes};
    ghost use Rattle.claxon_command_line.specs.Arguments.{
      AreArgumentsOf,
      NextIsSound,
      TakesWord,
      ValueIsSound,
      words_left,
      words_of,
    };

    /// All arguments of these words.
    pub fn new(words: &'a [String]) -> Arguments<'a>
        ensures are_arguments_of { AreArgumentsOf words.now result }
    {
        Arguments {
            words,
            has_options: true,
        }
    }

    /// The next argument.
    pub fn next(&mut self) -> Option<Argument<'a>>
        ensures is_sound { NextIsSound self.old result self.new }
        ensures takes_word { TakesWord result self.old self.new }
    {
        let word = self.value()?;
        if !self.has_options {
            return Some(Argument::Operand(word));
        }
        match word.as_bytes() {
            b"--" => {
                self.has_options = false;
                Some(Argument::Operand(self.value()?))
            }
            [b'-', _, ..] => Some(Argument::Option(word)),
            _ => Some(Argument::Operand(word)),
        }
    }

    /// The next word, whatever it is, as the value of an option.
    pub fn value(&mut self) -> Option<&'a str>
        ensures is_sound { ValueIsSound self.old result self.new }
        ensures takes_word { TakesWord result self.old self.new }
        ensures not_longer { words_left self.new ≤ words_left self.old }
    {
        let (first, others) = self.words.split_first()?;
        self.words = others;
        Some(first.as_str())
    }

    /// The words that are left.
    pub fn rest(&self) -> &'a [String]
        ensures { map string_bytes result.now ≡ words_of self.now }
    {
        self.words
    }
}

/// What is printed in place of work.
pub enum Notice<'a> {
    /// What it does, its arguments and its statuses, for `-h` and `--help`.
    Help,

    /// The version of the product, for `-V` and `--version`.
    Version,

    /// The usage line, after the name of an option that there isn't.
    UnknownOption(&'a str),

    /// The usage line, after the name of a command that there isn't.
    UnknownCommand(&'a str),

    /// The usage line, after the words that an argument isn't UTF-8, and what to do then.
    NotUtf8,

    /// The usage line.
    Usage,
}

impl<'a> Notice<'a> {
    ghost use Rattle.claxon_command_line.specs.Arguments.{IsNoticeOf};

    /// What is printed for an option that each command has, or for one that it doesn't have.
    pub fn of_option(option: &'a str) -> Notice<'a>
        ensures is_notice_of { IsNoticeOf option.now result }
    {
        if matches!(option, "-h" | "--help") {
            return Notice::Help;
        }
        if matches!(option, "-V" | "--version") {
            return Notice::Version;
        }
        Notice::UnknownOption(option)
    }
}

/// The operands among the arguments, in order: names of files.
#[derive(Drop)]
pub struct Operands<'a> {
    arguments: Arguments<'a>,
    count: usize,
}

impl<'a> Operands<'a> {
    ghost use Rattle.claxon_command_line.specs.Arguments.{
      ParseIs,
      operands_left,
      operands_of,
      operands_total,
    };

    /// The operands among these words, of which the caller has counted so many.
    pub fn new(words: &'a [String], count: usize) -> Operands<'a>
        ensures operands { operands_left result ≡ operands_of words.now }
        ensures total { operands_total result ≡ count }
    {
        Operands {
            arguments: Arguments::new(words),
            count,
        }
    }

    /// The operands among these words, of which there is one or more, and no option.
    pub fn parse(words: &'a [String]) -> result::Result<Operands<'a>, Notice<'a>>
        ensures parse_is { ParseIs words.now result }
    {
        let mut arguments = Arguments::new(words);
        let mut count = 0usize;
        while let Some(argument) = arguments.next() {
            match argument {
                Argument::Option(option) => return Err(Notice::of_option(option)),
                Argument::Operand(_) => count = count.saturating_add(1),
            }
        }
        if count == 0 {
            return Err(Notice::Usage);
        }
        Ok(Operands::new(words, count))
    }

    /// The number of operands in all.
    pub fn total(&self) -> usize
        ensures { result ≡ operands_total self.now }
    {
        self.count
    }
}

impl<'a> Iterator for Operands<'a> {
    ghost use Rattle.std.specs.Iterator.{YieldsFirstRef, item_count};
    ghost use Rattle.claxon_command_line.specs.Arguments.{operands_left};

    type Item = &'a str;

    ghost next_gives = { YieldsFirstRef operands_left };

    ghost remaining = { item_count operands_left };

    fn next(&mut self) -> Option<&'a str> {
        while let Some(argument) = self.arguments.next() {
            match argument {
                Argument::Operand(name) => return Some(name),
                Argument::Option(_) => {}
            }
        }
        None
    }
}
