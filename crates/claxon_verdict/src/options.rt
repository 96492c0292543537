//! The arguments of the command `verify`: which files, and what is said of them.
ghost use Rattle.std.specs.Prelude.{option_copied};
ghost use Rattle.std.specs.Iterator.{YieldsFirstBy};
ghost use Rattle.claxon_command_line.specs.Arguments.{TakesWord};
ghost use Rattle.claxon_verdict.specs.Options.{
  FilesAre,
  ListIs,
  MorePlacesAre,
  NoticeIsSound,
  RequestIsSound,
  WithFlagIs,
  argument_view,
  arguments_left,
};

use crate::print::PrintOptions;
use claxon_command_line::arguments::{Argument, Arguments, Notice};
use claxon_command_line::names::not_utf8_name;

/// What a command line asks for.
#[derive(Drop)]
pub struct VerifyRequest<'a> {
    /// Which files.
    pub files: NamedFiles<'a>,
    /// How they are verified, and what is printed.
    pub options: Options,
}

/// Which files are verified.
#[derive(Drop)]
pub enum NamedFiles<'a> {
    /// Those that the operands name: one or more.
    Operands(FileNames<'a>),
    /// Those that are named in the file of this name.
    List(&'a str),
}

/// The operands, in order: names of files.
#[derive(Drop)]
pub struct FileNames<'a> {
    arguments: Arguments<'a>,
    count: usize,
}

impl<'a> FileNames<'a> {
    ghost use Rattle.std.specs.Prelude.{◌≡◌};
    ghost use Rattle.claxon_verdict.specs.Options.{
      arguments_of,
      names_left,
      names_total,
      operands_of,
    };

    // The operands among these words, of which there are so many.
    fn new(words: &'a [String], count: usize) -> FileNames<'a>
        ensures total { names_total result ≡ count }
        ensures names { names_left result ≡ operands_of (arguments_of words.now) }
    {
        FileNames {
            arguments: Arguments::new(words),
            count,
        }
    }

    /// How many there are.
    pub fn total(&self) -> usize
        ensures { result ≡ names_total self.now }
    {
        self.count
    }
}

impl<'a> Iterator for FileNames<'a> {
    ghost use Rattle.std.specs.Iterator.{YieldsFirstRef, item_count};
    ghost use Rattle.claxon_verdict.specs.Options.{names_left};

    type Item = &'a str;

    ghost next_gives = { YieldsFirstRef names_left };

    ghost remaining = { item_count names_left };

    fn next(&mut self) -> Option<&'a str> {
        while let Some(argument) = next_argument(&mut self.arguments) {
            if let VerifyArgument::Operand(name) = argument {
                return Some(name);
            }
        }
        None
    }
}

/// How files are verified, and what is printed.
#[derive(Clone, Copy)]
pub struct Options {
    /// The MD5 sum of the samples is computed.
    pub computes_md5: bool,
    /// What is printed.
    pub print: PrintOptions,
    /// A folder stands for the FLAC files below it.
    pub is_recursive: bool,
    /// How many places of a file are told after the first.
    pub more_places: usize,
}

/// What the words ask for. With a list there are no operands, and without one there is one or more.
///
/// # Errors
///
/// What is printed for the first argument that isn't right, or else the usage line, where the words name no files, or both a
/// list and files.
pub fn parse<'a>(words: &'a [String]) -> Result<VerifyRequest<'a>, Notice<'a>>
    ensures request_is_sound { RequestIsSound words.now result }
    ensures notice_is_sound { NoticeIsSound words.now result }
{
    let mut arguments = Arguments::new(words);
    let mut options = Options {
        computes_md5: true,
        print: PrintOptions {
            is_brief: false,
            is_json: false,
            is_quiet: false,
            has_summary: false,
        },
        is_recursive: false,
        more_places: 999,
    };
    let (mut list, mut count) = (None, 0usize);
    while let Some(argument) = next_argument(&mut arguments) {
        match argument {
            VerifyArgument::Operand(_) => count = count.saturating_add(1),
            VerifyArgument::Flag(option) => options = with_flag(options, option)?,
            VerifyArgument::FilesFrom(value) => list = Some(list_name(list.is_some(), value)?),
            VerifyArgument::Places(value) => {
                options.more_places = more_places(value)?;
            }
        }
    }
    let files = files_of(words, list, count)?;
    Ok(VerifyRequest { files, options })
}

// An argument. None says that the value of an option is missing.
#[derive(Clone, Copy)]
enum VerifyArgument<'a> {
    Operand(&'a str),
    Flag(&'a str),
    FilesFrom(Option<&'a str>),
    Places(Option<&'a str>),
}

// The next argument, with the value of an option that has one.
fn next_argument<'a>(arguments: &mut Arguments<'a>) -> Option<VerifyArgument<'a>>
    ensures gives { YieldsFirstBy argument_view arguments_left arguments.old result arguments.new }
    ensures takes_word { TakesWord result arguments.old arguments.new }
{
    match arguments.next()? {
        Argument::Option("--files0-from") => Some(VerifyArgument::FilesFrom(arguments.value())),
        Argument::Option("--places") => Some(VerifyArgument::Places(arguments.value())),
        Argument::Option(option) => Some(VerifyArgument::Flag(option)),
        Argument::Operand(name) => Some(VerifyArgument::Operand(name)),
    }
}

// The name of a list by the value of its option, where another was named before or not.
fn list_name<'a>(has_list: bool, value: Option<&'a str>) -> Result<&'a str, Notice<'a>>
    ensures list_is { ListIs has_list (option_copied value.entry) result }
{
    let Some(name) = value else {
        return Err(Notice::Usage);
    };
    if has_list {
        return Err(Notice::Usage);
    }
    match not_utf8_name(name) {
        Some(_) => Err(Notice::NotUtf8),
        None => Ok(name),
    }
}

// How many places are told after the first, by the value of `--places`: at most so many in all, one or more.
fn more_places<'a>(value: Option<&'a str>) -> Result<usize, Notice<'a>>
    ensures more_places_are { MorePlacesAre (option_copied value.entry) result }
{
    let Some(number) = value else {
        return Err(Notice::Usage);
    };
    match number.parse::<usize>() {
        Ok(count) if count > 0 => Ok(count - 1),
        _ => Err(Notice::Usage),
    }
}

// The options, with one more, which has no value.
fn with_flag<'a>(options: Options, option: &'a str) -> Result<Options, Notice<'a>>
    ensures with_flag_is { WithFlagIs option.now options result }
{
    let mut options = options;
    match option {
        "--no-md5" => options.computes_md5 = false,
        "--brief" => options.print.is_brief = true,
        "--json" => options.print.is_json = true,
        "--summary" => options.print.has_summary = true,
        "-q" => options.print.is_quiet = true,
        "--quiet" => options.print.is_quiet = true,
        "-r" => options.is_recursive = true,
        "--recursive" => options.is_recursive = true,
        _ => return Err(Notice::of_option(option)),
    }
    Ok(options)
}

// The files, where there is a list or not, and this number of operands.
fn files_of<'a>(
    words: &'a [String],
    list: Option<&'a str>,
    count: usize,
) -> Result<NamedFiles<'a>, Notice<'a>>
    ensures files_are { FilesAre words.now list.entry count result }
{
    match list {
        Some(name) if count == 0 => Ok(NamedFiles::List(name)),
        None if count > 0 => Ok(NamedFiles::Operands(FileNames::new(words, count))),
        _ => Err(Notice::Usage),
    }
}
