//! What the program and its commands print about themselves.
ghost use Rattle.std.specs.Prelude.{◌≡◌};
ghost use Rattle.claxon_write.specs.InnerWriter.{SameWriter};
ghost use Rattle.claxon_command_line.specs.Text.{Adds, IsText};
ghost use Rattle.claxon_program.specs.Program.{
  PrintsText,
  WritesText,
  command_text,
  commands_text,
};

use claxon_command_line::arguments::Notice;
use claxon_command_line::input::STANDARD;
use claxon_command_line::messages::{Part, print_error};
use claxon_write::Output;
use std::alloc::{AllocError, Global};
use std::io::Write;

/// The version of the product.
pub const VERSION: &str = "0.3.0";

// What to do with a file whose name isn't UTF-8.
const NOT_UTF8_HELP: &str = "pass such a file as standard input: - < FILE";

/// What the program, or one of its commands, says about itself.
#[derive(Clone, Copy)]
pub struct Program {
    /// Its name; that of a command is after the program's.
    pub name: &'static str,

    /// Its arguments, as in the usage line.
    pub arguments: &'static str,

    /// The name of each of its commands, and what that does, in a line.
    pub commands: &'static [(&'static str, &'static str)],

    /// What it does, its options and its statuses, in lines.
    pub help: &'static str,
}

impl Program {
    ghost use Rattle.claxon_program.specs.Program.{PrintIsSound, help_text, version_text};
    ghost use Rattle.claxon_command_line.specs.Text.{IsText};

    /// Prints a notice, and returns the exit status: 0, or 1 if `output` fails, for the help and the version, which go to
    /// `output`; 2 for the usage line, which goes to `errors`. A failed write to `errors` is ignored.
    pub fn print<W: Write, E: Write>(
        &self,
        alloc: Global,
        notice: Notice<'_>,
        output: &mut W,
        errors: &mut E,
    ) -> u8
        ensures is_sound { PrintIsSound W.contents self.now notice.entry result output.old
            output.new }
    {
        match notice {
            Notice::Help => print_text(alloc, self.help_text(alloc), output, errors),
            Notice::Version => print_text(alloc, self.version_text(alloc, VERSION), output, errors),
            Notice::UnknownOption(option) => {
                let _ = writeln!(errors, "{}: unknown option {option}", self.name);
                self.refuse(errors)
            }
            Notice::UnknownCommand(name) => {
                let _ = writeln!(errors, "{}: unknown command {name}", self.name);
                self.refuse(errors)
            }
            Notice::NotUtf8 => {
                let _ = writeln!(errors, "{}: an argument isn't valid UTF-8", self.name);
                let _ = writeln!(errors, "{}: {NOT_UTF8_HELP}", self.name);
                self.refuse(errors)
            }
            Notice::Usage => self.refuse(errors),
        }
    }

    // The exit status of other arguments.
    fn refuse<E: Write>(&self, errors: &mut E) -> u8
        ensures { result ≡ 2 }
    {
        let _ = writeln!(errors, "usage: {} {}", self.name, self.arguments);
        2
    }

    fn help_text(&self, alloc: Global) -> Result<String, AllocError>
        ensures is_text { IsText (help_text self.now) result }
    {
        let (name, arguments) = (self.name, self.arguments);
        let mut text = format!(in alloc; "usage: {name} {arguments}\n\n")?;
        push_commands(&mut text, self.commands)?;
        text.push_str(self.help)?;
        Ok(text)
    }

    fn version_text(&self, alloc: Global, version: &str) -> Result<String, AllocError>
        ensures is_text { IsText (version_text self.now version.now) result }
    {
        let mut text = String::from_str(alloc, self.name)?;
        text.push_str(" ")?;
        text.push_str(version)?;
        text.push_str("\n")?;
        Ok(text)
    }
}

// A line for each command.
fn push_commands(text: &mut String, commands: &[(&str, &str)]) -> Result<(), AllocError>
    ensures adds { Adds (commands_text commands.now) result text.old text.new }
{
    for (name, summary) in commands {
        push_command(text, *name, *summary)?;
    }
    Ok(())
}

#[tactic(auto, unfolding(crate::specs::Program::command_text))]
fn push_command(text: &mut String, name: &str, summary: &str) -> Result<(), AllocError>
    ensures adds { Adds (command_text name.now summary.now) result text.old text.new }
{
    writeln!(text, "  {name:<11}{summary}")
}

// Prints a text on standard output, and returns the exit status.
fn print_text<W: Write, E: Write>(
    alloc: Global,
    text: Result<String, AllocError>,
    output: &mut W,
    errors: &mut E,
) -> u8
    ensures prints_text { PrintsText W.contents text result output.old output.new }
{
    let mut output = Output::new(output);
    let outcome = write_text(text, &mut output);
    let _ = output.into_inner();
    match outcome {
        Ok(()) => 0,
        Err(error) => {
            print_error(alloc, STANDARD, Part::Output, &error, errors);
            1
        }
    }
}

fn write_text<W: Write>(
    text: Result<String, AllocError>,
    output: &mut Output<'_, W>,
) -> claxon::Result<()>
    ensures same_writer { SameWriter output.old output.new }
    ensures writes_text { WritesText W.contents text result output.old output.new }
{
    let text = text?;
    output.put(text.as_bytes())?;
    output.flush()
}
