//! Tests of the commands of `claxon`: command lines, conversions, texts, names, JSON and progress.
#![tactic(auto)]

#[cfg(test)]
mod arguments;
#[cfg(test)]
mod cli;
#[cfg(test)]
mod conversions;
#[cfg(test)]
mod errors;
#[cfg(test)]
mod info;
#[cfg(test)]
mod inputs;
#[cfg(test)]
mod json;
#[cfg(test)]
mod names;
#[cfg(test)]
mod progress;
#[cfg(test)]
mod texts;
#[cfg(test)]
mod traces;
#[cfg(test)]
mod verify_command;
#[cfg(test)]
mod verify_files;
#[cfg(test)]
mod verify_heads;
#[cfg(test)]
mod verify_options;
#[cfg(test)]
mod wav_headers;
