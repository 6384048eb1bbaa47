//! The command line: which of the program's commands is requested.
use clap::error::ErrorKind;
use clap::{Arg, ArgAction, ArgMatches, Command, value_parser};
use std::alloc::{AllocError, Global};

/// A command of the program, with its words.
#[derive(Drop)]
pub enum Choice<'a> {
    /// Makes a formatted image at a path.
    Make(&'a str),
    /// Reads messages from standard input, on the image at a path or on one in memory.
    Run(Option<&'a str>),
    /// Serves the image at a path over the loopback address, at a port.
    Serve(&'a str, u16),
    /// Reports what a restart would find in the image at a path.
    Recover(&'a str),
}

/// Why no command was read.
#[derive(Clone, Copy)]
pub enum WordsFault {
    /// The words ask for no command of the program, or for help.
    Refused,
    Memory,
}

impl From<AllocError> for WordsFault {
    fn from(_: AllocError) -> Self {
        WordsFault::Memory
    }
}

/// The command that the words ask for, the program's own name first.
pub fn choice_of<'a>(alloc: Global, words: &'a [String]) -> Result<Choice<'a>, WordsFault> {
    match command(alloc)?.try_get_matches_from(words) {
        Ok(matches) => chosen(&matches).ok_or(WordsFault::Refused),
        Err(error) => match error.kind() {
            ErrorKind::OutOfMemory => Err(WordsFault::Memory),
            _ => Err(WordsFault::Refused),
        },
    }
}

fn command<'a>(alloc: Global) -> Result<Command<'a>, AllocError> {
    let psu = Command::new(alloc, "psu")
        .subcommand_required(true)
        .disable_help_subcommand(true);
    let psu = psu.subcommand(on_image(alloc, "make")?)?;
    let psu = psu.subcommand(run(alloc)?)?;
    let psu = psu.subcommand(serve(alloc)?)?;
    psu.subcommand(on_image(alloc, "recover")?)
}

// A command on an image that is named.
fn on_image<'a>(alloc: Global, name: &'static str) -> Result<Command<'a>, AllocError> {
    Command::new(alloc, name).arg(image(alloc).required(true))
}

fn run<'a>(alloc: Global) -> Result<Command<'a>, AllocError> {
    Command::new(alloc, "run").arg(image(alloc))
}

fn serve<'a>(alloc: Global) -> Result<Command<'a>, AllocError> {
    on_image(alloc, "serve")?.arg(port(alloc))
}

fn image<'a>(alloc: Global) -> Arg<'a> {
    Arg::new(alloc, "image")
}

fn port<'a>(alloc: Global) -> Arg<'a> {
    Arg::new(alloc, "port")
        .long("port")
        .action(ArgAction::Set)
        .value_parser(value_parser!(u16).range(1..=65535))
        .default_value("4880")
}

fn chosen<'a>(matches: &ArgMatches<'a>) -> Option<Choice<'a>> {
    let (name, inner) = matches.subcommand()?;
    match name {
        "make" => Some(Choice::Make(inner.get_str("image")?)),
        "run" => Some(Choice::Run(inner.get_str("image"))),
        "serve" => Some(Choice::Serve(inner.get_str("image")?, inner.get_one::<u16>("port")?)),
        "recover" => Some(Choice::Recover(inner.get_str("image")?)),
        _ => None,
    }
}
