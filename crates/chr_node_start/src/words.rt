//! The words of the command.

use chr_device::WordsFault;
use clap::{Arg, ArgAction, Command, value_parser};
use std::alloc::{AllocError, Global};

const ABOUT: &str = "Keep facts in a folder, and answer lines about them";

const MORE: &str =
    "Reads lines from standard input, a JSON array each, and writes one line for each:

  [\"tell\",[[\"path\",1,2,7]]]      tells facts; answered when the disk has them
  [\"tell\",1,[[\"path\",1,2,7]]]    the same with its number in this run, so that a retry never tells twice
  [\"last\"]                       how many were told in this run
  [\"show\"], [\"show\",\"path\"]      the store at rest, or one symbol of it
  [\"find\",[\"path\",1,null,null]]  the facts that fit; [\"count\",[..]] how many
  [\"changes\"]                    what came and went since it was asked last
  [\"status\"]                     the files of the folder, and how many facts there are

Others may tell facts to the same folder at the same time, and feeds may be copied into DIR/feeds from anywhere.

Example: chrrep node --data shop --program shop.chr    the first time
         chrrep node --data shop                       later

Exit status: 0 the input has ended, 1 the program is refused, 2 these words are no command (also after help),
3 the folder, the input or the output has failed, 4 memory ran out";

/// What the words ask for.
#[derive(Drop)]
pub(crate) struct Words {
    /// The folder.
    pub(crate) data: String,
    /// The file of the program, where one is named.
    pub(crate) program: Option<String>,
    /// Whether the verdict looks at sorted cases at once.
    pub(crate) wide: bool,
    /// The origin of this run's operations, where one is named.
    pub(crate) origin: Option<u32>,
}

fn text_option<'a>(
    alloc: Global,
    name: &'a str,
    value: &'a str,
    help: &'a str,
    required: bool,
) -> Arg<'a> {
    Arg::new(alloc, name)
        .long(name)
        .value_name(value)
        .required(required)
        .help(help)
}

fn node_command<'a>(alloc: Global) -> Result<Command<'a>, AllocError> {
    let wide = Arg::new(alloc, "wide")
        .long("wide")
        .action(ArgAction::SetTrue)
        .help("Decide by the columns that rules compare");
    let origin = Arg::new(alloc, "origin")
        .long("origin")
        .value_name("N")
        .value_parser(value_parser!(u32))
        .help("The origin of this run's operations, which no other run has [default: drawn]");
    Command::new(alloc, "node")
        .about(ABOUT)
        .after_help(MORE)
        .arg(text_option(alloc, "data", "DIR", "The folder", true))?
        .arg(text_option(
            alloc,
            "program",
            "FILE",
            "The program, for a folder that isn't there yet",
            false,
        ))?
        .arg(wide)?
        .arg(origin)
}

fn owned(alloc: Global, text: Option<&str>) -> Result<Option<String>, AllocError> {
    match text {
        Some(text) => Ok(Some(String::from_str(alloc, text)?)),
        None => Ok(None),
    }
}

/// What the words ask for, of which the first two are the program's name and the command's.
pub(crate) fn read_words(alloc: Global, words: &[String]) -> Result<Words, WordsFault> {
    let mut command = Command::new(alloc, "chrrep")
        .bin_name("chrrep")?
        .subcommand_required(true)
        .subcommand(node_command(alloc)?)?;
    let matches = command.try_get_matches_from_mut(words)?;
    let mut data = String::new(alloc);
    let mut program = None;
    let mut wide = false;
    let mut origin = None;
    if let Some((_, options)) = matches.subcommand() {
        data.push_str(options.get_str("data").unwrap_or("."))?;
        program = owned(alloc, options.get_str("program"))?;
        wide = options.get_str("wide") == Some("true");
        origin = options.get_one("origin");
    }
    Ok(Words {
        data,
        program,
        wide,
        origin,
    })
}
