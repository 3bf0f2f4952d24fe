//! The words of the command line.

use clap::{Arg, ArgAction, ArgMatches, Command};
use std::alloc::{AllocError, Global};

/// What is written.
#[derive(Clone, Copy, Debug, PartialEq, Eq)]
pub enum Format {
    /// The bytes of the component.
    Wasm,
    /// The bytes as hexadecimal text.
    Hex,
    /// The graph as DOT text.
    Dot,
    /// The graph as Mermaid text.
    Mermaid,
    /// The imports of the graph.
    Imports,
    /// Nothing.
    Nothing,
}

/// What the command line asks for.
#[derive(Clone, Copy)]
pub struct Asked<'a, 'b> {
    /// The file of the script; `-` for standard input.
    pub script: &'b str,
    /// The label of the socket, if packages are plugged, and those of the plugs.
    pub plug: Option<(&'b str, &'a [&'b str])>,
    /// The file that is written; standard output if there is none.
    pub output: Option<&'b str>,
    /// What is written.
    pub format: Format,
    /// Whether packages are imported, or else their bytes are in the component.
    pub imports_packages: bool,
    /// Whether the outer names are validated.
    pub validates: bool,
    /// The processor `NAME@VERSION`.
    pub processor: Option<&'b str>,
    /// Whether nodes get their labels as names.
    pub names_nodes: bool,
}

/// The words of the formats.
const FORMATS: &[&str] = &["wasm", "hex", "dot", "mermaid", "imports"];

/// Returns the argument for the script.
fn script<'a>(alloc: Global) -> Arg<'a> {
    Arg::new(alloc, "script")
        .required(true)
        .help("The script, or - for standard input")
}

/// Returns the option for the file that is written.
fn output<'a>(alloc: Global) -> Arg<'a> {
    Arg::new(alloc, "output")
        .short('o')
        .long("output")
        .action(ArgAction::Set)
        .help("The file that is written")
}

/// Returns the command `compose`.
fn compose<'a>(alloc: Global) -> Result<Command<'a>, AllocError> {
    let format = Arg::new(alloc, "format")
        .long("format")
        .action(ArgAction::Set)
        .value_parser(FORMATS)
        .help("What is written");
    let processor = Arg::new(alloc, "processor")
        .long("processor")
        .action(ArgAction::Set)
        .help("NAME@VERSION of the tool, written into the component");
    Command::new(alloc, "compose")
        .about("Writes the component that a script composes")
        .arg(script(alloc))?
        .arg(output(alloc))?
        .arg(format)?
        .arg(flag(
            alloc,
            "import-packages",
            "Imports packages instead of embedding them",
        ))?
        .arg(flag(alloc, "no-validate", "Does not validate the outer names"))?
        .arg(flag(alloc, "names", "Names nodes by their labels"))?
        .arg(processor)
}

/// Returns a flag.
fn flag<'a>(alloc: Global, name: &'a str, help: &'a str) -> Arg<'a> {
    Arg::new(alloc, name)
        .long(name)
        .action(ArgAction::SetTrue)
        .help(help)
}

/// Returns the command `plug`.
fn plug<'a>(alloc: Global) -> Result<Command<'a>, AllocError> {
    let socket = Arg::new(alloc, "socket")
        .required(true)
        .help("The label of the package whose imports are filled");
    let plugs = Arg::new(alloc, "plugs")
        .required(true)
        .action(ArgAction::Append)
        .num_args(1..)
        .help("The labels of the packages that fill them");
    Command::new(alloc, "plug")
        .about("Plugs packages of a script together, and writes the component")
        .arg(script(alloc))?
        .arg(socket)?
        .arg(plugs)?
        .arg(output(alloc))
}

/// Returns the command line.
pub fn command<'a>(alloc: Global) -> Result<Command<'a>, AllocError> {
    let check = Command::new(alloc, "check")
        .about("Makes a script's graph and encodes it, and writes nothing")
        .arg(script(alloc))?;
    let component = Arg::new(alloc, "component")
        .required(true)
        .help("The component, or - for standard input");
    let parts = Command::new(alloc, "parts")
        .about("Lists the parts of a component, a line each")
        .arg(component)?;
    Command::new(alloc, "wac_cli")
        .about("Composes WebAssembly components from a script, and lists their parts")
        .version("0.1.0")
        .subcommand_required(true)
        .subcommand(compose(alloc)?)?
        .subcommand(plug(alloc)?)?
        .subcommand(check)?
        .subcommand(parts)
}

/// Returns the file of the component whose parts are asked for, if they are.
pub fn asks_parts<'a>(matches: &'a ArgMatches<'_>) -> Option<&'a str> {
    match matches.subcommand() {
        Some(("parts", words)) => words.get_str("component"),
        _ => None,
    }
}

/// Returns the format of a word: the bytes, if there is no word.
fn format_of(word: Option<&str>) -> Format {
    match word {
        Some("hex") => Format::Hex,
        Some("dot") => Format::Dot,
        Some("mermaid") => Format::Mermaid,
        Some("imports") => Format::Imports,
        _ => Format::Wasm,
    }
}

/// Returns what the words of a command ask for.
pub fn read_words<'a, 'b>(matches: &'a ArgMatches<'b>) -> Asked<'a, 'b> {
    let (name, words) = match matches.subcommand() {
        Some((name, words)) => (name, words),
        None => ("", matches),
    };
    let plug = match (words.get_str("socket"), words.get_strs("plugs")) {
        (Some(socket), Some(plugs)) => Some((socket, plugs)),
        _ => None,
    };
    let script = words.get_str("script");
    let word = words.get_str("format");
    let format = match name {
        "check" => Format::Nothing,
        _ => format_of(word),
    };
    Asked {
        script: script.unwrap_or("-"),
        plug,
        output: words.get_str("output"),
        format,
        imports_packages: words.get_flag("import-packages"),
        validates: !words.get_flag("no-validate"),
        processor: words.get_str("processor"),
        names_nodes: words.get_flag("names"),
    }
}
