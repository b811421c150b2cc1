//! The options of the command, and its arguments.

use crate::colors::Color;
use crate::explanations::{Entry, entry_of};
use std::alloc::Global;
use std::env::Args;
use std::fmt;
use wat_command::{Choice, Escaped, STANDARD, choice_of, is_option, joined, near_option};

/// The effect of an option.
#[derive(Clone, Copy)]
pub(crate) enum Action {
    /// The output goes to a file.
    Target,
    /// The outputs go into a folder.
    Folder,
    /// Hexadecimal digits are written.
    Hex,
    /// The index of each id is written.
    Names,
    /// The name section is left out.
    NoNames,
    /// Function bodies are checked, and nothing is written.
    Check,
    /// Diagnostics are JSON.
    Json,
    /// Diagnostics have colours, or not.
    Color,
    /// An error is explained.
    Explain,
    /// The help is printed.
    Help,
    /// The version is printed.
    Version,
}

/// The options, in the order of the help. `tools/pages` reads this table, and writes the man page
/// and the completions of shells from it.
pub(crate) const OPTIONS: [Choice<Action>; 11] = [
    Choice {
        short: "-o",
        long: "--output",
        value: "FILE",
        help: "write to FILE, whole or not at all (`-` is standard output)",
        action: Action::Target,
    },
    Choice {
        short: "",
        long: "--out-dir",
        value: "FOLDER",
        help: "write FOLDER/NAME.wasm for each NAME.wat",
        action: Action::Folder,
    },
    Choice {
        short: "",
        long: "--hex",
        value: "",
        help: "write the bytes as one line of hexadecimal digits",
        action: Action::Hex,
    },
    Choice {
        short: "",
        long: "--names",
        value: "",
        help: "write the index of each id instead of the bytes, one line each",
        action: Action::Names,
    },
    Choice {
        short: "",
        long: "--no-names",
        value: "",
        help: "leave the name section out",
        action: Action::NoNames,
    },
    Choice {
        short: "",
        long: "--check",
        value: "",
        help: "check the function bodies, and write nothing",
        action: Action::Check,
    },
    Choice {
        short: "",
        long: "--json",
        value: "",
        help: "write each diagnostic as a line of JSON to standard error",
        action: Action::Json,
    },
    Choice {
        short: "",
        long: "--color",
        value: "WHEN",
        help: "print diagnostics in colours (`auto`, `always` or `never`)",
        action: Action::Color,
    },
    Choice {
        short: "",
        long: "--explain",
        value: "ERROR",
        help: "print what an error means and what to do (`E4`, or a message)",
        action: Action::Explain,
    },
    Choice {
        short: "-h",
        long: "--help",
        value: "",
        help: "print this help",
        action: Action::Help,
    },
    Choice {
        short: "-V",
        long: "--version",
        value: "",
        help: "print the version",
        action: Action::Version,
    },
];

/// The kind of output of a module.
#[derive(Clone, Copy)]
pub(crate) enum Output {
    /// Its bytes.
    Bytes,
    /// Its bytes in hexadecimal.
    Hex,
    /// The index of each of its ids.
    Names,
}

/// The files to read, the kind of output, and the files to write.
#[derive(Drop)]
pub(crate) struct Options {
    /// The files to read, `-` for standard input. If there are none, standard input is read.
    pub files: Vec<String>,
    /// The file to write, `-` for standard output.
    pub target: Option<String>,
    /// The folder of the outputs.
    pub folder: Option<String>,
    /// The kind of output.
    pub output: Output,
    /// Whether the name section is left out.
    pub omits_names: bool,
    /// Whether function bodies are checked, and nothing is written.
    pub checks: bool,
    /// Whether diagnostics are JSON.
    pub is_json: bool,
    /// When diagnostics have colours.
    pub color: Color,
    /// The error to explain.
    pub explained: Option<Entry>,
}

/// What the command does with its arguments.
#[derive(Drop)]
pub(crate) enum Request {
    /// Modules are converted.
    Convert(Options),
    /// The help is printed.
    Help,
    /// The version is printed.
    Version,
    /// An error is explained.
    Explain(Entry),
}

/// Why arguments are not accepted. It is printed as the message, in one line.
#[derive(Drop)]
pub(crate) enum Misuse {
    /// No option has this name.
    UnknownOption(String),
    /// This option comes after another that sets the kind of output.
    SecondOutput(String),
    /// An option that takes no value has one here.
    UnwantedValue(String),
    /// This option has no value.
    NoValue(Choice<Action>),
    /// This option is given twice.
    Repeated(Choice<Action>),
    /// This is no value of `--color`.
    UnknownColor(String),
    /// No error has this number or these words.
    UnknownError(String),
    /// These two options exclude each other.
    Conflict(&'static str, &'static str),
    /// One file is to be written for several.
    OneForSeveral,
    /// The output of standard input has no name.
    Unnamed,
    /// More than one file has this output.
    SharedOutput(String),
    /// This output is a file to read.
    ReadOutput(String),
    /// This output is there, and has the name of a text.
    TextOutput(String),
    /// Allocation failed.
    Memory,
}

impl fmt::Display for Misuse {
    fn fmt<W: fmt::Write>(&self, f: &mut fmt::Formatter<W>) -> fmt::Result {
        match self {
            Misuse::UnknownOption(word) => {
                let shown = Escaped(word.as_str());
                match near_option(&OPTIONS, word.as_str()) {
                    Some(near) => { write!(f, "unknown option `{shown}`; did you mean `{near}`?") }
                    None => write!(f, "unknown option `{shown}`"),
                }
            }
            Misuse::SecondOutput(word) => {
                let word = Escaped(word.as_str());
                write!(f, "more than one of `--hex` and `--names`: `{word}`")
            }
            Misuse::UnwantedValue(word) => {
                let word = Escaped(word.as_str());
                write!(f, "option takes no value: `{word}`")
            }
            Misuse::NoValue(choice) => {
                let (long, value) = (choice.long, choice.value);
                write!(f, "`{long}` needs {value}")
            }
            Misuse::Repeated(choice) => {
                let long = choice.long;
                write!(f, "more than one `{long}`")
            }
            Misuse::UnknownColor(word) => {
                let word = Escaped(word.as_str());
                write!(f, "`--color` is `auto`, `always` or `never`, not `{word}`")
            }
            Misuse::UnknownError(word) => {
                let word = Escaped(word.as_str());
                write!(
                    f,
                    "no error is called `{word}`: give E1 to E13, or the first words of a message"
                )
            }
            Misuse::Conflict(first, second) => {
                write!(f, "`{first}` and `{second}` exclude each other")
            }
            Misuse::OneForSeveral => f.write_str("`--output` with more than one file"),
            Misuse::Unnamed => f.write_str("output of standard input needs `--output`"),
            Misuse::SharedOutput(path) => {
                let path = Escaped(path.as_str());
                write!(f, "more than one file has the output `{path}`")
            }
            Misuse::ReadOutput(path) => {
                let path = Escaped(path.as_str());
                write!(f, "output would replace a file to read: `{path}`")
            }
            Misuse::TextOutput(path) => {
                let path = Escaped(path.as_str());
                write!(f, "output would replace a text: `{path}`")
            }
            Misuse::Memory => f.write_str("out of memory"),
        }
    }
}

/// The arguments that were read so far.
#[derive(Drop)]
struct Reading {
    /// The options so far.
    options: Options,
    /// The option whose value is the next word.
    awaited: Option<Choice<Action>>,
    /// Whether `--` was read. Each word after it is a file.
    is_past_options: bool,
}

impl Request {
    /// Reads the arguments from left to right. The first is the name of the program.
    ///
    /// The first argument that is `--help` or `--version` decides, and so does the first that is
    /// wrong. Options that exclude each other are found at the end.
    pub fn new(alloc: Global, arguments: Args) -> Result<Request, Misuse> {
        let mut reading = Reading::new(alloc);
        for word in arguments.skip(1) {
            if let Some(request) = reading.request_of(word.as_str()) {
                return Ok(request);
            }
            reading.take_word(alloc, word)?;
        }
        reading.end()
    }
}

impl Reading {
    /// Starts to read arguments.
    fn new(alloc: Global) -> Reading {
        let options = Options {
            files: Vec::new(alloc),
            target: None,
            folder: None,
            output: Output::Bytes,
            omits_names: false,
            checks: false,
            is_json: false,
            color: Color::Auto,
            explained: None,
        };
        Reading {
            options,
            awaited: None,
            is_past_options: false,
        }
    }

    /// Returns the help or the version, if the next word is such an option.
    fn request_of(&self, word: &str) -> Option<Request> {
        if self.awaited.is_some() || self.is_past_options {
            return None;
        }
        match choice_of(&OPTIONS, word)?.action {
            Action::Help => Some(Request::Help),
            Action::Version => Some(Request::Version),
            _ => None,
        }
    }

    /// Reads one more word.
    fn take_word(&mut self, alloc: Global, word: String) -> Result<(), Misuse> {
        if let Some(choice) = self.awaited {
            self.awaited = None;
            return self.options.set_value(choice, word);
        }
        if self.is_past_options || !is_option(word.as_str()) {
            return self.options.add_file(word);
        }
        if word.as_str() == "--" {
            self.is_past_options = true;
            return Ok(());
        }
        match choice_of(&OPTIONS, word.as_str()) {
            Some(choice) => self.take_choice(choice, word),
            None => self.take_joined(alloc, word),
        }
    }

    /// Reads an option, whose word this is.
    fn take_choice(&mut self, choice: Choice<Action>, word: String) -> Result<(), Misuse> {
        if choice.value.is_empty() {
            return self.options.set_flag(choice, word);
        }
        self.awaited = Some(choice);
        Ok(())
    }

    /// Reads a word that can only be an option with its value.
    fn take_joined(&mut self, alloc: Global, word: String) -> Result<(), Misuse> {
        match joined(alloc, &OPTIONS, word.as_str()) {
            Ok(Some((choice, value))) => {
                if choice.value.is_empty() {
                    return Err(Misuse::UnwantedValue(word));
                }
                self.options.set_value(choice, value)
            }
            Ok(None) => Err(Misuse::UnknownOption(word)),
            Err(_) => Err(Misuse::Memory),
        }
    }

    /// Finishes reading arguments.
    fn end(self) -> Result<Request, Misuse> {
        let Reading {
            options,
            awaited,
            ..
        } = self;
        if let Some(choice) = awaited {
            return Err(Misuse::NoValue(choice));
        }
        if let Some(entry) = options.explained {
            return Ok(Request::Explain(entry));
        }
        match options.conflict() {
            Some(misuse) => Err(misuse),
            None => Ok(Request::Convert(options)),
        }
    }
}

impl Options {
    /// Adds a file to read.
    fn add_file(&mut self, file: String) -> Result<(), Misuse> {
        match self.files.push(file) {
            Ok(()) => Ok(()),
            Err(_) => Err(Misuse::Memory),
        }
    }

    /// Applies an option without a value, which is this word.
    fn set_flag(&mut self, choice: Choice<Action>, word: String) -> Result<(), Misuse> {
        match choice.action {
            Action::Hex => self.set_output(Output::Hex, word),
            Action::Names => self.set_output(Output::Names, word),
            Action::Json => {
                self.is_json = true;
                Ok(())
            }
            Action::Check => {
                self.checks = true;
                Ok(())
            }
            _ => {
                self.omits_names = true;
                Ok(())
            }
        }
    }

    /// Sets the kind of output to that of this word.
    fn set_output(&mut self, output: Output, word: String) -> Result<(), Misuse> {
        match self.output {
            Output::Bytes => {
                self.output = output;
                Ok(())
            }
            Output::Hex | Output::Names => Err(Misuse::SecondOutput(word)),
        }
    }

    /// Applies an option with this value.
    fn set_value(&mut self, choice: Choice<Action>, value: String) -> Result<(), Misuse> {
        match choice.action {
            Action::Folder => self.set_folder(choice, value),
            Action::Color => self.set_color(value),
            Action::Explain => self.set_explained(value),
            _ => self.set_target(choice, value),
        }
    }

    /// Sets the file to write.
    fn set_target(&mut self, choice: Choice<Action>, file: String) -> Result<(), Misuse> {
        if file.is_empty() {
            return Err(Misuse::NoValue(choice));
        }
        if self.target.is_some() {
            return Err(Misuse::Repeated(choice));
        }
        self.target = Some(file);
        Ok(())
    }

    /// Sets the folder of the outputs.
    fn set_folder(&mut self, choice: Choice<Action>, folder: String) -> Result<(), Misuse> {
        if self.folder.is_some() {
            return Err(Misuse::Repeated(choice));
        }
        self.folder = Some(folder);
        Ok(())
    }

    /// Sets when diagnostics have colours.
    fn set_color(&mut self, value: String) -> Result<(), Misuse> {
        match Color::named(value.as_str()) {
            Some(color) => {
                self.color = color;
                Ok(())
            }
            None => Err(Misuse::UnknownColor(value)),
        }
    }

    /// Sets the error to explain.
    fn set_explained(&mut self, value: String) -> Result<(), Misuse> {
        match entry_of(value.as_str()) {
            Some(entry) => {
                self.explained = Some(entry);
                Ok(())
            }
            None => Err(Misuse::UnknownError(value)),
        }
    }

    /// Returns whether standard input is read.
    fn reads_standard_input(&self) -> bool {
        self.files.is_empty() || self.files.iter().any(|file| file.as_str() == STANDARD)
    }

    /// Returns an option about the output, if there is one.
    fn output_option(&self) -> Option<&'static str> {
        match self.output {
            Output::Hex => return Some("--hex"),
            Output::Names => return Some("--names"),
            Output::Bytes => {}
        }
        if self.omits_names {
            return Some("--no-names");
        }
        if self.target.is_some() {
            return Some("--output");
        }
        if self.folder.is_some() {
            return Some("--out-dir");
        }
        None
    }

    /// Returns options that exclude each other, if nothing is written.
    fn check_conflict(&self) -> Option<Misuse> {
        match self.output_option() {
            Some(option) => Some(Misuse::Conflict("--check", option)),
            None => None,
        }
    }

    /// Returns options that exclude each other.
    fn conflict(&self) -> Option<Misuse> {
        if self.checks {
            return self.check_conflict();
        }
        if self.omits_names && matches!(self.output, Output::Names) {
            return Some(Misuse::Conflict("--names", "--no-names"));
        }
        if self.target.is_some() && self.folder.is_some() {
            return Some(Misuse::Conflict("--output", "--out-dir"));
        }
        if self.target.is_some() && self.files.len() > 1 {
            return Some(Misuse::OneForSeveral);
        }
        if self.names_outputs() && self.reads_standard_input() {
            return Some(Misuse::Unnamed);
        }
        None
    }

    /// Returns whether each output has the name of its source: those of several files, and those in
    /// a folder.
    pub fn names_outputs(&self) -> bool {
        self.folder.is_some() || self.files.len() > 1
    }

    /// Returns whether the output goes to standard output.
    pub fn prints(&self) -> bool {
        match &self.target {
            Some(target) => target.as_str() == STANDARD,
            None => !self.names_outputs(),
        }
    }

    /// Returns whether bytes go to standard output by default, so without `-o -`.
    pub fn prints_bytes(&self) -> bool {
        matches!(self.output, Output::Bytes) && self.target.is_none() && !self.names_outputs()
    }
}
