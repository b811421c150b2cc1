//! The options of the command, and its arguments.

use std::alloc::{AllocError, Global};
use std::env::Args;
use std::fmt;
use wat_command::{Choice, Escaped, STANDARD, choice_of, is_option, joined};

/// The effect of an option.
#[derive(Clone, Copy)]
pub(crate) enum Action {
    /// The JSON goes to a file.
    Target,
    /// The modules go into a folder.
    Folder,
    /// Modules with unsupported constructs are skipped.
    Skip,
    /// The help is printed.
    Help,
    /// The version is printed.
    Version,
}

/// The options, in the order of the help. `tools/pages` reads this table, and writes the man page
/// and the completions of shells from it.
pub(crate) const OPTIONS: [Choice<Action>; 5] = [
    Choice {
        short: "-o",
        long: "--output",
        value: "FILE",
        help: "write the JSON to FILE, the modules beside it (`-` is standard output)",
        action: Action::Target,
    },
    Choice {
        short: "",
        long: "--out-dir",
        value: "FOLDER",
        help: "write the modules into FOLDER, and `NAME.json` unless with `-o -`",
        action: Action::Folder,
    },
    Choice {
        short: "",
        long: "--skip",
        value: "",
        help: "skip modules with unsupported constructs, and end with status 4",
        action: Action::Skip,
    },
    Choice {
        short: "-h",
        long: "--help",
        value: "",
        help: "print this help",
        action: Action::Help,
    },
    Choice {
        short: "-V",
        long: "--version",
        value: "",
        help: "print the version",
        action: Action::Version,
    },
];

/// The file to read, and the files to write.
#[derive(Drop)]
pub(crate) struct Options {
    /// The script; `-` is standard input.
    pub file: String,
    /// The JSON file, `-` for standard output.
    pub target: Option<String>,
    /// The folder of the modules.
    pub folder: Option<String>,
    /// Whether modules with unsupported constructs are skipped.
    pub skips: bool,
}

impl Options {
    /// Returns whether the JSON goes to standard output.
    pub fn prints(&self) -> bool {
        match &self.target {
            Some(target) => target.as_str() == STANDARD,
            None => false,
        }
    }
}

/// What is to be done.
#[derive(Drop)]
pub(crate) enum Request {
    /// Convert a script.
    Convert(Options),
    /// Print the help.
    Help,
    /// Print the version.
    Version,
}

/// An error in the arguments. It is printed as one line.
#[derive(Drop)]
pub(crate) enum Misuse {
    /// No option has this name.
    UnknownOption(String),
    /// This option takes no value, and has one here.
    UnwantedValue(String),
    /// This option has no value.
    NoValue(Choice<Action>),
    /// This option is given twice.
    Repeated(Choice<Action>),
    /// A second script.
    SecondFile(String),
    /// There is no script.
    NoFile,
    /// A JSON file is not beside its modules, so the names in it would be wrong.
    Apart,
    /// There is no folder for the modules of JSON that is printed.
    NoFolder,
    /// A script from standard input has no name for its outputs.
    Unnamed,
    /// This output is the script.
    ReadOutput(String),
    /// Allocation failed.
    Memory,
}

impl fmt::Display for Misuse {
    fn fmt<W: fmt::Write>(&self, f: &mut fmt::Formatter<W>) -> fmt::Result {
        match self {
            Misuse::UnknownOption(word) => {
                let word = Escaped(word.as_str());
                write!(f, "unknown option `{word}`")
            }
            Misuse::UnwantedValue(word) => {
                let word = Escaped(word.as_str());
                write!(f, "option takes no value: `{word}`")
            }
            Misuse::NoValue(choice) => {
                let (long, value) = (choice.long, choice.value);
                write!(f, "`{long}` needs {value}")
            }
            Misuse::Repeated(choice) => {
                let long = choice.long;
                write!(f, "more than one `{long}`")
            }
            Misuse::SecondFile(word) => {
                let word = Escaped(word.as_str());
                write!(f, "more than one script: `{word}`")
            }
            Misuse::NoFile => f.write_str("no script"),
            Misuse::Apart => f.write_str("`--output FILE` and `--out-dir` exclude each other"),
            Misuse::NoFolder => f.write_str("`--output -` needs `--out-dir` for the modules"),
            Misuse::Unnamed => f.write_str("script from standard input needs `--output`"),
            Misuse::ReadOutput(path) => {
                let path = Escaped(path.as_str());
                write!(f, "output would replace the script: `{path}`")
            }
            Misuse::Memory => f.write_str("out of memory"),
        }
    }
}

impl From<AllocError> for Misuse {
    fn from(_error: AllocError) -> Self {
        Misuse::Memory
    }
}

/// The arguments that were read so far.
#[derive(Drop)]
struct Reading {
    file: Option<String>,
    target: Option<String>,
    folder: Option<String>,
    skips: bool,
    /// The option whose value is the next word.
    awaited: Option<Choice<Action>>,
    /// Whether `--` was read, after which each word is a file.
    is_past_options: bool,
}

impl Reading {
    /// Starts to read arguments.
    fn new() -> Reading {
        Reading {
            file: None,
            target: None,
            folder: None,
            skips: false,
            awaited: None,
            is_past_options: false,
        }
    }

    /// Returns the request of a word that decides, whatever the other arguments are.
    fn request_of(&self, word: &str) -> Option<Request> {
        if self.awaited.is_some() || self.is_past_options {
            return None;
        }
        match choice_of(&OPTIONS, word)?.action {
            Action::Help => Some(Request::Help),
            Action::Version => Some(Request::Version),
            _ => None,
        }
    }

    /// Sets the file to read.
    fn set_file(&mut self, word: String) -> Result<(), Misuse> {
        if self.file.is_some() {
            return Err(Misuse::SecondFile(word));
        }
        self.file = Some(word);
        Ok(())
    }

    /// Sets the file to write.
    fn set_target(&mut self, choice: Choice<Action>, file: String) -> Result<(), Misuse> {
        if self.target.is_some() {
            return Err(Misuse::Repeated(choice));
        }
        self.target = Some(file);
        Ok(())
    }

    /// Sets the folder of the modules.
    fn set_folder(&mut self, choice: Choice<Action>, folder: String) -> Result<(), Misuse> {
        if self.folder.is_some() {
            return Err(Misuse::Repeated(choice));
        }
        self.folder = Some(folder);
        Ok(())
    }

    /// Applies an option with this value.
    fn set_value(&mut self, choice: Choice<Action>, value: String) -> Result<(), Misuse> {
        match choice.action {
            Action::Folder => self.set_folder(choice, value),
            _ => self.set_target(choice, value),
        }
    }

    /// Reads an option.
    fn take_choice(&mut self, choice: Choice<Action>) {
        if choice.value.is_empty() {
            self.skips = true;
        } else {
            self.awaited = Some(choice);
        }
    }

    /// Reads a word that can only be an option with its value.
    fn take_joined(&mut self, alloc: Global, word: String) -> Result<(), Misuse> {
        match joined(alloc, &OPTIONS, word.as_str())? {
            Some((choice, value)) => {
                if choice.value.is_empty() {
                    return Err(Misuse::UnwantedValue(word));
                }
                self.set_value(choice, value)
            }
            None => Err(Misuse::UnknownOption(word)),
        }
    }

    /// Reads one more word.
    fn take_word(&mut self, alloc: Global, word: String) -> Result<(), Misuse> {
        if let Some(choice) = self.awaited {
            self.awaited = None;
            return self.set_value(choice, word);
        }
        if self.is_past_options || !is_option(word.as_str()) {
            return self.set_file(word);
        }
        if word.as_str() == "--" {
            self.is_past_options = true;
            return Ok(());
        }
        match choice_of(&OPTIONS, word.as_str()) {
            Some(choice) => {
                self.take_choice(choice);
                Ok(())
            }
            None => self.take_joined(alloc, word),
        }
    }

    /// Returns the options that the words make.
    fn end(self) -> Result<Request, Misuse> {
        let Reading {
            file,
            target,
            folder,
            skips,
            awaited,
            ..
        } = self;
        if let Some(choice) = awaited {
            return Err(Misuse::NoValue(choice));
        }
        let Some(file) = file else {
            return Err(Misuse::NoFile);
        };
        let options = Options {
            file,
            target,
            folder,
            skips,
        };
        match options.conflict() {
            Some(misuse) => Err(misuse),
            None => Ok(Request::Convert(options)),
        }
    }
}

impl Options {
    /// Returns options that exclude each other, or that want another one.
    fn conflict(&self) -> Option<Misuse> {
        if self.prints() && self.folder.is_none() {
            return Some(Misuse::NoFolder);
        }
        if self.target.is_none() && self.file.as_str() == STANDARD {
            return Some(Misuse::Unnamed);
        }
        if self.target.is_some() && self.folder.is_some() && !self.prints() {
            return Some(Misuse::Apart);
        }
        None
    }
}

/// Reads the arguments, of which the first is the program's name, from left to right. The first that is for the help or the
/// version decides, and so does the first that is wrong. Options that exclude each other are found at the end.
pub(crate) fn request_of(alloc: Global, arguments: Args) -> Result<Request, Misuse> {
    let mut reading = Reading::new();
    for word in arguments.skip(1) {
        if let Some(request) = reading.request_of(word.as_str()) {
            return Ok(request);
        }
        reading.take_word(alloc, word)?;
    }
    reading.end()
}
