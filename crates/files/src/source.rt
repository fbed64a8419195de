// The programs and the two files by their names, and what to say where a file cannot be opened or read.
use plain_words::reasons::fail;
use plain_words::shown::show_path;
use std::fmt;
use std::io::{Error, ErrorKind, Write};

// Who speaks: each message begins with the program's name.
#[derive(Clone, Copy)]
pub enum Program {
    Check,
    Run,
}

impl fmt::Display for Program {
    fn fmt<W: fmt::Write>(&self, f: &mut fmt::Formatter<W>) -> fmt::Result {
        f.write_str(match self {
            Program::Check => "check",
            Program::Run => "run",
        })
    }
}

impl Program {
    pub(crate) fn call(self) -> &'static str {
        match self {
            Program::Check => "check STATION SAMPLES",
            Program::Run => "run STATION SAMPLES SECONDS",
        }
    }
}

// The place of the station file among the arguments; the sample file comes after it.
const STATION: usize = 1;

pub(crate) const SAMPLES: usize = 2;

// A file that a program was named, by the place of its path among the arguments, and the system's reason for what failed last.
#[derive(Clone, Copy)]
pub(crate) struct Source<'a> {
    pub(crate) program: Program,
    pub(crate) place: usize,
    pub(crate) path: &'a [u8],
    pub(crate) reason: Error,
}

impl Source<'_> {
    fn which(self) -> &'static str {
        if self.place == STATION {
            "the station file"
        } else {
            "the sample file"
        }
    }

    // A line about the file, which it begins with.
    pub(crate) fn say_of_it<W: Write>(self, err: &mut W, fault: &str) {
        let program = self.program;
        let which = self.which();
        let _ = write!(err, "{program}: {which} ");
        show_path(err, self.path);
        let _ = writeln!(err, " {fault}");
    }

    pub(crate) fn say_reason<W: Write>(self, err: &mut W) {
        let program = self.program;
        let _ = write!(err, "{program}: ");
        fail(err, b"the system's reason", self.reason);
    }

    fn say_unnamed<W: Write>(self, err: &mut W) {
        let program = self.program;
        let which = self.which();
        let _ = writeln!(
            err,
            "{program}: the path of {which} cannot be used: it has more than 4095 bytes."
        );
        self.say_reason(err);
        let _ = writeln!(
            err,
            "{program}: move or link the file to a shorter path, and name that."
        );
    }

    fn say_shut<W: Write>(self, err: &mut W) {
        let program = self.program;
        let call = program.call();
        self.say_of_it(err, "cannot be opened.");
        self.say_reason(err);
        let _ = writeln!(
            err,
            "{program}: see that the path is right and that you may read the file; the station file comes first: {call}"
        );
    }

    // A path that was too long for the system was not kept, and its reason says so.
    pub(crate) fn say_unopened<W: Write>(self, err: &mut W) {
        if self.path.is_empty() && self.reason.kind() == ErrorKind::InvalidFilename {
            self.say_unnamed(err);
        } else {
            self.say_shut(err);
        }
    }

    pub(crate) fn say_unread<W: Write>(self, err: &mut W) {
        let program = self.program;
        self.say_of_it(err, "cannot be read.");
        self.say_reason(err);
        let _ = writeln!(
            err,
            "{program}: name a file and not a directory, or try again once its disk answers; nothing is known of the rest of it."
        );
    }
}
