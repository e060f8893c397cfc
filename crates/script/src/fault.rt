// Why a line of a script cannot be read.
ghost use Rattle.std.specs.Prelude.{◌≡◌, Some};
ghost use Rattle.script.specs.declared.fault.Fault.TheVariants.{NotText};
ghost use Rattle.script.specs.Faults.{worded};

use std::error::Error;
use std::fmt;
use std::str::Utf8Error;

#[derive(Clone, Copy, Debug, PartialEq, Eq)]
pub enum Fault {
    NotText,
    UnknownCommand,
    TooFewWords,
    TooManyWords,
    NotNumber,
    NotWord,
    NotPlace,
    NotOneOrTwo,
    NoShape,
}

impl Fault {
    // The reason in words, for a person: a table of this enum's own.
    pub fn reason(self) -> &'static str
        ensures { result.now ≡ worded self }
    {
        match self {
            Fault::NotText => "the line is not UTF-8 text",
            Fault::UnknownCommand => "unknown command",
            Fault::TooFewWords => "the line ends too early",
            Fault::TooManyWords => "the line goes on too long",
            Fault::NotNumber => "a number was expected",
            Fault::NotWord => "a whole number below 2^32 was expected",
            Fault::NotPlace => "a whole number in decimal digits was expected",
            Fault::NotOneOrTwo => "1 or 2 was expected",
            Fault::NoShape => "that shape is not there yet",
        }
    }
}

impl fmt::Display for Fault {
    ghost output = { λ f. Some (worded f) };

    fn fmt<W: fmt::Write>(&self, f: &mut fmt::Formatter<W>) -> fmt::Result {
        f.write_str(self.reason())
    }
}

impl Error for Fault {}

impl From<Utf8Error> for Fault {
    ghost from_gives = { λ _ f. f ≡ NotText };

    fn from(_error: Utf8Error) -> Self {
        Self::NotText
    }
}
