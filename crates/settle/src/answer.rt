// What the program answers to a line.
ghost use Rattle.std.specs.Prelude.{◌≡◌, Some};
ghost use Rattle.settle.specs.Answers.{reply_text, trouble_text, is_error};

use book::fault::BookFault;
use script::misread::Misread;
use std::error::Error;
use std::fmt;

pub type Answer = Result<Reply, Trouble>;

// What a command that was carried out is answered.
#[derive(Clone, Copy, Debug, PartialEq, Eq)]
pub enum Reply {
    // It was done.
    Done,
    // A balance.
    Amount(u64),
    // The book's space. The balances of its accounts follow.
    Balances { space: u32 },
}

// By hand, as that of `Trouble` below, since a derived text promises nothing.
impl fmt::Display for Reply {
    ghost output = { λ r. Some (reply_text r) };

    fn fmt<W: fmt::Write>(&self, f: &mut fmt::Formatter<W>) -> fmt::Result {
        match *self {
            Reply::Done => f.write_str("ok"),
            Reply::Amount(amount) => write!(f, "{amount}"),
            Reply::Balances { space } => write!(f, "space {space}"),
        }
    }
}

// Why a line was not carried out.
#[derive(Clone, Copy, Debug, PartialEq, Eq)]
pub enum Trouble {
    // The book refused it.
    Refused(BookFault),
    // There is no book to do it with.
    NoBook,
    // The line cannot be read.
    Misread { line: u64, why: Misread },
}

impl Trouble {
    // A refusal is no error.
    pub fn is_error(&self) -> bool
        ensures { result ≡ is_error self.now }
    {
        matches!(self, Trouble::NoBook | Trouble::Misread { .. })
    }
}

impl From<BookFault> for Trouble {
    ghost use Rattle.settle.specs.declared.answer.Trouble.TheVariants.{Refused};

    ghost from_gives = { λ fault t. t ≡ Refused fault };

    fn from(fault: BookFault) -> Trouble {
        Trouble::Refused(fault)
    }
}

impl fmt::Display for Trouble {
    ghost output = { λ t. Some (trouble_text t) };

    fn fmt<W: fmt::Write>(&self, f: &mut fmt::Formatter<W>) -> fmt::Result {
        match *self {
            Trouble::Refused(fault) => {
                let number = fault.number();
                write!(f, "refused book {number}")
            }
            Trouble::NoBook => f.write_str("error no book"),
            Trouble::Misread { line, why } => write!(f, "error line {line}: {why}"),
        }
    }
}

impl Error for Trouble {}
