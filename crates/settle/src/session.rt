// The script so far: the book, the lines that were read, and how many were answered by an error.
ghost use Rattle.std.specs.Prelude.{◌≡◌, None};
ghost use Rattle.std.specs.Option.{option_map};
ghost use Rattle.settle.specs.Books.{Good};

use crate::answer::{Answer, Reply, Trouble};
use crate::orders::obey;
use book::counts::Counts;
use script::command::Command;
use script::misread::Misread;
use table::Table;

#[derive(Drop)]
pub struct Session {
    book: Option<Table>,
    lines: u64,
    errors: u64,
    ghost good: { Good book },
}

impl Session {
    ghost use Rattle.settle.specs.Sessions.{Obeyed, Turn, failed};

    pub fn new() -> Session
        ensures book { result.book ≡ None }
        ensures lines { result.lines ≡ 0 }
        ensures errors { result.errors ≡ 0 }
    {
        Session {
            book: None,
            lines: 0,
            errors: 0,
        }
    }

    // Makes an empty table. The book that was there is let go, whatever the answer. It is written once, since a table is large.
    fn make_table(&mut self, accounts: u8, assets: u8) -> Answer
        ensures obeyed { Obeyed (Command.Table accounts assets) self.old.book result self.new.book }
        ensures lines { self.new.lines ≡ self.old.lines }
        ensures errors { self.new.errors ≡ self.old.errors }
    {
        match Counts::new(accounts, assets) {
            Ok(counts) => {
                self.book = Some(Table::new(counts));
                Ok(Reply::Done)
            }
            Err(fault) => {
                self.book = None;
                Err(fault.into())
            }
        }
    }

    fn carry_out(&mut self, command: Command) -> Answer
        ensures obeyed { Obeyed command self.old.book result self.new.book }
        ensures lines { self.new.lines ≡ self.old.lines }
        ensures errors { self.new.errors ≡ self.old.errors }
    {
        match command {
            Command::Table { accounts, assets } => self.make_table(accounts, assets),
            Command::OnBook(command) => match &mut self.book {
                Some(book) => Ok(obey(book, command)?),
                None => Err(Trouble::NoBook),
            },
        }
    }

    // The answer to the next line, from what it says. A line that says nothing has none.
    pub fn answer(&mut self, said: Result<Option<Command>, Misread>) -> Option<Answer>
        ensures { Turn said self.old result self.new }
    {
        self.lines = self.lines.saturating_add(1);
        let answer = match said.transpose()? {
            Ok(command) => self.carry_out(command),
            Err(why) => Err(Trouble::Misread {
                line: self.lines,
                why,
            }),
        };
        if let Err(trouble) = answer
            && trouble.is_error()
        {
            self.errors = self.errors.saturating_add(1);
        }
        Some(answer)
    }

    // The book, if there is one.
    pub fn book(&self) -> Option<&Table>
        ensures { option_map (λ x. x.now) result ≡ self.now.book }
    {
        self.book.as_ref()
    }

    // Whether any line was answered by an error.
    pub fn failed(&self) -> bool
        ensures { result ≡ failed self.now }
    {
        self.errors > 0
    }
}
