// The script as its bytes come in: the line that has begun, and the session that answers it.
ghost use Rattle.std.specs.Prelude.{◌≡◌, []};
ghost use Rattle.std.specs.Option.{option_map};
ghost use Rattle.settle.specs.Desks.{Took, Ended};
ghost use Rattle.settle.specs.Sessions.{failed};

use crate::answer::Answer;
use crate::session::Session;
use script::line::Line;
use table::Table;

#[derive(Drop)]
pub struct Desk {
    line: Line,
    session: Session,
}

impl Desk {
    pub fn new() -> Desk
        ensures { result.line ≡ [] }
    {
        Desk {
            line: Line::new(),
            session: Session::new(),
        }
    }

    // Goes on by one byte. The one that ends a line gives the line's answer.
    pub fn take(&mut self, byte: u8) -> Option<Answer>
        ensures { Took byte self.old result self.new }
    {
        if byte == b'\n' {
            self.end_line()
        } else {
            self.line.push(byte);
            None
        }
    }

    // Ends the line, and gives its answer. The last line of an input may have no byte that ends it.
    pub fn end_line(&mut self) -> Option<Answer>
        ensures { Ended self.old result self.new }
    {
        let answer = self.session.answer(self.line.read());
        self.line.clear();
        answer
    }

    // The book, if there is one.
    pub fn book(&self) -> Option<&Table>
        ensures { option_map (λ x. x.now) result ≡ self.now.session.book }
    {
        self.session.book()
    }

    // Whether any line was answered by an error.
    pub fn failed(&self) -> bool
        ensures { result ≡ failed self.now.session }
    {
        self.session.failed()
    }
}
