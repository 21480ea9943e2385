// Finished lines make place.
ghost use Rattle.std.specs.Prelude.{◌≡◌, ◌+◌, ◌<◌, ◌≤◌, take, if◌then◌else◌};
ghost use Rattle.register.specs.Limits.{register_places};
ghost use Rattle.register.specs.Lines.{line as line_at, with_line};
ghost use Rattle.register.specs.Dropping.{finished_by, register_of, without_finished, Packed};

use crate::Register;
use crate::line::Line;

impl Register {
    // Moves a line to the front places, of which so many are taken, unless it is finished. Gives how many are taken then.
    fn keep(&mut self, day: u32, place: usize, filled: usize) -> usize
        requires place { place < register_places }
        requires filled { filled ≤ place }
        ensures count { result ≡ (if finished_by day (line_at self.old place) then filled else filled + 1) }
        ensures lines { self.new ≡ (if finished_by day (line_at self.old place) then self.old else with_line self.old filled (line_at self.old place)) }
    {
        let line = self.lines[place];
        if line.finished(day) {
            return filled;
        }
        self.lines[filled] = line;
        filled + 1
    }

    // Moves the lines that are not finished to the front places, in their order, and counts them.
    fn pack(&mut self, day: u32) -> usize
        ensures packed { Packed day self.old self.new self.old.count result }
        ensures within { result ≤ register_places }
    {
        let mut filled = 0;
        for place in 0..self.count {
            filled = self.keep(day, place, filled);
        }
        filled
    }

    // Leaves so many lines, and empties all places behind them.
    fn cut(&mut self, count: usize)
        requires { count ≤ register_places }
        ensures { self.new ≡ register_of (take count self.old.lines) }
    {
        self.lines[count..].fill(Line::default());
        self.count = count;
    }

    // Drops the lines that are finished by a day. The others stay, in their order.
    pub fn drop_finished(&mut self, day: u32)
        ensures { self.new ≡ without_finished day self.old }
    {
        let filled = self.pack(day);
        self.cut(filled);
    }
}
