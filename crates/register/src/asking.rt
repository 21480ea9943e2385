// Lines asked for by key, and listed by rising key.
ghost use Rattle.std.specs.Prelude.{◌≡◌, ◌<◌, if◌then◌else◌, Some, None, position};
ghost use Rattle.std.specs.Option.{ForSome};
ghost use Rattle.register.specs.Limits.{register_places};
ghost use Rattle.register.specs.Netting.{same_key, known, line_of, place_of};
ghost use Rattle.register.specs.Asking.{line_asked, line_from};
ghost use Rattle.register.specs.Nearest.{nearer, nearest};

use crate::Register;
use crate::line::Line;
use rank::key::Key;

// Whether two keys are one.
pub(crate) fn same_key(j: Key, k: Key) -> bool
    ensures { result ≡ same_key j k }
{
    j == k
}

// The place of the first line that has a key.
fn position_of(lines: &[Line], key: Key) -> Option<usize>
    ensures { result ≡ position (λ l. same_key l.claim.key key) lines.now }
{
    lines.iter().position(|line| same_key(line.claim.key, key))
}

// Whether a line is nearer than the best before it, which may be none: its key's number is from a number on, and smaller than
// that of the best.
fn is_nearer(number: u64, best: &Option<Line>, line: &Line) -> bool
    ensures { nearer number best.now line.now ≡ (if result then Some line.now else best.now) }
{
    let here = line.claim.key.number();
    match best {
        Some(best) if best.claim.key.number() <= here => false,
        _ => here >= number,
    }
}

// Of some lines, the nearest whose key has a number from a number on; of two with the same number the first.
fn nearest(lines: &[Line], number: u64) -> Option<Line>
    ensures { result ≡ nearest number lines.now }
{
    let mut best = None;
    for line in lines {
        if is_nearer(number, &best, line) {
            best = Some(*line);
        }
    }
    best
}

impl Register {
    // The place of the line that has the key, if there is one.
    pub fn place(&self, key: Key) -> Option<usize>
        ensures place { result ≡ (if known self.now key then Some (place_of self.now key) else None) }
        ensures within { ForSome result (λ i. i < register_places) }
    {
        position_of(self.lines(), key)
    }

    // Whether a line has the key.
    pub fn knows(&self, key: Key) -> bool
        ensures { result ≡ known self.now key }
    {
        self.place(key).is_some()
    }

    // The line that has the key; an unknown line is none.
    pub fn find(&self, key: Key) -> Option<Line>
        ensures { result ≡ line_asked self.now key }
    {
        let place = self.place(key)?;
        Some(self.lines[place])
    }

    // The line that has the key; of an unknown key a line without any trade.
    pub fn line_or_blank(&self, key: Key) -> Line
        ensures { result ≡ line_of self.now key }
    {
        match self.place(key) {
            Some(place) => self.lines[place],
            None => Line::blank(key),
        }
    }

    // The line whose key has the smallest number from a number on.
    // Asked again from the next number, it lists all lines by rising key.
    #[tactic(auto, using(crate::proofs::Listed::nearest_listed))]
    pub fn line_from(&self, number: u64) -> Option<Line>
        ensures { result ≡ line_from self.now number }
    {
        nearest(self.lines(), number)
    }
}
