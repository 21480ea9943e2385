ghost use Rattle.std.specs.Prelude.{◌≡◌, if◌then◌else◌};
ghost use Rattle.rank.specs.Order.{Found};

use crate::Rank;
use crate::claim::Claim;

/// The place of the first of some lines, by any rank; none if there are no lines.
/// Of lines of one side, due day and security, each with a key of its own, it is the one that goes before all others.
pub fn first_of<R: Rank>(rank: &R, settlement: u32, lines: &[Claim]) -> Option<usize>
    ensures { Found (R.Rank.goes rank.now settlement) lines.now result }
{
    lines
        .iter()
        .enumerate()
        .reduce(
            |best, next|
                ensures { result ≡ if R.Rank.goes rank.entry.now settlement next.entry.1.now best.entry.1.now
                    then next.entry else best.entry }
            {
                if rank.before(settlement, next.1, best.1) {
                    next
                } else {
                    best
                }
            },
        )
        .map(|(place, _)| place)
}
