ghost use Rattle.rank.specs.Keys.{NumbersDiffer, LowBitsDiffer, NumberExample};
ghost use Rattle.rank.specs.Order.{InsertionKeepsOrder, OrderIsUnique};

/// Does nothing. Its contract names the theorems of this crate, so that the crate is proved only with their proofs:
/// what the numbers of keys tell apart, and what follows for lists of lines from the laws of any rank.
pub fn laws_hold()
    ensures numbers { NumbersDiffer }
    ensures low_bits { LowBitsDiffer }
    ensures example { NumberExample }
    ensures insertion { InsertionKeepsOrder }
    ensures unique { OrderIsUnique }
{}
