ghost use Rattle.std.specs.Prelude.{◌≡◌};
ghost use Rattle.std.specs.Option.{option_map};
ghost use Rattle.lots.specs.Lots.{terms, lot_of};

use crate::lot::{Lot, LotKind};

impl Lot {
    // The lot of these numbers, if they make a lawful one. They come loose, since a struct of them would be a lot already.
    pub fn new(
        kind: LotKind,
        from: u32,
        through: u32,
        amount: u32,
        cost: u64,
        evidence: u32,
    ) -> Option<Lot>
        ensures { option_map terms result ≡ lot_of kind from through amount cost evidence }
    {
        if from < 1 || through < from || evidence < through || evidence > 10_000 {
            return None;
        }
        if through - from > 255 || !(1..=256_000_000).contains(&amount) || cost >= 1 << 60 {
            return None;
        }
        if kind == LotKind::Frozen && through == evidence {
            return None;
        }
        Some(Lot {
            kind,
            from,
            through,
            amount,
            cost,
            evidence,
        })
    }
}
