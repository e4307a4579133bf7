// The lines that are printed, each with its line feed.
// Every number that the programs print goes through the one printer of `lots`: what it writes, `number` reads back.
ghost use Rattle.std.specs.Prelude.{◌≡◌, Some};
ghost use Rattle.lots.specs.Lots.{terms};
ghost use Rattle.reporting.specs.Lines.{word_of_kind, lot_line, total_line, line_of_refusal};

use lots::{Decimal, Lot, LotKind};
use std::fmt;

// A word and no `Display` for `LotKind`, which would have to stand in `lots`, where nothing is printed.
fn kind_word(kind: LotKind) -> &'static str
    ensures { result.now ≡ word_of_kind kind }
{
    match kind {
        LotKind::Frozen => "frozen",
        LotKind::Closing => "closing",
    }
}

// A lot by its kind, its first and last period, its amount, its cost and its evidence.
#[derive(Clone, Copy)]
pub struct LotLine(pub Lot);

impl fmt::Display for LotLine {
    ghost output = { λ l. Some (lot_line (terms l.0)) };

    fn fmt<W: fmt::Write>(&self, f: &mut fmt::Formatter<W>) -> fmt::Result {
        let Lot {
            kind,
            from,
            through,
            amount,
            cost,
            evidence,
        } = self.0;
        let kind = kind_word(kind);
        writeln!(
            f,
            "{kind} {} {} {} {} {}",
            Decimal(u64::from(from)),
            Decimal(u64::from(through)),
            Decimal(u64::from(amount)),
            Decimal(cost),
            Decimal(u64::from(evidence)),
        )
    }
}

// What all lots cost together.
#[derive(Clone, Copy)]
pub struct TotalLine(pub u64);

impl fmt::Display for TotalLine {
    ghost output = { λ l. Some (total_line l.0) };

    fn fmt<W: fmt::Write>(&self, f: &mut fmt::Formatter<W>) -> fmt::Result {
        writeln!(f, "total {}", Decimal(self.0))
    }
}

// A refusal by its number and its place.
#[derive(Clone, Copy)]
pub struct RefusalLine {
    pub number: u32,
    pub place: usize,
}

impl fmt::Display for RefusalLine {
    ghost output = { λ l. Some (line_of_refusal l.number l.place) };

    fn fmt<W: fmt::Write>(&self, f: &mut fmt::Formatter<W>) -> fmt::Result {
        writeln!(
            f,
            "refused {} at {}",
            Decimal(u64::from(self.number)),
            Decimal(self.place as u64),
        )
    }
}
