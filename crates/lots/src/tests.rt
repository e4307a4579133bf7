// The edges of the numbers that make a lot, and of the check of dated lines.
ghost use Rattle.std.specs.Prelude.{if◌then◌else◌, Some, None, nat_lt};
ghost use Rattle.lots.specs.declared.tests.TooHeavy.TheVariants.{Weighing};

use crate::decimal::{number, push_decimal};
use crate::{DatedLine, FirstDate, Lot, LotKind, Refusal, check_dated};
use std::convert::Infallible;
use std::test::Fail;

fn made(kind: LotKind, from: u32, through: u32, amount: u32, cost: u64, evidence: u32) -> bool {
    Lot::new(kind, from, through, amount, cost, evidence).is_some()
}

#[test]
fn a_lot_keeps_its_bounds(rt: HostRuntime) {
    let top = (1 << 60) - 1;
    assert!(rt;
        made(LotKind::Frozen, 9_744, 9_999, 256_000_000, top, 10_000),
        "all at their bounds"
    );
    assert!(rt;
        !made(LotKind::Frozen, 9_743, 9_999, 1, 1, 10_000),
        "257 periods"
    );
    assert!(rt; !made(LotKind::Closing, 0, 1, 1, 1, 1), "period 0");
    assert!(rt; !made(LotKind::Closing, 2, 1, 1, 1, 2), "backward");
    assert!(rt; !made(LotKind::Closing, 1, 2, 1, 1, 1), "not read yet");
    assert!(rt;
        !made(LotKind::Closing, 10_001, 10_001, 1, 1, 10_001),
        "too many periods"
    );
    assert!(rt; !made(LotKind::Closing, 1, 1, 0, 1, 1), "nothing made");
    assert!(rt;
        !made(LotKind::Closing, 1, 1, 256_000_001, 1, 1),
        "too much made"
    );
    assert!(rt; !made(LotKind::Closing, 1, 1, 1, top + 1, 1), "too dear");
}

#[test]
fn only_a_closing_lot_ends_at_its_evidence(rt: HostRuntime) {
    assert!(rt; made(LotKind::Closing, 1, 2, 7, 13, 2));
    assert!(rt; made(LotKind::Frozen, 1, 2, 7, 13, 3));
    assert!(rt; !made(LotKind::Frozen, 1, 2, 7, 13, 2));
}

#[test]
fn a_written_number_is_read_back(rt: HostRuntime) -> Result<(), Fail> {
    for n in [0, 9, 10, 100, 18_446_744_073_709_551_615] {
        let mut text = Vec::from_slice(rt.alloc(), b"n")?;
        push_decimal(&mut text, n)?;
        let digits = &text[1..];
        let read = number(digits, 19).map(|numeral| numeral.value);
        assert_eq!(rt; read, (digits.len() < 20).then_some(n));
    }
    Ok(())
}

// A line with an amount, which may not be above 9.
struct Weighed(u32, u32);

#[derive(Clone, Copy)]
enum TooHeavy {
    Weighing(u32),
}

impl Refusal for TooHeavy {
    ghost numbered = { λ f. elim f [ Weighing n ↦ n ] };

    fn number(&self) -> u32 {
        let TooHeavy::Weighing(n) = self;
        *n
    }
}

impl DatedLine for Weighed {
    type Fault = TooHeavy;

    ghost dated = { λ x. x.0 };

    ghost earned = { λ x. (if nat_lt 9 x.1 then Some (Weighing x.1) else None) };

    fn date(&self) -> u32 {
        self.0
    }

    fn fault(&self) -> Option<TooHeavy> {
        (self.1 > 9).then_some(TooHeavy::Weighing(self.1))
    }
}

// The number of the refusal; the tests expect 0 where nothing is refused.
fn refusal(lines: &[Weighed], first: FirstDate) -> u32 {
    match check_dated(lines, 1, 3, first) {
        Ok(()) => 0,
        Err(fault) => fault.number(),
    }
}

#[test]
fn dated_lines_are_refused_in_order(rt: HostRuntime) {
    let one = FirstDate::Exactly(1);
    let late = FirstDate::AtLeast(2);
    assert_eq!(rt; refusal(&[], one), 4);
    assert_eq!(rt;
        refusal(&[Weighed(1, 9), Weighed(2, 9), Weighed(3, 9)], one),
        0
    );
    assert_eq!(rt;
        refusal(
            &[Weighed(1, 10), Weighed(1, 9), Weighed(3, 9), Weighed(4, 9)],
            one,
        ),
        4
    );
    assert_eq!(rt;
        refusal(&[Weighed(1, 10), Weighed(1, 9)], one),
        5,
        "the same date twice"
    );
    assert_eq!(rt; refusal(&[Weighed(2, 10)], one), 5);
    assert_eq!(rt; refusal(&[Weighed(2, 9)], late), 0);
    assert_eq!(rt; refusal(&[Weighed(1, 9)], late), 5);
    assert_eq!(rt;
        refusal(&[Weighed(1, 9), Weighed(4, 11), Weighed(5, 12)], one),
        11
    );
}

// A line with a date alone.
struct Day(u32);

impl DatedLine for Day {
    type Fault = Infallible;

    ghost dated = { λ x. x.0 };

    ghost earned = { λ _. None };

    fn date(&self) -> u32 {
        self.0
    }

    fn fault(&self) -> Option<Infallible> {
        None
    }
}

#[test]
fn a_date_alone_is_checked_too(rt: HostRuntime) {
    assert!(rt; check_dated(&[Day(0), Day(4_294_967_295)], 0, 2, FirstDate::Exactly(0)).is_ok());
    assert!(rt; check_dated(&[Day(7), Day(6)], 0, 2, FirstDate::AtLeast(1)).is_err());
}
