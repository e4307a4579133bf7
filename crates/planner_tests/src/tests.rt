use costs::{ConstantCosts, CostFault, CostLine, CostModel, DatedCosts};
use feeds::{Feed, Netting, OrderFeed, TextFeed};
use lots::{Lot, LotKind, Refusal};
use planner::{Answer, Call, ReadRefusal, Series, TakeRefusal, plan_forecast, run_series};
use std::alloc::{AllocError, Global};
use std::process::Abort;
use std::test::Fail;

// A setup costs 10, and keeping a unit costs 1 a period.
fn tens() -> Result<ConstantCosts, CostFault> {
    ConstantCosts::new(10, 0, 1)
}

// The calls that the letters stand for: r reads, any other takes.
fn calls(heap: Global, letters: &[u8]) -> Result<Vec<Call>, AllocError> {
    letters
        .iter()
        .map(|letter| match letter {
            b'r' => Call::Read,
            _ => Call::Take,
        })
        .collect(heap)
}

fn series<F: Feed + Drop, M: CostModel + Drop>(
    heap: Global,
    feed: F,
    model: M,
    letters: &[u8],
) -> Result<Series, AllocError> {
    run_series(heap, feed, model, &calls(heap, letters)?)
}

// What a call was answered.
fn answer(series: &Series, call: usize) -> Result<Answer, Fail> {
    let Some(entry) = series.entries.get(call) else {
        return Err(Fail::new("no such call"));
    };
    Ok(entry.answer)
}

// The lot that a call handed out.
fn given(series: &Series, call: usize) -> Result<Lot, Fail> {
    let Answer::Take(Ok(lot)) = answer(series, call)? else {
        return Err(Fail::new("no lot"));
    };
    Ok(lot)
}

// The answer of a call is that no lot is proved.
fn proves_none(rt: &impl Abort, series: &Series, call: usize) -> Result<(), Fail> {
    assert_eq!(rt;
        answer(series, call)?,
        Answer::Take(Err(TakeRefusal::NoneProved))
    );
    Ok(())
}

#[test]
fn a_lot_is_frozen_once_it_is_proved(rt: HostRuntime) -> Result<(), Fail> {
    let s = series(
        rt.alloc(),
        TextFeed::new(b"1,4\n2,3\n3,8\nend\n"),
        tens()?,
        b"rtrtrt",
    )?;
    proves_none(&rt, &s, 1)?;
    proves_none(&rt, &s, 3)?;
    assert_eq!(rt;
        given(&s, 5)?,
        Lot {
            kind: LotKind::Frozen,
            from: 1,
            through: 2,
            amount: 7,
            cost: 13,
            evidence: 3,
        }
    );
    Ok(())
}

#[test]
fn ties_go_to_the_later_setup(rt: HostRuntime) -> Result<(), Fail> {
    let nine = series(
        rt.alloc(),
        TextFeed::new(b"1,4\n2,9\nend\n"),
        tens()?,
        b"rrt",
    )?;
    proves_none(&rt, &nine, 2)?;
    let ten = series(
        rt.alloc(),
        TextFeed::new(b"1,4\n2,10\nend\n"),
        tens()?,
        b"rrt",
    )?;
    assert_eq!(rt;
        given(&ten, 2)?,
        Lot {
            kind: LotKind::Frozen,
            from: 1,
            through: 1,
            amount: 4,
            cost: 10,
            evidence: 2,
        }
    );
    Ok(())
}

#[test]
fn the_set_proves_before_a_setup_in_the_last_period(rt: HostRuntime) -> Result<(), Fail> {
    let s = series(
        rt.alloc(),
        TextFeed::new(b"1,4\n2,9\n3,5\n4,3\n5,4\nend\n"),
        tens()?,
        b"rtrtrtrtrtt",
    )?;
    proves_none(&rt, &s, 7)?;
    assert_eq!(rt;
        given(&s, 9)?,
        Lot {
            kind: LotKind::Frozen,
            from: 1,
            through: 1,
            amount: 4,
            cost: 10,
            evidence: 5,
        }
    );
    proves_none(&rt, &s, 10)?;
    assert!(rt; s.closing.len() == 2);
    assert_eq!(rt;
        s.closing[0],
        Lot {
            kind: LotKind::Closing,
            from: 2,
            through: 3,
            amount: 14,
            cost: 15,
            evidence: 5,
        }
    );
    assert_eq!(rt;
        s.closing[1],
        Lot {
            kind: LotKind::Closing,
            from: 4,
            through: 5,
            amount: 7,
            cost: 14,
            evidence: 5,
        }
    );
    Ok(())
}

#[test]
fn idle_periods_belong_to_no_lot(rt: HostRuntime) -> Result<(), Fail> {
    let s = series(
        rt.alloc(),
        TextFeed::new(b"1,0\n2,0\n3,5\n4,10\nend\n"),
        tens()?,
        b"rrrrt",
    )?;
    assert_eq!(rt;
        given(&s, 4)?,
        Lot {
            kind: LotKind::Frozen,
            from: 3,
            through: 3,
            amount: 5,
            cost: 10,
            evidence: 4,
        }
    );
    Ok(())
}

#[test]
fn two_lots_can_wait_at_one_period(rt: HostRuntime) -> Result<(), Fail> {
    let s = series(
        rt.alloc(),
        TextFeed::new(b"1,4\n2,9\n3,5\n4,3\n5,100\nend\n"),
        tens()?,
        b"rrrrrrttt",
    )?;
    assert_eq!(rt; answer(&s, 5)?, Answer::Read(Err(ReadRefusal::LotWaits)));
    assert_eq!(rt;
        given(&s, 6)?,
        Lot {
            kind: LotKind::Frozen,
            from: 1,
            through: 1,
            amount: 4,
            cost: 10,
            evidence: 5,
        }
    );
    assert_eq!(rt;
        given(&s, 7)?,
        Lot {
            kind: LotKind::Frozen,
            from: 2,
            through: 4,
            amount: 17,
            cost: 21,
            evidence: 5,
        }
    );
    proves_none(&rt, &s, 8)
}

#[test]
fn a_fault_is_told_again_and_again(rt: HostRuntime) -> Result<(), Fail> {
    let s = series(
        rt.alloc(),
        TextFeed::new(b"1,4\n2,3\n4,8\nend\n"),
        tens()?,
        b"rrrrr",
    )?;
    assert_eq!(rt; s.entries.len(), 5);
    for entry in &s.entries[2..] {
        let Answer::Read(Err(ReadRefusal::Feed(fault))) = entry.answer else {
            return Err(Fail::new("no fault"));
        };
        assert_eq!(rt; fault.number(), 10);
        assert_eq!(rt; fault.place(), 8);
        assert_eq!(rt; fault.period(), 3);
    }
    assert!(rt; s.closing.len() == 1);
    Ok(())
}

// A forecast of so many periods, each of the same demand. The tests of the reports have one like it: crates of tests share nothing.
fn level(heap: Global, periods: u32, demand: u32) -> Result<String, AllocError> {
    let mut text = String::new(heap);
    for period in 1..=periods {
        writeln!(text, "{period},{demand}")?;
    }
    writeln!(text, "end")?;
    Ok(text)
}

#[test]
fn the_window_is_full_at_256(rt: HostRuntime) -> Result<(), Fail> {
    let heap = rt.alloc();
    let text = level(heap, 256, 0)?;
    let full = plan_forecast(heap, TextFeed::new(text.as_bytes()), tens()?)?;
    assert_eq!(rt; full.stop, Some(ReadRefusal::WindowFull));
    let text = level(heap, 255, 0)?;
    let open = plan_forecast(heap, TextFeed::new(text.as_bytes()), tens()?)?;
    assert!(rt; open.stop.is_none());
    assert!(rt; open.lots.is_empty());
    Ok(())
}

#[test]
fn ten_thousand_periods_are_read(rt: HostRuntime) -> Result<(), Fail> {
    let heap = rt.alloc();
    let text = level(heap, 10_000, 7)?;
    let most = plan_forecast(heap, TextFeed::new(text.as_bytes()), tens()?)?;
    assert_eq!(rt; most.stop, Some(ReadRefusal::LimitReached));
    let text = level(heap, 9_999, 7)?;
    let whole = plan_forecast(heap, TextFeed::new(text.as_bytes()), tens()?)?;
    assert!(rt; whole.stop.is_none());
    let Some(last) = whole.lots.last() else {
        return Err(Fail::new("no lot"));
    };
    assert_eq!(rt; last.through, 9_999);
    assert_eq!(rt; last.evidence, 9_999);
    Ok(())
}

#[test]
fn other_feeds_and_models_are_planned_alike(rt: HostRuntime) -> Result<(), Fail> {
    let heap = rt.alloc();
    let lot = Lot {
        kind: LotKind::Frozen,
        from: 1,
        through: 1,
        amount: 4,
        cost: 10,
        evidence: 2,
    };
    // 4 in the first period, 10 in the second.
    let words = b"\x80\x00\x00\x01\x00\x00\x00\x04\x80\x00\x00\x02\x00\x00\x00\x0a\xc0\x00\x00\x02";
    let orders = series(heap, OrderFeed::new(words), tens()?, b"rrt")?;
    assert_eq!(rt; given(&orders, 2)?, lot);
    let Ok(netted) = Netting::new(TextFeed::new(b"1,9\n2,10\nend\n"), 5, Vec::new(heap)) else {
        return Err(Fail::new("refused"));
    };
    let stock = series(heap, netted, tens()?, b"rrt")?;
    assert_eq!(rt; given(&stock, 2)?, lot);
    let line = CostLine {
        date: 1,
        setup: 10,
        unit: 0,
        holding: 1,
    };
    let Ok(model) = DatedCosts::new(heap, &[line]) else {
        return Err(Fail::new("refused"));
    };
    let dated = series(heap, TextFeed::new(b"1,4\n2,10\nend\n"), model, b"rrt")?;
    assert_eq!(rt; given(&dated, 2)?, lot);
    Ok(())
}
