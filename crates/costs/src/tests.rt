// The edges of making and asking.
use crate::{ConstantCosts, CostLine, CostModel, DatedCosts, check_lines};
use lots::Refusal;
use std::test::Fail;

// The number of a refusal; the tests expect 0 where nothing is refused.
fn number_of<T: Copy, R: Refusal + Copy>(made: Result<T, R>) -> u32 {
    match made {
        Ok(_) => 0,
        Err(fault) => fault.number(),
    }
}

fn refusal(setup: u64, unit: u64, holding: u64) -> u32 {
    number_of(ConstantCosts::new(setup, unit, holding))
}

#[test]
fn constant_costs_are_refused_in_order(rt: HostRuntime) {
    assert_eq!(rt; refusal(1, 0, 0), 0);
    assert_eq!(rt; refusal(1_000_000_000, 100_000, 3_000), 0);
    assert_eq!(rt; refusal(0, 100_001, 3_001), 1);
    assert_eq!(rt; refusal(1_000_000_001, 0, 0), 1);
    assert_eq!(rt; refusal(1, 100_001, 3_001), 2);
    assert_eq!(rt; refusal(1, 100_000, 3_001), 3);
}

#[test]
fn constant_costs_tell_what_they_know(rt: HostRuntime) -> Result<(), Fail> {
    let Ok(model) = ConstantCosts::new(10, 7, 2) else {
        return Err(Fail::new("refused"));
    };
    assert_eq!(rt; model.setup(0), None);
    assert_eq!(rt; model.setup(1), Some(10));
    assert_eq!(rt; model.price(0, 1), None);
    assert_eq!(rt; model.price(4, 3), None);
    assert_eq!(rt; model.price(4, 4), Some(7));
    assert_eq!(rt; model.price(4, 259), Some(7 + 2 * 255));
    assert_eq!(rt; model.price(4, 260), None);
    Ok(())
}

fn line(date: u32, setup: u64, unit: u64, holding: u64) -> CostLine {
    CostLine {
        date,
        setup,
        unit,
        holding,
    }
}

fn refusal_of_lines(lines: &[CostLine]) -> u32 {
    number_of(check_lines(lines))
}

#[test]
fn cost_lines_are_refused_in_order(rt: HostRuntime) {
    assert_eq!(rt; refusal_of_lines(&[]), 4);
    assert_eq!(rt; refusal_of_lines(&[line(1, 1, 0, 0); 65]), 4);
    assert_eq!(rt; refusal_of_lines(&[line(2, 0, 0, 0)]), 5);
    assert_eq!(rt; refusal_of_lines(&[line(1, 0, 0, 0), line(1, 1, 0, 0)]), 5);
    assert_eq!(rt;
        refusal_of_lines(&[line(1, 1, 0, 3_001), line(2, 0, 9, 0)]),
        3
    );
    assert_eq!(rt;
        refusal_of_lines(&[line(1, 1, 4, 1), line(9, 1, 6, 0), line(10, 0, 0, 0)]),
        1
    );
    assert_eq!(rt; refusal_of_lines(&[line(1, 1, 4, 1), line(9, 1, 6, 0)]), 6);
    assert_eq!(rt; refusal_of_lines(&[line(1, 1, 4, 1), line(9, 1, 5, 0)]), 0);
}

#[test]
fn dated_costs_tell_what_they_know(rt: HostRuntime) -> Result<(), Fail> {
    let lines = [line(1, 10, 5, 1), line(4, 20, 6, 2), line(6, 30, 7, 3)];
    let Ok(model) = DatedCosts::new(rt.alloc(), &lines) else {
        return Err(Fail::new("refused"));
    };
    assert_eq!(rt; model.setup(0), None);
    assert_eq!(rt; model.setup(3), Some(10));
    assert_eq!(rt; model.setup(4), Some(20));
    assert_eq!(rt; model.setup(4_000_000_000), Some(30));
    assert_eq!(rt; model.price(2, 5), Some(5 + 1 + 1 + 2));
    assert_eq!(rt; model.price(1, 7), Some(5 + 3 * 1 + 2 * 2 + 3));
    assert_eq!(rt; model.price(6, 6), Some(7));
    assert_eq!(rt; model.price(7, 6), None);
    assert_eq!(rt;
        model.price(4_294_967_040, 4_294_967_295),
        Some(7 + 3 * 255)
    );
    Ok(())
}
