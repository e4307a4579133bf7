// The program that plans at once: its lots are all closing ones.
use crate::tests::{
    answers_orders, files, files_nothing, level, prints, refuses, refuses_orders, takes_65536_bytes,
};
use report::{lot_file, report, report_orders};
use std::test::Fail;

#[test]
fn plans_are_printed(rt: HostRuntime) -> Result<(), Fail> {
    for (input, output) in [
        (
            "10,0,1\n1,4\n2,3\n3,8\n4,2\n5,9\nend\n",
            "closing 1 2 7 13 5\nclosing 3 4 10 12 5\nclosing 5 5 9 10 5\ntotal 35\n",
        ),
        ("1000000000,100000,3000\nend\n", "total 0\n"),
        ("10,0,1\n1,0\n2,0\n3,0\nend\n", "total 0\n"),
        (
            "10,0,1\n1,0\n2,0\n3,5\n4,0\nend\n",
            "closing 3 4 5 10 4\ntotal 10\n",
        ),
    ] {
        prints(
            &rt,
            |heap, input| report(heap, input),
            input.as_bytes(),
            output.as_bytes(),
        )?;
    }
    Ok(())
}

#[test]
fn refusals_are_printed(rt: HostRuntime) -> Result<(), Fail> {
    refuses(&rt, |heap, input| report(heap, input))
}

#[test]
fn an_input_has_at_most_65536_bytes(rt: HostRuntime) -> Result<(), Fail> {
    takes_65536_bytes(&rt, |heap, input| report(heap, input))
}

#[test]
fn the_window_holds_255_periods(rt: HostRuntime) -> Result<(), Fail> {
    let heap = rt.alloc();
    let dearest = "1000000000,100000,3000";
    let mut output = String::new(heap);
    for period in 1..=255u32 {
        writeln!(output, "closing {period} {period} 1000000 101000000000 255")?;
    }
    writeln!(output, "total 25755000000000")?;
    let most = level(heap, dearest, 255, 1_000_000)?;
    prints(
        &rt,
        |heap, input| report(heap, input),
        most.as_bytes(),
        output.as_bytes(),
    )?;
    let more = level(heap, dearest, 256, 1_000_000)?;
    prints(
        &rt,
        |heap, input| report(heap, input),
        more.as_bytes(),
        b"refused 19 at 0\n",
    )
}

#[test]
fn orders_are_planned(rt: HostRuntime) -> Result<(), Fail> {
    answers_orders(&rt, |heap, input| report_orders(heap, input))
}

#[test]
fn orders_are_refused(rt: HostRuntime) -> Result<(), Fail> {
    refuses_orders(&rt, |heap, input| report_orders(heap, input))
}

#[test]
fn a_plan_is_filed(rt: HostRuntime) -> Result<(), Fail> {
    files(
        &rt,
        |heap, input| lot_file(heap, input),
        b"10,0,1\nend\n",
        b"\xc0\0\0\0",
    )?;
    files(
        &rt,
        |heap, input| lot_file(heap, input),
        b"10,0,1\n1,4\n2,3\nend\n",
        b"\x80\0\0\x01\0\0\0\x02\0\0\0\x07\0\0\0\x02\0\0\0\0\0\0\0\x0d\xc0\0\0\x01",
    )?;
    files_nothing(
        &rt,
        |heap, input| lot_file(heap, input),
        b"10,0,1\n1,4\n3,3\nend\n",
        b"refused 10 at 4\n",
    )
}
