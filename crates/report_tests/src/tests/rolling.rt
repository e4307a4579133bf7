// The program that freezes lots as it reads.
use crate::tests::{
    answers_orders, files, files_nothing, level, prints, refuses, refuses_orders, takes_65536_bytes,
};
use rolling_report::{calls_of, lot_file, replay, report, report_orders};
use std::alloc::Global;
use std::process::Abort;
use std::test::Fail;

#[test]
fn plans_are_printed(rt: HostRuntime) -> Result<(), Fail> {
    for (input, output) in [
        (
            "10,0,1\n1,4\n2,3\n3,8\n4,2\n5,9\nend\n",
            "frozen 1 2 7 13 3\nfrozen 3 4 10 12 5\nclosing 5 5 9 10 5\ntotal 35\n",
        ),
        ("1000000000,100000,3000\nend\n", "total 0\n"),
        ("10,0,1\n1,0\n2,0\n3,0\nend\n", "total 0\n"),
        (
            "10,0,1\n1,0\n2,0\n3,5\n4,0\nend\n",
            "closing 3 4 5 10 4\ntotal 10\n",
        ),
    ] {
        prints(
            &rt,
            |heap, input| report(heap, input),
            input.as_bytes(),
            output.as_bytes(),
        )?;
    }
    Ok(())
}

#[test]
fn refusals_are_printed(rt: HostRuntime) -> Result<(), Fail> {
    refuses(&rt, |heap, input| report(heap, input))?;
    prints(
        &rt,
        |heap, input| report(heap, input),
        b"10,0,1\n1,4\n2,3\n3,8\n5,1\nend\n",
        b"frozen 1 2 7 13 3\nrefused 10 at 12\n",
    )
}

#[test]
fn an_input_has_at_most_65536_bytes(rt: HostRuntime) -> Result<(), Fail> {
    takes_65536_bytes(&rt, |heap, input| report(heap, input))
}

#[test]
fn the_window_holds_255_periods(rt: HostRuntime) -> Result<(), Fail> {
    let heap = rt.alloc();
    let most = level(heap, "10,0,1", 255, 0)?;
    prints(
        &rt,
        |heap, input| report(heap, input),
        most.as_bytes(),
        b"total 0\n",
    )?;
    let more = level(heap, "10,0,1", 256, 0)?;
    prints(
        &rt,
        |heap, input| report(heap, input),
        more.as_bytes(),
        b"refused 19 at 0\n",
    )
}

#[test]
fn freezing_frees_the_window(rt: HostRuntime) -> Result<(), Fail> {
    let heap = rt.alloc();
    let mut output = String::new(heap);
    for period in 1..=299u32 {
        let evidence = period + 1;
        writeln!(
            output,
            "frozen {period} {period} 1000000 101000000000 {evidence}"
        )?;
    }
    writeln!(output, "closing 300 300 1000000 101000000000 300")?;
    writeln!(output, "total 30300000000000")?;
    let input = level(heap, "1000000000,100000,3000", 300, 1_000_000)?;
    prints(
        &rt,
        |heap, input| report(heap, input),
        input.as_bytes(),
        output.as_bytes(),
    )
}

// Replaying these letters on this input prints this output.
fn replays(
    rt: &(impl Abort + Alloc<A = Global>),
    letters: &str,
    input: &str,
    output: &str,
) -> Result<(), Fail> {
    let Some(calls) = calls_of(rt.alloc(), letters.as_bytes())? else {
        return Err(Fail::new("another letter"));
    };
    let out = replay(rt.alloc(), &calls, input.as_bytes())?;
    assert_eq!(rt; out.as_slice(), output.as_bytes());
    Ok(())
}

#[test]
fn calls_are_replayed(rt: HostRuntime) -> Result<(), Fail> {
    let input = "10,0,1\n1,4\n2,3\n3,8\n4,2\n5,9\nend\n";
    for (letters, input, output) in [
        ("", input, "total 0\n"),
        (
            "rrrrt",
            input,
            "read no\nread no\nread yes\nrefused 18 at 0\nfrozen 1 2 7 13 3\nclosing 3 3 8 10 3\ntotal 23\n",
        ),
        (
            "trr",
            "10,0,1\n1,4\nend\n",
            "refused 23 at 0\nread no\nrefused 21 at 0\nclosing 1 1 4 10 1\ntotal 10\n",
        ),
        (
            "rr",
            "10,0,1\n2,4\n",
            "refused 10 at 0\nrefused 10 at 0\ntotal 0\n",
        ),
        ("rt", "0,0,1\nend\n", "refused 1 at 0\n"),
    ] {
        replays(&rt, letters, input, output)?;
    }
    Ok(())
}

#[test]
fn other_letters_are_no_calls(rt: HostRuntime) -> Result<(), Fail> {
    let heap = rt.alloc();
    for letters in ["x", "rtR", "rt "] {
        assert!(rt;
            calls_of(heap, letters.as_bytes())?.is_none(),
            "{}",
            letters
        );
    }
    Ok(())
}

#[test]
fn orders_are_planned(rt: HostRuntime) -> Result<(), Fail> {
    answers_orders(&rt, |heap, input| report_orders(heap, input))
}

#[test]
fn orders_are_refused(rt: HostRuntime) -> Result<(), Fail> {
    refuses_orders(&rt, |heap, input| report_orders(heap, input))
}

#[test]
fn a_plan_is_filed(rt: HostRuntime) -> Result<(), Fail> {
    files(
        &rt,
        |heap, input| lot_file(heap, input),
        b"10,0,1\nend\n",
        b"\xc0\0\0\0",
    )?;
    files(
        &rt,
        |heap, input| lot_file(heap, input),
        b"10,0,1\n1,4\n2,3\nend\n",
        b"\x80\0\0\x01\0\0\0\x02\0\0\0\x07\0\0\0\x02\0\0\0\0\0\0\0\x0d\xc0\0\0\x01",
    )?;
    files(
        &rt,
        |heap, input| lot_file(heap, input),
        b"10,0,1\n1,4\n2,10\nend\n",
        b"\x40\0\0\x01\0\0\0\x01\0\0\0\x04\0\0\0\x02\0\0\0\0\0\0\0\x0a\x80\0\0\x02\0\0\0\x02\0\0\0\x0a\0\0\0\x02\0\0\0\0\0\0\0\x0a\xc0\0\0\x02",
    )?;
    for (input, line) in [
        ("10,0,1\n1,4\n3,3\nend\n", "refused 10 at 4\n"),
        ("10,0,1\n1,4\n2,10\n4,1\nend\n", "refused 10 at 9\n"),
    ] {
        files_nothing(
            &rt,
            |heap, input| lot_file(heap, input),
            input.as_bytes(),
            line.as_bytes(),
        )?;
    }
    Ok(())
}
