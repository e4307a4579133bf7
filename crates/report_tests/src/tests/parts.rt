// What both programs share besides their reports.
use reporting::{Mode, fail, read_input};
use std::test::Fail;

#[test]
fn an_input_is_read_up_to_a_byte_too_many(rt: HostRuntime) -> Result<(), Fail> {
    let heap = rt.alloc();
    let text: &[u8] = b"10,0,1\nend\n";
    assert_eq!(rt; read_input(heap, text)?.as_slice(), text);
    let long = vec![in heap; b'1'; 70_000]?;
    assert_eq!(rt; read_input(heap, long.as_slice())?.len(), 65_537);
    Ok(())
}

#[test]
fn a_failure_says_why(rt: HostRuntime) -> Result<(), Fail> {
    let why: &[u8] = b"no\n";
    let mut told = Vec::new(rt.alloc());
    fail(&mut told, why)?;
    assert_eq!(rt; told.as_slice(), why);
    Ok(())
}

#[test]
fn modes_are_named(rt: HostRuntime) {
    assert_eq!(rt; "orders".parse::<Mode>().ok(), Some(Mode::Orders));
    assert_eq!(rt; "file".parse::<Mode>().ok(), Some(Mode::File));
    assert_eq!(rt; "files".parse::<Mode>().ok(), None);
}
