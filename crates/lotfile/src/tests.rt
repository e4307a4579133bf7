// Lots as bytes, and the edges of a buffer.
use crate::{WriteFault, file, write_end, write_lot};
use lots::{Lot, LotKind};
use std::test::Fail;

fn lot(kind: LotKind, through: u32, cost: u64) -> Option<Lot> {
    Lot::new(kind, 1, through, 7, cost, 3)
}

#[test]
fn a_lot_is_six_words(rt: HostRuntime) -> Result<(), Fail> {
    let mut buffer = [0xEE; 28];
    let Some(frozen) = lot(LotKind::Frozen, 2, 13) else {
        return Err(Fail::new("no lot"));
    };
    assert_eq!(rt; write_lot(&mut buffer, 2, frozen), Ok(()));
    let bytes = [
        0x40, 0, 0, 1, 0, 0, 0, 2, 0, 0, 0, 7, 0, 0, 0, 3, 0, 0, 0, 0, 0, 0, 0, 13,
    ];
    assert_eq!(rt; &buffer[0..2], &[0xEE, 0xEE][0..]);
    assert_eq!(rt; &buffer[2..26], &bytes[0..]);
    assert_eq!(rt; &buffer[26..28], &[0xEE, 0xEE][0..]);
    Ok(())
}

#[test]
fn a_refused_lot_leaves_the_buffer(rt: HostRuntime) -> Result<(), Fail> {
    let mut buffer = [0xEE; 28];
    let Some(closing) = lot(LotKind::Closing, 3, 13) else {
        return Err(Fail::new("no lot"));
    };
    assert_eq!(rt; write_lot(&mut buffer, 5, closing), Err(WriteFault::NoRoom));
    assert_eq!(rt;
        write_lot(&mut buffer, 18_446_744_073_709_551_615, closing),
        Err(WriteFault::NoRoom)
    );
    assert_eq!(rt;
        write_lot(&mut buffer[0..23], 0, closing),
        Err(WriteFault::NoRoom)
    );
    assert_eq!(rt; write_end(&mut buffer, 25, 1), Err(WriteFault::NoRoom));
    assert_eq!(rt;
        write_end(&mut buffer, 24, 10_001),
        Err(WriteFault::TooMany)
    );
    assert_eq!(rt; &buffer[0..], &[0xEE; 28][0..]);
    assert_eq!(rt; write_end(&mut buffer, 24, 10_000), Ok(()));
    assert_eq!(rt; &buffer[24..28], &[0xC0, 0, 0x27, 0x10][0..]);
    Ok(())
}

#[test]
fn a_file_ends_with_its_count(rt: HostRuntime) -> Result<(), Fail> {
    let Some(closing) = lot(LotKind::Closing, 3, 5 * 1_073_741_824 + 6) else {
        return Err(Fail::new("no lot"));
    };
    let bytes = file(rt.alloc(), &[closing])?;
    let due = [
        0x80, 0, 0, 1, 0, 0, 0, 3, 0, 0, 0, 7, 0, 0, 0, 3, 0, 0, 0, 5, 0, 0, 0, 6, 0xC0, 0, 0, 1,
    ];
    assert_eq!(rt; bytes.as_slice(), &due[0..]);
    assert_eq!(rt; file(rt.alloc(), &[])?.as_slice(), &[0xC0, 0, 0, 0][0..]);
    Ok(())
}
