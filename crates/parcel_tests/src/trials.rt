// Trials: accepted changes stay, and after a refusal every byte is as before.
use crate::build::{answer, blank, put, put_line};
use parcel::line::LineBytes;
use parcel::trial::trial;
use std::test::Fail;

// Line, code, SR1, SR2 and the refusal's number, 0 where the change stays.
const CHANGES: [(u8, u8, u8, u8, u8); 9] = [
    (0x90, 0x48, 0x3F, 0x3E, 0),
    (0x00, 0x0D, 0xA0, 0xF8, 0),
    (0xFF, 0x68, 0x3F, 0xFF, 0),
    (0x00, 0x00, 0x00, 0x00, 0),
    (0x00, 0x48, 0x3F, 0x3E, 21),
    (0x7F, 0x74, 0x3F, 0x7F, 22),
    (0x40, 0x50, 0x3F, 0x00, 23),
    (0xFF, 0xA5, 0xF4, 0xFC, 24),
    (0xFF, 0xFE, 0x01, 0x02, 21),
];

#[test]
fn changes(rt: HostRuntime) -> Result<(), Fail> {
    for (line, code, sr1, sr2, number) in CHANGES {
        let mut parcel = blank(rt.alloc(), &[1, 2, 3])?;
        put_line(&mut parcel, 10, line, 0, 0x11, 0x22);
        let mut expected = parcel.clone()?;
        if number == 0 {
            put_line(&mut expected, 10, line, code, sr1, sr2);
        }
        let given = trial(parcel.as_mut_slice(), line, LineBytes { code, sr1, sr2 });
        let address = if number == 0 { 0 } else { line };
        assert_eq!(rt; answer(given), (number, address));
        assert_eq!(rt; parcel, expected);
    }
    Ok(())
}

// A parcel that is refused as it is stays as it is, whatever the change.
#[test]
fn refused_as_it_is(rt: HostRuntime) -> Result<(), Fail> {
    let mut parcel = blank(rt.alloc(), &[1, 2, 3])?;
    put(&mut parcel, 10 + 0x20, 0x77);
    let before = parcel.clone()?;
    let new = LineBytes {
        code: 0,
        sr1: 0,
        sr2: 0,
    };
    assert_eq!(rt; answer(trial(parcel.as_mut_slice(), 0x20, new)), (21, 0x20));
    assert_eq!(rt; parcel, before);
    assert_eq!(rt; answer(trial(&mut [], 0x20, new)), (11, 0));
    Ok(())
}
