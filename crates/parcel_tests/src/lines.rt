// The lines: their codes, places and constants, and what a configuration and its listing hold.
use crate::build::{ask, blank, put_line};
use commands::command::Analog;
use listing::rows::listing;
use parcel::configuration::read;
use readings::settings::Divisor;
use readings::word::Word;
use std::test::Fail;

// Line, code, SR1 and SR2 in a parcel without a table; the refusal's number, 0 where it is taken.
const LINES: [(u8, u8, u8, u8, u8); 30] = [
    // codes of the wrong side, of none, and the last and first of a block
    (0x00, 0x0D, 0, 0, 0),
    (0x00, 0x0E, 0, 0, 21),
    (0x3F, 0xC1, 0, 0, 0),
    (0x3F, 0xC2, 0, 0, 21),
    (0x3F, 0xBF, 0, 0, 21),
    (0x3F, 0xA5, 0, 0, 21),
    (0x40, 0x01, 0, 0, 21),
    (0x40, 0xC0, 0, 0, 21),
    (0x40, 0x12, 0, 0, 21),
    (0x40, 0x4F, 0, 0, 21),
    (0x40, 0x57, 0, 0, 21),
    (0xFF, 0x7C, 0, 0, 21),
    (0xFF, 0xA6, 0, 0, 21),
    (0xFF, 0xAF, 0, 0, 21),
    (0xFF, 0xFF, 0, 0, 21),
    // rate limiters, integrators and delays
    (0x7F, 0x68, 0, 0, 22),
    (0x80, 0x68, 0, 0, 0),
    (0x40, 0x73, 0, 0, 22),
    (0x7F, 0x74, 0, 0, 22),
    (0x80, 0x7B, 0, 0, 0),
    (0x7F, 0xA7, 0, 0, 22),
    (0x80, 0xAE, 0, 0, 0),
    (0x3F, 0x68, 0, 0, 21),
    // the table
    (0x40, 0x50, 0, 0, 23),
    // constants
    (0x40, 0xA4, 0xF3, 0xFC, 0),
    (0x40, 0xA4, 0xF4, 0xFC, 24),
    (0xFF, 0xA5, 0xF3, 0x7C, 0),
    (0xFF, 0xA5, 0xF4, 0x7C, 24),
    (0xFF, 0xA5, 0xFF, 0xFF, 24),
    (0xFF, 0x3D, 0xFF, 0xFF, 0),
];

#[test]
fn single_lines(rt: HostRuntime) -> Result<(), Fail> {
    for (line, code, sr1, sr2, number) in LINES {
        let mut parcel = blank(rt.alloc(), &[1, 2, 3])?;
        put_line(&mut parcel, 10, line, code, sr1, sr2);
        let address = if number == 0 { 0 } else { line };
        assert_eq!(rt; ask(&parcel), (number, address));
    }
    Ok(())
}

#[test]
fn lowest_line_decides(rt: HostRuntime) -> Result<(), Fail> {
    let mut parcel = blank(rt.alloc(), &[1, 2, 3])?;
    put_line(&mut parcel, 10, 0xFF, 0xFF, 0, 0);
    assert_eq!(rt; ask(&parcel), (21, 0xFF));
    put_line(&mut parcel, 10, 0x90, 0xA4, 0xFF, 0xFF);
    assert_eq!(rt; ask(&parcel), (24, 0x90));
    put_line(&mut parcel, 10, 0x41, 0x50, 0, 0);
    assert_eq!(rt; ask(&parcel), (23, 0x41));
    put_line(&mut parcel, 10, 0x00, 0xA4, 0xFF, 0xFF);
    assert_eq!(rt; ask(&parcel), (21, 0x00));
    Ok(())
}

#[test]
fn table_line_with_a_table(rt: HostRuntime) -> Result<(), Fail> {
    let mut parcel = blank(rt.alloc(), &[1, 2, 3, 4])?;
    put_line(&mut parcel, 13, 0x40, 0x50, 0x3F, 0);
    assert_eq!(rt; ask(&parcel), (0, 0));
    Ok(())
}

#[test]
fn configuration_of_a_parcel(rt: HostRuntime) -> Result<(), Fail> {
    let mut parcel = blank(rt.alloc(), &[4, 1, 2, 3])?;
    put_line(&mut parcel, 47, 0x9E, 0x79, 0x40, 0x9E);
    crate::build::put(&mut parcel, 13, 0x80);
    crate::build::put(&mut parcel, 14, 0xBE);
    let Ok(configuration) = read(parcel.as_slice()) else {
        return Err(Fail::new("the parcel was refused"));
    };
    let line = configuration.analog[0x9E - 0x40];
    assert_eq!(rt; line.command, Analog::Integrate(Divisor::D4800));
    assert_eq!(rt; (line.sr1, line.sr2), (0x40, 0x9E));
    let Some(words) = configuration.table else {
        return Err(Fail::new("the table was lost"));
    };
    assert_eq!(rt;
        words[0],
        Word {
            low: 0x80,
            high: 0xBE,
        }
    );
    assert_eq!(rt; words[16], Word { low: 0, high: 0 });
    Ok(())
}

#[test]
fn listing_of_a_configuration(rt: HostRuntime) -> Result<(), Fail> {
    let mut parcel = blank(rt.alloc(), &[1, 2, 3])?;
    put_line(&mut parcel, 10, 0x05, 0x01, 0x04, 0x00);
    put_line(&mut parcel, 10, 0x40, 0x00, 0x12, 0x00);
    put_line(&mut parcel, 10, 0x41, 0x3D, 0x3F, 0x80);
    put_line(&mut parcel, 10, 0x90, 0xA4, 0x80, 0xBE);
    put_line(&mut parcel, 10, 0x91, 0xA5, 0x43, 0x86);
    put_line(&mut parcel, 10, 0x92, 0xA5, 0x00, 0x00);
    put_line(&mut parcel, 10, 0xE2, 0x48, 0x00, 0x00);
    let Ok(configuration) = read(parcel.as_slice()) else {
        return Err(Fail::new("the parcel was refused"));
    };
    let text = listing(rt.alloc(), &configuration)?;
    assert_eq!(rt;
        text.as_str(),
        "05H : BTN, 04H\n40H : NOP, 12H, 00H\n41H : DIR, 3FH, 80H\n90H : FIX, #+100.0\n91H : FLX, 43H, 86H\n92H : FLX, #+000.0\nE2H : ADD, 00H, 00H\n"
    );
    Ok(())
}
