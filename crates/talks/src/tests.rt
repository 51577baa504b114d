use console::desk::Desk;
use console::session::converse;
use std::test::Fail;

// What is answered to the script, and whether a command was wrong.
fn talk(rt: HostRuntime, script: &[u8]) -> Result<(String, bool), Fail> {
    let heap = rt.alloc();
    let mut desk = Desk::new(rt, script, Vec::<u8>::new(heap));
    converse(&mut desk)?;
    let text = String::from_utf8(desk.out.clone()?)?;
    Ok((text, desk.failed))
}

#[test]
fn goes_on_after_wrong_words(rt: HostRuntime) -> Result<(), Fail> {
    let (text, failed) = talk(
        rt,
        b"nonsense\nCheck\ncheck now\nparcel\nsave a b\ntrial 40H\ntrial 4h 00H 00H 00H\ntrial 40H 00H 00H 0\n",
    )?;
    assert!(rt; failed);
    assert_eq!(rt;
        text.as_str(),
        "error: no command nonsense\nerror: no command Check\nerror: wrong number of words for check\nerror: wrong number of words for parcel\nerror: wrong number of words for save\nerror: wrong number of words for trial\nerror: 4h is not a byte such as E2H\nerror: 0 is not a byte such as E2H\n"
    );
    Ok(())
}

#[test]
fn goes_on_after_bytes_that_are_no_text(rt: HostRuntime) -> Result<(), Fail> {
    let (text, failed) = talk(rt, b"\xff\n\n  \n# check\n  check  \r\n\xc3")?;
    assert!(rt; failed);
    assert_eq!(rt;
        text.as_str(),
        "error: the line is not text\nrefused 11: the first byte is not 3 or 4\nerror: the line is not text\n"
    );
    Ok(())
}

#[test]
fn goes_on_after_a_file_that_fails(rt: HostRuntime) -> Result<(), Fail> {
    let (text, failed) = talk(
        rt,
        b"parcel no-such-folder/a\nsave no-such-folder/a\nreport\n",
    )?;
    assert!(rt; failed);
    assert_eq!(rt;
        text.as_str(),
        "error: cannot read no-such-folder/a\nerror: cannot write no-such-folder/a\nparcels read 0, bytes 0\nquestions answered 0: taken 0, refused 0\nparcels saved 0, bytes 0\nwrong commands 2\nok\n"
    );
    Ok(())
}

#[test]
fn a_refusal_is_no_error(rt: HostRuntime) -> Result<(), Fail> {
    let (text, failed) = talk(rt, b"check\nlines\ntrial 40H 00H 00H 00H\nreport")?;
    assert!(rt; !failed);
    assert_eq!(rt;
        text.as_str(),
        "refused 11: the first byte is not 3 or 4\nrefused 11: the first byte is not 3 or 4\nrefused 11: the first byte is not 3 or 4\nparcels read 0, bytes 0\nquestions answered 3: taken 0, refused 3\nrefusal 11: 3\nparcels saved 0, bytes 0\nwrong commands 0\nok\n"
    );
    Ok(())
}
