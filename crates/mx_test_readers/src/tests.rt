//! An input that is read in parts, and one of which a read fails or is interrupted.
use mx_http::request::{InputFault, read_body, read_head};
use mx_intake::{IntakeFault, READ_FAILED, TOO_LONG, read_all};
use mx_test_cases::{Flow, Source};
use std::io::ErrorKind;
use std::test::Fail;

/// A text that is longer than a part.
const TEXT: &[u8] = b"D-ABCD,12,1";

/// A request: its head, and the body that it says.
const HEAD: &[u8] = b"POST /entries HTTP/1.1\r\nContent-Length: 2\r\n\r\n";

// A reader that gives a text in small parts, of which no read fails.
fn whole(text: &[u8]) -> Source<'_> {
    Source::new(
        text,
        Flow {
            part: 3,
            failing: None,
        },
    )
}

// A reader that gives a text in small parts, of which a read fails so behind the first `answered`.
fn failing(text: &[u8], answered: u32, kind: ErrorKind) -> Source<'_> {
    Source::new(
        text,
        Flow {
            part: 3,
            failing: Some((answered, kind)),
        },
    )
}

// Whether an input ends with this fault of the whole, where a read fails so behind the first `answered`.
fn is_told(rt: &HostRuntime, answered: u32, kind: ErrorKind) -> bool {
    let mut reader = failing(TEXT, answered, kind);
    match read_all(rt.alloc(), &mut reader, 100) {
        Ok(_) => false,
        Err(fault) => fault.number == READ_FAILED && fault.entry == 0,
    }
}

// Whether a head can't be read, where a read fails so behind the first `answered`.
fn is_head_told(rt: &HostRuntime, answered: u32, kind: ErrorKind) -> bool {
    let mut reader = failing(HEAD, answered, kind);
    matches!(read_head(rt.alloc(), &mut reader), Err(InputFault::Read))
}

// Whether a body can't be read, where a read fails so behind the first `answered`.
fn is_body_told(rt: &HostRuntime, answered: u32, kind: ErrorKind) -> bool {
    let mut reader = failing(TEXT, answered, kind);
    matches!(
        read_body(rt.alloc(), &mut reader, b"", TEXT.len()),
        Err(InputFault::Read)
    )
}

fn wanted(is_so: bool, what: &'static str) -> Result<(), Fail> {
    if is_so { Ok(()) } else { Err(what)? }
}

#[test]
fn failed_and_interrupted_reads_are_told(rt: HostRuntime) -> Result<(), Fail> {
    for answered in 0..4u32 {
        for kind in [ErrorKind::Other, ErrorKind::Interrupted] {
            wanted(is_told(&rt, answered, kind), "a read of all")?;
            wanted(is_head_told(&rt, answered, kind), "a head")?;
            wanted(is_body_told(&rt, answered, kind), "a body")?;
        }
    }
    Ok(())
}

#[test]
fn no_more_is_read_than_is_needed(rt: HostRuntime) -> Result<(), Fail> {
    let mut reader = whole(TEXT);
    let bytes = read_all(rt.alloc(), &mut reader, TEXT.len())?;
    wanted(
        bytes.as_slice() == TEXT && reader.ends == 1,
        "all bytes, and one end",
    )?;

    let mut longer = whole(TEXT);
    let fault = read_all(rt.alloc(), &mut longer, TEXT.len() - 1);
    wanted(
        fault
            == Err(IntakeFault {
                number: TOO_LONG,
                entry: 0,
            })
            && longer.ends == 0,
        "a longer one",
    )?;

    let mut head = whole(HEAD);
    let bytes = read_head(rt.alloc(), &mut head)?;
    wanted(
        bytes.as_slice() == HEAD && head.ends == 0,
        "a head, and no end",
    )?;

    let mut body = whole(TEXT);
    let found = read_body(rt.alloc(), &mut body, b"D-", 5)?;
    wanted(found.is_some() && body.ends == 0, "a body, and no end")?;

    let mut begun = failing(TEXT, 0, ErrorKind::Other);
    let found = read_body(rt.alloc(), &mut begun, b"D-ABCD", 6)?;
    wanted(
        found.is_some(),
        "a body that came with its head, and no read",
    )
}
