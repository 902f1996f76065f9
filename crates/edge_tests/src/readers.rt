// A reader whose input comes a piece at a time.

use awk_fields::reader::{Reader, Taken};
use std::process::Abort;
use std::test::Fail;

// A test holds what is tried, and its rows borrow that: what is held is let go on each way out.

#[test]
fn a_reader_waits_for_the_end_of_a_record(rt: HostRuntime) -> Result<(), Fail> {
    waits(&rt, &mut Reader::new(rt.alloc()), &mut Vec::new(rt.alloc()))
}

fn waits(rt: &impl Abort, reader: &mut Reader, room: &mut Vec<u8>) -> Result<(), Fail> {
    assert!(rt; matches!(reader.take(b"\n", room)?, Taken::NeedMore));
    reader.push(b"a\nbb")?;
    assert!(rt;
        matches!(reader.take(b"\n", room)?, Taken::Record(text) if text.bytes() == b"a".as_slice())
    );
    assert!(rt; matches!(reader.take(b"\n", room)?, Taken::NeedMore));
    assert!(rt; matches!(reader.take(b"b", room)?, Taken::Record(text) if text.bytes().is_empty()));
    reader.push(b"c\n")?;
    assert!(rt;
        matches!(reader.take(b"\n", room)?, Taken::Record(text) if text.bytes() == b"bc".as_slice())
    );
    reader.finish();
    assert!(rt; matches!(reader.take(b"\n", room)?, Taken::Done));
    Ok(())
}

#[test]
fn newlines_at_the_end_are_left_unread(rt: HostRuntime) -> Result<(), Fail> {
    let mut reader = Reader::new(rt.alloc());
    // What lay in the room before is no part of a text.
    let mut room = vec![in rt.alloc(); b'x'; 8]?;
    reader.push(b"1 a\n\n\n")?;
    reader.finish();
    assert!(rt;
        matches!(reader.take(b"", &mut room)?, Taken::Record(text) if text.bytes() == b"1 a".as_slice())
    );
    assert!(rt; matches!(reader.take(b"", &mut room)?, Taken::Done));
    assert!(rt;
        matches!(reader.take(b"\n", &mut room)?, Taken::Record(text) if text.bytes().is_empty())
    );
    assert!(rt; matches!(reader.take(b"\n", &mut room)?, Taken::Done));
    Ok(())
}
