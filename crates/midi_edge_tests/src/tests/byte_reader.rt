// What a reader of bytes answers, one call after the other.
use item_reader::ByteReader;
use midi_edge::{MemSource, PlainSource};
use outside::{Failed, ReadStop};
use std::alloc::Global;
use std::test::Fail;

type Answer = Result<Option<(u8, u64)>, ReadStop>;

const FAILED: Answer = Err(ReadStop::Read(Failed));

const TOO_LONG: Answer = Err(ReadStop::TooLong);

fn gives(reader: &mut ByteReader, source: &mut MemSource, answers: &[Answer]) -> bool {
    for answer in answers {
        if reader.next(source) != *answer {
            return false;
        }
    }
    true
}

// Whether these are the first answers for "abcde", from a source that
// gives pieces of these sizes and fails at these calls.
fn is_row(
    alloc: Global,
    cuts: &[usize],
    fails: &[u64],
    limit: u8,
    answers: &[Answer],
) -> Result<bool, Fail> {
    let bytes = Vec::from_slice(alloc, b"abcde")?;
    let cuts = Vec::from_slice(alloc, cuts)?;
    let fails = Vec::from_slice(alloc, fails)?;
    let mut source = MemSource::new(bytes, cuts, fails);
    let mut reader = ByteReader::new(u64::from(limit));
    Ok(gives(&mut reader, &mut source, answers))
}

// Any chunking gives the same, the limit may be passed, and a failed take loses nothing.
#[test]
fn bytes_are_read(rt: HostRuntime) -> Result<(), Fail> {
    let (a, b) = (Ok(Some((b'a', 0))), Ok(Some((b'b', 1))));
    let (c, d) = (Ok(Some((b'c', 2))), Ok(Some((b'd', 3))));
    let e = Ok(Some((b'e', 4)));
    let whole = [a, b, c, d, e, Ok(None), Ok(None)];
    let cut = [a, b, TOO_LONG, TOO_LONG];
    let failing = [FAILED, a, b, FAILED, FAILED, c, d, e, FAILED, Ok(None)];
    let both = [a, b, FAILED, TOO_LONG, TOO_LONG];
    let rows: [(&[usize], &[u64], u8, &[Answer]); 9] = [
        (&[], &[], 9, &whole),
        (&[1, 1, 1, 1, 1], &[], 9, &whole),
        (&[0, 3, 0, 0], &[], 9, &whole),
        (&[2, 70000], &[], 5, &whole),
        (&[], &[], 2, &cut),
        (&[1, 1, 1], &[], 2, &cut),
        (&[2], &[], 0, &cut[2..]),
        (&[2], &[0, 2, 3, 5], 5, &failing),
        (&[2], &[1, 3], 2, &both),
    ];
    for (k, (cuts, fails, limit, answers)) in rows.iter().enumerate() {
        assert!(rt;
            is_row(rt.alloc(), cuts, fails, *limit, answers)?,
            "row {k}"
        );
    }
    Ok(())
}

// Whether ten thousand bytes are read, and then the end. Each is 7, except the first one after the window.
fn gives_all(reader: &mut ByteReader, source: &mut PlainSource) -> bool {
    for offset in 0..10000 {
        let byte = if offset == 4096 { 8 } else { 7 };
        if reader.next(source) != Ok(Some((byte, offset))) {
            return false;
        }
    }
    reader.next(source) == Ok(None)
}

#[test]
fn the_window_is_refilled(rt: HostRuntime) -> Result<(), Fail> {
    let mut bytes = vec![in rt.alloc(); 7; 10000]?;
    bytes[4096] = 8;
    let mut source = PlainSource::new(bytes);
    let mut empty = PlainSource::new(Vec::new(rt.alloc()));
    let mut reader = ByteReader::new(20000);
    let given = gives_all(&mut reader, &mut source);
    let mut reader = ByteReader::new(0);
    let ends = [reader.next(&mut empty), reader.next(&mut source)];
    assert!(rt; given && ends == [Ok(None); 2]);
    Ok(())
}
