//! A log of five writes, and what its functions say of it.

use bk_base::{Body, Key, Moment, Seq, Value, Write};
use bk_laws::{superseded, value_at, winner};
use std::alloc::Global;
use std::test::Fail;

fn key(alloc: Global, byte: u8) -> Result<Key, Fail> {
    let mut bytes = Vec::new(alloc);
    bytes.push(byte)?;
    Ok(Key::new(bytes)?)
}

// a at 5, b at 6, a at 7, b is deleted, c at 9
fn log(alloc: Global) -> Result<Vec<Write>, Fail> {
    let mut writes = Vec::new(alloc);
    for (seq, byte, moment, gone) in [
        (1, b'a', 5, false),
        (2, b'b', 6, false),
        (3, b'a', 7, false),
        (4, b'b', 8, true),
        (5, b'c', 9, false),
    ] {
        let body = if gone {
            Body::Gone
        } else {
            Body::Put(Value::new(Vec::new(alloc))?)
        };
        writes.push(Write {
            seq: Seq(seq),
            moment: Moment(moment),
            key: key(alloc, byte)?,
            body,
        })?;
    }
    Ok(writes)
}

#[test]
fn the_last_write_of_a_key_counts(rt: HostRuntime) -> Result<(), Fail> {
    let log = log(rt.alloc())?;
    for (byte, place, live, live_for_two) in [
        (b'a', Some(2), Some(2), None),
        (b'b', Some(3), None, None),
        (b'c', Some(4), Some(4), Some(4)),
        (b'd', None, None, None),
    ] {
        let key = key(rt.alloc(), byte)?;
        assert_eq!(rt; winner(&log, &key), place);
        assert_eq!(rt; value_at(&log, &key, Moment(10), 0), live);
        assert_eq!(rt; value_at(&log, &key, Moment(10), 2), live_for_two);
    }
    for (place, is) in [
        (0, true),
        (1, true),
        (2, false),
        (3, false),
        (4, false),
        (5, false),
    ] {
        assert_eq!(rt; superseded(&log, place), is);
    }
    Ok(())
}
