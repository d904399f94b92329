ghost use Rattle.std.specs.Prelude.{◌≡◌};

use bk_base::{Body, Key, Moment, Seq, Value, Write};
use bk_record::{Stop, decode, decode_key, encode};
use std::alloc::Global;
use std::process::Abort;

// Packed by Python's struct and zlib.
const PUT: &[u8; 24] =
    b"\xaf\xf4\x43\xc2\x00\x00\x00\x05\x00\x01\x00\x00\x00\x01\x00\x00\x00\x00\x00\x00\x00\x01a1";

const TOMBSTONE: &[u8; 23] =
    b"\x42\xf6\x5a\x5d\x00\x00\x00\x07\x00\x01\xff\xff\xff\xff\x00\x00\x00\x00\x00\x00\x00\x02a";

fn key(rt: &impl Abort, alloc: Global) -> Key {
    Key::of(alloc, b"a").expect(rt, "memory")
}

fn put(rt: &impl Abort, alloc: Global) -> Write
    ensures { result.seq.0 ≡ 1 }
{
    let value = b"1".to_vec(alloc).expect(rt, "memory");
    Write {
        seq: Seq(1),
        moment: Moment(5),
        key: key(rt, alloc),
        body: Body::Put(Value::new(value).expect(rt, "a value")),
    }
}

fn tombstone(rt: &impl Abort, alloc: Global) -> Write
    ensures { result.seq.0 ≡ 2 }
{
    Write {
        seq: Seq(2),
        moment: Moment(7),
        key: key(rt, alloc),
        body: Body::Gone,
    }
}

#[test]
fn writes_are_encoded_one_after_the_other(rt: HostRuntime) {
    let mut out = Vec::new(rt.alloc());
    encode(&put(&rt, rt.alloc()), &mut out).expect(&rt, "memory");
    assert_eq!(rt; out.as_slice(), PUT.as_slice());
    encode(&tombstone(&rt, rt.alloc()), &mut out).expect(&rt, "memory");
    assert_eq!(rt; out.strip_prefix(PUT), Some(TOMBSTONE.as_slice()));
}

// Both records, the put first.
fn records(rt: &impl Abort, alloc: Global) -> Vec<u8> {
    let mut bytes = PUT.to_vec(alloc).expect(rt, "memory");
    bytes.extend_from_slice(TOMBSTONE).expect(rt, "memory");
    bytes
}

#[test]
fn a_put_is_decoded_whatever_follows(rt: HostRuntime) {
    let bytes = records(&rt, rt.alloc());
    let put = decode(rt.alloc(), &bytes).expect(&rt, "a record");
    assert_eq!(rt; (put.size, put.crc), (24, 0xaff4_43c2));
    assert_eq!(rt; (put.write.seq, put.write.moment), (Seq(1), Moment(5)));
    assert_eq!(rt; put.write.key.bytes(), b"a".as_slice());
    assert!(rt; matches!(&put.write.body, Body::Put(value) if value.bytes() == b"1".as_slice()));
}

#[test]
fn the_key_of_a_put_is_decoded(rt: HostRuntime) {
    let bytes = records(&rt, rt.alloc());
    let put = decode_key(rt.alloc(), &bytes).expect(&rt, "a record");
    assert_eq!(rt;
        (put.seq, put.moment, put.size, put.gone),
        (Seq(1), Moment(5), 24, false)
    );
    assert_eq!(rt; (put.key.bytes(), put.crc), (b"a".as_slice(), 0xaff4_43c2));
}

#[test]
fn a_tombstone_is_decoded(rt: HostRuntime) {
    let tombstone = decode(rt.alloc(), TOMBSTONE).expect(&rt, "a record");
    assert_eq!(rt; tombstone.size, 23);
    assert!(rt; matches!(tombstone.write.body, Body::Gone));
    let key = decode_key(rt.alloc(), TOMBSTONE).expect(&rt, "a record");
    assert!(rt; key.gone);
}

// What no record begins, and why. The first field of the last rows is the checksum that the rest has.
const REFUSED: [(&[u8], Stop); 9] = [
    (b"", Stop::End),
    (b"\xaf", Stop::Short),
    (
        b"\xaf\xf4\x43\xc2\x00\x00\x00\x05\x00\x01\x00\x00\x00\x01\x00\x00\x00\x00\x00\x00\x00",
        Stop::Short,
    ),
    (
        b"\xaf\xf4\x43\xc2\x00\x00\x00\x05\x00\x01\x00\x00\x00\x01\x00\x00\x00\x00\x00\x00\x00\x01a",
        Stop::Short,
    ),
    (
        b"\xaf\xf4\x43\xc2\x00\x00\x00\x05\x00\x01\x00\x00\x00\x01\x00\x00\x00\x00\x00\x00\x00\x01a2",
        Stop::BadCheck {
            stored: 0xaff4_43c2,
            computed: 0x36fd_1278,
        },
    ),
    (
        b"\x11\x22\x33\x44\x00\x00\x00\x05\x00\x01\x00\x00\x00\x01\x00\x00\x00\x00\x00\x00\x00\x00a1",
        Stop::BadCheck {
            stored: 0x1122_3344,
            computed: 0xae36_29f5,
        },
    ),
    (
        b"\xae\x36\x29\xf5\x00\x00\x00\x05\x00\x01\x00\x00\x00\x01\x00\x00\x00\x00\x00\x00\x00\x00a1",
        Stop::BadField,
    ),
    (
        b"\x48\x33\x20\xf4\x00\x00\x00\x05\x00\x01\x00\x00\x00\x01\x80\x00\x00\x00\x00\x00\x00\x00a1",
        Stop::BadField,
    ),
    (
        b"\x07\x56\x4e\x3c\x00\x00\x00\x05\x00\x00\x00\x00\x00\x01\x00\x00\x00\x00\x00\x00\x00\x011",
        Stop::BadField,
    ),
];

#[test]
fn refusals_name_the_first_cause(rt: HostRuntime) {
    for (bytes, stop) in REFUSED {
        assert_eq!(rt; decode(rt.alloc(), bytes).err(), Some(stop));
        assert_eq!(rt; decode_key(rt.alloc(), bytes).err(), Some(stop));
    }
}
