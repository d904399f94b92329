use bk_base::{Key, Kind, Name, Value};
use std::collections::HashMap;
use std::test::Fail;

const NAMES: [(&str, u32, Kind); 8] = [
    ("1.bitcask.data", 1, Kind::Main),
    ("4294967294.bitcask.data", 4_294_967_294, Kind::Main),
    ("20.bitcask.temp", 20, Kind::MainTemp),
    ("307.bitcask.hint", 307, Kind::Hint),
    ("4.bitcask.htmp", 4, Kind::HintTemp),
    ("5.bitcask.swap", 5, Kind::Swap),
    ("6.bitcask.stmp", 6, Kind::SwapTemp),
    ("bitcask.toml", 0, Kind::Settings),
];

const OTHER_TEXTS: [&str; 14] = [
    "",
    "01.bitcask.data",
    "0.bitcask.data",
    "4294967295.bitcask.data",
    "99999999999999999999.bitcask.data",
    "+1.bitcask.data",
    "1.BITCASK.DATA",
    "1.bitcask.date",
    "1.bitcask.data ",
    "1.bitcask.data.hint",
    ".bitcask.data",
    "1",
    "0.bitcask.toml",
    "bitcask.write.lock",
];

#[test]
fn names_are_read_and_shown_by_their_table(rt: HostRuntime) -> Result<(), Fail> {
    for (text, id, kind) in NAMES {
        let name = Name::read(text).ok_or(text)?;
        assert_eq!(rt; name, Name { id, kind });
        assert_eq!(rt; name.show(rt.alloc())?.as_str(), text);
    }
    for text in OTHER_TEXTS {
        assert_eq!(rt; Name::read(text), None, "{text}");
    }
    Ok(())
}

#[test]
fn keys_are_found_by_their_bytes(rt: HostRuntime) -> Result<(), Fail> {
    let mut places = HashMap::new(rt.alloc());
    for (place, bytes) in [b"a", b"b", b"a"].iter().enumerate() {
        let key = Key::new(bytes.to_vec(rt.alloc())?)?;
        let _earlier = places.insert(key.copy()?, place)?;
        assert_eq!(rt; places.get(&key), Some(&place));
    }
    assert_eq!(rt; places.len(), 2);
    Ok(())
}

#[test]
fn keys_keep_their_bytes_in_place_and_on_the_heap(rt: HostRuntime) -> Result<(), Fail> {
    let text = b"the bytes of one key after another";
    for len in 1..=text.len() {
        let (front, other) = (&text[..len], &text[text.len() - len..]);
        let key = Key::new(front.to_vec(rt.alloc())?)?;
        assert_eq!(rt; key.bytes(), front);
        assert_eq!(rt; key.copy()?.bytes(), front);
        assert_eq!(rt; key.copy()?, key);
        assert_eq!(rt; Key::of(rt.alloc(), front)?, key);
        let same = Key::new(other.to_vec(rt.alloc())?)? == key;
        assert_eq!(rt; same, front == other, "{len} bytes");
    }
    Ok(())
}

#[test]
fn lengths_are_bounded(rt: HostRuntime) -> Result<(), Fail> {
    for (len, taken) in [(0, false), (1, true), (65_535, true), (65_536, false)] {
        let made = Key::new(vec![in rt.alloc(); 7u8; len]?);
        assert_eq!(rt; made.is_ok(), taken, "a key of {len} bytes");
    }
    for (len, taken) in [(0, true), (16_777_216, true), (16_777_217, false)] {
        let made = Value::new(vec![in rt.alloc(); 7u8; len]?);
        assert_eq!(rt; made.is_ok(), taken, "a value of {len} bytes");
    }
    Ok(())
}
