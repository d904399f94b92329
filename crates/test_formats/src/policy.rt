use bk_base::{FileId, Row, RowState};
use bk_policy::{SettingName, Settings, SettingsError, due};

// Texts, and the settings that they say.
const READ: [(&[u8], Settings); 4] = [
    (
        b"",
        Settings {
            dead_bytes: 33_554_432,
            max_file: 67_108_864,
            ttl: 0,
            dead_percent: 60,
        },
    ),
    (
        b"max_file = 4096\n",
        Settings {
            dead_bytes: 33_554_432,
            max_file: 4_096,
            ttl: 0,
            dead_percent: 60,
        },
    ),
    (
        b"# all of them\nttl = 4_294_967_295\nmax_file = 1073741824\ndead_percent = 100\ndead_bytes = 1",
        Settings {
            dead_bytes: 1,
            max_file: 1_073_741_824,
            ttl: 4_294_967_295,
            dead_percent: 100,
        },
    ),
    (
        b"dead_bytes = 1099511627776\ndead_percent = 1\nttl = 0\n",
        Settings {
            dead_bytes: 1_099_511_627_776,
            max_file: 67_108_864,
            ttl: 0,
            dead_percent: 1,
        },
    ),
];

#[test]
fn settings_are_read(rt: HostRuntime) {
    for (text, settings) in READ {
        assert_eq!(rt; Settings::read(rt.alloc(), text), Ok(settings));
    }
    assert_eq!(rt; Settings::read(rt.alloc(), b""), Ok(Settings::plain()));
}

// Texts that are refused, and why: the first wrong key by its bytes, whatever stands first in the text.
const REFUSED: [(&[u8], SettingsError); 12] = [
    (
        b"max_file = 100",
        SettingsError::OutOfRange {
            name: SettingName::MaxFile,
            value: 100,
        },
    ),
    (b"size = 1", SettingsError::UnknownKey),
    (b"max_file", SettingsError::NotToml),
    (
        b"max_file = 4096\nmax_file = 4096\n",
        SettingsError::NotToml,
    ),
    (b"\xff", SettingsError::NotToml),
    (b"ttl = \"1\"", SettingsError::NotInteger(SettingName::Ttl)),
    (b"ttl = 1.0", SettingsError::NotInteger(SettingName::Ttl)),
    (
        b"ttl = -1",
        SettingsError::OutOfRange {
            name: SettingName::Ttl,
            value: -1,
        },
    ),
    (
        b"dead_percent = 101",
        SettingsError::OutOfRange {
            name: SettingName::DeadPercent,
            value: 101,
        },
    ),
    (
        b"dead_bytes = 0",
        SettingsError::OutOfRange {
            name: SettingName::DeadBytes,
            value: 0,
        },
    ),
    (
        b"ttl = -1\nmax_file = 4095\nsize = 1\n",
        SettingsError::OutOfRange {
            name: SettingName::MaxFile,
            value: 4_095,
        },
    ),
    (
        b"ttl = -1\n[dead_bytes]\nsize = 1\n",
        SettingsError::NotInteger(SettingName::DeadBytes),
    ),
];

#[test]
fn refusals_name_the_first_cause(rt: HostRuntime) {
    for (text, error) in REFUSED {
        assert_eq!(rt; Settings::read(rt.alloc(), text), Err(error));
    }
}

#[test]
fn a_text_is_read_up_to_its_longest(rt: HostRuntime) {
    let blank = vec![in rt.alloc(); b' '; 65_537].expect(&rt, "memory");
    let longest = blank.get(..65_536).expect(&rt, "its front");
    assert_eq!(rt; Settings::read(rt.alloc(), longest), Ok(Settings::plain()));
    let refused = SettingsError::TooLong { len: 65_537 };
    assert_eq!(rt; Settings::read(rt.alloc(), &blank), Err(refused));
}

fn row(total: u64, live: u64, state: RowState) -> Row {
    Row {
        len: total,
        total,
        live,
        refs: 0,
        id: FileId(1),
        state,
    }
}

#[test]
fn a_merge_is_due_by_bytes_or_by_percent(rt: HostRuntime) {
    let settings = Settings {
        dead_bytes: 1_000,
        max_file: 4_096,
        ttl: 0,
        dead_percent: 60,
    };
    // Of a file: its total, what is live of it, its state, and whether it makes a merge due.
    let cases = [
        (10_000, 9_000, RowState::Sealed, true),
        (10_000, 9_001, RowState::Sealed, false),
        (100, 40, RowState::Sealed, true),
        (100, 41, RowState::Sealed, false),
        (0, 0, RowState::Sealed, false),
        (100, 101, RowState::Sealed, false),
        (u64::MAX, 0, RowState::Sealed, true),
        (10_000, 0, RowState::Active, false),
        (10_000, 0, RowState::Input, false),
        (10_000, 0, RowState::Output, false),
    ];
    for (total, live, state, is_due) in cases {
        let rows = [row(0, 0, RowState::Sealed), row(total, live, state)];
        assert_eq!(rt; due(&rows, &settings), is_due);
    }
    assert!(rt; !due(&[], &settings));
}
