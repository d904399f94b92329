// Texts whose CRC-32 is known from elsewhere. The last is longer than a block and no whole number of blocks; its CRC is from
// Python's `zlib.crc32`.
use bk_crc::{Running, crc32};

const KNOWN: [(&[u8], u32); 5] = [
    (b"", 0x0000_0000),
    (b"a", 0xe8b7_be43),
    (b"abc", 0x3524_41c2),
    (b"123456789", 0xcbf4_3926),
    (
        b"The quick brown fox jumps over the lazy dog, and back again",
        0x0bf6_0e1d,
    ),
];

// The CRC of the bytes, added `len` at a time.
fn crc_of_pieces(bytes: &[u8], len: usize) -> u32 {
    let mut crc = Running::new();
    for piece in bytes.chunks(len.max(1)) {
        crc.add(piece);
    }
    crc.end()
}

#[test]
fn known_texts(rt: HostRuntime) {
    for (bytes, want) in KNOWN {
        assert_eq!(rt; crc32(bytes), want, "whole, {want:08x}");
        for len in [1, 3, 7, 16, 17, 33] {
            assert_eq!(rt; crc_of_pieces(bytes, len), want, "by {len}, {want:08x}");
        }
    }
}
