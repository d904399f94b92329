use bk_base::FileId;
use bk_swap::{SwapStop, decode, encode};
use std::alloc::Global;
use std::process::Abort;

// Packed by Python's struct and zlib: inputs 1, outputs 3.
const LIST: &[u8; 20] =
    b"\x00\x00\x00\x01\x00\x00\x00\x01\x00\x00\x00\x01\x00\x00\x00\x03\x82\x3f\xfe\x99";

const EMPTY: &[u8; 12] = b"\x00\x00\x00\x00\x00\x00\x00\x00\x65\x22\xdf\x69";

const MORE_OUTPUTS: &[u8; 24] =
    b"\x00\x00\x00\x01\xff\xff\xff\xfe\x00\x00\x00\x02\x00\x00\x00\x07\x00\x00\x00\x08\xd4\xac\x41\x45";

// Lists and their texts.
const WHOLE: [(&[FileId], &[FileId], &[u8]); 3] = [
    (&[FileId(1)], &[FileId(3)], LIST),
    (&[], &[], EMPTY),
    (
        &[FileId(4_294_967_294)],
        &[FileId(7), FileId(8)],
        MORE_OUTPUTS,
    ),
];

fn reads(rt: &impl Abort, alloc: Global, inputs: &[FileId], outputs: &[FileId], text: &[u8]) {
    let swap = decode(alloc, text).expect(rt, "a list");
    assert_eq!(rt; swap.inputs.as_slice(), inputs);
    assert_eq!(rt; swap.outputs.as_slice(), outputs);
}

#[test]
fn lists_are_written_one_after_the_other(rt: HostRuntime) {
    let mut all = Vec::new(rt.alloc());
    for (inputs, outputs, text) in WHOLE {
        let begin = all.len();
        encode(inputs, outputs, &mut all).expect(&rt, "memory");
        assert_eq!(rt; all.get(begin..), Some(text));
    }
}

#[test]
fn lists_are_read(rt: HostRuntime) {
    for (inputs, outputs, text) in WHOLE {
        reads(&rt, rt.alloc(), inputs, outputs, text);
    }
}

// What is no whole list, and why.
const REFUSED: [(&[u8], SwapStop); 8] = [
    (b"", SwapStop::Short { need: 12, have: 0 }),
    (b"\x00\x00\x01", SwapStop::Short { need: 12, have: 3 }),
    (
        b"\x00\x00\x00\x02\x00",
        SwapStop::Short { need: 20, have: 5 },
    ),
    (
        b"\x00\x00\x00\x01\x00\x00\x00\x01\x00\x00\x00\x01\x00\x00\x00\x03\x82\x3f\xfe",
        SwapStop::Short { need: 20, have: 19 },
    ),
    (
        b"\xff\xff\xff\xff\x00\x00\x00\x01\x00\x00\x00\x01\x00\x00\x00\x03\x82\x3f\xfe\x99",
        SwapStop::Short {
            need: 17_179_869_192,
            have: 20,
        },
    ),
    (
        b"\x00\x00\x00\x01\x00\x00\x00\x01\x00\x00\x00\x01\x00\x00\x00\x03\x82\x3f\xfe\x99\x00",
        SwapStop::Long { need: 20, have: 21 },
    ),
    (
        b"\x00\x00\x00\x01\x00\x00\x00\x01\x00\x00\x00\x01\x00\x00\x00\x04\x82\x3f\xfe\x99",
        SwapStop::BadCheck {
            stored: 0x823f_fe99,
            computed: 0x1c5b_6b3a,
        },
    ),
    (
        b"\x00\x00\x00\x00\x00\x00\x00\x00\x65\x22\xdf\x68",
        SwapStop::BadCheck {
            stored: 0x6522_df68,
            computed: 0x6522_df69,
        },
    ),
];

#[test]
fn refusals_name_the_first_cause(rt: HostRuntime) {
    for (bytes, stop) in REFUSED {
        assert_eq!(rt; decode(rt.alloc(), bytes).err(), Some(stop));
    }
}
