//! What no clause says: the texts of replies, and that reading and writing succeed.
use bk_base::{Reply, Seq, Value};
use bk_wire::{ReplyStop, read_reply, write_reply};
use std::alloc::Global;
use std::process::Abort;

const REPLIES: [&[u8]; 30] = [
    b"VALUE 1\n1\n",
    b"VALUE 0\n\n",
    b"VALUE 12\n\x00\nVALUE 0\n\n\xff\n",
    b"NONE\n",
    b"OK 1\n",
    b"OK 0\n",
    b"OK 18446744073709551615\n",
    b"PAIR 1 0\nk\n",
    b"PAIR 2 3\nab\n c\n",
    b"KEY 1\n\n\n",
    b"KEY 10\n0123456789\n",
    b"END 3\n",
    b"SYNCED 7\n",
    b"MERGED 0 4294967295\n",
    b"MERGED 12 3\n",
    b"HELD 4294967295\n",
    b"JOB 5\n",
    b"STAT 1 1 24 24\n",
    b"STAT 18446744073709551615 0 340282366920938463463374607431768211455 0\n",
    b"BYE\n",
    b"MEMORY\n",
    b"DISK\n",
    b"READ\n",
    b"DAMAGED 1 24 0000beef 12345678\n",
    b"CUT 1 72 24\n",
    b"FULL seq\n",
    b"FULL files\n",
    b"FULL folds\n",
    b"FULL turns\n",
    b"SYNTAX 8\n",
];

/// Texts that begin no reply, and the place of the first byte that is wrong.
const REFUSED: [(&[u8], usize); 24] = [
    (b"value 1\n1\n", 0),
    (b"\nBYE\n", 0),
    (b"NULL\n", 1),
    (b"BYE \n", 3),
    (b"BYE\r\n", 3),
    (b"OK 01\n", 4),
    (b"OK  1\n", 3),
    (b"OK \n", 3),
    (b"OK 1 \n", 4),
    (b"OK -1\n", 3),
    (b"OK 18446744073709551616\n", 22),
    (b"JOB 4294967296\n", 13),
    (b"STAT 1 1 340282366920938463463374607431768211456 0\n", 47),
    (b"STAT 1 1 00 0\n", 10),
    (b"MERGED 1\n", 8),
    (b"MERGED 1 2 3\n", 10),
    (b"VALUE 16777217\n", 13),
    (b"VALUE 1\n12", 9),
    (b"KEY 0\n\n", 4),
    (b"KEY 65536\n", 8),
    (b"PAIR 0 1\n", 5),
    (b"DAMAGED 1 24 0000BEEF 12345678\n", 17),
    (b"DAMAGED 1 24 beef 12345678\n", 17),
    (b"FULL seqs\n", 8),
];

/// Whether these bytes are refused, for this reason.
fn stops(alloc: Global, bytes: &[u8], stop: ReplyStop) -> bool {
    matches!(read_reply(alloc, bytes), Err(found) if found == stop)
}

/// Reads the reply with another behind it, and writes it again.
fn is_read_and_written(rt: &impl Abort, alloc: Global, text: &[u8]) {
    let mut bytes = text.to_vec(alloc).expect(rt, "memory");
    bytes.extend_from_slice(b"BYE\n").expect(rt, "memory");
    let read = read_reply(alloc, &bytes).expect(rt, "a reply");
    assert_eq!(rt; read.size, text.len());
    let mut written = Vec::new(alloc);
    write_reply(&read.reply, &mut written).expect(rt, "memory");
    assert_eq!(rt; written.as_slice(), text);
}

#[test]
fn each_reply_is_read_and_written_again(rt: HostRuntime) {
    for text in REPLIES {
        is_read_and_written(&rt, rt.alloc(), text);
    }
}

/// Each front of the text is refused: as too short, or as wrong once it has this byte.
fn fronts_stop(rt: &impl Abort, alloc: Global, text: &[u8], wrong: usize) {
    for cut in 0..text.len() {
        let stop = if cut <= wrong {
            ReplyStop::Short
        } else {
            ReplyStop::Bad
        };
        assert!(rt; stops(alloc, &text[..cut], stop), "cut at {cut}");
    }
}

#[test]
fn a_reply_that_is_cut_is_short(rt: HostRuntime) {
    for text in REPLIES {
        fronts_stop(&rt, rt.alloc(), text, text.len());
    }
}

#[test]
fn others_are_refused_at_the_first_wrong_byte(rt: HostRuntime) {
    for (text, wrong) in REFUSED {
        fronts_stop(&rt, rt.alloc(), text, wrong);
        assert!(rt; stops(rt.alloc(), text, ReplyStop::Bad));
    }
}

fn value(rt: &impl Abort, alloc: Global, bytes: &[u8]) -> Reply {
    let bytes = bytes.to_vec(alloc).expect(rt, "memory");
    Reply::Value(Value::new(bytes).expect(rt, "a value"))
}

#[test]
fn replies_are_written_one_after_the_other(rt: HostRuntime) {
    let replies = [
        Reply::Numbered(Seq(1)),
        value(&rt, rt.alloc(), b"1"),
        Reply::Absent,
        value(&rt, rt.alloc(), b""),
        Reply::Numbered(Seq(9_223_372_036_854_775_807)),
    ];
    let mut out = Vec::new(rt.alloc());
    for reply in &replies {
        write_reply(reply, &mut out).expect(&rt, "memory");
    }
    let text = b"OK 1\nVALUE 1\n1\nNONE\nVALUE 0\n\nOK 9223372036854775807\n";
    assert_eq!(rt; out.as_slice(), text.as_slice());
}
