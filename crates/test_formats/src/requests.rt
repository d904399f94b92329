//! What no clause says: the texts that clients send and read, and that the calls succeed.
ghost use Rattle.std.specs.Prelude.{◌≡◌};
ghost use Rattle.bk_wire.specs.Stream.{taken};

use bk_base::Request;
use bk_wire::{Next, Reader};
use std::alloc::Global;
use std::io::Write as _;
use std::process::Abort;

fn append(rt: &impl Abort, text: &mut Vec<u8>, parts: &[&[u8]]) {
    for part in parts {
        text.extend_from_slice(part).expect(rt, "memory");
    }
}

fn describe(rt: &impl Abort, request: &Request, text: &mut Vec<u8>) {
    match request {
        Request::Get(key) => append(rt, text, &[b"get ", key.bytes(), b";"]),
        Request::Put(key, value) => append(
            rt,
            text,
            &[b"put ", key.bytes(), b"=", value.bytes(), b";"],
        ),
        Request::Delete(key) => append(rt, text, &[b"delete ", key.bytes(), b";"]),
        Request::Fold => append(rt, text, &[b"fold;"]),
        Request::Keys => append(rt, text, &[b"keys;"]),
        Request::Sync => append(rt, text, &[b"sync;"]),
        Request::Stat => append(rt, text, &[b"stat;"]),
        Request::Quit => append(rt, text, &[b"quit;"]),
    }
}

/// Writes the requests that the reader finds, and whether more may follow.
#[tactic(auto, using(bk_wire::proofs::RequestLaws::shorter))]
fn read_all(rt: &impl Abort, reader: &mut Reader, text: &mut Vec<u8>) -> bool
    ensures taken { taken reader.new ≡ taken reader.old }
    ensures most { reader.new.most ≡ reader.old.most }
{
    'requests: loop {
        match reader.next().expect(rt, "memory") {
            Next::Need => return true,
            Next::Ask(request) => describe(rt, &request, text),
            Next::Bad(offset) => {
                write!(text, "bad {offset}").expect(rt, "memory");
                return false;
            }
        }
    }
}

/// The answers to a stream that is cut in two.
fn answers_to(rt: &impl Abort, alloc: Global, stream: &[u8], cut: usize) -> Vec<u8> {
    let (front, back) = stream.split_at_checked(cut).expect(rt, "two pieces");
    let mut reader = Reader::new(alloc, stream.len() as u64);
    let mut text = Vec::new(alloc);
    reader.take(front).expect(rt, "memory");
    if !read_all(rt, &mut reader, &mut text) {
        return text;
    }
    reader.take(back).expect(rt, "memory");
    if read_all(rt, &mut reader, &mut text) {
        if let Some(offset) = reader.rest() {
            write!(text, "rest {offset}").expect(rt, "memory");
        }
    }
    text
}

fn reads(rt: &impl Abort, alloc: Global, stream: &[u8], answers: &[u8]) {
    assert!(rt; stream.len() <= 100);
    for cut in 0..=stream.len() {
        let text = answers_to(rt, alloc, stream, cut);
        assert_eq!(rt; text.as_slice(), answers, "cut at {cut}");
    }
}

/// Streams, and what is answered to them.
const STREAMS: [(&[u8], &[u8]); 34] = [
    (b"", b""),
    (b"GET 1\na\n", b"get a;"),
    (b"PUT 1 1\na1\nGET 1\na\n", b"put a=1;get a;"),
    (
        b"PUT 2 0\nab\nPUT 1 3\n\xff\n\x00\n\n",
        b"put ab=;put \xff=\n\x00\n;",
    ),
    (b"GET 1\na\nGET 10\n0123456789\n", b"get a;get 0123456789;"),
    (b"GET 1\na\nG", b"get a;rest 8"),
    (b"GET 65535\nabc", b"rest 0"),
    (b"PUT 65535 16777216\n", b"rest 0"),
    (b"PUT 1 0\na", b"rest 0"),
    (b"PUT 65536 0\n", b"bad 0"),
    (b"PUT 1 16777217\n", b"bad 0"),
    (b"GET 1\na\nGET 0\n", b"get a;bad 8"),
    (b"GET 01\na\n", b"bad 0"),
    (b"PUT 1 00\na\n", b"bad 0"),
    (b"GET \n", b"bad 0"),
    (b"GET x\n", b"bad 0"),
    (b"get 1\na\n", b"bad 0"),
    (b"GET  1\na\n", b"bad 0"),
    (b"PUT 1  1\na1\n", b"bad 0"),
    (b"GET 1 \na\n", b"bad 0"),
    (b"GET 1\r\na\n", b"bad 0"),
    (b"GET 1\nab\n", b"bad 0"),
    (b"PUT 1 1\na12", b"bad 0"),
    (b"\nGET 1\na\n", b"bad 0"),
    (b"DEL 1\na\nFOLD\nKEYS\n", b"delete a;fold;keys;"),
    (b"SYNC\nSTAT\nQUIT\nGET 1\na\n", b"sync;stat;quit;get a;"),
    (b"DEL 3\nab", b"rest 0"),
    (b"SYNC\nSTA", b"sync;rest 5"),
    (b"DEL 0\n", b"bad 0"),
    (b"FOLD \n", b"bad 0"),
    (b"STATS\n", b"bad 0"),
    (b"QUIT\r\n", b"bad 0"),
    (b"SYNC\nMERGE\n", b"sync;bad 5"),
    (b"sync\n", b"bad 0"),
];

#[test]
fn reads_requests_however_they_are_cut(rt: HostRuntime) {
    for (stream, answers) in STREAMS {
        reads(&rt, rt.alloc(), stream, answers);
    }
}

/// Puts a piece into the reader's own buffer, where it has room for eight bytes.
fn put_in(rt: &impl Abort, reader: &mut Reader, piece: &[u8]) {
    let room = reader.room().min(8) as usize;
    assert!(rt; piece.len() <= room);
    let mut bytes = reader.lend(room).expect(rt, "memory");
    let held = bytes.len() - room;
    bytes[held..held + piece.len()].copy_from_slice(piece);
    reader.give_back(bytes, held + piece.len());
}

#[test]
fn reads_what_came_into_its_own_buffer(rt: HostRuntime) {
    let stream = b"PUT 1 3\nabcd\nGET 1\na\nDEL 1\nb\n";
    let mut reader = Reader::new(rt.alloc(), 100);
    let mut text = Vec::new(rt.alloc());
    for piece in stream.chunks(5) {
        put_in(&rt, &mut reader, piece);
        assert!(rt; read_all(&rt, &mut reader, &mut text));
    }
    assert_eq!(rt; text.as_slice(), b"put a=bcd;get a;delete b;".as_slice());
}
