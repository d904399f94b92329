//! Requests that are read, and replies that are written.

use bk_base::{Reply, Request, Seq, Value};
use bk_wire::{Next, Reader, write_reply};
use std::alloc::{AllocError, Global};
use std::io;
use std::io::ErrorKind;

const PUT: &[u8; 128] = b"PUT 16 100\nsixteen-byte-key\
0123456789012345678901234567890123456789012345678901234567890123456789012345678901234567890123456789\n";

const GET: &[u8; 24] = b"GET 16\nsixteen-byte-key\n";

/// The texts of so many requests, a put and a get by turns.
pub fn requests(alloc: Global, items: u32) -> Result<Vec<u8>, AllocError> {
    let mut text = Vec::new(alloc);
    for i in 0..items {
        if i % 2 == 0 {
            text.extend_from_slice(PUT)?;
        } else {
            text.extend_from_slice(GET)?;
        }
    }
    Ok(text)
}

/// How many requests a reader finds in the text, and how many of them put.
pub fn found(alloc: Global, text: &[u8], items: u32) -> io::Result<(u32, u32)> {
    let mut reader = Reader::new(alloc, u64::MAX);
    if text.len() as u64 > reader.room() {
        return Err(ErrorKind::FileTooLarge.into());
    }
    reader.take(text).map_err(|_| ErrorKind::OutOfMemory)?;
    let mut asked = 0;
    let mut puts = 0;
    for _ in 0..items {
        match reader.next() {
            Ok(Next::Ask(request)) => {
                asked = u32::saturating_add(asked, 1);
                if matches!(request, Request::Put(_, _)) {
                    puts = u32::saturating_add(puts, 1);
                }
            }
            Ok(_) => {}
            Err(_) => return Err(ErrorKind::OutOfMemory.into()),
        }
    }
    Ok((asked, puts))
}

/// The texts of so many replies, the number of a write and a value of 100 bytes by turns.
pub fn replies(alloc: Global, items: u32) -> io::Result<Vec<u8>> {
    let text = PUT.as_slice();
    let bytes = text[27..127].to_vec(alloc)?;
    let value = Reply::Value(Value::new(bytes).map_err(|_| ErrorKind::InvalidInput)?);
    let mut out = Vec::new(alloc);
    for i in 0..items {
        let written = if i % 2 == 0 {
            write_reply(&Reply::Numbered(Seq(u64::from(i))), &mut out)
        } else {
            write_reply(&value, &mut out)
        };
        written.map_err(|_| ErrorKind::OutOfMemory)?;
    }
    Ok(out)
}
