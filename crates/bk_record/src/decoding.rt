//! From a record to its write.
ghost use Rattle.std.specs.Prelude.{◌≡◌, ◌+◌, ◌≤◌, ℕ, List, length, take, MatchResult, IfOk, IfErr};
ghost use Rattle.bk_base.specs.declared.writes.Write.{Write};
ghost use Rattle.bk_laws.specs.Record.{RecordStands, value_length};
ghost use Rattle.bk_record.specs.Header.{IsSound, body_in, write_in};
ghost use Rattle.bk_record.specs.Stops.{IsChecked, IsDecoded, IsKeyDecoded, IsStop, IsWhole, without_value};
ghost use Rattle.bk_record.specs.declared.decoding.Stop.TheVariants.{Memory as memory_stop};

use crate::header::Header;
use bk_base::limits::{CHECKSUM, LONGEST_VALUE, RECORD_HEADER, TOMBSTONE};
use bk_base::{Body, Key, Memory, Moment, Seq, Value, Write};
use bk_crc::crc32;
use std::alloc::Global;

/// A record that was read: its write, its length in bytes, and its checksum.
#[derive(Debug, Drop)]
pub struct Decoded {
    pub write: Write,
    pub size: u32,
    pub crc: u32,
}

/// What was read of a record without its value.
#[derive(Debug, Drop)]
pub struct DecodedKey {
    pub key: Key,
    pub seq: Seq,
    pub moment: Moment,
    /// Its length in bytes.
    pub size: u32,
    /// Its checksum.
    pub crc: u32,
    /// Whether it is a tombstone.
    pub gone: bool,
}

/// Why no record was read. The causes are tested in this order.
#[derive(Clone, Copy, Debug, PartialEq, Eq)]
pub enum Stop {
    /// There are no bytes.
    End,
    /// There are fewer bytes than a header has, or than its sizes say.
    Short,
    /// The checksum that is stored isn't that of the bytes.
    BadCheck { stored: u32, computed: u32 },
    /// A field of the header is out of its bounds.
    BadField,
    /// A record stands here, and memory for its key and value was refused.
    Memory,
}

/// The record at the front of the bytes, whatever follows it; or why none was read.
pub fn decode(alloc: Global, bytes: &[u8]) -> Result<Decoded, Stop>
    ensures decoded { IfOk result (IsDecoded bytes.now) }
    ensures stop { IfErr result (IsStop bytes.now) }
    // A record that stands there is read, unless memory runs out.
    ensures again { (w : Write) (rest : List ℕ) → RecordStands bytes.now w rest →
        MatchResult result (λ d. d.write ≡ w) (λ stop. stop ≡ memory_stop) }
{
    let (header, record) = checked(bytes)?;
    match write_of(alloc, &header, &record[RECORD_HEADER..]) {
        Ok(write) => Ok(Decoded {
            write,
            size: record.len() as u32,
            crc: header.crc,
        }),
        Err(Memory) => Err(Stop::Memory),
    }
}

/// The same without the value, which is neither copied nor kept: only the key takes memory. The
/// checksum is tested over all of the record, so each refusal comes where `decode` has it.
pub fn decode_key(alloc: Global, bytes: &[u8]) -> Result<DecodedKey, Stop>
    ensures decoded { IfOk result (IsKeyDecoded bytes.now) }
    ensures stop { IfErr result (IsStop bytes.now) }
    ensures again { (w : Write) (rest : List ℕ) → RecordStands bytes.now w rest →
        MatchResult result (λ d. d ≡ without_value w) (λ stop. stop ≡ memory_stop) }
{
    let (header, record) = checked(bytes)?;
    match key_of(alloc, &header, &record[RECORD_HEADER..]) {
        Ok(key) => Ok(DecodedKey {
            key,
            seq: Seq(header.seq),
            moment: header.moment,
            size: record.len() as u32,
            crc: header.crc,
            gone: header.vsz == TOMBSTONE,
        }),
        Err(Memory) => Err(Stop::Memory),
    }
}

// The header and the bytes of the record at the front, whose checksum and fields are right.
fn checked(bytes: &[u8]) -> Result<(Header, &[u8]), Stop>
    ensures checked { IfOk result (λ x. IsChecked bytes.now x.0 x.1.now) }
    ensures stop { IfErr result (IsStop bytes.now) }
{
    let (header, record) = whole_record(bytes)?;
    let computed = crc32(&record[CHECKSUM..]);
    if header.crc != computed {
        return Err(Stop::BadCheck {
            stored: header.crc,
            computed,
        });
    }
    if !header.is_sound() {
        return Err(Stop::BadField);
    }
    Ok((header, record))
}

// The header at the front, and as many bytes as its sizes say.
fn whole_record(bytes: &[u8]) -> Result<(Header, &[u8]), Stop>
    ensures whole { IfOk result (λ x. IsWhole bytes.now x.0 x.1.now) }
    ensures stop { IfErr result (IsStop bytes.now) }
{
    if bytes.is_empty() {
        return Err(Stop::End);
    }
    let Some((front, _rest)) = bytes.split_first_chunk::<RECORD_HEADER>() else {
        return Err(Stop::Short);
    };
    let header = Header::read(front);
    let size = header.size() as usize;
    if bytes.len() < size {
        return Err(Stop::Short);
    }
    Ok((header, &bytes[..size]))
}

// The write of a sound header and the bytes behind it.
fn write_of(alloc: Global, header: &Header, bytes: &[u8]) -> Result<Write, Memory>
    requires sound { IsSound header.now }
    requires sizes { length bytes.now ≡ header.now.ksz + value_length header.now.vsz }
    ensures { IfOk result (λ write. write ≡ write_in header.now bytes.now) }
{
    let key = key_of(alloc, header, bytes)?;
    let body = body_of(alloc, header.vsz, &bytes[usize::from(header.ksz)..])?;
    Ok(Write {
        seq: Seq(header.seq),
        moment: header.moment,
        key,
        body,
    })
}

// The key of a sound header, from the bytes behind it.
fn key_of(alloc: Global, header: &Header, bytes: &[u8]) -> Result<Key, Memory>
    requires sound { IsSound header.now }
    requires sizes { length bytes.now ≡ header.now.ksz + value_length header.now.vsz }
    ensures { IfOk result (λ key. key ≡ take header.now.ksz bytes.now) }
{
    let key = &bytes[..usize::from(header.ksz)];
    Key::of(alloc, key)
}

fn body_of(alloc: Global, vsz: u32, value: &[u8]) -> Result<Body, Memory>
    requires { (length value.now ≡ value_length vsz) × (value_length vsz ≤ LONGEST_VALUE) }
    ensures { IfOk result (λ body. body ≡ body_in vsz value.now) }
{
    if vsz == TOMBSTONE {
        return Ok(Body::Gone);
    }
    let value = Value::new(value.to_vec(alloc)?).unwrap();
    Ok(Body::Put(value))
}
