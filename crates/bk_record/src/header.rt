//! The header of a record: numbers of fixed widths, big-endian.
ghost use Rattle.std.specs.Prelude.{◌≡◌, ◌↔◌, IsTrue};
ghost use Rattle.bk_laws.specs.Record.{FitsBody, IsSeq, IsWritable, fields_of, value_field};
ghost use Rattle.bk_record.specs.Header.{IsSound, header_of, said_size, value_length};

use bk_base::limits::{CHECKSUM, LAST_SEQ, LONGEST_VALUE, RECORD_HEADER, TOMBSTONE};
use bk_base::{Body, Moment, Write};

const FIELDS: usize = RECORD_HEADER - CHECKSUM;

/// The numbers in the header of a record, whatever they are.
#[derive(Clone, Copy, Debug, PartialEq, Eq)]
pub struct Header {
    pub seq: u64,
    /// The checksum of all bytes of the record behind it.
    pub crc: u32,
    pub moment: Moment,
    /// The value's length, or 4,294,967,295 for a tombstone.
    pub vsz: u32,
    /// The key's length.
    pub ksz: u16,
}

impl Header {
    /// The header in these bytes.
    pub fn read(bytes: &[u8; RECORD_HEADER]) -> Header
        ensures { result ≡ header_of bytes.now }
    {
        Header {
            seq: u64::from_be_bytes([
                bytes[14], bytes[15], bytes[16], bytes[17], bytes[18], bytes[19], bytes[20],
                bytes[21],
            ]),
            crc: u32::from_be_bytes([bytes[0], bytes[1], bytes[2], bytes[3]]),
            moment: Moment(u32::from_be_bytes([bytes[4], bytes[5], bytes[6], bytes[7]])),
            vsz: u32::from_be_bytes([bytes[10], bytes[11], bytes[12], bytes[13]]),
            ksz: u16::from_be_bytes([bytes[8], bytes[9]]),
        }
    }

    /// How many bytes the record has by its sizes, the header's own among them.
    pub fn size(&self) -> u64
        ensures { result ≡ said_size self.now }
    {
        RECORD_HEADER as u64 + u64::from(self.ksz) + self.value_size()
    }

    /// Whether each field is within its bounds. Where one isn't, no record stands here.
    pub fn is_sound(&self) -> bool
        ensures { IsTrue result ↔ IsSound self.now }
    {
        let is_seq = self.seq != 0 && self.seq <= LAST_SEQ;
        is_seq && self.ksz != 0 && self.value_size() <= u64::from(LONGEST_VALUE)
    }

    fn value_size(&self) -> u64
        ensures { result ≡ value_length self.now.vsz }
    {
        match self.vsz {
            TOMBSTONE => 0,
            len => u64::from(len),
        }
    }
}

/// The header of this write behind the checksum.
pub(crate) fn fields(write: &Write) -> [u8; FIELDS]
    ensures fields { result ≡ fields_of write.now }
    ensures fits { IsSeq write.now.seq.0 → IsWritable write.now }
{
    let [m0, m1, m2, m3] = write.moment.0.to_be_bytes();
    let [k0, k1] = (write.key.bytes().len() as u16).to_be_bytes();
    let [v0, v1, v2, v3] = value_length_field(&write.body).to_be_bytes();
    let [s0, s1, s2, s3, s4, s5, s6, s7] = write.seq.0.to_be_bytes();
    [
        m0, m1, m2, m3, k0, k1, v0, v1, v2, v3, s0, s1, s2, s3, s4, s5, s6, s7,
    ]
}

// What the header says of the value's length.
fn value_length_field(body: &Body) -> u32
    ensures field { result ≡ value_field body.now }
    ensures fits { FitsBody body.now }
{
    match body {
        Body::Put(value) => value.bytes().len() as u32,
        Body::Gone => TOMBSTONE,
    }
}
