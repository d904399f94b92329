//! The header of a row, and the end mark: numbers of fixed widths, big-endian.
ghost use Rattle.std.specs.Prelude.{◌≡◌, ◌↔◌, IsTrue};
ghost use Rattle.bk_hint.specs.Headers.{IsMark, IsSoundHeader, header_of, record_size, text_of};
ghost use Rattle.bk_laws.specs.Record.{is_tombstone_field, value_length};

use bk_base::Moment;
use bk_base::limits::{HINT_HEADER, LAST_SEQ, LONGEST_VALUE, RECORD_HEADER, TOMBSTONE};

/// The numbers in the header of a row, or in the end mark, whatever they are.
#[derive(Clone, Copy, Debug, PartialEq, Eq)]
pub struct Header {
    /// The place of the record; in the end mark how much of the data file is covered.
    pub at: u64,
    /// The seq; in the end mark the number of rows.
    pub seq: u64,
    pub moment: Moment,
    /// The value's length, or 4,294,967,295 for a tombstone.
    pub vsz: u32,
    /// The record's checksum; in the end mark that of all rows.
    pub crc: u32,
    /// The key's length.
    pub ksz: u16,
}

impl Header {
    /// The header in these bytes.
    pub fn read(bytes: &[u8; HINT_HEADER]) -> Header
        ensures { result ≡ header_of bytes.now }
    {
        Header {
            at: u64::from_be_bytes([
                bytes[10], bytes[11], bytes[12], bytes[13], bytes[14], bytes[15], bytes[16],
                bytes[17],
            ]),
            seq: u64::from_be_bytes([
                bytes[18], bytes[19], bytes[20], bytes[21], bytes[22], bytes[23], bytes[24],
                bytes[25],
            ]),
            moment: Moment(u32::from_be_bytes([bytes[0], bytes[1], bytes[2], bytes[3]])),
            vsz: u32::from_be_bytes([bytes[6], bytes[7], bytes[8], bytes[9]]),
            crc: u32::from_be_bytes([bytes[26], bytes[27], bytes[28], bytes[29]]),
            ksz: u16::from_be_bytes([bytes[4], bytes[5]]),
        }
    }

    /// The bytes of the header.
    pub fn text(&self) -> [u8; HINT_HEADER]
        ensures { result ≡ text_of self.now }
    {
        let [m0, m1, m2, m3] = self.moment.0.to_be_bytes();
        let [k0, k1] = self.ksz.to_be_bytes();
        let [v0, v1, v2, v3] = self.vsz.to_be_bytes();
        let [a0, a1, a2, a3, a4, a5, a6, a7] = self.at.to_be_bytes();
        let [s0, s1, s2, s3, s4, s5, s6, s7] = self.seq.to_be_bytes();
        let [c0, c1, c2, c3] = self.crc.to_be_bytes();
        [
            m0, m1, m2, m3, k0, k1, v0, v1, v2, v3, a0, a1, a2, a3, a4, a5, a6, a7, s0, s1, s2, s3,
            s4, s5, s6, s7, c0, c1, c2, c3,
        ]
    }

    /// Whether these are the numbers of an end mark behind so many rows.
    pub fn is_mark(&self, rows: u64) -> bool
        ensures { IsTrue result ↔ IsMark rows self.now }
    {
        self.moment.0 == 0 && self.ksz == 0 && self.vsz == 0 && self.seq == rows
    }

    /// Whether the row tells of a record that may stand within the covered length. No sum goes past
    /// 64 bits here, whatever the numbers are.
    pub fn is_sound(&self, covered: u64) -> bool
        ensures { IsTrue result ↔ IsSoundHeader covered self.now }
    {
        let is_seq = self.seq != 0 && self.seq <= LAST_SEQ;
        let size = self.record_size();
        is_seq
            && self.value_size() <= u64::from(LONGEST_VALUE)
            && size <= covered
            && self.at <= covered - size
    }

    /// How many bytes the record has.
    pub fn record_size(&self) -> u64
        ensures { result ≡ record_size self.now }
    {
        RECORD_HEADER as u64 + u64::from(self.ksz) + self.value_size()
    }

    /// Whether the record is a tombstone.
    pub fn is_tombstone(&self) -> bool
        ensures { result ≡ is_tombstone_field self.now.vsz }
    {
        self.vsz == TOMBSTONE
    }

    fn value_size(&self) -> u64
        ensures { result ≡ value_length self.now.vsz }
    {
        match self.vsz {
            TOMBSTONE => 0,
            len => u64::from(len),
        }
    }
}
