//! The scan of a data file: its records in order from some place on, as far as they are whole.
ghost use Rattle.std.specs.Prelude.{◌≡◌, ◌+◌, ◌-◌, ◌<◌, ◌≤◌, ◌++◌, ◌∷◌, ℕ, List, [], length, take, drop, IsTrue, IsNone, IfSome, MatchOption, IfOk, OnOk, OnErr};
ghost use Rattle.bk_base.specs.declared.writes.Write.{Write as AnyWrite};
ghost use Rattle.bk_laws.specs.Record.{AreRecords, NoRecord, RecordStands, size_of};
ghost use Rattle.bk_record.specs.Stops.{IsDecoded, IsKeyDecoded};
ghost use Rattle.bk_files.specs.Scan.{AreFirst, Finds, FindsKey, HasReadCause, IsHopeless, IsNeeded, IsSettled, IsTold, Placed, PlacedKey, file_len, largest};
ghost use Rattle.bk_files.specs.declared.scan.ScanError.TheVariants.{Memory as no_memory};

use bk_base::limits::RECORD_HEADER;
use bk_base::{FileId, Key, Memory, Version, Write};
use bk_disk::{Failed, View};
use bk_record::{Decoded, DecodedKey, Header, Stop, decode, decode_key};
use std::alloc::{AllocError, Global};
use std::marker::Model;

/// The length of a record's header in bytes.
/// How many bytes a read asks for at most.
const PIECE: u64 = 65_536;

/// How much room a buffer keeps at most where a record doesn't need more.
const KEPT_ROOM: usize = 131_072;

/// A record that was found.
#[derive(Debug, Drop)]
pub struct Found {
    pub write: Write,
    /// Where it begins in the file.
    pub at: u64,
    /// Its length in bytes.
    pub size: u32,
    /// Its checksum.
    pub crc: u32,
}

/// A record that was found, without its value.
#[derive(Debug, Drop)]
pub struct FoundKey {
    pub key: Key,
    pub version: Version,
}

/// Why a scan was cut off.
#[derive(Clone, Copy, Debug, PartialEq, Eq)]
pub enum ScanError {
    /// A read failed, and the view counted it.
    Read,
    /// An allocation was refused.
    Memory,
}

/// The scan of a file. It holds no more than one record that isn't whole yet and one piece behind
/// it. Contracts see the bytes that were read and not given yet, where in the file they begin, and
/// how many bytes of the file stand behind them.
#[derive(Drop)]
pub struct Scan {
    alloc: Global,
    file: FileId,
    place: u64,
    unread: u64,
    bytes: Vec<u8>,
    /// Where the bytes begin that were not given yet.
    begin: usize,
}

impl Model for Scan {
    ghost use Rattle.std.specs.Prelude.{◌+◌, ◌-◌, ◌≤◌, ◌<◌, ◌^◌, drop, length};
    ghost use Rattle.bk_files.specs.Scan.{Scanned, most_held};

    ghost Value = { Scanned };

    ghost view = { λ s. record {
      held = drop s.begin s.bytes.items;
      place = s.place;
      unread = s.unread;
      file = s.file;
    } };

    ghost invariant = { λ s. (s.begin ≤ length s.bytes.items) × (length s.bytes.items ≤ most_held)
        × (s.place + (length s.bytes.items - s.begin) + s.unread < 2 ^ 64) };
}

impl Scan {
    /// The scan of this file from its front; the file has `len` bytes. It takes no memory.
    pub fn new(alloc: Global, file: FileId, len: u64) -> Scan
        ensures { result ≡ record { held = []; place = 0; unread = len; file = file } }
    {
        Scan::from(alloc, file, 0, len)
    }

    /// The scan of this file from the place `at` on, where a record begins or the records end: what
    /// stands before it is known already, as by a hint. It takes no memory.
    pub fn from(alloc: Global, file: FileId, at: u64, len: u64) -> Scan
        requires { at ≤ len }
        ensures { result ≡ record { held = []; place = at; unread = len - at; file = file } }
    {
        Scan {
            alloc,
            file,
            place: at,
            unread: len - at,
            bytes: Vec::new(alloc),
            begin: 0,
        }
    }

    /// Where the next record would stand. After `None` it is the end of the whole records.
    pub fn place(&self) -> u64
        ensures place { result ≡ self.now.place }
        ensures within { result ≤ file_len self.now }
    {
        self.place
    }

    /// The file.
    pub fn file(&self) -> FileId
        ensures { result ≡ self.now.file }
    {
        self.file
    }

    /// The next record of the file, read through a view of what follows the place that the scan
    /// began at; or `None` at the first place where none stands. What stands behind that place isn't
    /// looked at.
    ///
    /// After an error the same record is still to be found.
    pub fn next<V: View>(&mut self, view: &mut V) -> Result<Option<Found>, ScanError>
        requires { V.rest view.old ≡ self.old.unread }
        ensures found { IsTold V.tells (V.left view.old) (V.rest view.old)
            → IfOk result (λ found. Finds found (self.old.held ++ V.left view.old)
            (self.new.held ++ V.left view.new)) }
        ensures placed { IfOk result (λ found. Placed found self.old.place self.new.place) }
        ensures rest { V.rest view.new ≡ self.new.unread }
        ensures told { IsTold V.tells (V.left view.old) (V.rest view.old)
            → IsTold V.tells (V.left view.new) (V.rest view.new) }
        ensures kept { OnErr result (self.new.place ≡ self.old.place) }
        ensures kept_bytes { IsTrue V.tells → OnErr result
            (self.new.held ++ V.left view.new ≡ self.old.held ++ V.left view.old) }
        ensures file { self.new.file ≡ self.old.file }
        ensures len { file_len self.new ≡ file_len self.old }
        ensures cause { HasReadCause (V.faults view.old) (V.faults view.new) (V.fallible view.old)
            (V.fallible view.new) result }
    {
        self.fetch(view)?;
        Ok(self.give()?)
    }

    /// The same without the value: the record is read and its checksum tested, but its value is
    /// neither copied nor kept.
    pub fn next_key<V: View>(&mut self, view: &mut V) -> Result<Option<FoundKey>, ScanError>
        requires { V.rest view.old ≡ self.old.unread }
        ensures found { IsTold V.tells (V.left view.old) (V.rest view.old)
            → IfOk result (λ found. FindsKey found self.old (self.old.held ++ V.left view.old)
            (self.new.held ++ V.left view.new)) }
        ensures placed { IfOk result (λ found. PlacedKey found self.old self.new.place) }
        ensures rest { V.rest view.new ≡ self.new.unread }
        ensures told { IsTold V.tells (V.left view.old) (V.rest view.old)
            → IsTold V.tells (V.left view.new) (V.rest view.new) }
        ensures kept { OnErr result (self.new.place ≡ self.old.place) }
        ensures kept_bytes { IsTrue V.tells → OnErr result
            (self.new.held ++ V.left view.new ≡ self.old.held ++ V.left view.old) }
        ensures file { self.new.file ≡ self.old.file }
        ensures len { file_len self.new ≡ file_len self.old }
        ensures cause { HasReadCause (V.faults view.old) (V.faults view.new) (V.fallible view.old)
            (V.fallible view.new) result }
    {
        self.fetch(view)?;
        Ok(self.give_key()?)
    }

    // Reads until a record that stands at the front is held whole.
    fn fetch<V: View>(&mut self, view: &mut V) -> Result<(), ScanError>
        requires { V.rest view.old ≡ self.old.unread }
        ensures settled { OnOk result (IsSettled self.new.held self.new.unread) }
        ensures text { IsTrue V.tells →
            self.new.held ++ V.left view.new ≡ self.old.held ++ V.left view.old }
        ensures rest { V.rest view.new ≡ self.new.unread }
        ensures told { IsTold V.tells (V.left view.old) (V.rest view.old)
            → IsTold V.tells (V.left view.new) (V.rest view.new) }
        ensures place { self.new.place ≡ self.old.place }
        ensures file { self.new.file ≡ self.old.file }
        ensures len { file_len self.new ≡ file_len self.old }
        ensures cause { HasReadCause (V.faults view.old) (V.faults view.new) (V.fallible view.old)
            (V.fallible view.new) result }
    {
        while let Some(size) = self.wants() {
            self.fill(view, size)?;
        }
        Ok(())
    }

    // How many bytes a record at the front has at least, where the file has them and they aren't
    // held yet.
    fn wants(&self) -> Option<usize>
        ensures more { IfSome result (λ size. (0 < self.now.unread) × (length self.now.held < size)
            × (size ≤ largest)) }
        ensures settled { IsNone result → IsSettled self.now.held self.now.unread }
    {
        let held = self.held();
        let len = held.len() as u64;
        match needed(held) {
            Some(size) if len < size && size - len <= self.unread => Some(size as usize),
            _ => None,
        }
    }

    // Reads the next piece of the file, for a record of this size at least.
    fn fill<V: View>(&mut self, view: &mut V, size: usize) -> Result<(), ScanError>
        requires some { 0 < self.old.unread }
        requires less { length self.old.held < size }
        requires room { size ≤ largest }
        requires rest { V.rest view.old ≡ self.old.unread }
        ensures read { OnOk result (self.new.unread < self.old.unread) }
        ensures text { IsTrue V.tells →
            self.new.held ++ V.left view.new ≡ self.old.held ++ V.left view.old }
        ensures rest { V.rest view.new ≡ self.new.unread }
        ensures told { IsTold V.tells (V.left view.old) (V.rest view.old)
            → IsTold V.tells (V.left view.new) (V.rest view.new) }
        ensures place { self.new.place ≡ self.old.place }
        ensures file { self.new.file ≡ self.old.file }
        ensures len { file_len self.new ≡ file_len self.old }
        ensures cause { HasReadCause (V.faults view.old) (V.faults view.new) (V.fallible view.old)
            (V.fallible view.new) result }
    {
        drop_given(&mut self.bytes, self.begin);
        self.begin = 0;
        make_room(&mut self.bytes, size)?;
        let count = read_piece(view, self.unread, &mut self.bytes)?;
        self.unread -= count;
        Ok(())
    }

    // The record at the front, which is taken off.
    fn give(&mut self) -> Result<Option<Found>, Memory>
        requires { IsSettled self.old.held self.old.unread }
        ensures found { IfOk result (λ found. (left : List ℕ) → length left ≡ self.old.unread →
            Finds found (self.old.held ++ left) (self.new.held ++ left)) }
        ensures placed { IfOk result (λ found. Placed found self.old.place self.new.place) }
        ensures kept { OnErr result (self.new ≡ self.old) }
        ensures unread { self.new.unread ≡ self.old.unread }
        ensures file { self.new.file ≡ self.old.file }
        ensures len { file_len self.new ≡ file_len self.old }
    {
        let Some(decoded) = first(self.alloc, self.held())? else {
            return Ok(None);
        };
        let at = self.take_off(decoded.size);
        Ok(Some(Found {
            write: decoded.write,
            at,
            size: decoded.size,
            crc: decoded.crc,
        }))
    }

    // The record at the front without its value; it is taken off.
    fn give_key(&mut self) -> Result<Option<FoundKey>, Memory>
        requires { IsSettled self.old.held self.old.unread }
        ensures found { IfOk result (λ found. (left : List ℕ) → length left ≡ self.old.unread →
            FindsKey found self.old (self.old.held ++ left) (self.new.held ++ left)) }
        ensures placed { IfOk result (λ found. PlacedKey found self.old self.new.place) }
        ensures kept { OnErr result (self.new ≡ self.old) }
        ensures unread { self.new.unread ≡ self.old.unread }
        ensures file { self.new.file ≡ self.old.file }
        ensures len { file_len self.new ≡ file_len self.old }
    {
        let Some(decoded) = first_key(self.alloc, self.held())? else {
            return Ok(None);
        };
        let at = self.take_off(decoded.size);
        let version = Version {
            seq: decoded.seq,
            at,
            moment: decoded.moment,
            file: self.file,
            size: decoded.size,
            crc: decoded.crc,
            gone: decoded.gone,
        };
        Ok(Some(FoundKey {
            key: decoded.key,
            version,
        }))
    }

    // Takes a record of this size off the front, and says where it begins.
    fn take_off(&mut self, size: u32) -> u64
        requires { size ≤ length self.old.held }
        ensures at { result ≡ self.old.place }
        ensures taken { self.new ≡ record self.old {
          held = drop size self.old.held;
          place = self.old.place + size;
        } }
        ensures len { file_len self.new ≡ file_len self.old }
    {
        let at = self.place;
        self.begin += size as usize;
        self.place += u64::from(size);
        at
    }

    // The bytes that were read and not given yet.
    fn held(&self) -> &[u8]
        ensures { result.now ≡ self.now.held }
    {
        &self.bytes[self.begin..]
    }
}

// The record at the front of the bytes, or `None` where none stands there.
fn first(alloc: Global, bytes: &[u8]) -> Result<Option<Decoded>, Memory>
    ensures { IfOk result (λ decoded. MatchOption decoded (NoRecord bytes.now) (IsDecoded bytes.now)) }
{
    match decode(alloc, bytes) {
        Ok(decoded) => Ok(Some(decoded)),
        Err(Stop::Memory) => Err(Memory),
        Err(_) => Ok(None),
    }
}

// The same without the value.
fn first_key(alloc: Global, bytes: &[u8]) -> Result<Option<DecodedKey>, Memory>
    ensures { IfOk result (λ decoded. MatchOption decoded (NoRecord bytes.now)
        (IsKeyDecoded bytes.now)) }
{
    match decode_key(alloc, bytes) {
        Ok(decoded) => Ok(Some(decoded)),
        Err(Stop::Memory) => Err(Memory),
        Err(_) => Ok(None),
    }
}

// How many bytes are needed to tell what stands at the front: those of a header, and then as many
// as its sizes say. None where the header tells that no record stands there.
fn needed(bytes: &[u8]) -> Option<u64>
    ensures { MatchOption result (IsHopeless bytes.now) (IsNeeded bytes.now) }
{
    let Some((front, _rest)) = bytes.split_first_chunk::<RECORD_HEADER>() else {
        return Some(RECORD_HEADER as u64);
    };
    let header = Header::read(front);
    if header.is_sound() {
        Some(header.size())
    } else {
        None
    }
}

// Drops the bytes that were given.
fn drop_given(bytes: &mut Vec<u8>, from: usize)
    requires { from ≤ length bytes.old.items }
    ensures { bytes.new.items ≡ drop from bytes.old.items }
{
    if from == 0 {
        return;
    }
    let rest = bytes.len() - from;
    bytes.copy_within(from.., 0);
    bytes.truncate(rest);
}

// Makes room for a record of this size and a piece behind it, and gives back what a larger one took.
// A large record so takes one block that fits it, and not one that was doubled.
fn make_room(bytes: &mut Vec<u8>, size: usize) -> Result<(), AllocError>
    requires less { length bytes.old.items < size }
    requires bound { size ≤ largest }
    ensures { bytes.new.items ≡ bytes.old.items }
{
    let len = bytes.len();
    let wanted = size - 1 + PIECE as usize;
    if wanted <= KEPT_ROOM {
        // A smaller block that is refused leaves the larger one, which serves as well.
        bytes.shrink_to(KEPT_ROOM);
    }
    bytes.reserve_exact(wanted - len)
}

// Reads the next piece behind the bytes, and says how many bytes it has. After an error they are
// as they were.
fn read_piece<V: View>(view: &mut V, unread: u64, bytes: &mut Vec<u8>) -> Result<u64, ScanError>
    requires some { 0 < unread }
    requires room { length bytes.old.items < largest }
    requires rest { V.rest view.old ≡ unread }
    ensures some { IfOk result (λ n. (0 < n) × (n ≤ 65536)) }
    ensures len { IfOk result (λ n. length bytes.new.items ≡ length bytes.old.items + n) }
    ensures rest { IfOk result (λ n. V.rest view.new + n ≡ unread) }
    ensures text { IsTrue V.tells → IfOk result (λ n.
        (bytes.new.items ≡ bytes.old.items ++ take n (V.left view.old))
        × (V.left view.new ≡ drop n (V.left view.old))) }
    ensures kept { OnErr result ((bytes.new.items ≡ bytes.old.items) × (V.rest view.new ≡ unread)) }
    ensures kept_left { IsTrue V.tells → OnErr result (V.left view.new ≡ V.left view.old) }
    ensures cause { HasReadCause (V.faults view.old) (V.faults view.new) (V.fallible view.old)
        (V.fallible view.new) result }
{
    let held = bytes.len();
    bytes.resize(held + unread.min(PIECE) as usize, 0)?;
    match view.read(&mut bytes[held..]) {
        Ok(count) => {
            bytes.truncate(held + count);
            Ok(count as u64)
        }
        Err(Failed) => {
            bytes.truncate(held);
            Err(ScanError::Read)
        }
    }
}

impl From<Memory> for ScanError {
    ghost from_gives = { λ _ error. error ≡ no_memory };

    fn from(_: Memory) -> ScanError {
        ScanError::Memory
    }
}

impl From<AllocError> for ScanError {
    ghost from_gives = { λ _ error. error ≡ no_memory };

    fn from(_: AllocError) -> ScanError {
        Memory.into()
    }
}

/// What `next` finds one after the other, up to its `None`, are the records of the file.
pub fn records_go_on()
    ensures some { (text : List ℕ) (w : AnyWrite) (rest : List ℕ) (ws : List AnyWrite) →
        RecordStands text w rest → AreRecords rest ws → AreRecords text (w ∷ ws) }
    ensures none { (text : List ℕ) → NoRecord text → AreRecords text [] }
{}

/// The same for a loop that begins at some place: what it has found so far are the first records
/// from there, and in the end all of them. What a loop finds from where other records end goes on
/// with them.
pub fn first_records()
    ensures none_yet { (text : List ℕ) (at : ℕ) → AreFirst text at [] at text }
    ensures one_more { (text : List ℕ) (at : ℕ) (ws : List AnyWrite) (end : ℕ) (rest : List ℕ)
        (w : AnyWrite) (left : List ℕ) → AreFirst text at ws end rest → RecordStands rest w left →
        AreFirst text at (ws ++ w ∷ []) (end + size_of w) left }
    ensures go_on { (text : List ℕ) (at : ℕ) (vs : List AnyWrite) (place : ℕ) (mid : List ℕ)
        (ws : List AnyWrite) (end : ℕ) (rest : List ℕ) → AreFirst text at vs place mid →
        AreFirst mid place ws end rest → AreFirst text at (vs ++ ws) end rest }
    ensures all { (text : List ℕ) (at : ℕ) (ws : List AnyWrite) (end : ℕ) (rest : List ℕ) →
        AreFirst text at ws end rest → NoRecord rest → AreRecords text ws }
{}
