//! A write goes to the files and to the keydir.
ghost use Rattle.std.specs.Prelude.{◌≡◌, ◌≤◌, length, IsTrue, IfErr, IfOk, IsErrOf};
ghost use Rattle.std.specs.Vec.{vec_capacity};
ghost use Rattle.std.specs.Int.{w32, from_be_bytes};
ghost use Rattle.bk_files.specs.Files.{IsConsistent};
ghost use Rattle.bk_keydir.specs.Keydir.{IsNewer};
ghost use Rattle.bk_laws.specs.Record.{IsSeq, IsWritable, record_of};
ghost use Rattle.bk_laws.specs.Version.{version_at};
ghost use Rattle.bk_store.specs.Appends.{CrashMeetsPut, FilesGo, HasReserved, WritesDown, WritesNot};

use crate::appending::{Place, append_record};
use crate::counting::put_version;
use crate::errors::PutError;
use bk_base::{Body, Version, Write};
use bk_disk::Disk;
use bk_files::Files;
use bk_keydir::Keydir;
use bk_record::encode;

/// The most room that is kept for the next record.
const KEPT: usize = 262_144;

/// Makes the record of a write in `buffer`, appends it, and puts its version. The answer is whether a
/// new file was made.
pub(crate) fn append_write<D: Disk>(
    files: &mut Files<D>,
    keydir: &mut Keydir,
    buffer: &mut Vec<u8>,
    write: Write,
) -> Result<bool, PutError>
    requires consistent { IsTrue D.tells → IsConsistent files.old }
    requires seq { IsSeq write.seq.0 }
    requires newer { IsNewer write.seq.0 write.key keydir.old }
    ensures ok { IfOk result (λ rolled. WritesDown D.tells write rolled
        files.old keydir.old files.new keydir.new) }
    ensures err { IfErr result (WritesNot D.tells write files.old keydir.old files.new keydir.new) }
    ensures memory { HasReserved write files.old keydir.old (vec_capacity buffer.old)
        → IsErrOf result PutError.Memory → ⊥ }
    ensures slots { keydir.new.slots ≡ keydir.old.slots }
    ensures rest { FilesGo D.tells files.old files.new }
    ensures crash { IsTrue D.tells → CrashMeetsPut write files.old files.new }
{
    buffer.clear();
    encode(&write, buffer)?;
    keydir.ready(&write.key)?;
    let place = append_record(files, buffer.as_slice())?;
    let version = version_of(&write, place, buffer.as_slice());
    put_version(files, keydir, write.key, version);
    give_back(buffer);
    Ok(place.rolled)
}

// Gives back the room that a large record took.
fn give_back(buffer: &mut Vec<u8>) {
    if buffer.capacity() > KEPT {
        buffer.clear();
        buffer.shrink_to_fit();
    }
}

// The version of a write whose record was appended at this place.
fn version_of(write: &Write, place: Place, text: &[u8]) -> Version
    requires fits { IsWritable write.now }
    requires text { text.now ≡ record_of write.now }
    ensures { result ≡ version_at place.file place.at write.now }
{
    Version {
        seq: write.seq,
        at: place.at,
        moment: write.moment,
        file: place.file,
        size: text.len() as u32,
        crc: checksum(text),
        gone: matches!(write.body, Body::Gone),
    }
}

// The checksum that a record begins with.
fn checksum(text: &[u8]) -> u32
    requires { 4 ≤ length text.now }
    ensures { result ≡ from_be_bytes w32 text.now }
{
    u32::from_be_bytes([text[0], text[1], text[2], text[3]])
}
