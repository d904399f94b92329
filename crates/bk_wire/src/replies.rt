//! The texts of replies.
ghost use Rattle.std.specs.Prelude.{◌≡◌, ◌≤◌, ◌++◌, ◌∷◌, [], length, OnOk, OnErr, codes};
ghost use Rattle.bk_base.specs.declared.requests.Reply.TheVariants.{Damaged};
ghost use Rattle.bk_laws.specs.Wire.{line, numbered, and_hex, and_number, full_word, reply_text, FitsReply};

use crate::appending::{NUMBER_ROOM, append, append_number, reserve};
use crate::digits::hex;
use bk_base::{Damage, FileId, Full, Key, Memory, Reply, Seq};

/// Writes a text that is always the same.
fn write_text(out: &mut Vec<u8>, text: &[u8]) -> Result<(), Memory>
    ensures ok { OnOk result (out.new.items ≡ out.old.items ++ text.now) }
    ensures err { OnErr result (out.new.items ≡ out.old.items) }
{
    reserve(out, text.len())?;
    append(out, text);
    Ok(())
}

/// Writes a line of a word and a number.
#[tactic(auto, using(std::proofs::lemmas::List::append_assoc))]
fn write_number(out: &mut Vec<u8>, word: &[u8], number: u128) -> Result<(), Memory>
    requires { length word.now ≤ 16 }
    ensures ok { OnOk result (out.new.items ≡ out.old.items ++ line (numbered word.now number)) }
    ensures err { OnErr result (out.new.items ≡ out.old.items) }
{
    reserve(out, word.len() + NUMBER_ROOM)?;
    append_number(out, word, number);
    append(out, b"\n");
    Ok(())
}

/// Writes a line of a word and the length of some bytes, and the bytes.
#[tactic(auto, using(std::proofs::lemmas::List::append_assoc))]
fn write_piece(out: &mut Vec<u8>, word: &[u8], bytes: &[u8]) -> Result<(), Memory>
    requires word { length word.now ≤ 16 }
    requires bytes { length bytes.now ≤ 16777216 }
    ensures ok { OnOk result (out.new.items
        ≡ out.old.items ++ (line (numbered word.now (length bytes.now)) ++ line bytes.now)) }
    ensures err { OnErr result (out.new.items ≡ out.old.items) }
{
    reserve(out, word.len() + NUMBER_ROOM + bytes.len() + 1)?;
    append_number(out, word, bytes.len() as u128);
    append(out, b"\n");
    append(out, bytes);
    append(out, b"\n");
    Ok(())
}

/// Writes a pair of a fold.
#[tactic(auto, using(std::proofs::lemmas::List::append_assoc))]
fn write_pair(out: &mut Vec<u8>, key: &[u8], value: &[u8]) -> Result<(), Memory>
    requires { (length key.now ≤ 65535) × (length value.now ≤ 16777216) }
    ensures ok { OnOk result (out.new.items ≡ out.old.items
        ++ (line (and_number (numbered (codes "PAIR ") (length key.now)) (length value.now))
        ++ line (key.now ++ value.now))) }
    ensures err { OnErr result (out.new.items ≡ out.old.items) }
{
    reserve(
        out,
        5 + NUMBER_ROOM + NUMBER_ROOM + key.len() + value.len() + 1,
    )?;
    append_number(out, b"PAIR ", key.len() as u128);
    append_number(out, b" ", value.len() as u128);
    append(out, b"\n");
    append(out, key);
    append(out, value);
    append(out, b"\n");
    Ok(())
}

/// Writes the header line of the reply VALUE. The value and a line feed are to follow.
pub fn write_value_header(value_len: usize, out: &mut Vec<u8>) -> Result<(), Memory>
    ensures ok { OnOk result (out.new.items ≡ out.old.items ++ line (numbered (codes "VALUE ") value_len)) }
    ensures err { OnErr result (out.new.items ≡ out.old.items) }
{
    write_number(out, b"VALUE ", value_len as u128)
}

/// Writes the header line of the reply PAIR, and the key. The value and a line feed are to follow.
#[tactic(auto, using(std::proofs::lemmas::List::append_assoc))]
pub fn write_pair_header(key: &Key, value_len: usize, out: &mut Vec<u8>) -> Result<(), Memory>
    ensures ok { OnOk result (out.new.items ≡ out.old.items
        ++ (line (and_number (numbered (codes "PAIR ") (length key.now)) value_len) ++ key.now)) }
    ensures err { OnErr result (out.new.items ≡ out.old.items) }
{
    let key = key.bytes();
    reserve(out, 5 + NUMBER_ROOM + NUMBER_ROOM + key.len())?;
    append_number(out, b"PAIR ", key.len() as u128);
    append_number(out, b" ", value_len as u128);
    append(out, b"\n");
    append(out, key);
    Ok(())
}

/// Writes how many files a merge read and how many it wrote.
#[tactic(auto, using(std::proofs::lemmas::List::append_assoc))]
fn write_merged(out: &mut Vec<u8>, inputs: u32, outputs: u32) -> Result<(), Memory>
    ensures ok { OnOk result (out.new.items
        ≡ out.old.items ++ line (and_number (numbered (codes "MERGED ") inputs) outputs)) }
    ensures err { OnErr result (out.new.items ≡ out.old.items) }
{
    reserve(out, 7 + NUMBER_ROOM + NUMBER_ROOM)?;
    append_number(out, b"MERGED ", inputs.into());
    append_number(out, b" ", outputs.into());
    append(out, b"\n");
    Ok(())
}

/// Writes that a file of `total` bytes ended at `at`.
#[tactic(auto, using(std::proofs::lemmas::List::append_assoc))]
fn write_cut(out: &mut Vec<u8>, file: u32, total: u64, at: u64) -> Result<(), Memory>
    ensures ok { OnOk result (out.new.items
        ≡ out.old.items ++ line (and_number (and_number (numbered (codes "CUT ") file) total) at)) }
    ensures err { OnErr result (out.new.items ≡ out.old.items) }
{
    reserve(out, 4 + NUMBER_ROOM + NUMBER_ROOM + NUMBER_ROOM)?;
    append_number(out, b"CUT ", file.into());
    append_number(out, b" ", total.into());
    append_number(out, b" ", at.into());
    append(out, b"\n");
    Ok(())
}

/// Writes the sums of a store.
#[tactic(auto, using(std::proofs::lemmas::List::append_assoc))]
fn write_stat(
    out: &mut Vec<u8>,
    keys: u64,
    files: u64,
    total: u128,
    live: u128,
) -> Result<(), Memory>
    ensures ok { OnOk result (out.new.items ≡ out.old.items ++ line
        (and_number (and_number (and_number (numbered (codes "STAT ") keys) files) total) live)) }
    ensures err { OnErr result (out.new.items ≡ out.old.items) }
{
    reserve(
        out,
        5 + NUMBER_ROOM + NUMBER_ROOM + NUMBER_ROOM + NUMBER_ROOM,
    )?;
    append_number(out, b"STAT ", keys.into());
    append_number(out, b" ", files.into());
    append_number(out, b" ", total);
    append_number(out, b" ", live);
    append(out, b"\n");
    Ok(())
}

/// Writes where a record is damaged, the checksum that was kept of it and the one that it has.
#[tactic(auto, using(std::proofs::lemmas::List::append_assoc))]
fn write_damaged(out: &mut Vec<u8>, damage: Damage) -> Result<(), Memory>
    ensures fits { FitsReply (Damaged damage) }
    ensures ok { OnOk result (out.new.items ≡ out.old.items ++ line
        (and_hex (and_hex (and_number (numbered (codes "DAMAGED ") damage.file.0) damage.at) damage.kept) damage.found)) }
    ensures err { OnErr result (out.new.items ≡ out.old.items) }
{
    reserve(out, 8 + NUMBER_ROOM + NUMBER_ROOM + 9 + 9 + 1)?;
    append_number(out, b"DAMAGED ", damage.file.0.into());
    append_number(out, b" ", damage.at.into());
    append(out, b" ");
    append(out, &hex(damage.kept));
    append(out, b" ");
    append(out, &hex(damage.found));
    append(out, b"\n");
    Ok(())
}

/// Writes what a store has no more room for.
fn write_full(out: &mut Vec<u8>, full: Full) -> Result<(), Memory>
    ensures ok { OnOk result (out.new.items ≡ out.old.items ++ line (codes "FULL " ++ full_word full)) }
    ensures err { OnErr result (out.new.items ≡ out.old.items) }
{
    match full {
        Full::Seq => write_text(out, b"FULL seq\n"),
        Full::Files => write_text(out, b"FULL files\n"),
        Full::Folds => write_text(out, b"FULL folds\n"),
        Full::Turns => write_text(out, b"FULL turns\n"),
    }
}

/// Writes a reply at the end of `out`. Out of memory, `out` is as it was. Each reply that a program
/// holds is one of the grammar.
#[tactic(auto, unfolding(bk_laws::specs::Wire::reply_text))]
pub fn write_reply(reply: &Reply, out: &mut Vec<u8>) -> Result<(), Memory>
    ensures fits { FitsReply reply.now }
    ensures ok { OnOk result (out.new.items ≡ out.old.items ++ reply_text reply.now) }
    ensures err { OnErr result (out.new.items ≡ out.old.items) }
{
    match reply {
        Reply::Value(value) => write_piece(out, b"VALUE ", value.bytes()),
        Reply::Absent => write_text(out, b"NONE\n"),
        Reply::Numbered(Seq(seq)) => write_number(out, b"OK ", (*seq).into()),
        Reply::Pair { key, value } => write_pair(out, key.bytes(), value.bytes()),
        Reply::Key(key) => write_piece(out, b"KEY ", key.bytes()),
        Reply::End(lines) => write_number(out, b"END ", (*lines).into()),
        Reply::Synced(Seq(seq)) => write_number(out, b"SYNCED ", (*seq).into()),
        Reply::Merged { inputs, outputs } => write_merged(out, *inputs, *outputs),
        Reply::Held(files) => write_number(out, b"HELD ", (*files).into()),
        Reply::Job(FileId(id)) => write_number(out, b"JOB ", (*id).into()),
        Reply::Stat {
            keys,
            files,
            total,
            live,
        } => write_stat(out, *keys, *files, *total, *live),
        Reply::Bye => write_text(out, b"BYE\n"),
        Reply::Memory => write_text(out, b"MEMORY\n"),
        Reply::Disk => write_text(out, b"DISK\n"),
        Reply::Read => write_text(out, b"READ\n"),
        Reply::Damaged(damage) => write_damaged(out, *damage),
        Reply::Cut { file, total, at } => write_cut(out, file.0, *total, *at),
        Reply::Full(full) => write_full(out, *full),
        Reply::Syntax(offset) => write_number(out, b"SYNTAX ", (*offset).into()),
    }
}
