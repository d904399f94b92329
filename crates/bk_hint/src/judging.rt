//! Whether a hint can be used.
ghost use Rattle.std.specs.Prelude.{◌≡◌, ℕ, List, MatchOption};
ghost use Rattle.bk_laws.specs.Hint.{Hinted, IsHint};
ghost use Rattle.bk_crc.specs.Crc.{crc_of, register_after};
ghost use Rattle.bk_hint.specs.Verdicts.{AreRows, EndsWith, IsVerdict, IsWalked, IsWhole, first_by};

use crate::headers::Header;
use crate::rows::next_row;
use bk_base::limits::HINT_HEADER;
use bk_crc::Running;

const PIECE: usize = 4096;

/// What a hint's bytes are. The causes are tested in this order.
#[derive(Clone, Copy, Debug, PartialEq, Eq)]
pub enum Verdict {
    /// The rows don't end in an end mark that is the last 30 bytes and names their number.
    NotWhole,
    /// The checksum that is stored isn't that of the rows.
    BadCheck { stored: u32, computed: u32 },
    /// It covers more than the data file's length.
    LengthDiffers { said: u64, is: u64 },
    /// The row of this number, from 0, is the first with a seq or a length of the value out of its
    /// bounds, or with a record that ends past what is covered.
    BadRow(u64),
    /// It can be used: it covers so many bytes of the data file, by so many rows.
    Good { covered: u64, rows: u64 },
}

/// What these bytes are as the hint of a data file of `len` bytes. It takes no memory.
pub fn judge(bytes: &[u8], len: u64) -> Verdict
    ensures { IsVerdict bytes.now len result }
{
    let Some((mark, walk)) = whole(bytes) else {
        return Verdict::NotWhole;
    };
    if mark.crc != walk.crc {
        return Verdict::BadCheck {
            stored: mark.crc,
            computed: walk.crc,
        };
    }
    if len < mark.at {
        return Verdict::LengthDiffers {
            said: mark.at,
            is: len,
        };
    }
    match walk.first_bad {
        Some(row) => Verdict::BadRow(row),
        None => Verdict::Good {
            covered: mark.at,
            rows: walk.rows,
        },
    }
}

// What a walk over rows found: how many they are, the number of the first that isn't sound, and their
// checksum.
#[derive(Clone, Copy, Debug)]
struct Walk {
    rows: u64,
    first_bad: Option<u64>,
    crc: u32,
}

// The end mark, and what a walk over the rows before it found; None where the bytes aren't whole.
fn whole(bytes: &[u8]) -> Option<(Header, Walk)>
    ensures { MatchOption result
        ((covered : ℕ) (rows : List Hinted) (crc : ℕ) → IsHint bytes.now covered rows crc → ⊥)
        (λ x. IsWhole bytes.now x.0.at x.0.crc x.1.crc x.1.rows x.1.first_bad) }
{
    let (front, mark) = bytes.split_last_chunk::<HINT_HEADER>()?;
    let mark = Header::read(mark);
    let walk = walk_over(front, mark.at)?;
    if !mark.is_mark(walk.rows) {
        return None;
    }
    Some((mark, walk))
}

// One walk over the bytes; None where they aren't rows alone. The checksum follows in pieces, so that
// each piece is read while it is near.
fn walk_over(bytes: &[u8], covered: u64) -> Option<Walk>
    ensures { MatchOption result ((rows : List Hinted) → AreRows bytes.now rows → ⊥)
        (λ walk. (rows : List Hinted) × AreRows bytes.now rows
        × IsWalked covered rows walk.rows walk.first_bad × (walk.crc ≡ crc_of bytes.now)) }
{
    let mut left = bytes;
    let mut unchecked = bytes;
    let mut check = Running::new();
    let mut rows = 0;
    let mut first_bad = None;
    while !left.is_empty() {
        let (header, _key, rest) = next_row(left)?;
        first_bad = first_of(first_bad, rows, header.is_sound(covered));
        rows += 1;
        left = rest;
        unchecked = check_up_to(left, unchecked, &mut check);
    }
    check.add(unchecked);
    Some(Walk {
        rows,
        first_bad,
        crc: check.end(),
    })
}

// Checks the bytes before those that are left, once they are a piece. What it gives is unchecked yet.
fn check_up_to<'a>(left: &'a [u8], unchecked: &'a [u8], check: &mut Running) -> &'a [u8]
    requires { EndsWith unchecked.now left.now }
    ensures same { register_after check.new result.now ≡ register_after check.old unchecked.now }
    ensures ends { EndsWith result.now left.now }
{
    let walked = unchecked.len() - left.len();
    if walked < PIECE {
        return unchecked;
    }
    check.add(&unchecked[..walked]);
    left
}

// The first row that isn't sound, where the row of this number comes behind those before.
fn first_of(first_bad: Option<u64>, row: u64, is_sound: bool) -> Option<u64>
    ensures { result ≡ first_by first_bad row is_sound }
{
    match first_bad {
        None if !is_sound => Some(row),
        other => other,
    }
}
