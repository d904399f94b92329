//! Text that grows: bytes and numbers behind those that stand already.
ghost use Rattle.std.specs.Prelude.{◌≡◌, ◌++◌, ◌∷◌, OnOk};
ghost use Rattle.std.specs.Fmt.{decimal};
ghost use Rattle.bk_laws.specs.Wire.{hex_of, line};

use bk_base::Memory;
use bk_wire::{Digits, hex};

/// Appends some bytes.
pub fn append(out: &mut Vec<u8>, bytes: &[u8]) -> Result<(), Memory>
    ensures { OnOk result (out.new.items ≡ out.old.items ++ bytes.now) }
{
    out.extend_from_slice(bytes).map_err(|_| Memory)
}

/// Appends some bytes and the digits of a number.
#[tactic(auto, using(std::proofs::lemmas::List::append_assoc))]
pub fn append_number(out: &mut Vec<u8>, front: &[u8], number: u64) -> Result<(), Memory>
    ensures { OnOk result (out.new.items ≡ out.old.items ++ (front.now ++ decimal number)) }
{
    append(out, front)?;
    append(out, Digits::of(number.into()).as_slice())
}

/// Appends a space and the eight hexadecimal digits of a number.
#[tactic(auto, using(std::proofs::lemmas::List::append_assoc))]
pub fn append_hex(out: &mut Vec<u8>, number: u32) -> Result<(), Memory>
    ensures { OnOk result (out.new.items ≡ out.old.items ++ (32 ∷ hex_of 8 number)) }
{
    append(out, b" ")?;
    append(out, &hex(number))
}

/// Appends a line: some bytes, the digits of a number, and some more bytes.
#[tactic(auto, using(std::proofs::lemmas::List::append_assoc))]
pub fn append_line(out: &mut Vec<u8>, front: &[u8], number: u64, end: &[u8]) -> Result<(), Memory>
    ensures { OnOk result (out.new.items ≡ out.old.items ++ line ((front.now ++ decimal number) ++ end.now)) }
{
    append_number(out, front, number)?;
    append(out, end)?;
    append(out, b"\n")
}
