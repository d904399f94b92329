//! The names of the store's files.
ghost use Rattle.std.specs.Prelude.{◌≡◌, ℕ, Some, IfSome, IfOk, string_bytes};
ghost use Rattle.std.specs.Fmt.{decimal};
ghost use Rattle.bk_base.specs.declared.names.Kind.{Kind};
ghost use Rattle.bk_base.specs.declared.names.Name.{Name};
ghost use Rattle.bk_base.specs.Names.{IsFileNumber, IsListed, ending_of, text_of};

use crate::errors::Memory;
use crate::limits::LAST_FILE;
use std::alloc::{AllocError, Global};

/// What a file of the store holds.
#[derive(Clone, Copy, Debug, PartialEq, Eq, PartialOrd, Ord, Hash)]
pub enum Kind {
    /// A data file.
    Main,
    /// A data file that a merge is writing.
    MainTemp,
    Hint,
    HintTemp,
    /// The list by which a merge swaps its outputs for its inputs.
    Swap,
    SwapTemp,
    Settings,
}

/// The name of a file of the store: its number and what it holds.
#[derive(Clone, Copy, Debug, PartialEq, Eq, PartialOrd, Ord, Hash)]
pub struct Name {
    pub id: u32,
    pub kind: Kind,
}

// A sign and a leading zero both stand below it.
const LEAST_FIRST_DIGIT: u8 = b'1';

impl Name {
    /// The name that this text writes, or None where it is no name of the store. Each name has one
    /// text: numbers are decimal without leading zeros, and letters are lower case.
    pub fn read(text: &str) -> Option<Name>
        ensures found { IfSome result (λ name. IsListed name × (text.now ≡ text_of name)) }
        ensures only { (name : Name) → IsListed name → text.now ≡ text_of name → result ≡ Some name }
    {
        if text == "bitcask.toml" {
            return Some(Name {
                id: 0,
                kind: Kind::Settings,
            });
        }
        let (number, ending) = text.split_once('.')?;
        let id = file_number(number)?;
        let kind = kind_of_ending(ending)?;
        Some(Name { id, kind })
    }

    /// The text of the name; only memory can refuse it.
    pub fn show(&self, alloc: Global) -> Result<String, Memory>
        requires { IsListed self.now }
        ensures { IfOk result (λ text. string_bytes text ≡ text_of self.now) }
    {
        Ok(self.written(alloc)?)
    }

    fn written(&self, alloc: Global) -> Result<String, AllocError>
        ensures { IfOk result (λ text. string_bytes text ≡ text_of self.now) }
    {
        match self.kind {
            Kind::Main => format!(in alloc; "{}.bitcask.data", self.id),
            Kind::MainTemp => format!(in alloc; "{}.bitcask.temp", self.id),
            Kind::Hint => format!(in alloc; "{}.bitcask.hint", self.id),
            Kind::HintTemp => format!(in alloc; "{}.bitcask.htmp", self.id),
            Kind::Swap => format!(in alloc; "{}.bitcask.swap", self.id),
            Kind::SwapTemp => format!(in alloc; "{}.bitcask.stmp", self.id),
            Kind::Settings => String::from_str(alloc, "bitcask.toml"),
        }
    }
}

// The number of a file, as its name writes it.
fn file_number(text: &str) -> Option<u32>
    ensures found { IfSome result (λ id. IsFileNumber id × (text.now ≡ decimal id)) }
    ensures only { (id : ℕ) → IsFileNumber id → text.now ≡ decimal id → result ≡ Some id }
{
    if *text.as_bytes().first()? < LEAST_FIRST_DIGIT {
        return None;
    }
    let id: u32 = text.parse().ok()?;
    if id > LAST_FILE {
        return None;
    }
    Some(id)
}

// The kind whose numbered names end so.
fn kind_of_ending(ending: &str) -> Option<Kind>
    ensures found { IfSome result (λ kind. ending_of kind ≡ Some ending.now) }
    ensures only { (kind : Kind) → ending_of kind ≡ Some ending.now → result ≡ Some kind }
{
    match ending {
        "bitcask.data" => Some(Kind::Main),
        "bitcask.temp" => Some(Kind::MainTemp),
        "bitcask.hint" => Some(Kind::Hint),
        "bitcask.htmp" => Some(Kind::HintTemp),
        "bitcask.swap" => Some(Kind::Swap),
        "bitcask.stmp" => Some(Kind::SwapTemp),
        _ => None,
    }
}

/// No two names of the table have one text.
pub fn one_text()
    ensures { (a b : Name) → IsListed a → IsListed b → text_of a ≡ text_of b → a ≡ b }
{}
