//! Finds the request at the front of some bytes.
ghost use Rattle.bk_wire.specs.Reading.{Gives, command_at, delete_at, get_at, put_at, request_at, word_at};
ghost use Rattle.bk_wire.specs.Found.{request_of, Finds};
ghost use Rattle.bk_laws.specs.Wire.{Fits};
ghost use Rattle.std.specs.Prelude.{◌≡◌, IfOk};

use crate::fields::{keyed, literal, paired};
use crate::owned::owned_value;
use crate::stops::Stop;
use bk_base::{Key, Memory, Request};
use std::alloc::Global;

/// A request that was found, its key and its value still where they were found.
#[derive(Clone, Copy)]
pub enum Found<'a> {
    Get(&'a [u8]),
    Put(&'a [u8], &'a [u8]),
    Delete(&'a [u8]),
    Fold,
    Keys,
    Sync,
    Stat,
    Quit,
}

impl Found<'_> {
    /// The request with a key and a value of its own.
    pub fn to_request(self, alloc: Global) -> Result<Request, Memory>
        requires { Fits (request_of self) }
        ensures { IfOk result (λ request. request ≡ request_of self.entry) }
    {
        match self {
            Found::Get(key) => Ok(Request::Get(Key::of(alloc, key)?)),
            Found::Put(key, value) => {
                let key = Key::of(alloc, key)?;
                Ok(Request::Put(key, owned_value(alloc, value)?))
            }
            Found::Delete(key) => Ok(Request::Delete(Key::of(alloc, key)?)),
            Found::Fold => Ok(Request::Fold),
            Found::Keys => Ok(Request::Keys),
            Found::Sync => Ok(Request::Sync),
            Found::Stat => Ok(Request::Stat),
            Found::Quit => Ok(Request::Quit),
        }
    }
}

fn get(bytes: &[u8]) -> Result<(Found<'_>, &[u8]), Stop>
    ensures { Gives (λ x. (request_of x.0, x.1.now)) result (get_at bytes.now) }
{
    let (key, rest) = keyed(b"GET ", bytes)?;
    Ok((Found::Get(key), rest))
}

fn put(bytes: &[u8]) -> Result<(Found<'_>, &[u8]), Stop>
    ensures { Gives (λ x. (request_of x.0, x.1.now)) result (put_at bytes.now) }
{
    let ((key, value), rest) = paired(b"PUT ", bytes)?;
    Ok((Found::Put(key, value), rest))
}

fn delete(bytes: &[u8]) -> Result<(Found<'_>, &[u8]), Stop>
    ensures { Gives (λ x. (request_of x.0, x.1.now)) result (delete_at bytes.now) }
{
    let (key, rest) = keyed(b"DEL ", bytes)?;
    Ok((Found::Delete(key), rest))
}

/// Reads a request that is one word.
fn word<'a>(text: &[u8], found: Found<'a>, bytes: &'a [u8]) -> Result<(Found<'a>, &'a [u8]), Stop>
    ensures { Gives (λ x. (request_of x.0, x.1.now)) result
        (word_at text.now (request_of found.entry) bytes.now) }
{
    let rest = literal(text, bytes)?;
    Ok((found, rest))
}

/// Reads one of the requests that are one word.
#[tactic(auto, unfolding(crate::specs::Reading::command_at))]
fn command(bytes: &[u8]) -> Result<(Found<'_>, &[u8]), Stop>
    ensures { Gives (λ x. (request_of x.0, x.1.now)) result (command_at bytes.now) }
{
    match word(b"FOLD\n", Found::Fold, bytes) {
        Err(Stop::Bad) => {}
        read => return read,
    }
    match word(b"KEYS\n", Found::Keys, bytes) {
        Err(Stop::Bad) => {}
        read => return read,
    }
    match word(b"SYNC\n", Found::Sync, bytes) {
        Err(Stop::Bad) => {}
        read => return read,
    }
    match word(b"STAT\n", Found::Stat, bytes) {
        Err(Stop::Bad) => {}
        read => return read,
    }
    word(b"QUIT\n", Found::Quit, bytes)
}

/// Reads one request.
#[tactic(auto, unfolding(crate::specs::Reading::request_at))]
pub fn request(bytes: &[u8]) -> Result<(Found<'_>, &[u8]), Stop>
    ensures { Gives (λ x. (request_of x.0, x.1.now)) result (request_at bytes.now) }
{
    match get(bytes) {
        Err(Stop::Bad) => {}
        read => return read,
    }
    match put(bytes) {
        Err(Stop::Bad) => {}
        read => return read,
    }
    match delete(bytes) {
        Err(Stop::Bad) => {}
        read => return read,
    }
    command(bytes)
}

/// Finds the request at the front, and how many bytes it has.
pub fn find(bytes: &[u8]) -> Result<(Found<'_>, usize), Stop>
    ensures { Finds result bytes.now }
{
    match request(bytes) {
        Ok((found, rest)) => Ok((found, bytes.len() - rest.len())),
        Err(stop) => Err(stop),
    }
}
