//! All keys of a fold.
ghost use Rattle.std.specs.Prelude.{◌≡◌, ◌∷◌, [], Bool, IsTrue, IfOk, IfErr, IsErrOf};
ghost use Rattle.bk_disk.specs.Causes.{Rose};
ghost use Rattle.bk_exchange.specs.Listings.{end_call};
ghost use Rattle.bk_list.specs.Ending.{end_of};
ghost use Rattle.bk_list.specs.Gathering.{Gathers, MovesOn, Refuses, Stops};
ghost use Rattle.bk_session.specs.Listing.{IsOurs};
ghost use Rattle.bk_store.specs.Events.{KeepsPast};

use crate::lists::ListEnd;
use bk_base::Key;
use bk_disk::Disk;
use bk_store::{FoldError, Row2, Store};
use std::alloc::Global;

/// All keys of the fold that is open in this slot. An error is how the listing ends.
pub(crate) fn gather<D: Disk>(
    alloc: Global,
    store: &mut Store<D>,
    slot: u8,
) -> Result<Vec<Key>, ListEnd>
    requires ours { IsOurs slot store.old }
    ensures gathered { IfOk result (λ keys. (known : Bool) → (IsTrue known → IsTrue D.tells)
        → Gathers known slot (end_call slot ∷ []) store.old store.new keys.items) }
    ensures refused { IfErr result (λ end. (known : Bool) → (IsTrue known → IsTrue D.tells)
        → Refuses known slot store.old store.new) }
    ensures stops { IfErr result Stops }
    ensures ours { IsOurs slot store.new }
    ensures moved { MovesOn slot store.old store.new }
    ensures past { IsTrue D.tells → KeepsPast store.old.files.told store.new.files.told }
    ensures disk { IsErrOf result ListEnd.Disk → Rose store.old.files.faults store.new.files.faults }
{
    let mut keys = Vec::new(alloc);
    'pairs: loop {
        match store.fold_next(0, slot) {
            Ok(Some(Row2 { key, loan: _ })) => {
                if keys.push(key).is_err() {
                    return Err(ListEnd::Memory);
                }
            }
            Ok(None) => return Ok(keys),
            Err(error) => return Err(end_of(error)),
        }
    }
}

/// How a fold that gave no pair ends the listing. That its slot isn't open can't be: the listing opened it.
fn end_of(error: FoldError) -> ListEnd
    ensures { result ≡ end_of error }
{
    match error {
        FoldError::Disk => ListEnd::Disk,
        FoldError::Memory | FoldError::NoFold(_) => ListEnd::Memory,
    }
}
