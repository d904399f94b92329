//! What a fill did to its store.

use bk_base::Seq;
use bk_disk::Failed;
use bk_store::PutError;

/// What a fill did to its store: how its puts ended, how the sync behind them did, and how many keys the store has then.
/// Where all puts were answered it says how many bytes their records have.
#[derive(Clone, Copy, Debug)]
pub(crate) struct Work {
    pub puts: Result<u64, PutError>,
    pub sync: Result<Seq, Failed>,
    pub keys: u64,
}
