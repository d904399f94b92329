//! The value of a loan.
ghost use Rattle.std.specs.Prelude.{◌≡◌, ◌≤◌, drop, length, IfErr, IfOk, IsTrue};
ghost use Rattle.bk_drill.specs.Loans.{IsUnread, IsUnreadFor, line_of_read};

use bk_base::Value;
use bk_disk::View;
use bk_script::Printed;
use bk_store::{Loan, ReadError};
use std::alloc::Global;

/// Reads a loan to its value, or to the line that says why it couldn't be read.
pub(crate) fn read_value<V: View + Drop>(alloc: Global, mut loan: Loan<V>) -> Result<Value, Printed>
    requires { IsUnread loan }
    ensures ok { IsTrue V.tells → IfOk result (λ value. value ≡ drop loan.value_at loan.left) }
    ensures err { IsTrue V.tells → IfErr result (IsUnreadFor loan) }
{
    let bytes: Result<Vec<u8>, _> = vec![in alloc; 0u8; loan.size()];
    let Ok(mut bytes) = bytes else {
        return Err(Printed::Memory);
    };
    if let Err(error) = loan.read(&mut bytes) {
        return Err(line_of(error));
    }
    drop_front(&mut bytes, loan.value_at());
    Value::new(bytes).map_err(|_| Printed::Memory)
}

// Drops so many bytes at the front.
fn drop_front(bytes: &mut Vec<u8>, count: usize)
    requires { count ≤ length bytes.old.items }
    ensures { bytes.new.items ≡ drop count bytes.old.items }
{
    let len = bytes.len() - count;
    bytes.copy_within(count.., 0);
    bytes.truncate(len);
}

fn line_of(error: ReadError) -> Printed
    ensures { result ≡ line_of_read error }
{
    match error {
        ReadError::Read => Printed::Read,
        ReadError::Damaged(damage) => Printed::Damaged(damage),
    }
}
