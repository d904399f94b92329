//! What the actors keep to be read.
ghost use Rattle.std.specs.Prelude.{◌≡◌, ◌≤◌, ◌==◌, ℕ, None, Some, cond, IfOk, IfSome};
ghost use Rattle.bk_drill.specs.Loans.{IsUnread, loan_in};

use bk_base::Memory;
use bk_memdisk::MemView;
use bk_script::Actor;
use bk_store::Loan;
use std::alloc::Global;
use std::marker::Model;

/// One more than there are actors, whose numbers begin with 1.
const PLACES: usize = 27;

/// The loan that each actor keeps. Nothing of it was read.
#[derive(Drop)]
pub(crate) struct Loans {
    kept: Vec<Option<Loan<MemView>>>,
}

impl Model for Loans {
    ghost use Rattle.std.specs.Prelude.{◌≡◌, ℕ, List, Option, length, IfSome};
    ghost use Rattle.bk_store.specs.Loans.{Lent};
    ghost use Rattle.bk_drill.specs.Loans.{IsUnread, loan_in};

    ghost Value = { List (Option Lent) };

    ghost view = { λ loans. loans.kept.items };

    ghost invariant = { λ loans. (length loans.kept.items ≡ 27)
        × ((actor : ℕ) → IfSome (loan_in loans.kept.items actor) IsUnread) };
}

impl Loans {
    /// No actor keeps a loan.
    pub(crate) fn new(alloc: Global) -> Result<Loans, Memory>
        ensures { IfOk result (λ loans. (actor : ℕ) → loan_in loans actor ≡ None) }
    {
        let mut kept = Vec::new(alloc);
        for _ in 0..PLACES {
            if kept.push(None).is_err() {
                return Err(Memory);
            }
        }
        Ok(Loans { kept })
    }

    /// The actor keeps this loan, in the place of an older one.
    pub(crate) fn keep(&mut self, actor: Actor, loan: Loan<MemView>)
        requires actor { actor.0 ≤ 26 }
        requires unread { IsUnread loan }
        ensures { (n : ℕ) → loan_in self.new n ≡ cond (n == actor.0) (Some loan) (loan_in self.old n) }
    {
        self.kept[actor.0 as usize] = Some(loan);
    }

    /// The actor's loan, which it keeps no longer.
    pub(crate) fn take(&mut self, actor: Actor) -> Option<Loan<MemView>>
        requires { actor.0 ≤ 26 }
        ensures loan { result ≡ loan_in self.old actor.0 }
        ensures unread { IfSome result IsUnread }
        ensures gone { (n : ℕ) → loan_in self.new n ≡ cond (n == actor.0) None (loan_in self.old n) }
    {
        self.kept[actor.0 as usize].take()
    }
}
