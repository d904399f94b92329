//! Laws of swap lists, for callers of `decode`.
ghost use Rattle.std.specs.Prelude.{◌≡◌, ℕ, List};
ghost use Rattle.bk_laws.specs.SwapList.{IsWhole, SwapList};
ghost use Rattle.bk_swap.specs.Stops.{IsSwapStop};
ghost use Rattle.bk_swap.specs.declared.lists.SwapStop.{SwapStop};

/// Two whole lists of one text are one.
pub fn one_swap_list()
    ensures { (bytes : List ℕ) (k l : SwapList) → IsWhole bytes k → IsWhole bytes l → k ≡ l }
{}

/// No two causes of a refusal come at the same bytes, and none but `Memory` where a whole list
/// stands: so each comes exactly where it is said.
pub fn one_stop()
    ensures { (bytes : List ℕ) (s t : SwapStop) → IsSwapStop bytes s → IsSwapStop bytes t → s ≡ t }
{}
