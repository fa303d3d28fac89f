ghost use Rattle.std.specs.Prelude.{true};
ghost use Rattle.book.specs.Histories.{History};
ghost use Rattle.store.specs.Stores.{store_book};

use store::store::Store;

mod calls;
mod entries;
mod judging;
mod listing;
mod moves;
mod runs;
mod views;

// A job whose program is closed: it is calibrated, placed, timed and judged. Its invariant is that it has a history.
#[derive(Drop)]
pub struct ClosedJob {
    pub(crate) store: Store,
    ghost lived: { ∥ History (store_book true store) ∥₁ },
}
