ghost use Rattle.std.specs.Prelude.{false};
ghost use Rattle.book.specs.Histories.{History};
ghost use Rattle.store.specs.Stores.{store_book};

use store::store::Store;

mod calls;
mod opening;

// A job whose program takes gates. Its invariant is that it has a history.
#[derive(Drop)]
pub struct OpenJob {
    pub(crate) store: Store,
    ghost lived: { ∥ History (store_book false store) ∥₁ },
}
