ghost use Rattle.std.specs.Prelude.{◌≡◌, length};
ghost use Rattle.plan.specs.Plans.{labels};
ghost use Rattle.store.specs.Stores.{store_plan};

use crate::store::Store;
use plan::gate::Gate;
use spans::layout::Layout;

impl Store {
    // The calibrated machine with the homes.
    pub fn layout(&self) -> Layout<'_>
        ensures table { result.table.now ≡ self.now.table }
        ensures homes { result.homes.now ≡ self.now.homes.items }
    {
        Layout {
            table: &self.table,
            homes: &self.homes,
        }
    }

    // How many labels the program has.
    pub fn labels(&self) -> u8
        ensures { result ≡ labels (store_plan self.now) }
    {
        self.homes.len() as u8
    }

    // The gates of the program.
    pub fn gates(&self) -> &[Gate]
        ensures { result.now ≡ self.now.gates.items }
    {
        &self.gates
    }
}
