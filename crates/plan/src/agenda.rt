ghost use Rattle.plan.specs.Entries.{entry_before};
ghost use Rattle.plan.specs.EntriesLemmas.{entries_total};
ghost use Rattle.std.specs.Prelude.{[], ◌∷◌};
ghost use Rattle.std.specs.Cmp.{ranks};
ghost use Rattle.orders.proofs.Keys.{last-compared, more-compared};
ghost use Rattle.std.specs.Ordering.{nat_cmp};

use crate::gate::AgendaEntry;
use orders::Ranked;

impl Ranked for AgendaEntry {
    ghost before = { entry_before };

    ghost total = { entries_total };

    ghost answers = { λ x y r h.
        more-compared x.start y.start (x.gate ∷ []) (y.gate ∷ []) (nat_cmp x.start y.start) (nat_cmp x.gate y.gate) r (ranks x.start y.start)
        (last-compared x.gate y.gate (nat_cmp x.gate y.gate) (ranks x.gate y.gate))
        h };
}
