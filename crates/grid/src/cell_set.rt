ghost use Rattle.std.specs.Prelude.{◌≡◌, Decides, nat_lt};
ghost use Rattle.grid.specs.CellSets.{no_cells, with_cell, listed_cells, CommonCell};
ghost use Rattle.grid.specs.Members.{has};

// A set of cells below 64, a bit for each.
#[derive(Clone, Copy, Debug, PartialEq, Eq)]
pub struct CellSet {
    bits: u64,
}

impl CellSet {
    pub fn new() -> CellSet
        ensures { has result ≡ no_cells }
    {
        CellSet { bits: 0 }
    }

    // The set of the cells of a list.
    #[tactic(auto, using(crate::proofs::Puts::listed_more))]
    pub fn of_cells(cells: &[u8]) -> CellSet
        ensures { has result ≡ listed_cells cells.now }
    {
        let mut set = CellSet::new();
        for cell in cells {
            set.insert(*cell);
        }
        set
    }

    // Puts the cell in; a cell from 64 on is none, and changes nothing. Answers whether the set has it.
    #[tactic(auto, using(crate::proofs::Puts::cell_put))]
    pub fn insert(&mut self, cell: u8) -> bool
        ensures value { result ≡ nat_lt cell 64 }
        ensures after { has self.new ≡ with_cell cell (has self.old) }
    {
        let is_cell = cell < 64;
        if is_cell {
            self.bits |= 1 << cell;
        }
        is_cell
    }

    #[tactic(auto, using(bits::proofs::Bits::word_past))]
    pub fn contains(self, cell: u8) -> bool
        ensures { result ≡ has self cell }
    {
        cell < 64 && (self.bits >> cell) % 2 == 1
    }

    // Whether the sets have a common cell.
    #[tactic(auto, using(bits::proofs::Bits::words_meet))]
    pub fn meets(self, other: CellSet) -> bool
        ensures { Decides result (CommonCell (has self) (has other)) }
    {
        self.bits & other.bits != 0
    }
}
