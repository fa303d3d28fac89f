ghost use Rattle.std.specs.Prelude.{◌≡◌, ◌+◌, ◌-◌, ◌*◌, ◌^◌, ◌<◌, ◌≤◌, ℕ, List, [], ◌∷◌, ◌++◌, map, reverse, length, is_ok, if◌then◌else◌};
ghost use Rattle.std.specs.List.{flat_map};
ghost use Rattle.std.specs.Iterator.{IsFinite};
ghost use Rattle.std.specs.Iterator.Runs.{EachRunFrom, WholeRun};
ghost use Rattle.refusal.specs.Refusals.{ok_unless};
ghost use Rattle.cnot.specs.Links.{front, times_of, links_of, links, operations_along};
ghost use Rattle.cnot.specs.Steps.{cnot_over, swap_over, HasRoom, Laid, routed, routed_along, placed, writing_refusal, written_first};

use crate::link::Link;
use crate::time::operation_count;
use calibration::table::CalibrationTable;
use circuit::action::Action;
use circuit::operation::Operation;
use refusal::Refusal;
use route::path::Path;

// Writes a gate's operations one after another, without a gap. It counts its place and keeps all places, since the contracts speak of those before and behind; the table is only read, so it goes beside.
#[derive(Drop)]
struct Writer<'a> {
    places: &'a mut [Operation],
    at: usize,
    time: u32,
    gate: u16,
}

impl Writer<'_> {
    // Writes the CNOT over a link.
    fn cnot(&mut self, link: Link)
        requires { HasRoom self.old 1 link.time }
        ensures { Laid (cnot_over link ∷ []) self.old self.new }
    {
        self.places[self.at] = Operation {
            start: self.time,
            length: link.time,
            action: Action::Cnot(link.from, link.to),
            gate: self.gate,
        };
        self.at += 1;
        self.time += link.time;
    }

    // Writes the swap of a link's ends, which is three CNOTs.
    fn swap(&mut self, link: Link)
        requires { HasRoom self.old 3 (3 * link.time) }
        ensures { Laid (swap_over link) self.old self.new }
    {
        self.cnot(link);
        self.cnot(link.reversed());
        self.cnot(link);
    }

    // Writes the swaps over the links whose ends are given.
    #[tactic(auto, unfolding(crate::specs::Links::links_of))]
    fn swaps<'c, I: Iterator<Item = &'c [u8; 2]> + Drop>(
        &mut self,
        table: &CalibrationTable,
        links: I,
    )
        requires can { I.can_next links × IsFinite (I.remaining links) }
        requires room { EachRunFrom I.next_gives links (λ p. HasRoom self.old (3 * p.len) (3000 * p.len)) }
        ensures { WholeRun I.next_gives links (λ p. Laid (flat_map swap_over (links_of (times_of table.now) p.items)) self.old self.new) }
    {
        for ends in links {
            self.swap(Link::between(table, ends));
        }
    }

    // Writes the swaps back over the links along a way, the last first.
    #[tactic(auto, using(crate::proofs::Windows::links_of_pairs_back))]
    fn swaps_back(&mut self, table: &CalibrationTable, way: &[u8])
        requires { HasRoom self.old (3 * (length way.now - 1)) (3000 * (length way.now - 1)) }
        ensures { Laid (flat_map swap_over (reverse (links (times_of table.now) way.now))) self.old self.new }
    {
        self.swaps(table, way.array_windows::<2>().rev());
    }

    // Writes a CNOT along cells: swaps to the target's side, the CNOT over the last link, and the same swaps back; nothing along fewer than two.
    fn along(&mut self, table: &CalibrationTable, cells: &[u8])
        requires { HasRoom self.old (operations_along (length cells.now)) (1000 * operations_along (length cells.now)) }
        ensures { Laid (routed (links (times_of table.now) cells.now)) self.old self.new }
    {
        let Some(last) = cells.last_chunk::<2>() else {
            return;
        };
        let way = &cells[..cells.len() - 1];
        self.swaps(table, way.array_windows::<2>());
        self.cnot(Link::between(table, last));
        self.swaps_back(table, way);
    }
}

// Why so many operations from a start on are not written to so many places.
fn check(start: u32, gate: u16, places: usize, count: usize) -> Result<(), Refusal>
    ensures { result ≡ ok_unless (writing_refusal start gate places count) tt }
{
    if start > 1000000 {
        return Err(Refusal::StartTooLarge(gate as usize));
    }
    if places < count {
        return Err(Refusal::TooFewPlaces);
    }
    Ok(())
}

// Writes the operations of a CNOT along a path, from `start` on and without a gap, to the first places of `out`; answers their count. A start above 1,000,000 or too few places are refused, and nothing is written then.
#[tactic(auto, using(crate::proofs::Laying::laid_first))]
pub fn write_cnot(
    table: &CalibrationTable,
    path: &Path,
    start: u32,
    gate: u16,
    out: &mut [Operation],
) -> Result<usize, Refusal>
    ensures answer { result ≡ ok_unless (writing_refusal start gate (length out.old) (length (routed_along table.now path.now))) (length (routed_along table.now path.now)) }
    ensures written { out.new ≡ (if is_ok result then written_first out.old (placed gate start (routed_along table.now path.now)) else out.old) }
{
    let count = operation_count(path);
    check(start, gate, out.len(), count)?;
    let mut writer = Writer {
        places: out,
        at: 0,
        time: start,
        gate,
    };
    writer.along(table, path.cells());
    Ok(count)
}
