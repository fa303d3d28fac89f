// The queue at two element types: agenda entries and operations.
use circuit::action::{Action, Plain, Single};
use circuit::operation::Operation;
use circuit::order::*;
use plan::agenda::*;
use plan::gate::*;
use queue::Queue;
use refusal::Refusal;

fn entry(start: u32, gate: u16) -> AgendaEntry {
    AgendaEntry { start, gate }
}

// Pushes three entries to three places and then a fourth: what that answers, and how many entries there are.
fn filled(queue: &mut Queue<'_, AgendaEntry>) -> Result<(Result<(), Refusal>, usize), Refusal> {
    for pushed in [entry(7, 2), entry(5, 9), entry(5, 1)] {
        queue.push(pushed)?;
    }
    Ok((queue.push(entry(0, 0)), queue.len()))
}

// Takes two entries, pushes one and takes three.
fn emptied(queue: &mut Queue<'_, AgendaEntry>) -> Result<[Option<AgendaEntry>; 5], Refusal> {
    let first = queue.pop();
    let second = queue.pop();
    queue.push(entry(6, 0))?;
    Ok([first, second, queue.pop(), queue.pop(), queue.pop()])
}

// Entries leave by start and then by gate; the fourth finds no place.
#[test]
fn entries_leave_in_order(rt: HostRuntime) {
    let mut places = [entry(0, 0); 3];
    let mut queue = Queue::new(&mut places);
    let full = Ok((Err(Refusal::TooFewPlaces), 3));
    let want = [entry(5, 1), entry(5, 9), entry(6, 0), entry(7, 2)].map(Some);
    let [first, second, third, fourth] = want;
    let answers = (filled(&mut queue), emptied(&mut queue));
    assert_eq!(rt; answers, (full, Ok([first, second, third, fourth, None])));
}

fn x_at(start: u32, length: u32, cell: u8) -> Operation {
    Operation {
        start,
        length,
        action: Action::One(Single::Plain(Plain::X), cell),
        gate: 3,
    }
}

// Four places that three operations are pushed to and sorted in, and how many those are.
fn sorted() -> Result<(usize, [Operation; 4]), Refusal> {
    let mut places = [x_at(9, 9, 9); 4];
    let mut queue = Queue::new(&mut places);
    for pushed in [x_at(4, 2, 1), x_at(4, 1, 1), x_at(4, 9, 0)] {
        queue.push(pushed)?;
    }
    let count = queue.into_sorted();
    Ok((count, places))
}

// Operations stand in order of start, first cell and length; the last place is as it was.
#[test]
fn operations_in_order(rt: HostRuntime) {
    let want = [x_at(4, 9, 0), x_at(4, 1, 1), x_at(4, 2, 1), x_at(9, 9, 9)];
    assert_eq!(rt; sorted(), Ok((3, want)));
}
