ghost use Rattle.std.specs.Prelude.{◌≡◌};
ghost use Rattle.route.specs.Ends.{ends_of};
ghost use Rattle.rules.specs.Bends.{amid, in_rectangle, rectangle as bounding_rectangle};
ghost use Rattle.rules.specs.Lawful.{rectangle_lawful};

use crate::bend::Bend;
use crate::leg::Leg;
use grid::cell_set::CellSet;
use route::endpoints::Endpoints;
use route::path::Path;
use route::rule::RouteRule;

// A path along the row first, which reserves the bounding rectangle of its ends. It has choice 0 only.
#[derive(Clone, Copy, Debug, PartialEq, Eq)]
pub struct Rectangle;

// Whether the number is between a and b, in either order.
fn is_amid(a: u8, b: u8, v: u8) -> bool
    ensures { result ≡ amid a b v }
{
    (a.min(b)..=a.max(b)).contains(&v)
}

// Whether a cell of the machine is in the bounding rectangle.
fn encloses(ends: Endpoints, cell: u8) -> bool
    ensures { result ≡ in_rectangle (ends_of ends).grid (ends_of ends).from (ends_of ends).to cell }
{
    let machine = ends.machine();
    let (xa, ya) = machine.place(ends.from());
    let (xb, yb) = machine.place(ends.to());
    let (x, y) = machine.place(cell);
    cell < machine.cells() && is_amid(xa, xb, x) && is_amid(ya, yb, y)
}

impl RouteRule for Rectangle {
    ghost route = { λ x. bounding_rectangle };

    ghost lawful = { λ x. rectangle_lawful };

    fn choices(&self) -> u16 {
        1
    }

    fn path(&self, ends: Endpoints, _choice: u8) -> Path {
        Bend::new(ends, Leg::Row).path()
    }

    fn reserved(&self, ends: Endpoints, _choice: u8) -> CellSet {
        // A loop: a chain that filters and then fills a set is no plainer.
        let mut set = CellSet::new();
        for cell in 0..ends.machine().cells() {
            if encloses(ends, cell) {
                set.insert(cell);
            }
        }
        set
    }
}
