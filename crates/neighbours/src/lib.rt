// Each region's neighbours, with the areas of the faces, in compressed rows.
#![tactic(auto)]

ghost use Rattle.std.specs.Prelude.{◌≡◌, ℕ, ◌-◌, ◌*◌, ◌/◌, ◌^◌, ◌<◌, ◌≤◌, length};
ghost use Rattle.lists.specs.Sums.{In, at};
ghost use Rattle.meaning.specs.Plan.{edge_length, edges_of};
ghost use Rattle.meaning.specs.Paths.{Ends};
ghost use Rattle.neighbours.specs.Table.{Table};
ghost use Rattle.neighbours.specs.Degree.{row_end};
ghost use Rattle.neighbours.specs.Counts.{one_more, Counted};
ghost use Rattle.neighbours.specs.Rows.{Free, Placed, Filled};

use meaning::Edge;
use terms::limits::EDGE_LENGTH;

// What is known of the faces that regions share, as `gather` writes it: the plan's edges, where the row of each region begins, the neighbours in the
// rows, and the areas of the shared faces beside them.
#[derive(Clone, Copy)]
pub struct Faces<'a> {
    pub edges: &'a [u64],
    pub start: &'a [u64],
    pub near: &'a [u64],
    pub areas: &'a [u64],
}

// Counts one edge more at a region.
fn count_one(counts: &mut [u64], region: u64)
    requires in_range { In (length counts.old) region }
    requires region_bound { at counts.old region < 2 ^ 63 }
    ensures { counts.new ≡ one_more counts.old region }
{
    let i = region as usize - 1;
    counts[i] += 1;
}

// Counts the edges at each region.
fn count_edges(edges: &[u64], counts: &mut [u64])
    requires { Ends (length counts.old) (edges_of edges.now) }
    ensures { Counted (length counts.old) edges.now 0 counts.new }
{
    counts.fill(0);
    for k in (0..edges.len() / EDGE_LENGTH).rev() {
        let edge = Edge::at(edges, k);
        count_one(counts, edge.a);
        count_one(counts, edge.b);
    }
}

// Adds to each number all that stand before it.
fn add_up(counts: &mut [u64])
    requires { row_end (at counts.old) (length counts.old) < 2 ^ 63 }
    ensures { (v : ℕ) → In (length counts.old) v → at counts.new v ≡ row_end (at counts.old) v }
{
    let mut total = 0;
    for count in counts.iter_mut() {
        total += *count;
        *count = total;
    }
}

// Puts a neighbour, and the area of the shared face, in front of a region's row.
fn place(
    start: &mut [u64],
    near: &mut [u64],
    areas: &mut [u64],
    region: u64,
    neighbour: u64,
    area: u64,
)
    requires { Free start.old near.old areas.old region }
    ensures { Placed start.old near.old areas.old region neighbour area start.new near.new areas.new }
{
    let i = region as usize - 1;
    let first = start[i] - 1;
    start[i] = first;
    let cell = first as usize;
    near[cell] = neighbour;
    areas[cell] = area;
}

// Fills each row from its end with the edges at its region: start, which has the ends of the rows, comes to have their starts.
fn fill(edges: &[u64], start: &mut [u64], near: &mut [u64], areas: &mut [u64])
    requires { Filled (length start.old) (length near.old) edges.now (length edges.now / edge_length) start.old near.old areas.old }
    ensures { Filled (length start.old) (length near.old) edges.now 0 start.new near.new areas.new }
{
    for k in (0..edges.len() / EDGE_LENGTH).rev() {
        let edge = Edge::at(edges, k);
        place(start, near, areas, edge.b, edge.a, edge.area);
        place(start, near, areas, edge.a, edge.b, edge.area);
    }
}

// Writes the neighbours of region 1, of region 2, .. into near and the areas of the shared faces into areas;
// start says where those of each region begin and, in its last number, where those of the last region end.
pub fn gather(edges: &[u64], start: &mut [u64], near: &mut [u64], areas: &mut [u64])
    requires ends { Ends (length start.old - 1) (edges_of edges.now) }
    requires in_bounds { 1 ≤ length start.old }
    requires edge_length_in_bounds { 2 * (length edges.now / edge_length) ≤ length near.old }
    requires areas_len { length areas.old ≡ length near.old }
    ensures { Table (length start.old - 1) (edges_of edges.now) start.new near.new areas.new }
{
    count_edges(edges, start);
    add_up(start);
    fill(edges, start, near, areas);
}
