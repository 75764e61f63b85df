// What each sector has, and the border, from the plan and its colouring.
ghost use Rattle.std.specs.Prelude.{◌≡◌, cond, ◌+◌, ◌<◌, ◌≤◌, ◌^◌, length};
ghost use Rattle.lists.specs.Sums.{In, at, bit, sum, Every};
ghost use Rattle.lists.specs.Few.{Few};
ghost use Rattle.meaning.specs.Plan.{most_regions, most_workload, most_area, edges_of};
ghost use Rattle.meaning.specs.Joined.{leads};
ghost use Rattle.meaning.specs.Kinds.{area_of, crosses};
ghost use Rattle.judge.specs.Figures.{tally};
ghost use Rattle.judge.specs.Tallies.{added, Tallying};
ghost use Rattle.judge.specs.Small.{SmallEdges};

use lists::sum_of;
use meaning::Edge;
use terms::limits::EDGE_LENGTH;

// Adds x to the sum of a sector.
fn add_to(sums: &mut [u64], sector: u64, x: u64)
    requires in_range { In (length sums.old) sector }
    requires x_bound { at sums.old sector + x < 2 ^ 64 }
    ensures { sums.new ≡ added sums.old sector x }
{
    let i = (sector - 1) as usize;
    sums[i] = sums[i] + x;
}

// 1 where the region at index i is the label of its component, 0 elsewhere.
fn lead_at(labels: &[u64], i: usize) -> u64
    requires { i < length labels.now }
    ensures { result ≡ bit (leads labels.now (i + 1)) }
{
    u64::from(labels[i] == i as u64 + 1)
}

// Puts down how many components each sector has, by the labels of the regions.
pub fn tally_components(labels: &[u64], colouring: &[u64], counts: &mut [u64])
    requires { Tallying (length counts.old) labels.now colouring.now }
    ensures { counts.new ≡ tally (length counts.old) colouring.now (λ u. bit (leads labels.now u)) (length colouring.now) }
{
    counts.fill(0);
    for (i, sector) in colouring.iter().enumerate() {
        add_to(counts, *sector, lead_at(labels, i));
    }
}

// Puts down the workload of each sector.
pub fn tally_workloads(workloads: &[u64], colouring: &[u64], loads: &mut [u64])
    requires tallying { Tallying (length loads.old) workloads.now colouring.now }
    requires every { Every (λ w. w ≤ most_workload) workloads.now }
    ensures { loads.new ≡ tally (length loads.old) colouring.now (at workloads.now) (length colouring.now) }
{
    loads.fill(0);
    for (sector, workload) in colouring.iter().zip(workloads) {
        add_to(loads, *sector, *workload);
    }
}

// The area of an edge where its ends differ in sector, and 0 elsewhere.
fn border_at(edge: Edge, colouring: &[u64]) -> u64
    requires in_range { In (length colouring.now) edge.a }
    requires in_range_2 { In (length colouring.now) edge.b }
    ensures { result ≡ cond (crosses colouring.now edge) edge.area 0 }
{
    let a = (edge.a - 1) as usize;
    let b = (edge.b - 1) as usize;
    if colouring[a] == colouring[b] {
        0
    } else {
        edge.area
    }
}

// The summed area of the edges whose ends differ in sector, and of all faces to the outside.
pub fn border_of(outside: &[u64], edges: &[u64], colouring: &[u64]) -> u64
    requires few { Few most_regions most_area outside.now }
    requires small_edges { SmallEdges (length colouring.now) (edges_of edges.now) }
    ensures { result ≡ area_of (edges_of edges.now) (crosses colouring.now) + sum outside.now (λ a. a) }
{
    let outside_area = sum_of(outside);
    let area: u64 = (0..edges.len() / EDGE_LENGTH)
        .map(|k| border_at(Edge::at(edges, k), colouring))
        .sum();
    area + outside_area
}
