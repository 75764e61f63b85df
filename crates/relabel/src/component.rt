// The component of a region, or those that share a face with one: searched, and labelled with their smallest region.
ghost use Rattle.std.specs.Prelude.{◌≡◌, ◌-◌, ◌≤◌, ◌<◌, not, length, eqb};
ghost use Rattle.lists.specs.Sums.{at, bit};
ghost use Rattle.meaning.specs.Plan.{edges_of};
ghost use Rattle.meaning.specs.Joined.{Neighbours};
ghost use Rattle.search.specs.Scan.{Span};
ghost use Rattle.search.specs.Counting.{Counting};
ghost use Rattle.relabel.specs.Growing.{Growable, Growing};
ghost use Rattle.relabel.specs.Minimum.{Minimum};
ghost use Rattle.relabel.specs.Writing.{Written};
ghost use Rattle.relabel.specs.Seeding.{Seedable, Seeded};
ghost use Rattle.relabel.specs.Sowing.{Renewed};

use neighbours::Faces;
use search::MARK;

// Searches from the regions of the queue from place `first` on until none of them has a neighbour that shows the sector, and returns the queue's new end.
// No loop over a range: the end moves as the queue grows.
fn grow(
    faces: Faces,
    colouring: &mut [u64],
    queue: &mut [u64],
    sector: u64,
    first: usize,
    end: usize,
) -> usize
    requires { Growable (length faces.start.now - 1) (edges_of faces.edges.now) faces.start.now faces.near.now sector colouring.old queue.old end first }
    ensures { Growing (length faces.entry.start.now - 1) (edges_of faces.entry.edges.now) faces.entry.start.now faces.entry.near.now sector colouring.old queue.old end colouring.new queue.new result result }
{
    let mut h = first;
    let mut e = end;
    while h < e {
        let reached = queue[h] as usize;
        h += 1;
        e = search::expand(faces, colouring, queue, sector, reached, e);
    }
    e
}

// The smallest of some regions.
fn smallest(regions: &[u64]) -> u64
    requires { 0 < length regions.now }
    ensures { Minimum regions.now 0 (length regions.now) result }
{
    let mut least = regions[0];
    for region in &regions[1..] {
        least = least.min(*region);
    }
    least
}

// 1 where two labels differ, and otherwise 0.
pub fn differ(a: u64, b: u64) -> u64
    ensures value { result ≡ bit (not (eqb a b)) }
    ensures upper_bound { result ≤ 1 }
{
    u64::from(a != b)
}

// Gives some regions one label, and returns how many had another.
fn write(labels: &mut [u64], regions: &[u64], label: u64) -> u64
    requires { Span (length labels.old) regions.now 0 (length regions.now) }
    ensures { Written (length labels.old) regions.now 0 (length regions.now) label labels.old labels.new result }
{
    let mut n = 0;
    for region in regions {
        let z = *region as usize - 1;
        n += differ(labels[z], label);
        labels[z] = label;
    }
    n
}

// The queue's new end, and how many labels are new.
#[derive(Drop)]
struct Reach {
    end: usize,
    relabelled: u64,
}

// Marks and labels the component of a region, where the region shows the sector.
fn label_from(
    faces: Faces,
    colouring: &mut [u64],
    labels: &mut [u64],
    queue: &mut [u64],
    sector: u64,
    region: u64,
    end: usize,
) -> Reach
    requires { Seedable (length faces.start.now - 1) (edges_of faces.edges.now) faces.start.now faces.near.now sector region colouring.old labels.old queue.old end }
    ensures { Seeded (length faces.entry.start.now - 1) (edges_of faces.entry.edges.now) sector region colouring.old labels.old queue.old colouring.new labels.new queue.new result.end result.relabelled }
{
    let z = region as usize - 1;
    if colouring[z] == sector {
        colouring[z] = MARK;
        queue[end] = region;
        let e = grow(faces, colouring, queue, sector, end, end + 1);
        let found = &queue[end..e];
        let label = smallest(found);
        let n = write(labels, found, label);
        return Reach {
            end: e,
            relabelled: n,
        };
    }
    Reach { end, relabelled: 0 }
}

// Labels anew the components of a sector that share a face with a region, and returns how many labels are new.
pub fn relabel_pieces(
    faces: Faces,
    colouring: &mut [u64],
    labels: &mut [u64],
    queue: &mut [u64],
    region: usize,
    sector: u64,
) -> u64
    requires counting { Counting (length faces.start.now - 1) (edges_of faces.edges.now) faces.start.now faces.near.now colouring.old queue.old region sector }
    requires labels_len { length labels.old ≡ length faces.start.now - 1 }
    ensures colouring_unchanged { colouring.new ≡ colouring.old }
    ensures renewed { Renewed (length faces.entry.start.now - 1) (edges_of faces.entry.edges.now) colouring.old sector (Neighbours (edges_of faces.entry.edges.now) region) labels.old labels.new result }
{
    let first = faces.start[region - 1] as usize;
    let last = faces.start[region] as usize;
    let mut e = 0;
    let mut relabelled = 0;
    for neighbour in &faces.near[first..last] {
        let reach = label_from(faces, colouring, labels, queue, sector, *neighbour, e);
        e = reach.end;
        relabelled += reach.relabelled;
    }
    search::restore(colouring, queue, sector, e);
    relabelled
}

// Labels anew the component of a region, and returns how many labels are new.
pub fn relabel_own(
    faces: Faces,
    colouring: &mut [u64],
    labels: &mut [u64],
    queue: &mut [u64],
    region: usize,
) -> u64
    requires counting { Counting (length faces.start.now - 1) (edges_of faces.edges.now) faces.start.now faces.near.now colouring.old queue.old region (at colouring.old region) }
    requires labels_len { length labels.old ≡ length faces.start.now - 1 }
    ensures colouring_unchanged { colouring.new ≡ colouring.old }
    ensures renewed { Renewed (length faces.entry.start.now - 1) (edges_of faces.entry.edges.now) colouring.old (at colouring.old region) (λ x. x ≡ region) labels.old labels.new result }
{
    let sector = colouring[region - 1];
    let reach = label_from(faces, colouring, labels, queue, sector, region as u64, 0);
    let e = reach.end;
    search::restore(colouring, queue, sector, e);
    reach.relabelled
}
