// The labels of a colouring, and the labels after a made recolouring at the cost of what it changes.
#![tactic(auto)]

ghost use Rattle.std.specs.Prelude.{◌≡◌, ◌-◌, length};
ghost use Rattle.lists.specs.Sums.{at};
ghost use Rattle.meaning.specs.Plan.{edges_of};
ghost use Rattle.meaning.specs.Joined.{labels as labelsOf};
ghost use Rattle.meaning.specs.Moves.{recolour as recoloured, differing};
ghost use Rattle.meaning.specs.Faces.{pieces as pieces_of};
ghost use Rattle.search.specs.Ranging.{Rangeable, Ranged};
ghost use Rattle.relabel.specs.Lifting.{Leaving, Coming, labels_but};
ghost use Rattle.relabel.specs.Recolouring.{Recolourable};
ghost use Rattle.relabel.specs.Labelling.{Labellable};

use neighbours::Faces;

pub mod component; // component.rt: components are searched and labelled

// Brings the labels up to date, but for the region's own, once a region is lifted out of a sector, and returns how many are new. Where at most
// one piece is left and the region was not the smallest of its component none is; otherwise the pieces are gone through.
fn leave(
    faces: Faces,
    colouring: &mut [u64],
    labels: &mut [u64],
    queue: &mut [u64],
    region: usize,
    sector: u64,
    pieces: u64,
) -> u64
    requires { Leaving (length faces.start.now - 1) (edges_of faces.edges.now) faces.start.now faces.near.now colouring.old labels.old queue.old region sector pieces }
    ensures colouring_unchanged { colouring.new ≡ colouring.old }
    ensures labels_after { labels.new ≡ labels_but (edges_of faces.entry.edges.now) colouring.old region (at labels.old region) }
    ensures value { result ≡ differing (length faces.entry.start.now - 1) labels.old labels.new }
{
    if pieces <= 1 && labels[region - 1] != region as u64 {
        return 0;
    }
    component::relabel_pieces(faces, colouring, labels, queue, region, sector)
}

// Two numbers that labels lie between.
#[derive(Drop)]
struct Range {
    low: u64,
    high: u64,
}

// The smallest of a region and the labels of the components of a sector that share a face with it, and the largest of these labels, or 0 where there is none.
fn labels_beside(
    faces: Faces,
    colouring: &[u64],
    labels: &[u64],
    region: usize,
    sector: u64,
) -> Range
    requires { Rangeable (length faces.start.now - 1) (edges_of faces.edges.now) faces.start.now faces.near.now colouring.now labels.now region }
    ensures { Ranged (edges_of faces.entry.edges.now) colouring.now labels.now region sector region result.low result.high }
{
    let first = faces.start[region - 1] as usize;
    let last = faces.start[region] as usize;
    let mut low = region as u64;
    let mut high = 0;
    for neighbour in &faces.near[first..last] {
        let z = *neighbour as usize - 1;
        if colouring[z] == sector {
            let label = labels[z];
            low = low.min(label);
            high = high.max(label);
        }
    }
    Range { low, high }
}

// Puts a region that is lifted out into a sector, brings the labels up to date, and returns how many are new. Where at most one component shares
// a face with the region, and its label is below the region, only the region's own is new; otherwise its component is gone through.
fn come(
    faces: Faces,
    colouring: &mut [u64],
    labels: &mut [u64],
    queue: &mut [u64],
    region: usize,
    sector: u64,
) -> u64
    requires { Coming (length faces.start.now - 1) (edges_of faces.edges.now) faces.start.now faces.near.now colouring.old labels.old queue.old region sector }
    ensures colouring_after { colouring.new ≡ recoloured colouring.old region sector }
    ensures labels_after { labels.new ≡ labelsOf (edges_of faces.entry.edges.now) (recoloured colouring.old region sector) }
    ensures value { result ≡ differing (length faces.entry.start.now - 1) labels.old labels.new }
{
    let z = region - 1;
    let beside = labels_beside(faces, colouring, labels, region, sector);
    let label = beside.low;
    colouring[z] = sector;
    if beside.high <= label {
        let n = component::differ(labels[z], label);
        labels[z] = label;
        return n;
    }
    component::relabel_own(faces, colouring, labels, queue, region)
}

// How many labels are new, and how many pieces a region's component falls into without it.
#[derive(Drop)]
pub struct Made {
    pub relabelled: u64,
    pub pieces: u64,
}

// Gives a region to another sector and brings the labels up to date. Returns how many labels are new, and the number of pieces.
pub fn recolour(
    faces: Faces,
    colouring: &mut [u64],
    labels: &mut [u64],
    queue: &mut [u64],
    region: usize,
    sector: u64,
) -> Made
    requires { Recolourable (length faces.start.now - 1) (edges_of faces.edges.now) faces.start.now faces.near.now colouring.old labels.old queue.old region sector }
    ensures colouring_after { colouring.new ≡ recoloured colouring.old region sector }
    ensures labels_after { labels.new ≡ labelsOf (edges_of faces.entry.edges.now) (recoloured colouring.old region sector) }
    ensures relabelled_value { result.relabelled ≡ differing (length faces.entry.start.now - 1) labels.old labels.new }
    ensures pieces_value { result.pieces ≡ pieces_of (edges_of faces.entry.edges.now) colouring.old region }
{
    let z = region - 1;
    let old = colouring[z];
    let pieces = search::pieces_at(faces, colouring, queue, region);
    colouring[z] = 0;
    let left = leave(faces, colouring, labels, queue, region, old, pieces);
    let relabelled = left + come(faces, colouring, labels, queue, region, sector);
    Made { relabelled, pieces }
}

// Labels each region with the smallest that it is joined to, whatever the labels were: each component is gone through once.
// 0, which is no region, stands for a label that is still to come: the list is lent as numbers.
pub fn label_all(faces: Faces, colouring: &mut [u64], labels: &mut [u64], queue: &mut [u64])
    requires { Labellable (length faces.start.now - 1) (edges_of faces.edges.now) faces.start.now faces.near.now colouring.old labels.old queue.old }
    ensures colouring_unchanged { colouring.new ≡ colouring.old }
    ensures labels_after { labels.new ≡ labelsOf (edges_of faces.entry.edges.now) colouring.old }
{
    labels.fill(0);
    for v in 1..faces.start.len() {
        if labels[v - 1] == 0 {
            component::relabel_own(faces, colouring, labels, queue, v);
        }
    }
}
