// What a recolouring touches: the pieces its region leaves, the components it joins, the areas of its faces; by a search that stops early.
#![tactic(auto)]

ghost use Rattle.std.specs.Prelude.{◌≡◌, ◌+◌, ◌-◌, ◌≤◌, ◌<◌, length, set, eqb, cond, not};
ghost use Rattle.lists.specs.Sums.{at, bit};
ghost use Rattle.meaning.specs.Plan.{edges_of};
ghost use Rattle.meaning.specs.Joined.{instead, labels as labelsOf};
ghost use Rattle.meaning.specs.Kinds.{area_of, leads_to};
ghost use Rattle.meaning.specs.Faces.{beside, pieces, area_to};
ghost use Rattle.search.specs.Marks.{mark, unmask};
ghost use Rattle.search.specs.Flood.{Flood};
ghost use Rattle.search.specs.Scan.{Span, Scan};
ghost use Rattle.search.specs.Expanding.{Expandable, Expanded};
ghost use Rattle.search.specs.Counting.{Counting};
ghost use Rattle.search.specs.Ranging.{Ranged};
ghost use Rattle.search.specs.Same.{Comparable};
ghost use Rattle.search.specs.Weighing.{Weighable};
ghost use Rattle.search.specs.Remembered.{Remembered, Raisable};
ghost use Rattle.search.specs.Looking.{Lifting, Looking, Meets, Looked};

use neighbours::Faces;

// What stands in the place of the sector of a region that a search has reached: larger than every sector.
// The colouring is lent as numbers, so a search marks it by one, as it lifts a region out by 0.
pub const MARK: u64 = 255;

// What a version is multiplied by, to stand with a number of pieces in one number: more than any number of pieces.
// The memory that is lent has one number for each region, so the two share it.
const STAMP: u64 = 1024;

// The mark where a region shows the sector, and otherwise what it shows.
fn masked(shown: u64, sector: u64) -> u64
    ensures { result ≡ instead sector mark shown }
{
    if shown == sector { MARK } else { shown }
}

// 1 where a region shows the sector, and otherwise 0.
fn hit(shown: u64, sector: u64) -> usize
    ensures value { result ≡ bit (eqb shown sector) }
    ensures upper_bound { result ≤ 1 }
{
    usize::from(shown == sector)
}

// Marks the neighbours of a region that show the sector and adds them to the queue, whose new end it returns: the queue's room is lent whole and only
// a part of it is used, so the end goes beside it.
// Each neighbour is written past the end, and only one that shows the sector moves the end, so that the loop has no branch.
// By place, as the facts of a search count places among all neighbours.
pub fn expand(
    faces: Faces,
    colouring: &mut [u64],
    queue: &mut [u64],
    sector: u64,
    region: usize,
    end: usize,
) -> usize
    requires { Expandable (length faces.start.now - 1) (edges_of faces.edges.now) faces.start.now faces.near.now sector colouring.old queue.old end region }
    ensures { Expanded (length faces.entry.start.now - 1) (edges_of faces.entry.edges.now) sector colouring.old queue.old end region colouring.new queue.new result }
{
    let first = faces.start[region - 1] as usize;
    let last = faces.start[region] as usize;
    let mut e = end;
    for j in first..last {
        let neighbour = faces.near[j];
        let z = neighbour as usize - 1;
        let shown = colouring[z];
        queue[e] = neighbour;
        colouring[z] = masked(shown, sector);
        e += hit(shown, sector);
    }
    e
}

// Gives the marked regions, which are those of the queue up to its end, their sector back: the queue stays whole, since its room is a part of what a search keeps.
pub fn restore(colouring: &mut [u64], queue: &[u64], sector: u64, end: usize)
    requires { Flood (length colouring.old) sector colouring.old queue.now end }
    ensures { colouring.new ≡ unmask sector colouring.old }
{
    for region in &queue[..end] {
        let z = *region as usize - 1;
        colouring[z] = sector;
    }
}

// The first place of a part of a row whose neighbour shows the sector, or the part's end.
// A `for` with a return in it is slower: a look takes 3 to 6 in a hundred longer.
fn skip(near: &[u64], colouring: &[u64], sector: u64, first: usize, end: usize) -> usize
    requires { Span (length colouring.now) near.now first end }
    ensures { Scan near.now colouring.now sector first end result }
{
    let mut i = first;
    while i < end && colouring[near[i] as usize - 1] != sector {
        i += 1;
    }
    i
}

// How many components of a sector share a face with a region: from each neighbour that shows the sector its component is searched, until none shows it.
// No loop over a range: a turn takes either the next of the queue, which grows, or the next of the row.
fn count_beside(
    faces: Faces,
    colouring: &mut [u64],
    queue: &mut [u64],
    region: usize,
    sector: u64,
) -> u64
    requires { Counting (length faces.start.now - 1) (edges_of faces.edges.now) faces.start.now faces.near.now colouring.old queue.old region sector }
    ensures value { result ≡ beside (edges_of faces.entry.edges.now) colouring.old region sector }
    ensures colouring_unchanged { colouring.new ≡ colouring.old }
{
    let first = faces.start[region - 1] as usize;
    let last = faces.start[region] as usize;
    let mut n = 0;
    let mut h = 0;
    let mut e = 0;
    let mut i = skip(faces.near, colouring, sector, first, last);
    while i < last {
        if h < e {
            let reached = queue[h] as usize;
            h += 1;
            e = expand(faces, colouring, queue, sector, reached, e);
            i = skip(faces.near, colouring, sector, i, last);
        } else {
            let found = faces.near[i];
            let z = found as usize - 1;
            colouring[z] = MARK;
            queue[e] = found;
            e += 1;
            n += 1;
            i = skip(faces.near, colouring, sector, i + 1, last);
        }
    }
    restore(colouring, queue, sector, e);
    n
}

// How many components of a sector share a face with a region, by the labels.
// A loop beside that of `expand`, which marks neighbours and not labels: a closure for what is marked would take a longer contract than the loop.
fn touching(
    faces: Faces,
    labels: &[u64],
    colouring: &mut [u64],
    queue: &mut [u64],
    region: usize,
    sector: u64,
) -> usize
    requires counting { Counting (length faces.start.now - 1) (edges_of faces.edges.now) faces.start.now faces.near.now colouring.old queue.old region sector }
    requires labels_value { labels.now ≡ labelsOf (edges_of faces.edges.now) colouring.old }
    ensures value { result ≡ beside (edges_of faces.entry.edges.now) colouring.old region sector }
    ensures colouring_unchanged { colouring.new ≡ colouring.old }
{
    let first = faces.start[region - 1] as usize;
    let last = faces.start[region] as usize;
    let mut e = 0;
    for j in first..last {
        let w = faces.near[j] as usize - 1;
        let label = labels[w];
        let z = label as usize - 1;
        let shown = colouring[z];
        queue[e] = label;
        colouring[z] = masked(shown, sector);
        e += hit(shown, sector);
    }
    restore(colouring, queue, sector, e);
    e
}

// 1 where two sectors are the same, and otherwise 0: by arithmetic, since a choice in a loop becomes a branch that can't be foretold.
fn same(shown: u64, sector: u64) -> u64
    requires shown_bound { shown < 256 }
    requires sector_bound { sector < 256 }
    ensures { result ≡ bit (eqb shown sector) }
{
    (256 - (shown ^ sector)) >> 8
}

// A number where a region shows the sector, and otherwise 0.
fn part(shown: u64, sector: u64, number: u64) -> u64
    requires shown_bound { shown < 256 }
    requires sector_bound { sector < 256 }
    ensures { result ≡ cond (eqb shown sector) number 0 }
{
    number * same(shown, sector)
}

// The areas of a region's edges to its own sector and to another. `Seen` and `Met` have the two beside the rest, and no `Areas` in them: their readers
// take one number at a time.
#[derive(Drop)]
struct Areas {
    here: u64,
    there: u64,
}

// Adds up the areas of a region's edges to two sectors.
fn areas_of(faces: Faces, colouring: &[u64], region: usize, own: u64, sector: u64) -> Areas
    requires weighable { Weighable (length faces.start.now - 1) (edges_of faces.edges.now) faces.start.now faces.near.now faces.areas.now colouring.now region }
    requires comparable { Comparable (length faces.start.now - 1) colouring.now own sector }
    ensures here_value { result.here ≡ area_to (edges_of faces.entry.edges.now) colouring.now region own }
    ensures there_value { result.there ≡ area_to (edges_of faces.entry.edges.now) colouring.now region sector }
{
    let first = faces.start[region - 1] as usize;
    let last = faces.start[region] as usize;
    let mut here = 0;
    let mut there = 0;
    for j in first..last {
        let z = faces.near[j] as usize - 1;
        let area = faces.areas[j];
        let shown = colouring[z];
        here += part(shown, own, area);
        there += part(shown, sector, area);
    }
    Areas { here, there }
}

// What a region's row shows: the areas of its edges to its own sector and to another, and the smallest and the largest label of its neighbours in
// the other; where it has none there, the number of regions and 0, with which a loop without a branch begins.
#[derive(Drop)]
struct Seen {
    here: u64,
    there: u64,
    low: u64,
    high: u64,
}

// Goes through a region's row once, for the areas of its edges to two sectors and for the labels of its neighbours in the second.
fn survey(
    faces: Faces,
    labels: &[u64],
    colouring: &[u64],
    region: usize,
    own: u64,
    sector: u64,
) -> Seen
    requires weighable { Weighable (length faces.start.now - 1) (edges_of faces.edges.now) faces.start.now faces.near.now faces.areas.now colouring.now region }
    requires comparable { Comparable (length faces.start.now - 1) colouring.now own sector }
    requires labels_value { labels.now ≡ labelsOf (edges_of faces.edges.now) colouring.now }
    ensures here_value { result.here ≡ area_to (edges_of faces.entry.edges.now) colouring.now region own }
    ensures there_value { result.there ≡ area_to (edges_of faces.entry.edges.now) colouring.now region sector }
    ensures ranged { Ranged (edges_of faces.entry.edges.now) colouring.now labels.now region sector (length colouring.now) result.low result.high }
{
    let first = faces.start[region - 1] as usize;
    let last = faces.start[region] as usize;
    let top = colouring.len() as u64;
    let mut here = 0;
    let mut there = 0;
    let mut low = top;
    let mut high = 0;
    for j in first..last {
        let z = faces.near[j] as usize - 1;
        let area = faces.areas[j];
        let shown = colouring[z];
        let label = labels[z];
        here += part(shown, own, area);
        there += part(shown, sector, area);
        low = low.min(top - part(shown, sector, top - label));
        high = high.max(part(shown, sector, label));
    }
    Seen {
        here,
        there,
        low,
        high,
    }
}

// The area where a region shows another sector, and otherwise 0.
fn part_elsewhere(shown: u64, sector: u64, area: u64) -> u64
    requires shown_bound { shown < 256 }
    requires sector_bound { sector < 256 }
    ensures { result ≡ cond (not (eqb shown sector)) area 0 }
{
    area - part(shown, sector, area)
}

// Adds up the areas of a region's edges that lead to another sector than its own.
pub fn border_at(faces: Faces, colouring: &[u64], region: usize, own: u64) -> u64
    requires weighable { Weighable (length faces.start.now - 1) (edges_of faces.edges.now) faces.start.now faces.near.now faces.areas.now colouring.now region }
    requires comparable { Comparable (length faces.start.now - 1) colouring.now own own }
    ensures { result ≡ area_of (edges_of faces.entry.edges.now) (leads_to (λ w. not (eqb (at colouring.now w) own)) region) }
{
    let first = faces.start[region - 1] as usize;
    let last = faces.start[region] as usize;
    let mut sum = 0;
    for j in first..last {
        let z = faces.near[j] as usize - 1;
        let area = faces.areas[j];
        let shown = colouring[z];
        sum += part_elsewhere(shown, own, area);
    }
    sum
}

// How many pieces the component of a region falls into without it.
pub fn pieces_at(faces: Faces, colouring: &mut [u64], queue: &mut [u64], region: usize) -> u64
    requires { Lifting (length faces.start.now - 1) (edges_of faces.edges.now) faces.start.now faces.near.now colouring.old queue.old region }
    ensures value { result ≡ pieces (edges_of faces.entry.edges.now) colouring.old region }
    ensures colouring_unchanged { colouring.new ≡ colouring.old }
{
    let z = region - 1;
    let own = colouring[z];
    colouring[z] = 0;
    let left = count_beside(faces, colouring, queue, region, own);
    colouring[z] = own;
    left
}

// How many pieces the component of a region falls into without it: searched for once, and remembered as long as its sector's version stands,
// with one more than that version, so that zeros remember nothing.
fn pieces_of(
    faces: Faces,
    colouring: &mut [u64],
    queue: &mut [u64],
    known: &mut [u64],
    sectors: u64,
    clock: u64,
    region: usize,
) -> u64
    requires lifting { Lifting (length faces.start.now - 1) (edges_of faces.edges.now) faces.start.now faces.near.now colouring.old queue.old region }
    requires remembered { Remembered (length faces.start.now - 1) sectors (edges_of faces.edges.now) colouring.old clock known.old }
    ensures value { result ≡ pieces (edges_of faces.entry.edges.now) colouring.old region }
    ensures colouring_unchanged { colouring.new ≡ colouring.old }
    ensures remembered_2 { Remembered (length faces.entry.start.now - 1) sectors (edges_of faces.entry.edges.now) colouring.old clock known.new }
{
    let regions = faces.start.len() - 1;
    let z = region - 1;
    let own = colouring[z] as usize;
    let version = known[regions + own - 1] + 1;
    let kept = known[z];
    if kept / STAMP == version {
        return kept % STAMP;
    }
    let left = pieces_at(faces, colouring, queue, region);
    known[z] = version * STAMP + left;
    left
}

// Gives two sectors a new version: what is known of the pieces of their regions no longer counts.
pub fn raise(known: &mut [u64], regions: usize, version: u64, one: u64, other: u64)
    requires raisable { Raisable regions one known.old }
    requires raisable_2 { Raisable regions other known.old }
    ensures { known.new ≡ set (set known.old (regions + one - 1) version) (regions + other - 1) version }
{
    known[regions + one as usize - 1] = version;
    known[regions + other as usize - 1] = version;
}

// What a region meets where it is given to a sector: the components of the sector that share a face with it, and the areas of its faces to its own sector and to the other.
#[derive(Drop)]
pub struct Met {
    pub touching: u64,
    pub here: u64,
    pub there: u64,
}

// What a region meets where it is given to a sector, by the labels, which are counted only where its neighbours there have more than one.
pub fn meet(
    faces: Faces,
    labels: &[u64],
    colouring: &mut [u64],
    queue: &mut [u64],
    region: usize,
    sector: u64,
) -> Met
    requires looking { Looking (length faces.start.now - 1) (edges_of faces.edges.now) faces.start.now faces.near.now faces.areas.now colouring.old queue.old region sector }
    requires labels_value { labels.now ≡ labelsOf (edges_of faces.edges.now) colouring.old }
    ensures meets { Meets (edges_of faces.entry.edges.now) colouring.old region sector result }
    ensures colouring_unchanged { colouring.new ≡ colouring.old }
{
    let own = colouring[region - 1];
    let seen = survey(faces, labels, colouring, region, own, sector);
    if seen.high <= seen.low {
        return Met {
            touching: seen.high.min(1),
            here: seen.here,
            there: seen.there,
        };
    }
    let joined = touching(faces, labels, colouring, queue, region, sector);
    Met {
        touching: joined as u64,
        here: seen.here,
        there: seen.there,
    }
}

// What a region meets where it is given to a sector, by a search of the sector's components. It shares no step with `meet`, which goes by the labels:
// an `Option` of them would be tested at each look.
fn meet_anew(
    faces: Faces,
    colouring: &mut [u64],
    queue: &mut [u64],
    region: usize,
    sector: u64,
) -> Met
    requires { Looking (length faces.start.now - 1) (edges_of faces.edges.now) faces.start.now faces.near.now faces.areas.now colouring.old queue.old region sector }
    ensures meets { Meets (edges_of faces.entry.edges.now) colouring.old region sector result }
    ensures colouring_unchanged { colouring.new ≡ colouring.old }
{
    let own = colouring[region - 1];
    let joined = count_beside(faces, colouring, queue, region, sector);
    let sums = areas_of(faces, colouring, region, own, sector);
    Met {
        touching: joined,
        here: sums.here,
        there: sums.there,
    }
}

// What giving a region to a sector touches: the pieces that its component leaves, and what it meets.
#[derive(Drop)]
pub struct Look {
    pub pieces: u64,
    pub met: Met,
}

// Looks at giving a region to a sector, by the labels and by what is known of pieces.
pub fn look_at(
    faces: Faces,
    labels: &[u64],
    colouring: &mut [u64],
    queue: &mut [u64],
    known: &mut [u64],
    sectors: u64,
    clock: u64,
    region: usize,
    sector: u64,
) -> Look
    requires remembered { Remembered (length faces.start.now - 1) sectors (edges_of faces.edges.now) colouring.old clock known.old }
    requires looking { Looking (length faces.start.now - 1) (edges_of faces.edges.now) faces.start.now faces.near.now faces.areas.now colouring.old queue.old region sector }
    requires labels_value { labels.now ≡ labelsOf (edges_of faces.edges.now) colouring.old }
    ensures remembered_2 { Remembered (length faces.entry.start.now - 1) sectors (edges_of faces.entry.edges.now) colouring.old clock known.new }
    ensures looked { Looked (edges_of faces.entry.edges.now) colouring.old region sector result }
    ensures colouring_unchanged { colouring.new ≡ colouring.old }
{
    let met = meet(faces, labels, colouring, queue, region, sector);
    let left = pieces_of(faces, colouring, queue, known, sectors, clock, region);
    Look { pieces: left, met }
}

// Looks at giving a region to a sector, where the labels are not known. It shares no step with `look_at`, which goes by them.
pub fn look_anew(
    faces: Faces,
    colouring: &mut [u64],
    queue: &mut [u64],
    region: usize,
    sector: u64,
) -> Look
    requires { Looking (length faces.start.now - 1) (edges_of faces.edges.now) faces.start.now faces.near.now faces.areas.now colouring.old queue.old region sector }
    ensures looked { Looked (edges_of faces.entry.edges.now) colouring.old region sector result }
    ensures colouring_unchanged { colouring.new ≡ colouring.old }
{
    let met = meet_anew(faces, colouring, queue, region, sector);
    let left = pieces_at(faces, colouring, queue, region);
    Look { pieces: left, met }
}
