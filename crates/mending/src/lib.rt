// A colouring in which some regions are lost, and what these are given. A region that is lost has 0, the sector of no region.
#![tactic(auto)]

ghost use Rattle.std.specs.Prelude.{◌≡◌, ◌++◌, ◌≤◌, length, drop};
ghost use Rattle.lists.specs.Sums.{In};
ghost use Rattle.meaning.specs.Plan.{edges_of};
ghost use Rattle.meaning.specs.Paths.{Ends};
ghost use Rattle.mending.specs.Mended.{lost, lowest_beside, sector_given, mended};
ghost use Rattle.mending.specs.Along.{lower_region, any_region, beyond};
ghost use Rattle.mending.specs.MendedLaws.{sector_mended};

use meaning::Edge;
use terms::limits::EDGE_LENGTH;
use terms::{Region, Sector};

// The lower of two regions, if any.
fn lower(a: Option<Region>, b: Option<Region>) -> Option<Region>
    ensures { result ≡ lower_region a b }
{
    match (a, b) {
        (Some(a), Some(b)) => Some(Region(a.0.min(b.0))),
        (Some(a), None) => Some(a),
        (None, b) => b,
    }
}

// The end `there` of an edge whose other end is `here`, where `here` is the region and the sector of `there` survived.
#[tactic(auto, unfolding(crate::specs::Along::beyond))]
fn beyond(colouring: &[u64], region: Region, here: u64, there: u64) -> Option<Region>
    requires { In (length colouring.now) there }
    ensures { result ≡ any_region (beyond colouring.now region.0 here there) }
{
    if here == region.0 && colouring[there as usize - 1] != 0 {
        Some(Region(there))
    } else {
        None
    }
}

// The lowest-numbered neighbour of a region whose sector survived, if any.
fn lowest_beside(edges: &[u64], colouring: &[u64], region: Region) -> Option<Region>
    requires { Ends (length colouring.now) (edges_of edges.now) }
    ensures { result ≡ any_region (lowest_beside (edges_of edges.now) colouring.now region.0) }
{
    let mut lowest = None;
    for k in (0..edges.len() / EDGE_LENGTH).rev() {
        let edge = Edge::at(edges, k);
        lowest = lower(beyond(colouring, region, edge.b, edge.a), lowest);
        lowest = lower(beyond(colouring, region, edge.a, edge.b), lowest);
    }
    lowest
}

// What a lost region is given: the sector of that neighbour, or sector 1 where there is none.
fn sector_given(edges: &[u64], colouring: &[u64], region: Region) -> Sector
    requires { Ends (length colouring.now) (edges_of edges.now) }
    ensures { result.0 ≡ sector_given (edges_of edges.now) colouring.now region.0 }
{
    match lowest_beside(edges, colouring, region) {
        Some(lowest) => Sector(colouring[lowest.0 as usize - 1]),
        None => Sector(1),
    }
}

// The sector of a region in the mended colouring.
fn sector_mended(edges: &[u64], colouring: &[u64], region: Region) -> Sector
    requires ends { Ends (length colouring.now) (edges_of edges.now) }
    requires in_range { In (length colouring.now) region.0 }
    ensures { result.0 ≡ sector_mended (edges_of edges.now) colouring.now region.0 }
{
    let sector = colouring[region.0 as usize - 1];
    if sector == 0 {
        sector_given(edges, colouring, region)
    } else {
        Sector(sector)
    }
}

// Puts down the colouring in which every lost region is given a sector, and any other keeps its own. (A call of its own: its loop over the edges is where a salvage of many lost regions spends its time, and taken into a large caller it took 1.7 to 2 times as long.)
#[inline(never)]
pub fn mend(edges: &[u64], survivors: &[u64], colouring: &mut [u64])
    requires ends { Ends (length survivors.now) (edges_of edges.now) }
    requires colouring_len { length colouring.old ≡ length survivors.now }
    ensures { colouring.new ≡ mended (edges_of edges.now) survivors.now }
{
    for (i, sector) in colouring.iter_mut().enumerate() {
        *sector = sector_mended(edges, survivors, Region(i as u64 + 1)).0;
    }
}

// How many regions are lost.
pub fn count_lost(survivors: &[u64]) -> usize
    ensures { result ≡ length (lost survivors.now) }
{
    survivors.iter().filter(|sector| **sector == 0).count()
}

// Puts the lost regions down at the front of a list, in increasing order; what lies beyond stays.
pub fn list_lost(survivors: &[u64], list: &mut [u64])
    requires { length (lost survivors.now) ≤ length list.old }
    ensures { list.new ≡ lost survivors.now ++ drop (length (lost survivors.now)) list.old }
{
    let mut count = 0;
    for (i, sector) in survivors.iter().enumerate() {
        if *sector == 0 {
            list[count] = i as u64 + 1;
            count += 1;
        }
    }
}
