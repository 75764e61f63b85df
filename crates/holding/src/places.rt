// Where each list stands among all numbers of a sheet: each start is another sum, and a function of its own, as in the spec.
ghost use Rattle.std.specs.Prelude.{◌≡◌, ◌≤◌, length};
ghost use Rattle.form.specs.FormLaws.{Bounded};
ghost use Rattle.holding.specs.Held.{outside_at, edges_at, constraints_at, colouring_at, counts_at, visits_at, held_end, most_held, contents_held, Lends};

use form::Head;
use meaning::Lists;
use terms::limits::{CONSTRAINT_LENGTH, EDGE_LENGTH, VISIT_LENGTH};

// Where the outside areas start.
pub fn outside_at(head: Head) -> usize
    requires { Bounded head }
    ensures { result ≡ outside_at head }
{
    head.regions as usize
}

// Where the edges start.
pub fn edges_at(head: Head) -> usize
    requires { Bounded head }
    ensures { result ≡ edges_at head }
{
    outside_at(head) + head.regions as usize
}

// Where the constraints start.
pub fn constraints_at(head: Head) -> usize
    requires { Bounded head }
    ensures { result ≡ constraints_at head }
{
    edges_at(head) + EDGE_LENGTH * head.edges as usize
}

// Where the colouring starts.
pub fn colouring_at(head: Head) -> usize
    requires { Bounded head }
    ensures { result ≡ colouring_at head }
{
    constraints_at(head) + CONSTRAINT_LENGTH * head.constraints as usize
}

// Where the visit counts start.
pub fn counts_at(head: Head) -> usize
    requires { Bounded head }
    ensures { result ≡ counts_at head }
{
    colouring_at(head) + head.regions as usize
}

// Where the visits start.
pub fn visits_at(head: Head) -> usize
    requires { Bounded head }
    ensures { result ≡ visits_at head }
{
    counts_at(head) + head.flights as usize
}

// Where they end.
fn held_end(head: Head) -> usize
    requires { Bounded head }
    ensures { result ≡ held_end head }
{
    visits_at(head) + VISIT_LENGTH * head.visits as usize
}

// The lists that are held, but for the colouring.
pub fn lists_in(held: &[u64], head: Head) -> Lists<'_>
    requires { Bounded head × (most_held ≤ length held.now) }
    ensures { Lends (contents_held head held.now) result }
{
    Lists {
        sectors: head.sectors,
        workloads: &held[..outside_at(head)],
        outside: &held[outside_at(head)..edges_at(head)],
        edges: &held[edges_at(head)..constraints_at(head)],
        counts: &held[counts_at(head)..visits_at(head)],
        visits: &held[visits_at(head)..held_end(head)],
        constraints: &held[constraints_at(head)..colouring_at(head)],
    }
}

// The colouring that is held.
pub fn colouring_in(held: &[u64], head: Head) -> &[u64]
    requires { Bounded head × (most_held ≤ length held.now) }
    ensures { result.now ≡ (contents_held head held.now).colouring }
{
    &held[colouring_at(head)..counts_at(head)]
}
