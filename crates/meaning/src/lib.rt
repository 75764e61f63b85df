// What a plan means, in document 01's words and order; and the lists of a plan as they are lent.
#![tactic(auto)]

ghost use Rattle.std.specs.Prelude.{◌≡◌, ◌/◌, ◌<◌, length};
ghost use Rattle.meaning.specs.Plan.{edge_length, constraint_length, edge_at, constraint_at};

use terms::limits::{CONSTRAINT_LENGTH, EDGE_LENGTH};

// The lists of a plan but for its colouring, as they are lent, and how many sectors there are. Once they are not refused there are as many regions as workloads.
#[derive(Clone, Copy)]
pub struct Lists<'a> {
    pub sectors: u64,
    pub workloads: &'a [u64],
    pub outside: &'a [u64],
    pub edges: &'a [u64],
    pub counts: &'a [u64],
    pub visits: &'a [u64],
    pub constraints: &'a [u64],
}

// Two regions that share a face, and the area of the face.
#[derive(Clone, Copy)]
pub struct Edge {
    pub a: u64,
    pub b: u64,
    pub area: u64,
}

impl Edge {
    // Edge k, from 0, of the flat list.
    pub fn at(edges: &[u64], k: usize) -> Edge
        requires { k < length edges.now / edge_length }
        ensures { result ≡ edge_at edges.now k }
    {
        let at = EDGE_LENGTH * k;
        Edge {
            a: edges[at],
            b: edges[at + 1],
            area: edges[at + 2],
        }
    }
}

// What is asked of a plan, and how much it weighs.
#[derive(Clone, Copy)]
pub struct Constraint {
    pub kind: u64,
    pub relation: u64,
    pub limit: u64,
    pub weight: u64,
}

impl Constraint {
    // Constraint k, from 0, of the flat list.
    pub fn at(constraints: &[u64], k: usize) -> Constraint
        requires { k < length constraints.now / constraint_length }
        ensures { result ≡ constraint_at constraints.now k }
    {
        let at = CONSTRAINT_LENGTH * k;
        Constraint {
            kind: constraints[at],
            relation: constraints[at + 1],
            limit: constraints[at + 2],
            weight: constraints[at + 3],
        }
    }
}
