// Document 01's terms: a region, a sector, a relation and a move, each made of numbers by a function that has no answer for what is out of range.
#![tactic(auto)]

ghost use Rattle.std.specs.Prelude.{◌≡◌, ◌<◌, ◌^◌};
ghost use Rattle.terms.specs.Plan.{within, region_of, sector_of, relation_of, code_of};
ghost use Rattle.terms.specs.Distance.{distance};
ghost use Rattle.terms.specs.Moves.{recolouring, exchange, question, move_of, wrong_status};

pub mod limits;

// Whether x is one of low to high.
pub fn in_limits(low: u64, x: u64, high: u64) -> bool
    ensures { result ≡ within low x high }
{
    (low..=high).contains(&x)
}

#[derive(Clone, Copy)]
pub struct Region(pub u64);

impl Region {
    pub fn new(regions: u64, number: u64) -> Option<Region>
        ensures { result ≡ region_of regions number }
    {
        in_limits(1, number, regions).then_some(Region(number))
    }
}

// A type of its own beside `Region`, and not one generic type with it, so that neither is taken for the other.
#[derive(Clone, Copy)]
pub struct Sector(pub u64);

impl Sector {
    pub fn new(sectors: u64, number: u64) -> Option<Sector>
        ensures { result ≡ sector_of sectors number }
    {
        in_limits(1, number, sectors).then_some(Sector(number))
    }
}

#[derive(Clone, Copy)]
pub enum Relation {
    AtMost = 1,
    Below = 2,
    Equal = 3,
    NotEqual = 4,
    Above = 5,
    AtLeast = 6,
}

impl Relation {
    // The lowest of the codes.
    pub const AT_MOST: u64 = 1;

    // The highest of the codes.
    pub const AT_LEAST: u64 = 6;

    pub fn new(code: u64) -> Option<Relation>
        ensures { result ≡ relation_of code }
    {
        match code {
            1 => Some(Relation::AtMost),
            2 => Some(Relation::Below),
            3 => Some(Relation::Equal),
            4 => Some(Relation::NotEqual),
            5 => Some(Relation::Above),
            6 => Some(Relation::AtLeast),
            _ => None,
        }
    }

    pub fn code(self) -> u64
        ensures { result ≡ code_of self }
    {
        self as u64
    }

    // How far x is from standing in the relation to t.
    #[tactic(auto, unfolding(crate::specs::Distance::distance))]
    pub fn distance(self, x: u64, t: u64) -> u64
        requires { (x < 2 ^ 63) × (t < 2 ^ 63) }
        ensures { result ≡ distance (code_of self) x t }
    {
        match self {
            Relation::AtMost => x.saturating_sub(t),
            Relation::Below => (x + 1).saturating_sub(t),
            Relation::Equal => x.abs_diff(t),
            Relation::NotEqual => u64::from(x == t),
            Relation::Above => (t + 1).saturating_sub(x),
            Relation::AtLeast => t.saturating_sub(x),
        }
    }
}

// How far x is from standing in the relation of a code to t. A code that is no relation's is read as at least, as the definition reads it.
#[tactic(auto, unfolding(crate::specs::Distance::distance))]
pub fn distance(code: u64, x: u64, t: u64) -> u64
    requires { (x < 2 ^ 63) × (t < 2 ^ 63) }
    ensures { result ≡ distance code x t }
{
    Relation::new(code)
        .unwrap_or(Relation::AtLeast)
        .distance(x, t)
}

// What is wrong with three numbers that make no move.
#[derive(Clone, Copy)]
pub enum Wrong {
    NoKind = 21,
    NoRegion = 22,
    NoSecond = 23,
}

impl Wrong {
    pub fn status(self) -> u64
        ensures { result ≡ wrong_status self }
    {
        self as u64
    }
}

// What three numbers ask for: a recolouring or an exchange, probed or made, a region's violation, or nothing that can be had.
#[derive(Clone, Copy)]
pub enum Move {
    Recolour {
        make: bool,
        region: Region,
        sector: Sector,
    },
    Exchange {
        make: bool,
        first: Region,
        second: Region,
    },
    Ask(Region),
    // With the status of its row: any number, as the moves of `meaning` have it and `engine::step` takes it.
    Refused(u64),
}

impl Move {
    // The kinds as the lent list of moves has them.
    pub const PROBE_RECOLOUR: u64 = 1;

    pub const MAKE_RECOLOUR: u64 = 2;

    pub const PROBE_EXCHANGE: u64 = 3;

    pub const MAKE_EXCHANGE: u64 = 4;

    pub const ASK: u64 = 5;

    #[tactic(auto, unfolding(crate::specs::Moves::move_of, crate::specs::Moves::of_region))]
    pub fn new(regions: u64, sectors: u64, kind: u64, first: u64, second: u64) -> Move
        ensures { result ≡ move_of regions sectors kind first second }
    {
        if !in_limits(Move::PROBE_RECOLOUR, kind, Move::ASK) {
            return Move::Refused(Wrong::NoKind.status());
        }
        let Some(region) = Region::new(regions, first) else {
            return Move::Refused(Wrong::NoRegion.status());
        };
        match kind {
            Move::PROBE_RECOLOUR | Move::MAKE_RECOLOUR => Move::recolouring(
                kind == Move::MAKE_RECOLOUR,
                region,
                Sector::new(sectors, second),
            ),
            Move::PROBE_EXCHANGE | Move::MAKE_EXCHANGE => Move::exchange(
                kind == Move::MAKE_EXCHANGE,
                region,
                Region::new(regions, second),
            ),
            _ => Move::question(region, second),
        }
    }

    #[tactic(auto, unfolding(crate::specs::Moves::recolouring))]
    fn recolouring(make: bool, region: Region, sector: Option<Sector>) -> Move
        ensures { result ≡ recolouring make region sector }
    {
        match sector {
            Some(sector) => Move::Recolour {
                make,
                region,
                sector,
            },
            None => Move::Refused(Wrong::NoSecond.status()),
        }
    }

    // Beside `recolouring`, and not one with it: they make two variants of two kinds of second.
    #[tactic(auto, unfolding(crate::specs::Moves::exchange))]
    fn exchange(make: bool, first: Region, second: Option<Region>) -> Move
        ensures { result ≡ exchange make first second }
    {
        match second {
            Some(second) => Move::Exchange {
                make,
                first,
                second,
            },
            None => Move::Refused(Wrong::NoSecond.status()),
        }
    }

    #[tactic(auto, unfolding(crate::specs::Moves::question))]
    fn question(region: Region, second: u64) -> Move
        ensures { result ≡ question region second }
    {
        if second == 0 {
            Move::Ask(region)
        } else {
            Move::Refused(Wrong::NoSecond.status())
        }
    }
}
