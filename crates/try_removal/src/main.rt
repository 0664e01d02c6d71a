// The whole library on generated networks, whose nodes and arcs fail, against removal testing:
// opening, searches and plans, every front at every (a, b) and the small ones against all routes,
// tallies, and reliability by exact arithmetic. Then every refusal of every call.
#![tactic(auto)]

mod counts;
mod features;
mod made;

ghost use Rattle.std.specs.Prelude.{◌+◌, ◌≤◌, ◌<◌};

use crate::counts::{Counts, add, tick};
use crate::made::{ROUNDS, Study};
use arrayvec::ArrayVec;
use std::io;
use test_networks::{Kind, Pipes};
use test_removal::{Found, Record, Round, differ};

// ---- rounds
// Searches round r, and holds the record to removal testing and, where the network is small, to all
// its routes.
fn try_round(study: &Study, file: &[u8], r: usize, counts: &mut Counts) -> Found
    requires { r < 8 }
    ensures { counts.new.wrong ≤ counts.old.wrong + 2000000 }
{
    let mut out = [0u8; 160];
    let written = search::search(file, r, &mut out).unwrap_or(0);
    let record = Record::try_from(out.get(..written).unwrap_or(&[])).unwrap_or_default();
    let (order1, order2) = study.orders(r);
    let round = Round {
        network: study.network(),
        order1: &order1,
        order2: &order2,
    };
    let cells = round.table();
    add(&mut counts.wrong, differ(&record, &cells));
    tick(&mut counts.wrong, record.is_empty());
    if study.small {
        let routes = round.routes();
        let due = routes.record(order1.len() as u8, order2.len() as u8);
        tick(&mut counts.wrong, record != due);
        // Routes and the ways that they take are those of every round: the first counts.
        tick(&mut counts.features.each_way, (r == 0) & routes.each_way());
    }
    tick(&mut counts.searched, true);
    tick(&mut counts.routes, study.small);
    add(
        &mut counts.pairs,
        record.get(2).map_or(0, |pairs| u64::from(*pairs)),
    );
    Found { record, cells }
}

// ---- studies
// A plan of the rounds found, their tally and its reliability.
fn try_found(seed: u64, study: &Study, rounds: &[Found], counts: &mut Counts) {
    let n1 = study.members1.len();
    let n2 = study.members2.len();
    tick(&mut counts.plans, true);
    add(&mut counts.wrong, test_plans::try_plan(seed, rounds));
    tick(&mut counts.tallies, true);
    add(
        &mut counts.wrong,
        test_survival::try_tally(seed, n1, n2, rounds),
    );
    add(&mut counts.cells, (n1 as u64 + 1) * (n2 as u64 + 1));
    add(&mut counts.rates, test_survival::RATES);
}

fn try_study(seed: u64, study: &Study, counts: &mut Counts) {
    let mut out = [0u8; 8192];
    let written = study.write(&mut out).unwrap_or(0);
    let file = out.get(..written).unwrap_or(&[]);
    tick(&mut counts.opened, true);
    let right = match study::open_study(file) {
        Ok(header) => study.has(header),
        Err(_) => false,
    };
    tick(&mut counts.wrong, !right);
    features::note(study, &mut counts.features);
    let mut rounds: ArrayVec<Found, ROUNDS> = ArrayVec::new();
    for r in 0..ROUNDS {
        let _ = rounds.try_push(try_round(study, file, r, counts));
    }
    try_found(seed, study, &rounds, counts);
}

// Four networks at the limits, in each of which arcs fail, then the other kinds in turn; at last
// small ones.
fn kind_of(i: u64) -> Kind {
    match i {
        0..4 => Kind::Limits,
        400.. => Kind::Small,
        _ => match Kind::ALL[(i % 8) as usize] {
            Kind::Limits => Kind::Small,
            kind => kind,
        },
    }
}

fn main(rt: HostRuntime) -> io::Result<()> {
    let mut counts = Counts::default();
    for i in 0..560 {
        let seed = test_support::seed(i);
        let pipes = Pipes::ALL[((i + 1) % 5) as usize];
        try_study(seed, &Study::new(seed, kind_of(i), pipes), &mut counts);
    }
    add(&mut counts.ages, test_survival::AGES);
    add(&mut counts.wrong, test_survival::wrong_ages());
    add(&mut counts.wrong, test_refusals::try_refusals(&rt)?);
    counts.show(&rt)
}
