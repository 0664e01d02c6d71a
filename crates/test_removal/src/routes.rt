// All routes of a small network, and the record that they make.
ghost use Rattle.std.specs.Prelude.{◌≡◌, ◌+◌, ◌≤◌, IfSome};

use crate::{Arc, Member, Members, Record, Round};
use arrayvec::ArrayVec;

// Which ways routes take an arc.
#[derive(Clone, Copy, Default)]
pub struct Ways {
    pub along: bool,
    pub against: bool,
}

// A route under way: the node it has come to, the least positions on it, the nodes and the ways of
// arcs that it took, and how many steps it may still take.
#[derive(Clone, Copy)]
struct Route {
    at: u8,
    p1: u8,
    p2: u8,
    seen: [bool; 16],
    ways: [Ways; 32],
    left: u8,
}

// An arc taken one way.
#[derive(Clone, Copy)]
struct Step {
    arc: usize,
    from: u8,
    to: u8,
    against: bool,
}

// An arc's steps: along it, and where it leads both ways against it.
fn steps(k: usize, arc: &Arc) -> [Option<Step>; 2] {
    let along = Step {
        arc: k,
        from: arc.from,
        to: arc.to,
        against: false,
    };
    let against = Step {
        arc: k,
        from: arc.to,
        to: arc.from,
        against: true,
    };
    [Some(along), arc.both_ways.then_some(against)]
}

// The position of a member in an order; one past the last where it has none.
fn position(member: Member, order: &Members) -> u8 {
    let before = order.iter().position(|other| *other == member);
    before.unwrap_or(order.len()) as u8 + 1
}

// The least position of an arc and the node that it leads to.
fn least_on(step: Step, order: &Members) -> u8 {
    position(Member::Arc(step.arc), order).min(position(Member::Node(step.to as usize), order))
}

impl Route {
    // The route with a step taken; none from elsewhere or to a node that it has visited.
    fn step(mut self, round: &Round, step: Step) -> Option<Route>
        ensures { IfSome result (λ route. route.left + 1 ≡ self.left) }
    {
        if (step.from != self.at) | (self.left == 0) {
            return None;
        }
        let seen = self.seen.get_mut(step.to as usize)?;
        if *seen {
            return None;
        }
        *seen = true;
        if let Some(ways) = self.ways.get_mut(step.arc) {
            ways.along |= !step.against;
            ways.against |= step.against;
        }
        self.at = step.to;
        self.p1 = self.p1.min(least_on(step, round.order1));
        self.p2 = self.p2.min(least_on(step, round.order2));
        self.left -= 1;
        Some(self)
    }
}

// What the routes of a round have: for each p1 the largest p2 of a route, and the ways that routes
// take.
#[derive(Clone, Copy)]
pub struct Routes {
    largest: [Option<u8>; 66],
    pub ways: [Ways; 32],
}

impl Routes {
    // Marks a route that has arrived.
    fn arrive(&mut self, route: &Route) {
        if let Some(largest) = self.largest.get_mut(route.p1 as usize) {
            *largest = (*largest).max(Some(route.p2));
        }
        for (ways, taken) in self.ways.iter_mut().zip(&route.ways) {
            ways.along |= taken.along;
            ways.against |= taken.against;
        }
    }

    // Marks every route that begins as this one.
    fn walk(&mut self, round: &Round, route: Route) {
        if route.at == round.network.target {
            self.arrive(&route);
            return;
        }
        for (k, arc) in round.network.arcs.iter().enumerate() {
            for step in steps(k, arc) {
                if let Some(step) = step
                    && let Some(longer) = route.step(round, step)
                {
                    self.walk(round, longer);
                }
            }
        }
    }

    // The record of the pairs that no other dominates.
    pub fn record(&self, n1: u8, n2: u8) -> Record
        requires { n1 ≤ 64 }
    {
        let mut pairs: ArrayVec<[u8; 2], 65> = ArrayVec::new();
        let mut last = None;
        for p1 in (1..=n1 + 1).rev() {
            let largest = self.largest[p1 as usize];
            if let Some(p2) = largest
                && last < largest
            {
                let _ = pairs.try_push([p1, p2]);
                last = largest;
            }
        }
        let mut record = ArrayVec::new();
        let _ = record.try_extend_from_slice(&[n1, n2, pairs.len() as u8]);
        let _ = record.try_extend_from_slice(pairs.as_flattened());
        record
    }

    // Whether routes take some arc both ways.
    pub fn each_way(&self) -> bool {
        self.ways.iter().any(|ways| ways.along & ways.against)
    }
}

impl Round<'_> {
    // All routes of a network of at most 16 nodes and 32 arcs.
    pub fn routes(&self) -> Routes {
        let mut routes = Routes {
            largest: [None; 66],
            ways: [Ways::default(); 32],
        };
        let source = self.network.source;
        let mut begun = Route {
            at: source,
            p1: position(Member::Node(source as usize), self.order1),
            p2: position(Member::Node(source as usize), self.order2),
            seen: [false; 16],
            ways: [Ways::default(); 32],
            left: 16,
        };
        if let Some(seen) = begun.seen.get_mut(source as usize) {
            *seen = true;
        }
        routes.walk(self, begun);
        routes
    }
}
