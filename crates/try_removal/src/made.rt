// A generated study: its network, the members of both classes and eight rounds.
ghost use Rattle.std.specs.Prelude.{◌≤◌, ◌<◌};

use answer::{Header, Refusal};
use test_networks::{Kind, Pipes, Rounds};
use test_removal::{Arcs, Members, Network, failing};
use test_support::part;

pub(crate) const ROUNDS: usize = 8;

#[derive(Drop)]
pub(crate) struct Study {
    pub made: test_networks::Network,
    pub arcs: Arcs,
    pub members1: Members,
    pub members2: Members,
    pub rounds: Rounds,
    // Whether it is small enough for all routes.
    pub small: bool,
}

impl Study {
    pub(crate) fn new(seed: u64, kind: Kind, pipes: Pipes) -> Study {
        let made = test_networks::shape_of(seed, kind, pipes).network();
        let arcs = test_removal::arcs_of(made.arcs.as_flattened());
        let members1 = test_removal::members(&made.nodes, &arcs, 1);
        let members2 = test_removal::members(&made.nodes, &arcs, 2);
        let mut rounds = Rounds::new();
        for r in 0..ROUNDS as u64 {
            let seed = seed % 2147483648 + r * 131;
            test_networks::round(seed, members1.len(), members2.len(), &mut rounds);
        }
        Study {
            made,
            arcs,
            members1,
            members2,
            rounds,
            small: kind == Kind::Small,
        }
    }

    pub(crate) fn network(&self) -> Network<'_> {
        Network {
            arcs: &self.arcs,
            source: self.made.source,
            target: self.made.target,
        }
    }

    // The members of both classes in the order in which round r has them fail.
    pub(crate) fn orders(&self, r: usize) -> (Members, Members)
        requires { r < 8 }
    {
        let n1 = self.members1.len();
        let n2 = self.members2.len();
        let at = (n1 + n2) * r;
        (
            failing(&self.members1, part(&self.rounds, at, n1)),
            failing(&self.members2, part(&self.rounds, at + n1, n2)),
        )
    }

    // How many members a class has.
    pub(crate) fn size(&self, class: u8) -> usize {
        match class {
            1 => self.members1.len(),
            2 => self.members2.len(),
            _ => 0,
        }
    }

    pub(crate) fn write(&self, out: &mut [u8]) -> Result<usize, Refusal> {
        writer::write_study(
            &self.made.nodes,
            self.made.arcs.as_flattened(),
            &self.rounds,
            self.made.source as usize,
            self.made.target as usize,
            ROUNDS,
            out,
        )
    }

    // Whether the header of its file is right.
    pub(crate) fn has(&self, header: Header) -> bool {
        (header.nodes == self.made.nodes.len())
            & (header.arcs == self.made.arcs.len())
            & (header.rounds == ROUNDS)
            & (header.source == self.made.source as usize)
            & (header.target == self.made.target as usize)
            & (header.n1 == self.members1.len())
            & (header.n2 == self.members2.len())
    }
}
