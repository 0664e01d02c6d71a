// What a run has seen.
ghost use Rattle.std.specs.Prelude.{◌+◌, ◌≤◌};

use std::io;

#[derive(Clone, Copy, Default)]
pub(crate) struct Counts {
    pub wrong: u64,
    pub opened: u64,
    pub searched: u64,
    pub pairs: u64,
    pub routes: u64,
    pub plans: u64,
    pub tallies: u64,
    pub cells: u64,
    pub rates: u64,
    pub ages: u64,
    pub features: Features,
}

// What studies have.
#[derive(Clone, Copy, Default)]
pub(crate) struct Features {
    pub neither_end: u64,
    pub one_end: u64,
    pub one_class: u64,
    pub both_classes: u64,
    pub alone: u64,
    pub kind_0: u64,
    pub arcs_alone: u64,
    pub end_and_arc: u64,
    pub parallel: u64,
    pub each_way: u64,
    pub both_sorts: u64,
    pub arcs: [u64; 6],
}

pub(crate) fn add(count: &mut u64, n: u64)
    ensures { count.new ≤ count.old + n }
{
    *count = count.saturating_add(n);
}

// One more where the test holds.
pub(crate) fn tick(count: &mut u64, test: bool)
    ensures { count.new ≤ count.old + 1 }
{
    add(count, u64::from(test));
}

impl Features {
    fn show(&self, rt: &impl Print) -> io::Result<()> {
        println!(rt; "  ends of class 0 {}", self.neither_end)?;
        println!(rt; "  one end fails {}", self.one_end)?;
        println!(rt; "  both ends of one class {}", self.one_class)?;
        println!(rt; "  ends of classes 1 and 2 {}", self.both_classes)?;
        println!(rt; "  an end alone in its class {}", self.alone)?;
        println!(rt; "  all arcs of kind 0 {}", self.kind_0)?;
        println!(rt; "  arcs alone fail {}", self.arcs_alone)?;
        println!(rt; "  an end and an arc of one class {}", self.end_and_arc)?;
        println!(rt; "  parallel arcs of differing kinds {}", self.parallel)?;
        println!(rt; "  an arc that routes use each way {}", self.each_way)?;
        println!(rt; "  a class of 64, nodes and arcs {}", self.both_sorts)?;
        for (kind, count) in self.arcs.iter().enumerate() {
            println!(rt; "arcs of kind {kind} {count}")?;
        }
        Ok(())
    }
}

impl Counts {
    pub(crate) fn show(&self, rt: &impl Print) -> io::Result<()> {
        println!(rt; "studies opened {}", self.opened)?;
        self.features.show(rt)?;
        println!(rt; "rounds searched {}", self.searched)?;
        println!(rt; "pairs listed {}", self.pairs)?;
        println!(rt; "rounds compared with all routes {}", self.routes)?;
        println!(rt; "plans {}", self.plans)?;
        println!(rt; "tallies {}", self.tallies)?;
        println!(rt; "cells compared {}", self.cells)?;
        println!(rt; "rates compared exactly {}", self.rates)?;
        println!(rt; "ages {}", self.ages)?;
        println!(rt; "wrong {}", self.wrong)
    }
}
