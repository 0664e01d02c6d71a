// What generated studies have, counted.
use crate::counts::{Features, add, tick};
use crate::made::Study;
use test_networks::{of_class, of_kind, parallel};

// Which ends fail: neither, one, two of one class, one of each.
fn note_ends(source: u8, target: u8, features: &mut Features) {
    match (source, target) {
        (0, 0) => tick(&mut features.neither_end, true),
        (0, _) | (_, 0) => tick(&mut features.one_end, true),
        _ => {
            tick(&mut features.one_class, source == target);
            tick(&mut features.both_classes, source != target);
        }
    }
}

// Whether arcs of a class fail.
fn arcs_fail(study: &Study, class: u8) -> bool {
    (class != 0) & study.arcs.iter().any(|arc| arc.class == class)
}

// Whether a class has 64 members, nodes and arcs.
fn both_sorts(study: &Study, class: u8) -> bool {
    (study.size(class) == 64) & arcs_fail(study, class) & study.made.nodes.contains(&class)
}

// Whether only arcs fail.
fn arcs_alone(study: &Study) -> bool {
    study.made.nodes.iter().all(|class| *class == 0) & (arcs_fail(study, 1) | arcs_fail(study, 2))
}

fn note_arcs(study: &Study, features: &mut Features) {
    let arcs = study.made.arcs.as_slice();
    for (kind, count) in features.arcs.iter_mut().enumerate() {
        add(count, of_kind(arcs, kind as u64) as u64);
    }
    tick(&mut features.kind_0, of_kind(arcs, 0) == arcs.len());
    tick(&mut features.parallel, parallel(arcs));
    tick(&mut features.arcs_alone, arcs_alone(study));
    tick(
        &mut features.both_sorts,
        both_sorts(study, 1) | both_sorts(study, 2),
    );
}

// What a study has.
pub(crate) fn note(study: &Study, features: &mut Features) {
    let class = |v: u8| study.made.nodes.get(v as usize).copied().unwrap_or(0);
    let source = class(study.made.source);
    let target = class(study.made.target);
    note_ends(source, target, features);
    let alone = (study.size(source) == 1) | (study.size(target) == 1);
    tick(&mut features.alone, alone);
    let arcs = arcs_fail(study, source) | arcs_fail(study, target);
    tick(&mut features.end_and_arc, arcs);
    note_arcs(study, features);
}
