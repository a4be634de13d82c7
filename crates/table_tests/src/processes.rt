//! Tests of the text table and the process table.
use crate::checks::{equals, is};
use proc_table::{Added, Life, Proc, ProcTable};
use text_table::TextTable;
use vm_facts::Regs;

#[test]
fn sharers_go_up_and_down_and_the_last_takes_the_marks(rt: HostRuntime) {
    let mut table = TextTable::new();
    equals(&rt, table.sharers(16), 0);
    table.enter(16);
    table.enter(16);
    table.set_saved(16, 2047, true);
    table.set_saved(16, 32, true);
    table.set_saved(16, 32, false);
    equals(&rt, table.sharers(16), 2);
    equals(&rt, table.sharers(15), 0);
    let saved = [
        table.is_saved(16, 2047),
        table.is_saved(16, 32),
        table.is_saved(16, 2046),
        table.is_saved(15, 2047),
    ];
    equals(&rt, table.leave(16), 1);
    let saved_by_one = table.is_saved(16, 2047);
    equals(&rt, table.leave(16), 0);
    let saved_by_none = table.is_saved(16, 2047);
    is(
        &rt,
        &(saved, [saved_by_one, saved_by_none]),
        &([true, false, false, false], [true, false]),
    );
}

fn runs(pid: u32) -> Proc {
    Proc {
        pid,
        parent: 1,
        regs: Regs {
            r: [0; 16],
            n: false,
            z: false,
            v: false,
            c: false,
        },
        state: Life::Holds(pid),
        asleep: false,
        out: false,
        borrowed: false,
        since: 0,
    }
}

// Adds a record, unless there is one with its pid.
fn enter(table: &mut ProcTable, p: Proc) -> Option<Added> {
    if table.get(p.pid).is_some() {
        return None;
    }
    Some(table.add(p))
}

#[test]
fn the_sixty_fifth_record_is_handed_back(rt: HostRuntime) {
    let mut table = ProcTable::new(rt.alloc()).expect(&rt, "memory for records");
    for pid in 1..65 {
        is(&rt, &enter(&mut table, runs(pid)), &Some(Added::Ok));
    }
    let refused = enter(&mut table, runs(65));
    let found = [table.get(65).copied(), table.get(64).copied()];
    let removed = table.remove(3);
    let added = enter(&mut table, runs(65));
    let next = table.next_after(64);
    is(
        &rt,
        &[refused, added],
        &[Some(Added::Full(runs(65))), Some(Added::Ok)],
    );
    is(
        &rt,
        &(found, removed),
        &([None, Some(runs(64))], Some(runs(3))),
    );
    is(&rt, &next, &Some(65));
}

#[test]
fn a_record_is_found_changed_and_removed_by_its_pid(rt: HostRuntime) {
    let mut table = ProcTable::new(rt.alloc()).expect(&rt, "memory for records");
    let added = [enter(&mut table, runs(7)), enter(&mut table, runs(2))];
    let mut ended = runs(2);
    ended.state = Life::Zombie(9);
    let set = [table.set(ended), table.set(runs(3))];
    let found = [table.get(2).copied(), table.get(3).copied()];
    let next = [
        table.next_after(0),
        table.next_after(2),
        table.next_after(7),
    ];
    let removed = [table.remove(2), table.remove(2)];
    let last = table.next_after(0);
    is(&rt, &added, &[Some(Added::Ok), Some(Added::Ok)]);
    is(&rt, &set, &[true, false]);
    is(
        &rt,
        &[found, removed],
        &[[Some(ended), None], [Some(ended), None]],
    );
    is(&rt, &(next, last), &([Some(2), Some(7), None], Some(7)));
}
