//! What a watcher is told of a run.
use lab_watch::{Watcher, watched_pipe};
use mx_code::Image;
use mx_icache::LineCache;
use mx_turn::Machine;
use std::cell::Cell;
use std::test::Fail;

/// `halt`: the cycles behind it cost little time, and are told like any other.
static HALTS: [u32; 1] = [0xe000_0000];

/// Keeps how often it was told, and what it was told last.
#[derive(Clone, Copy)]
struct Heard<'a> {
    times: &'a Cell<u32>,
    cycles: &'a Cell<u64>,
}

impl Watcher for Heard<'_> {
    fn tell(&self, cycles: u64) {
        self.times.set(self.times.get().saturating_add(1));
        self.cycles.set(cycles);
    }

    fn done(&self) {}
}

// Does so many cycles.
fn do_cycles<M: Machine>(machine: &mut M, count: u32) {
    for _cycle in 0..count {
        if machine.counts().cycles > 100_000_000 {
            break;
        }
        let _cycled = machine.cycle(false);
    }
}

#[test]
fn a_watcher_is_told_of_each_five_million_cycles(rt: HostRuntime) -> Result<(), Fail> {
    let (times, cycles) = (Cell::new(0u32), Cell::new(0u64));
    let heard = Heard {
        times: &times,
        cycles: &cycles,
    };
    let code = Vec::from_slice(rt.alloc(), &HALTS)?;
    let image = Image::new(code, Vec::new(rt.alloc())).ok_or("too long")?;
    let mut machine = watched_pipe(rt.alloc(), &image, None, LineCache::new(), heard)?;
    do_cycles(&mut machine, 4_999_999);
    assert_eq!(rt; (times.get(), cycles.get()), (0, 0));
    do_cycles(&mut machine, 1);
    assert_eq!(rt; (times.get(), cycles.get()), (1, 5_000_000));
    do_cycles(&mut machine, 5_000_000);
    assert_eq!(rt; (times.get(), cycles.get()), (2, 10_000_000));
    Ok(())
}
