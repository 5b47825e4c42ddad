use cycle_planner::Item;
use generation::Generation;
use section_workers::{Actor, Gate, NoGate, encode_batch};
use std::sync::atomic::{AtomicBool, Ordering};
use std::test::Fail;
use std::thread;

/// How often a worker looks for the other's flag.
const TURNS: u64 = 10_000_000;

/// Each of the two workers sets its flag, and waits for the other's.
#[derive(Drop)]
struct Meeting {
    first: AtomicBool,
    second: AtomicBool,
    late: AtomicBool,
}

impl Meeting {
    fn meet(&self, mine: &AtomicBool, other: &AtomicBool) {
        mine.store(true, Ordering::SeqCst);
        for _ in 0..TURNS {
            if other.load(Ordering::SeqCst) {
                return;
            }
            thread::yield_now();
        }
        self.late.store(true, Ordering::SeqCst);
    }
}

impl Gate for Meeting {
    fn pass(&self, actor: Actor, step: u32) {
        match (actor, step) {
            (Actor::Worker(0), 0) => self.meet(&self.first, &self.second),
            (Actor::Worker(1), 0) => self.meet(&self.second, &self.first),
            _ => self.late.store(true, Ordering::SeqCst),
        }
    }
}

#[test]
fn both_workers_are_at_work_at_once(rt: HostRuntime) -> Result<(), Fail> {
    let alloc = rt.alloc();
    let generation = Generation::first(alloc, 1)?;
    let items = [Item::Dsi, Item::Dii(1), Item::Block(1, 0)];
    let gate = Meeting {
        first: AtomicBool::new(false),
        second: AtomicBool::new(false),
        late: AtomicBool::new(false),
    };
    let sections = encode_batch(&rt, alloc, &generation, &items, &gate)?;
    assert!(rt; gate.first.load(Ordering::SeqCst) && gate.second.load(Ordering::SeqCst));
    assert!(rt; !gate.late.load(Ordering::SeqCst));
    assert_eq!(rt; sections.len(), 3);
    // the fronts of the three sections, as an independent program made them
    assert!(rt; sections[0].len() == 115 && sections[0].starts_with(&[0x3B, 0xB0, 0x70]));
    assert!(rt; sections[1].len() == 75 && sections[1].starts_with(&[0x3B, 0xB0, 0x48]));
    assert!(rt; sections[2].len() == 64 && sections[2].starts_with(&[0x3C, 0xB0, 0x3D]));
    assert_eq!(rt;
        encode_batch(&rt, alloc, &generation, &[], &NoGate)?.len(),
        0
    );
    Ok(())
}
