//! Lists for edits anywhere and values with several owners: that each value is dropped once, which no clause says.

use gr_gap::{Gap, Shared};
use std::cell::Cell;
use std::test::Fail;

#[test]
fn values_of_no_size(rt: HostRuntime) -> Result<(), Fail> {
    let mut gap = Gap::new(rt.alloc());
    for _ in 0..20 {
        gap.reserve(1)?;
        gap.insert(0, ());
    }
    if 7 < gap.len() {
        gap.remove(7);
    }
    assert!(rt; gap.len() == 19);
    Ok(())
}

// A value that counts its drops.
struct Counted<'a>(&'a Cell<u64>);

impl Drop for Counted<'_> {
    fn drop(self) {
        let Counted(drops) = self;
        drops.set(drops.get().wrapping_add(1));
    }
}

#[test]
fn each_value_is_dropped_once(rt: HostRuntime) -> Result<(), Fail> {
    let drops = Cell::new(0);
    {
        let mut gap = Gap::new(rt.alloc());
        gap.reserve(4)?;
        gap.insert(0, Counted(&drops));
        gap.insert(0, Counted(&drops));
        gap.insert(1, Counted(&drops));
        gap.insert(3, Counted(&drops));
        assert!(rt; drops.get() == 0);
        drop(gap.remove(2));
        assert!(rt; drops.get() == 1);
        drop(gap.replace(0, Counted(&drops)));
        assert!(rt; drops.get() == 2);
        gap.reserve(10)?;
        assert!(rt; drops.get() == 2);
    }
    assert!(rt; drops.get() == 5);
    Ok(())
}

// Values in several blocks, which came one by one, with most taken out again, so that blocks become free.
#[test]
fn each_value_is_dropped_once_after_growth(rt: HostRuntime) -> Result<(), Fail> {
    let drops = Cell::new(0);
    {
        let mut gap = Gap::new(rt.alloc());
        for _ in 0..1_500 {
            gap.reserve(1)?;
            let middle = gap.len() / 2;
            gap.insert(middle, Counted(&drops));
        }
        assert!(rt; drops.get() == 0);
        for _ in 0..1_400 {
            if 20 < gap.len() {
                drop(gap.remove(20));
            }
        }
        assert!(rt; drops.get() == 1_400);
        gap.reserve(1_000)?;
        assert!(rt; drops.get() == 1_400);
        assert!(rt; gap.len() == 100);
    }
    assert!(rt; drops.get() == 1_500);
    Ok(())
}

#[test]
fn the_last_owner_drops_the_value(rt: HostRuntime) -> Result<(), Fail> {
    let drops = Cell::new(0);
    {
        let first = Shared::new(rt.alloc(), (7u64, Counted(&drops)))?;
        let second = first.share();
        let third = second.share();
        assert!(rt; third.get().0 == 7);
        drop(first);
        drop(third);
        assert!(rt; drops.get() == 0);
        assert!(rt; second.get().0 == 7);
        let mut kept = Vec::new(rt.alloc());
        for _ in 0..100 {
            kept.push(second.share())?;
        }
        drop(second);
        assert!(rt; drops.get() == 0);
        assert!(rt; kept.len() == 100);
        assert!(rt; kept[99].get().0 == 7);
    }
    assert!(rt; drops.get() == 1);
    Ok(())
}
