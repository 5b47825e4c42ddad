ghost use Rattle.history_lock.specs.Passes.{IsPassOf};

use history_lock::{Chronicled, HistoryLock, Pass};
use std::alloc::AllocError;
use std::sync::Wait;
use std::test::Fail;
use std::thread;

fn is_shared<T: Send + Sync>(_value: &T) {}

fn is_sent<T: Send>(_value: &T) {}

/// A lock may be shared by threads, and its passes may go to them and come back, whatever the value is.
fn crosses<V: Chronicled>(lock: &HistoryLock<V>, pass: &Pass<V>) {
    is_shared(lock);
    is_sent(pass);
}

// The example of the crate's documentation.
#[derive(Drop)]
struct Page {
    lines: Vec<u32>,
}

impl Chronicled for Page {
    type Entry = u32;

    ghost list = { λ page. page.lines.items };
}

/// Adds a line of this number to the page, in one hold, unless there is no memory.
fn add<R: Wait>(
    rt: &R,
    page: &HistoryLock<Page>,
    pass: &mut Pass<Page>,
    line: u32,
) -> Result<(), AllocError>
    requires { IsPassOf page.now pass.old }
    ensures { IsPassOf page.now pass.new }
{
    let mut hold = page.hold(rt, pass);
    let added = hold.value().lines.push(line);
    hold.put_back();
    Ok(added?)
}

#[test]
fn the_second_pass_finds_what_the_first_added(rt: HostRuntime) -> Result<(), Fail> {
    let alloc = rt.alloc();
    let page = Page {
        lines: Vec::new(alloc),
    };
    let Ok((page, mut passes)) = HistoryLock::new(alloc, page, 2) else {
        panic!(rt; "no memory for a lock")
    };
    let Some(mut second) = passes.pop() else {
        panic!(rt; "no second pass")
    };
    let Some(mut first) = passes.pop() else {
        panic!(rt; "no first pass")
    };
    assert_eq!(rt; (first.number(), second.number()), (0, 1));
    crosses(&page, &first);
    add(&rt, &page, &mut first, 7)?;
    let mut hold = page.hold(&rt, &mut second);
    assert_eq!(rt; hold.value().lines.as_slice(), [7].as_slice());
    hold.put_back();
    passes.push(first)?;
    passes.push(second)?;
    let page = page.close(passes);
    assert_eq!(rt; page.lines.as_slice(), [7].as_slice());
    Ok(())
}

#[test]
fn two_editors_share_a_page(rt: HostRuntime) -> Result<(), Fail> {
    let alloc = rt.alloc();
    let page = Page {
        lines: Vec::new(alloc),
    };
    let Ok((page, mut passes)) = HistoryLock::new(alloc, page, 2) else {
        panic!(rt; "no memory for a lock")
    };
    let Some(mut second) = passes.pop() else {
        panic!(rt; "no second pass")
    };
    let Some(mut first) = passes.pop() else {
        panic!(rt; "no first pass")
    };
    let shared = &page;
    let handle = &rt;
    let ((added, first), (added_too, second)) = thread::join(
        &rt,
        move || {
            let added = add(handle, shared, &mut first, 1);
            (added, first)
        },
        move || {
            let added = add(handle, shared, &mut second, 2);
            (added, second)
        },
    );
    passes.push(first)?;
    passes.push(second)?;
    let page = page.close(passes);
    assert!(rt; added.is_ok() && added_too.is_ok());
    let lines = page.lines.as_slice();
    assert!(rt; lines == [1, 2].as_slice() || lines == [2, 1].as_slice());
    Ok(())
}
