// Runs of a table, the limits, and random calls beside a plain list.
ghost use Rattle.std.specs.Prelude.{◌<◌};

use crate::{DiskTable, EditRefused};
use journal_lines::{Key, Line};
use std::alloc::Global;
use std::test::Fail;

const DIGITS: [u8; 10] = *b"0123456789";

fn digit(number: u64) -> u8 {
    DIGITS[(number % 10) as usize]
}

// The key `k` with five digits.
fn numbered_key(number: u64) -> Option<Key> {
    Key::read(&[
        b'k',
        digit(number / 10_000),
        digit(number / 1_000),
        digit(number / 100),
        digit(number / 10),
        digit(number),
    ])
}

// What a line of a key says, which may be under edit; then it is not applied.
fn apply_clean(table: &mut DiskTable, key: &Key, length: u16) -> Result<Option<bool>, Fail> {
    if table.edit_of(key).is_some() {
        return Ok(None);
    }
    Ok(Some(table.apply(&Line::Clean(*key, u64::from(length)))?))
}

fn apply_dirty(table: &mut DiskTable, key: &Key) -> Result<Option<bool>, Fail> {
    if table.edit_of(key).is_some() {
        return Ok(None);
    }
    Ok(Some(table.apply(&Line::Dirty(*key))?))
}

fn apply_read(table: &mut DiskTable, key: &Key) -> Result<Option<bool>, Fail> {
    if table.edit_of(key).is_some() {
        return Ok(None);
    }
    Ok(Some(table.apply(&Line::Read(*key))?))
}

fn apply_remove(table: &mut DiskTable, key: &Key) -> Result<Option<bool>, Fail> {
    if table.edit_of(key).is_some() {
        return Ok(None);
    }
    Ok(Some(table.apply(&Line::Remove(*key))?))
}

fn forget(table: &mut DiskTable, key: &Key) -> bool {
    if table.edit_of(key).is_some() {
        return false;
    }
    table.forget(key);
    true
}

// Ends the edit of a key, where it has one.
fn commit(table: &mut DiskTable, key: &Key, length: u16) -> bool {
    let Some(edit) = table.edit_of(key) else {
        return false;
    };
    table.close_edit(edit, Some(u64::from(length)));
    true
}

fn give_up(table: &mut DiskTable, key: &Key) -> bool {
    let Some(edit) = table.edit_of(key) else {
        return false;
    };
    table.close_edit(edit, None);
    true
}

// A table with this many clean keys, of one byte each, and whether all were taken.
fn fill(table: &mut DiskTable, count: u64) -> Result<bool, Fail> {
    for number in 0..count {
        let Some(key) = numbered_key(number) else {
            return Ok(false);
        };
        if apply_clean(table, &key, 1)? != Some(true) {
            return Ok(false);
        }
    }
    Ok(true)
}

// The worked eviction: an edit that is given up leaves its key the most recent.
#[test]
fn evicts_the_eldest(rt: HostRuntime) -> Result<(), Fail> {
    let mut table = DiskTable::new(rt.alloc())?;
    let k = numbered_key(1).expect(&rt, "a key");
    let m = numbered_key(2).expect(&rt, "a key");
    assert_eq!(rt; table.open_edit(&k), Ok(0));
    assert_eq!(rt; table.open_edit(&k), Err(EditRefused::Busy(0)));
    assert!(rt; commit(&mut table, &k, 3));
    assert_eq!(rt; table.clean(&k), Some(3));
    assert_eq!(rt; table.open_edit(&m), Ok(0));
    assert!(rt; commit(&mut table, &m, 3));
    assert_eq!(rt; table.size(), 6);
    assert!(rt; table.eldest_over(6).is_none());
    assert!(rt; table.eldest_over(5) == Some(k));
    table.touch(&k);
    assert!(rt; table.eldest_over(5) == Some(m));
    assert!(rt; forget(&mut table, &m));
    assert_eq!(rt; table.clean(&m), None);
    assert_eq!(rt; table.size(), 3);
    assert!(rt; table.keys().next() == Some(k));
    assert!(rt; !table.due());
    table.rebuilt();
    Ok(())
}

// 16 edits are open at most, and the least free number is given.
#[test]
fn opens_sixteen_edits(rt: HostRuntime) -> Result<(), Fail> {
    let mut table = DiskTable::new(rt.alloc())?;
    for number in 0..16 {
        let key = numbered_key(number).expect(&rt, "a key");
        assert_eq!(rt; table.open_edit(&key), Ok(number));
    }
    let third = numbered_key(3).expect(&rt, "a key");
    let other = numbered_key(99).expect(&rt, "a key");
    assert_eq!(rt; table.open_edit(&third), Err(EditRefused::Busy(3)));
    assert_eq!(rt; table.open_edit(&other), Err(EditRefused::TooMany));
    assert!(rt; give_up(&mut table, &third));
    assert_eq!(rt; table.open_edit(&other), Ok(3));
    Ok(())
}

// 16,384 keys stay and one more has the eldest go; the 16,401st is refused, in a line and in an edit, and a known one is not.
#[test]
fn keeps_as_many_keys_as_its_limits(rt: HostRuntime) -> Result<(), Fail> {
    let mut table = DiskTable::new(rt.alloc())?;
    assert!(rt; fill(&mut table, 16_384)?);
    assert!(rt; table.eldest_over(1_000_000).is_none());
    let more = numbered_key(16_384).expect(&rt, "a key");
    let first = numbered_key(0).expect(&rt, "a key");
    assert!(rt; apply_clean(&mut table, &more, 1)? == Some(true));
    assert!(rt; table.eldest_over(1_000_000) == Some(first));
    assert!(rt; fill(&mut table, 16_400)?);
    let last = numbered_key(16_400).expect(&rt, "a key");
    assert!(rt; apply_clean(&mut table, &last, 1)? == Some(false));
    assert!(rt; apply_dirty(&mut table, &last)? == Some(false));
    assert!(rt; apply_read(&mut table, &last)? == Some(true));
    assert_eq!(rt; table.open_edit(&last), Err(EditRefused::TooMany));
    assert_eq!(rt; table.open_edit(&first), Ok(0));
    assert_eq!(rt; table.size(), 16_400);
    Ok(())
}

// A table as a list that is walked, the eldest first.
#[derive(Drop)]
struct PlainTable {
    entries: Vec<(Key, Option<u64>)>,
    edits: Vec<(u64, Key)>,
    lines: u64,
}

impl PlainTable {
    fn take(&mut self, key: &Key) -> Option<Option<u64>> {
        for i in 0..self.entries.len() {
            if self.entries[i].0 == *key {
                let taken = self.entries.remove(i);
                return Some(taken.1);
            }
        }
        None
    }

    fn put(&mut self, key: &Key, clean: Option<u64>) -> Result<(), Fail> {
        self.take(key);
        self.entries.push((*key, clean))?;
        Ok(())
    }

    fn count(&mut self) {
        self.lines = self.lines.wrapping_add(1);
    }

    fn touch(&mut self, key: &Key) -> Result<bool, Fail> {
        match self.take(key) {
            Some(clean) => {
                self.entries.push((*key, clean))?;
                Ok(true)
            }
            None => Ok(false),
        }
    }

    fn edit_of(&self, key: &Key) -> Option<u64> {
        for edit in &self.edits {
            if edit.1 == *key {
                return Some(edit.0);
            }
        }
        None
    }

    fn has_edit(&self, number: u64) -> bool {
        for edit in &self.edits {
            if edit.0 == number {
                return true;
            }
        }
        false
    }

    fn free(&self) -> Option<u64> {
        for number in 0..16 {
            if !self.has_edit(number) {
                return Some(number);
            }
        }
        None
    }

    fn clean(&self, key: &Key) -> Option<u64> {
        for entry in &self.entries {
            if entry.0 == *key {
                return entry.1;
            }
        }
        None
    }

    fn open_edit(&mut self, key: &Key) -> Result<Option<u64>, Fail> {
        if self.edit_of(key).is_some() {
            return Ok(None);
        }
        let Some(number) = self.free() else {
            return Ok(None);
        };
        let clean = self.clean(key);
        self.put(key, clean)?;
        self.edits.push((number, *key))?;
        self.count();
        Ok(Some(number))
    }

    fn close(&mut self, key: &Key, clean: Option<u64>) -> Result<bool, Fail> {
        for i in 0..self.edits.len() {
            if self.edits[i].1 == *key {
                self.edits.remove(i);
                self.take(key);
                if clean.is_some() {
                    self.entries.push((*key, clean))?;
                }
                self.count();
                return Ok(true);
            }
        }
        Ok(false)
    }

    fn size(&self) -> u64 {
        let mut size: u64 = 0;
        for entry in &self.entries {
            size = size.wrapping_add(entry.1.unwrap_or(0));
        }
        size
    }

    fn eldest_over(&self, maximum: u64) -> Option<Key> {
        if self.size() <= maximum {
            return None;
        }
        for entry in &self.entries {
            if self.edit_of(&entry.0).is_none() {
                return Some(entry.0);
            }
        }
        None
    }

    fn due(&self) -> bool {
        let keys = self.entries.len() as u64;
        let redundant = self.lines.saturating_sub(keys);
        redundant >= 2_000 && redundant >= keys
    }
}

// A number below a limit, and the next state of Knuth's generator of MMIX.
fn random_below(state: &mut u64, limit: u64) -> u64
    requires { 0 < limit }
    ensures { result < limit }
{
    *state = state
        .wrapping_mul(6_364_136_223_846_793_005)
        .wrapping_add(1_442_695_040_888_963_407);
    (*state >> 33) % limit
}

fn same_open(table: &mut DiskTable, list: &mut PlainTable, key: &Key) -> Result<bool, Fail> {
    let busy = list.edit_of(key);
    match table.open_edit(key) {
        Ok(number) => Ok(list.open_edit(key)? == Some(number)),
        Err(EditRefused::Busy(number)) => Ok(busy == Some(number)),
        Err(EditRefused::TooMany) => Ok(busy.is_none() && list.open_edit(key)?.is_none()),
        Err(EditRefused::Memory) => Ok(false),
    }
}

// A line of the key, where it is not under edit.
fn same_line(
    table: &mut DiskTable,
    list: &mut PlainTable,
    key: &Key,
    kind: u64,
    length: u16,
) -> Result<bool, Fail> {
    if list.edit_of(key).is_some() {
        return Ok(table.edit_of(key).is_some());
    }
    list.count();
    match kind {
        0 => {
            list.put(key, None)?;
            Ok(apply_dirty(table, key)? == Some(true))
        }
        1 => {
            list.touch(key)?;
            Ok(apply_read(table, key)? == Some(true))
        }
        2 => {
            list.take(key);
            Ok(apply_remove(table, key)? == Some(true))
        }
        _ => {
            list.put(key, Some(u64::from(length)))?;
            Ok(apply_clean(table, key, length)? == Some(true))
        }
    }
}

fn same_forget(table: &mut DiskTable, list: &mut PlainTable, key: &Key) -> bool {
    if list.edit_of(key).is_some() {
        return !forget(table, key);
    }
    if list.take(key).is_some() {
        list.count();
    }
    forget(table, key)
}

// One call of both, and whether they answered the same.
fn same_call(
    table: &mut DiskTable,
    list: &mut PlainTable,
    state: &mut u64,
    key: &Key,
) -> Result<bool, Fail> {
    let length = random_below(state, 100) as u16;
    match random_below(state, 12) {
        0..=3 => same_open(table, list, key),
        4..=6 => Ok(commit(table, key, length) == list.close(key, Some(u64::from(length)))?),
        7 => Ok(give_up(table, key) == list.close(key, None)?),
        8 => {
            table.touch(key);
            if list.touch(key)? {
                list.count();
            }
            Ok(true)
        }
        9 => Ok(same_forget(table, list, key)),
        _ => {
            let kind = random_below(state, 4);
            same_line(table, list, key, kind, length)
        }
    }
}

// Whether both show the same.
fn same_view(table: &DiskTable, list: &PlainTable, key: &Key) -> bool {
    table.clean(key) == list.clean(key)
        && table.edit_of(key) == list.edit_of(key)
        && table.size() == list.size()
        && table.due() == list.due()
        && table.eldest_over(800) == list.eldest_over(800)
}

// Whether the keys stand in the same order.
fn same_keys(table: &DiskTable, list: &PlainTable) -> bool {
    let mut keys = table.keys();
    for entry in &list.entries {
        if keys.next() != Some(entry.0) {
            return false;
        }
    }
    keys.next().is_none()
}

// So many calls of both; after 5,000 lines both are told of a rebuild.
fn same_run(alloc: Global, calls: u64) -> Result<bool, Fail> {
    let mut state = 2_026;
    let mut table = DiskTable::new(alloc)?;
    let mut list = PlainTable {
        entries: Vec::new(alloc),
        edits: Vec::new(alloc),
        lines: 0,
    };
    for _ in 0..calls {
        let Some(key) = numbered_key(random_below(&mut state, 40)) else {
            return Ok(false);
        };
        if !same_call(&mut table, &mut list, &mut state, &key)? || !same_view(&table, &list, &key) {
            return Ok(false);
        }
        if list.lines > 5_000 {
            table.rebuilt();
            list.lines = list.entries.len() as u64;
        }
        if !same_keys(&table, &list) {
            return Ok(false);
        }
    }
    Ok(true)
}

#[test]
fn random_calls_answer_as_a_plain_list(rt: HostRuntime) -> Result<(), Fail> {
    assert!(rt; same_run(rt.alloc(), 10_000)?);
    Ok(())
}
