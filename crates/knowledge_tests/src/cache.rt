//! A cache of one line.

ghost use Rattle.std.specs.Prelude.{◌≡◌, []};

use smallvec::SmallVec;
use std::alloc::{AllocError, Global};
use std::process::Abort;
use std::test::Fail;
use za_cache::{Kept, Line, RowKey, Rows};

/// Letter 3 with the inputs 1 and 2 gives 7.
fn first_line(alloc: Global) -> Result<Line, AllocError> {
    Ok(Line {
        letter: 3,
        inputs: SmallVec::from_slice(alloc, &[1, 2])?,
        output: 7,
    })
}

fn first_key(alloc: Global) -> Result<RowKey, AllocError> {
    Ok(RowKey {
        letter: 3,
        inputs: SmallVec::from_slice(alloc, &[1, 2])?,
    })
}

fn assert_kept(rt: &impl Abort, kept: Kept, want: Kept) {
    assert_eq!(rt; kept, want);
    drop(want);
    drop(kept);
}

/// The second line alone is there, letter 4 with the input 7.
fn assert_second(rt: &impl Abort, rows: &mut Rows, key: &RowKey) {
    assert_eq!(rt; rows.find_row(key), None);
    assert_eq!(rt; rows.find(3, &[1, 2]), None);
    assert_eq!(rt; rows.find(4, &[7]), Some(8));
    assert_eq!(rt; rows.len(), 1);
}

/// Keeps one line, finds it, and keeps another.
fn replace(rt: &impl Abort, rows: &mut Rows, key: &RowKey, first: Line)
    requires { rows.old ≡ record { lines = []; capacity = 1 } }
{
    assert_eq!(rt; rows.is_empty(), true);
    assert_kept(rt, rows.keep(3, &[1, 2], 7), Kept::Stored);
    assert_eq!(rt; rows.find(3, &[2, 1]), None);
    assert_eq!(rt; rows.find(3, &[1, 2]), Some(7));
    assert_eq!(rt; rows.find_row(key), Some(7));
    assert_kept(rt, rows.keep(4, &[7], 8), Kept::Replaced(first));
    assert_second(rt, rows, key);
}

/// Compares with the key and the first line.
fn try_rows(rt: &impl Abort, alloc: Global, rows: &mut Rows) -> Result<(), AllocError>
    requires { rows.old ≡ record { lines = []; capacity = 1 } }
{
    let key = first_key(alloc)?;
    let first = first_line(alloc)?;
    replace(rt, rows, &key, first);
    drop(key);
    Ok(())
}

#[test]
fn second_line_replaces_the_first(rt: HostRuntime) -> Result<(), Fail> {
    let mut rows = Rows::new(rt.alloc(), 1)?;
    let tried = try_rows(&rt, rt.alloc(), &mut rows);
    drop(rows);
    Ok(tried?)
}
