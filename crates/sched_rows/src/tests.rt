//! Expiries worked by hand, and each call once.
ghost use Rattle.std.specs.Prelude.{◌≡◌, IfOk};
ghost use Rattle.sched_rows.specs.Validity.{IsInRange, IsTime};

use crate::{NoRow, Row, Rows, expires, rows_law, valid};
use op_keys::Expiry;
use std::alloc::Global;
use std::process::Abort;
use std::test::Fail;
use value_core::{NoMemory, Text};

/// A row of the operation `build` and the key `k`.
fn build(alloc: Global, finished: u64) -> Result<Row, NoMemory>
    ensures { IfOk result (λ r. r.finished ≡ finished) }
{
    Ok(Row {
        op: Text::of(alloc, "build")?,
        key: Text::of(alloc, "k")?,
        value: Text::new(alloc),
        fine: true,
        result: Text::new(alloc),
        finished,
        job: 1,
        rebuild: false,
    })
}

fn expect_end(rt: &impl Abort, row: &mut Row, expiry: Expiry, finished: u64, end: Option<u64>)
    requires time { IsTime finished }
    requires range { IsInRange expiry }
{
    row.finished = finished;
    assert_eq!(rt; expires(row, &expiry), end);
}

fn daily(minute: u32, offset: i32) -> Expiry
    ensures { result ≡ Expiry.Daily minute offset }
{
    Expiry::Daily { minute, offset }
}

/// At the beginning of each month.
fn monthly(offset: i32) -> Expiry
    ensures { result ≡ Expiry.Monthly 1 0 offset }
{
    Expiry::Monthly {
        day: 1,
        minute: 0,
        offset,
    }
}

#[test]
fn a_row_expires_at_the_next_instant(rt: HostRuntime) -> Result<(), Fail> {
    let mut row = build(rt.alloc(), 0)?;
    expect_end(&rt, &mut row, daily(60, 0), 0, Some(3_600_000));
    expect_end(&rt, &mut row, daily(60, 0), 3_600_000, Some(90_000_000));
    expect_end(&rt, &mut row, daily(1439, -1080), 0, Some(64_740_000));
    expect_end(&rt, &mut row, daily(0, 0), 253_402_214_400_000, None);
    expect_end(&rt, &mut row, monthly(0), 0, Some(2_678_400_000));
    expect_end(&rt, &mut row, monthly(60), 0, Some(2_674_800_000));
    expect_end(
        &rt,
        &mut row,
        monthly(0),
        1_709_164_800_000,
        Some(1_709_251_200_000),
    );
    expect_end(&rt, &mut row, monthly(0), 253_402_214_400_000, None);
    Ok(())
}

/// What becomes of one row that expires at 170.
fn expect_course(rt: &impl Abort, rows: &mut Rows, row: &Row) -> Result<(), Fail> {
    let (op, key) = (&row.op, &row.key);
    assert_eq!(rt; rows.due(149, 170)?.len(), 1);
    assert_eq!(rt; rows.due(170, 200)?.len(), 0);
    assert_eq!(rt; rows.mark(op, key), Ok(()));
    assert!(rt; rows.get(op, key).is_some_and(|row| row.rebuild));
    assert_eq!(rt; rows.copy()?.as_slice().len(), 1);
    rows_law(rows);
    assert!(rt; rows.void(op, key));
    assert!(rt; !rows.void(op, key));
    assert_eq!(rt; rows.mark(op, key), Err(NoRow));
    Ok(())
}

#[test]
fn each_call_does_its_work(rt: HostRuntime) -> Result<(), Fail> {
    let row = build(rt.alloc(), 100)?;
    let expiry = Expiry::After(70);
    assert!(rt; valid(&row, &expiry, 169) && !valid(&row, &expiry, 170));
    let mut rows = Rows::new(rt.alloc());
    rows.put(row.copy(rt.alloc())?, &Expiry::Never)?;
    rows.reserve(1)?;
    assert!(rt; rows.put_spare(row.copy(rt.alloc())?, &expiry).is_some());
    expect_course(&rt, &mut rows, &row)
}
