// The tests of a sheet, one by one. Those after test 4 stand on it: no count is above its limit.
ghost use Rattle.std.specs.Prelude.{◌≡◌, ◌≤◌};
ghost use Rattle.numbers.specs.Counting.{every};
ghost use Rattle.model.specs.Limits.{window_counts, train_counts};
ghost use Rattle.model.specs.Sheet.{windows, timetable};
ghost use Rattle.model.specs.Memory.{windows_of, timetable_of, sheet_of};
ghost use Rattle.model.specs.Admission.{Few, few, few_windows, complete, some_window, roomy};
ghost use Rattle.model.specs.Admission.{order_in_range, paths_in_range, in_range, paths_in_order, is_in_order};

use crate::columns::{BESIDE, NEXT, all_apart, all_inside};
use model::{Form, Sheet, limits};
use places::are_enough;

// Test 4 of windows: a timetable has none.
fn few_windows(sheet: &Sheet) -> bool
    ensures { result ≡ few_windows (sheet_of sheet.now).paths }
{
    let form = sheet.form;
    match form {
        Form::Windows => sheet.window_count <= limits::MOST_WINDOWS,
        Form::Timetable => true,
    }
}

// Test 4: no more of a kind than allowed.
pub fn few(sheet: &Sheet) -> bool
    ensures { result ≡ few (sheet_of sheet.now) }
{
    (sheet.order_count <= limits::MOST_ORDERS)
        & (sheet.train_count <= limits::MOST_TRAINS)
        & few_windows(sheet)
}

// Test 5 of windows: a timetable needs none.
fn some_window(sheet: &Sheet) -> bool
    ensures { result ≡ some_window (sheet_of sheet.now).paths }
{
    let form = sheet.form;
    match form {
        Form::Windows => 1 <= sheet.window_count,
        Form::Timetable => true,
    }
}

// Test 5: no kind is missing.
pub fn complete(sheet: &Sheet) -> bool
    ensures { result ≡ complete (sheet_of sheet.now) }
{
    (1 <= sheet.order_count) & (1 <= sheet.train_count) & some_window(sheet)
}

// Test 2 of the orders.
fn orders_in_range(sheet: &Sheet) -> bool
    requires { Few (sheet_of sheet.now) }
    ensures { result ≡ every (order_in_range (sheet_of sheet.now)) sheet.now.order_count }
{
    let n = sheet.order_count;
    all_inside(&sheet.release, n, 0, limits::LAST_INSTANT)
        & all_inside(&sheet.due, n, 0, limits::LAST_INSTANT)
        & all_inside(&sheet.weight, n, limits::LEAST_WEIGHT, limits::MOST_WEIGHT)
}

// Test 2 of the gap, the windows and the running times.
fn windows_in_range(sheet: &Sheet) -> bool
    requires { (sheet.now.window_count ≤ window_counts.most) × (sheet.now.train_count ≤ train_counts.most) }
    ensures { result ≡ paths_in_range (windows (windows_of sheet.now)) sheet.now.train_count }
{
    let v = sheet.window_count;
    (limits::LEAST_GAP <= sheet.gap)
        & (sheet.gap <= limits::MOST_GAP)
        & (all_inside(&sheet.window_from, v, 0, limits::LAST_INSTANT)
            & all_inside(&sheet.window_to, v, 0, limits::LAST_INSTANT))
        & all_inside(
            &sheet.running,
            sheet.train_count,
            limits::LEAST_RUNNING,
            limits::MOST_RUNNING,
        )
}

// Test 2 of fixed departures and arrivals.
fn times_in_range(sheet: &Sheet) -> bool
    requires { sheet.now.train_count ≤ train_counts.most }
    ensures { result ≡ paths_in_range (timetable (timetable_of sheet.now)) sheet.now.train_count }
{
    let q = sheet.train_count;
    all_inside(&sheet.departure, q, 0, limits::LAST_INSTANT)
        & all_inside(
            &sheet.arrival,
            q,
            limits::FIRST_ARRIVAL,
            limits::LAST_ARRIVAL,
        )
}

// Test 2 of what one form has and the other has not.
fn paths_in_range(sheet: &Sheet) -> bool
    requires { Few (sheet_of sheet.now) }
    ensures { result ≡ paths_in_range (sheet_of sheet.now).paths sheet.now.train_count }
{
    let form = sheet.form;
    match form {
        Form::Windows => windows_in_range(sheet),
        Form::Timetable => times_in_range(sheet),
    }
}

// Test 2: every value is in its range.
pub fn in_range(sheet: &Sheet) -> bool
    requires { Few (sheet_of sheet.now) }
    ensures { result ≡ in_range (sheet_of sheet.now) }
{
    orders_in_range(sheet)
        & all_inside(
            &sheet.capacity,
            sheet.train_count,
            limits::LEAST_CAPACITY,
            limits::MOST_CAPACITY,
        )
        & paths_in_range(sheet)
}

// Test 6 of windows: each ends no earlier than it begins, and before the next.
fn windows_in_order(sheet: &Sheet) -> bool
    requires { sheet.now.window_count ≤ window_counts.most }
    ensures { result ≡ paths_in_order (windows (windows_of sheet.now)) sheet.now.train_count }
{
    let v = sheet.window_count;
    all_apart(&sheet.window_from, &sheet.window_to, v, BESIDE, 0)
        & all_apart(&sheet.window_to, &sheet.window_from, v, NEXT, 1)
}

// Test 6 of a timetable: each train departs before it arrives, and departures and arrivals rise.
fn times_in_order(sheet: &Sheet) -> bool
    requires { sheet.now.train_count ≤ train_counts.most }
    ensures { result ≡ paths_in_order (timetable (timetable_of sheet.now)) sheet.now.train_count }
{
    let q = sheet.train_count;
    all_apart(&sheet.departure, &sheet.arrival, q, BESIDE, 1)
        & all_apart(&sheet.departure, &sheet.departure, q, NEXT, 1)
        & all_apart(&sheet.arrival, &sheet.arrival, q, NEXT, 1)
}

// Test 6: windows or times are in order.
pub fn in_order(sheet: &Sheet) -> bool
    requires { Few (sheet_of sheet.now) }
    ensures { result ≡ is_in_order (sheet_of sheet.now) }
{
    let form = sheet.form;
    match form {
        Form::Windows => windows_in_order(sheet),
        Form::Timetable => times_in_order(sheet),
    }
}

// Test 7: the trains have a place for each order.
pub fn roomy(sheet: &Sheet) -> bool
    requires { Few (sheet_of sheet.now) }
    ensures { result ≡ roomy (sheet_of sheet.now) }
{
    are_enough(&sheet.capacity, sheet.train_count, sheet.order_count)
}
