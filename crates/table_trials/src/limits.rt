// A pair table at its limits, and one past them.
use pairs::row::{PutRefusal, Row};
use pairs::table::PairTable;

// How many rows a table holds here.
const LIMIT: u16 = 256;

// Row number n of 256, all different, with relationships up to 31 and cells and instances up to 127.
fn nth_row(n: u16) -> Row {
    Row {
        relationship: if n < 128 { 31 } else { 0 },
        from: (n % 128) as u8,
        to: (127 - n % 128) as u8,
        instance: (n % 128) as u8,
    }
}

// For how many of the rows it holds.
fn counted<F: FnMut(Row) -> bool>(mut holds: F) -> usize
    requires { (state : F) (row : _) → F.pre state row }
{
    (0..LIMIT).map(nth_row).filter(|row| holds(*row)).count()
}

// How many of the rows are found with their own instances.
fn found<P: PairTable>(table: &P) -> usize {
    counted(|row| table.find(row.link()) == Some(row.instance))
}

// Puts in as many rows as may be; how many were taken.
fn filled<P: PairTable>(table: &mut P) -> usize {
    counted(|row| table.put(row).is_ok())
}

// Takes every row out; how many were there.
fn emptied<P: PairTable>(table: &mut P) -> usize {
    counted(|row| table.drop_row(row.link()) == Some(row.instance))
}

// Whether the numbers past the limits are refused, a bad relationship first.
fn refuses_past<P: PairTable>(table: &mut P) -> bool {
    let good = Row {
        relationship: 31,
        from: 0,
        to: 0,
        instance: 0,
    };
    let bad_relationship = Row {
        relationship: 32,
        from: 128,
        ..good
    };
    table.put(bad_relationship) == Err(PutRefusal::BadRelationship)
        && table.put(Row { from: 128, ..good }) == Err(PutRefusal::BadCell)
        && table.put(Row { to: 128, ..good }) == Err(PutRefusal::BadCell)
        && table.put(Row {
            instance: 128,
            ..good
        }) == Err(PutRefusal::BadCell)
}

// Whether one more row than the table holds is refused as such, and a row that is there with its instance.
fn refuses_more<P: PairTable>(table: &mut P) -> bool {
    let more = Row {
        relationship: 5,
        from: 5,
        to: 5,
        instance: 5,
    };
    table.put(more) == Err(PutRefusal::Full)
        && table.put(nth_row(127)) == Err(PutRefusal::Present(127))
        && table.find(more.link()).is_none()
}

// How many of eight checks hold.
pub(crate) fn limits<P: PairTable>(table: &mut P) -> usize {
    table.clear();
    let checks = [
        refuses_past(table) && table.count() == 0,
        filled(table) == 256,
        table.count() == LIMIT && table.limit() == LIMIT,
        found(table) == 256,
        refuses_more(table) && table.count() == LIMIT,
        table.to_cells(31, 0).contains(127) && table.instances(31, 127).contains(127),
        emptied(table) == 256,
        table.count() == 0 && found(table) == 0,
    ];
    checks.iter().filter(|check| **check).count()
}
