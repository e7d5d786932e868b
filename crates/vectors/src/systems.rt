//! Systems of equations, and the words of their least solutions.

ghost use Rattle.std.specs.Prelude.{◌≡◌, ◌<◌};

use equation_core::{Row, words_for};
use octets_core::Steps;
use ribbon_core::{Planes, System};
use std::alloc::Global;
use std::fmt::Write;
use std::marker::Brand;
use std::sync::ledger::{Blank, Ledger};
use std::test::Fail;

/// A row `START:COEFF`, the coefficients in hexadecimal.
fn row_of(word: &str) -> Result<Row, Fail> {
    let (start, coeff) = word.split_once(':').ok_or("no row")?;
    Ok(Row {
        start: start.parse::<u32>()?,
        coeff: u128::from_str_radix(coeff, 16)?,
        tag: 0,
    })
}

/// The words of each plane.
fn tell_words<L: Ledger>(text: &mut String, planes: &Planes, blank: Blank) -> Result<(), Fail>
    requires name { blank.name ≡ L.name }
    requires parts { blank.parts ≡ L.parts }
    requires some { 0 < L.parts }
{
    let mut steps: Steps<L> = Steps::new(blank);
    for plane in 0..planes.planes() {
        text.push_str(" plane")?;
        for i in 0..words_for(planes.starts()) {
            let word = planes.word(plane, i, &mut steps);
            write!(text, " {word:x}")?;
        }
    }
    Ok(())
}

/// The same.
pub fn put_planes(text: &mut String, planes: &Planes) -> Result<(), Fail> {
    tell_words::<Brand>(text, planes, Blank::new(1))
}

/// Rows, with commas between them.
fn rows_of(alloc: Global, text: &str) -> Result<Vec<Row>, Fail> {
    let mut rows = Vec::new(alloc);
    for word in text.split(',') {
        rows.push(row_of(word)?)?;
    }
    Ok(rows)
}

/// The sum of each row.
fn tell_parities<L: Ledger>(
    text: &mut String,
    planes: &Planes,
    rows: &[Row],
    blank: Blank,
) -> Result<(), Fail>
    requires name { blank.name ≡ L.name }
    requires parts { blank.parts ≡ L.parts }
    requires some { 0 < L.parts }
{
    let mut steps: Steps<L> = Steps::new(blank);
    text.push_str(" sums")?;
    for row in rows {
        if row.start >= planes.starts() {
            return Err(Fail::new("no row"));
        }
        let sum = planes.parity(row, &mut steps);
        write!(text, " {sum}")?;
    }
    Ok(())
}

/// The least solution of equations over so many starts, in so many planes; which of them are kept is told.
fn solved(alloc: Global, text: &mut String, of: [&str; 2], words: &[&str]) -> Result<Planes, Fail> {
    let (starts, planes) = (of[0].parse::<u32>()?, of[1].parse::<u8>()?);
    if starts < 1 || starts > 4_718_593 || planes < 1 || planes > 16 {
        return Err(Fail::new("no system"));
    }
    let mut system = System::new(alloc, starts, planes)?;
    for word in words {
        let (row, target) = word.rsplit_once(':').ok_or("no equation")?;
        let (row, target) = (row_of(row)?, target.parse::<u16>()?);
        if row.start >= starts || row.coeff % 2 == 0 || u32::from(target) >= 1 << planes {
            return Err(Fail::new("no equation"));
        }
        match system.add(&row, target) {
            Ok(()) => text.push_str(" kept")?,
            Err(_) => text.push_str(" contradicted")?,
        }
    }
    Ok(system.solve())
}

/// Which of the equations are kept, and the words of the least solution.
pub fn tell_system(alloc: Global, of: [&str; 2], words: &[&str]) -> Result<String, Fail> {
    let mut text = String::from_str(alloc, "equations")?;
    let found = solved(alloc, &mut text, of, words)?;
    put_planes(&mut text, &found)?;
    Ok(text)
}

/// The sums of rows over the least solution of equations.
pub fn tell_sums(alloc: Global, of: [&str; 2], rows: &str, words: &[&str]) -> Result<String, Fail> {
    let mut text = String::from_str(alloc, "equations")?;
    let found = solved(alloc, &mut text, of, words)?;
    let rows = rows_of(alloc, rows)?;
    tell_parities::<Brand>(&mut text, &found, &rows, Blank::new(1))?;
    Ok(text)
}
