// Writes what a call leaves to standard output, for the programs whose output is compared.
// No contract can say what is written, so the functions that write are proved safe and no more.
#![tactic(auto)]

use std::fmt::Display;
use std::io;

// A space before each entry of a row but the first. Signs and spaces go out as they are: to format one costs more than to write it.
fn gap(rt: &impl Print, i: usize) -> io::Result<()> {
    if 0 < i { rt.write_all(b" ") } else { Ok(()) }
}

// The entries of a row with a space between, and a newline at the end.
pub fn row<T: Display>(rt: &impl Print, items: &[T]) -> io::Result<()> {
    for (i, item) in items.iter().enumerate() {
        gap(rt, i)?;
        rt.print(item)?;
    }
    rt.write_all(b"\n")
}

// A signed number: its sign, and then its digits, each written by itself.
pub fn signed(rt: &impl Print, n: i64) -> io::Result<()> {
    if n < 0 {
        rt.write_all(b"-")?;
    }
    rt.print(n.unsigned_abs())
}

// A row of signed numbers.
pub fn wides(rt: &impl Print, items: &[i64]) -> io::Result<()> {
    for (i, n) in items.iter().enumerate() {
        gap(rt, i)?;
        signed(rt, *n)?;
    }
    rt.write_all(b"\n")
}

// A spin as its sign, and any other value as its number.
fn spin(rt: &impl Print, s: i8) -> io::Result<()> {
    match s {
        1 => rt.write_all(b"+"),
        -1 => rt.write_all(b"-"),
        _ => signed(rt, s as i64),
    }
}

pub fn spins(rt: &impl Print, row: &[i8]) -> io::Result<()> {
    for s in row {
        spin(rt, *s)?;
    }
    rt.write_all(b"\n")
}
