// Reading at its edges: both sides of every limit, the longest table and a byte more, and table W damaged.
ghost use Rattle.std.specs.Prelude.{◌≤◌};

use std::io::{self, Write};
use table::Table;

const W: [u8; 45] = [
    1, 7, 0, 1, 0, 1, 0, 4, 1, 0, 1, 0, 2, 0, 2, 0, 2, 0, 1, 1, 2, 0, 0, 1, 1, 1, 3, 3, 0, 0, 0, 0,
    0, 5, 0, 0, 0, 0, 1, 6, 0, 0, 0, 0, 2,
];

// What reading the bytes answers.
fn show(to: &mut impl Write, name: &str, bytes: &[u8]) -> io::Result<()> {
    match Table::read(bytes) {
        Ok(_) => writeln!(to, "{name}: read"),
        Err(fault) => writeln!(to, "{name}: {fault}"),
    }
}

fn put(b: &mut [u8], at: usize, v: u8) {
    if at < b.len() {
        b[at] = v;
    }
}

// Of zeros a table with n nodes: tasks below a root of kind k, which is the table's byte, since bytes are what is read here. The tables below are each
// made for one limit; one function for all would take more numbers than it has lines, and be no plainer.
fn start(b: &mut [u8], n: u8, k: u8) {
    put(b, 0, 1);
    put(b, 1, n);
    put(b, 3, k);
}

// A preemptive root with n - 1 tasks, and nothing else.
fn nodes(to: &mut impl Write, name: &str, n: u8) -> io::Result<()> {
    let mut b = [0u8; 600];
    start(&mut b, n, 1);
    show(to, name, &b[..usize::from(n) * 2 + 5])
}

// A root with n records of a section whose count stands at a place, each of so many zeros, and nothing else: blocking locks, or resources.
fn records(to: &mut impl Write, name: &str, at: usize, n: u8, size: usize) -> io::Result<()>
    requires { size ≤ 3 }
{
    let mut b = [0u8; 900];
    start(&mut b, 1, 1);
    put(&mut b, at, n);
    show(to, name, &b[..usize::from(n) * size + 7])
}

// A root that is a task, a resource, and a accesses.
fn accesses(to: &mut impl Write, name: &str, a: u8) -> io::Result<()> {
    let mut b = [0u8; 1600];
    start(&mut b, 1, 0);
    put(&mut b, 5, 1);
    put(&mut b, 8, a);
    show(to, name, &b[..usize::from(a) * 6 + 9])
}

// Task 1 for each access of the longest table.
fn tasks(b: &mut [u8]) {
    for i in 0..128 {
        put(b, 485 + i * 6, 1);
    }
}

// The longest table, every count at its limit, and the same with a byte more.
fn longest(to: &mut impl Write) -> io::Result<()> {
    let mut b = [0u8; 1254];
    start(&mut b, 128, 1);
    put(&mut b, 258, 32);
    put(&mut b, 355, 64);
    put(&mut b, 484, 128);
    tasks(&mut b);
    show(to, "1253 bytes", &b[..b.len() - 1])?;
    show(to, "1254 bytes", &b)
}

// W with byte p set to v.
fn damaged(to: &mut impl Write, name: &str, p: usize, v: u8) -> io::Result<()> {
    let mut b = W;
    put(&mut b, p, v);
    show(to, name, &b)
}

pub fn run(to: &mut impl Write) -> io::Result<()> {
    show(to, "no bytes", b"")?;
    nodes(to, "0 nodes", 0)?;
    nodes(to, "128 nodes", 128)?;
    nodes(to, "129 nodes", 129)?;
    records(to, "32 locks", 4, 32, 3)?;
    records(to, "33 locks", 4, 33, 3)?;
    records(to, "64 resources", 5, 64, 2)?;
    records(to, "65 resources", 5, 65, 2)?;
    accesses(to, "128 accesses", 128)?;
    accesses(to, "129 accesses", 129)?;
    longest(to)?;
    show(to, "W", &W)?;
    show(to, "W without its last byte", &W[..44])?;
    damaged(to, "W with byte 4 set to 1", 4, 1)?;
    damaged(to, "W with byte 19 set to 3", 19, 3)?;
    damaged(to, "W with byte 27 set to 2", 27, 2)?;
    damaged(to, "W with byte 38 set to 5", 38, 5)
}
