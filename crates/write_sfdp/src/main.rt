// Writes the SFDP area of an emulated part from that of a real one. The arguments are the names of a file with an area that was read, and of a new
// file for the 80 bytes.
#![tactic(auto)]

use sfdp::FlashParams;
use std::fs::OpenOptions;
use std::io;
use std::io::Write;
use std::rt::Files;

// Whether an area is written as this table.
fn is_written_as(area: &[u8], table: &[u8]) -> bool {
    let mut again = [0u8; 80];
    match sfdp::read_area(area) {
        Ok(p) => sfdp_write::write_table(p, &mut again).is_ok() && again.as_slice() == table,
        Err(_) => false,
    }
}

// Makes a new file that has the table.
fn write_new<R: Files>(rt: &R, name: &[u8], table: &[u8]) -> io::Result<()> {
    let mut file = OpenOptions::new()
        .write(true)
        .create_new(true)
        .open(rt, files::path(name)?)?;
    file.write_all(table)
}

// A new file. Its name and the system's reason go to standard error if it cannot be made or written.
fn save<R: Files + Eprint>(rt: &R, name: &[u8], table: &[u8]) -> bool {
    files::told(rt, name, write_new(rt, name, table)).is_some()
}

// Reads the new file, and holds what was read against what was written.
fn is_kept<R: Files + Eprint>(rt: &R, name: &[u8], table: &[u8]) -> bool {
    let mut buf = [0u8; 4096];
    let n = files::read(rt, name, &mut buf).unwrap_or_else(|broken| broken.len);
    let kept = &buf[..n];
    kept == table && is_written_as(kept, table)
}

fn save_table<R: Files + Print + Eprint>(rt: &R, name: &[u8], table: &[u8]) -> io::Result<()> {
    if save(rt, name, table) && is_kept(rt, name, table) {
        return println!(rt;
            "written: 80 bytes; read again they give the same parameters, with the minor 6"
        );
    }
    println!(rt;
        "error: the table could not be written; see that no file has this name, and that there is room"
    )
}

fn write<R: Files + Print + Eprint>(rt: &R, p: FlashParams, name: &[u8]) -> io::Result<()> {
    let mut table = [0u8; 80];
    match sfdp_write::write_table(p, &mut table) {
        Ok(()) => save_table(rt, name, &table),
        Err(_) => println!(rt;
            "answer 15: nothing is written, since no table of 16 dwords has these parameters exactly (one of fewer dwords has no times, page size, polling and reset)"
        ),
    }
}

fn write_from<R: Files + Print + Eprint>(rt: &R, area: &[u8], name: &[u8]) -> io::Result<()> {
    let mut buf = [0u8; 65536];
    let Ok(n) = files::read(rt, area, &mut buf) else {
        return println!(rt;
            "error: the area cannot be read; see that the name is right, that it is a file and that you may read it"
        );
    };
    match sfdp::read_area(&buf[..n]) {
        Ok(p) => write(rt, p, name),
        Err(e) => println!(rt;
            "answer {}: nothing is written, since the driver does not read this area; show_sfdp says why",
            e.number()
        ),
    }
}

fn help<R: Print>(rt: &R) -> io::Result<()> {
    println!(rt;
        "write_sfdp AREA NEW writes the SFDP area of an emulated part, 80 bytes, to a new file. AREA is a file with the area of a real part"
    )?;
    println!(rt;
        "from address 0 on. Fields that the driver does not read, fast reads among them, are 0. The last line begins with written, answer or error."
    )
}

fn main(rt: HostRuntime) -> io::Result<()> {
    let mut one = [0u8; 4096];
    let mut two = [0u8; 4096];
    let first = files::argument(&rt, 1, &mut one);
    let second = files::argument(&rt, 2, &mut two);
    match (first, second) {
        (Ok(name), _) if files::is_help(name) => help(&rt),
        (Ok(area), Ok(new)) if files::is_missing(&rt, 3) => write_from(&rt, area, new),
        _ => println!(rt;
            "error: two names are needed: write_sfdp AREA NEW, a file with an SFDP area and a new file"
        ),
    }
}
