// Prints what the SFDP area in a file says of its part. The argument is the file's name.
#![tactic(auto)]

use sfdp::{
    FlashParams, SFDPAddressBytes, SFDPEraseInst, SFDPError, SFDPStatus1Volatility, SFDPTiming,
};
use std::rt::Files;
use std::{fmt, io};

// A time in µs, typical and maximum.
#[derive(Clone, Copy)]
struct Time(u32, u64);

impl fmt::Display for Time {
    fn fmt<W: fmt::Write>(&self, f: &mut fmt::Formatter<W>) -> fmt::Result {
        write!(f, "{} us, at most {} us", self.0, self.1)
    }
}

fn yes_or_no(yes: bool) -> &'static str {
    if yes { "yes" } else { "no" }
}

fn address_words(a: SFDPAddressBytes) -> &'static str {
    match a {
        SFDPAddressBytes::Three => "three",
        SFDPAddressBytes::ThreeOrFour => "three or four",
        SFDPAddressBytes::Four => "four",
        SFDPAddressBytes::Reserved => "a reserved code",
    }
}

fn volatility_words(v: SFDPStatus1Volatility) -> &'static str {
    match v {
        SFDPStatus1Volatility::NonVolatile06 => "kept, enable by 06",
        SFDPStatus1Volatility::Volatile06 => "lost, enable by 06",
        SFDPStatus1Volatility::Volatile50 => "lost, enable by 50",
        SFDPStatus1Volatility::NonVolatile06Volatile50 => "kept by 06, lost by 50",
        SFDPStatus1Volatility::Mixed06 => "mixed, enable by 06",
        SFDPStatus1Volatility::Reserved => "a reserved code",
    }
}

fn show_inst<R: Print>(rt: &R, e: SFDPEraseInst) -> io::Result<()> {
    if e.size == 0 {
        return Ok(());
    }
    print!(rt; "erase instruction    {:02x}, {} bytes", e.opcode, e.size)?;
    if e.timed {
        print!(rt; ", {}", Time(e.time_typ, e.time_max))?;
    }
    println!(rt)
}

fn show_insts<R: Print>(rt: &R, p: FlashParams) -> io::Result<()> {
    let s = p.erase_insts;
    show_inst(rt, s.inst1)?;
    show_inst(rt, s.inst2)?;
    show_inst(rt, s.inst3)?;
    show_inst(rt, s.inst4)?;
    match p.sector_erase() {
        Some(e) => println!(rt; "smallest             {} bytes by {:02x}", e.size, e.opcode),
        None => println!(rt; "smallest             none"),
    }
}

fn show_timing<R: Print>(rt: &R, t: SFDPTiming) -> io::Result<()> {
    let chip = Time(t.chip_erase_time_typ, t.chip_erase_time_max);
    let page = Time(t.page_prog_time_typ, t.page_prog_time_max);
    let first = Time(t.first_byte_prog_time_typ, t.first_byte_prog_time_max);
    let later = Time(t.succ_byte_prog_time_typ, t.succ_byte_prog_time_max);
    // A line goes out with the break before it, as it always did.
    print!(rt; "chip erase           {chip}")?;
    print!(rt; "\npage program         {page}")?;
    print!(rt; "\nfirst byte           {first}")?;
    print!(rt; "\nlater bytes          {later}")?;
    println!(rt)
}

fn show_extended<R: Print>(rt: &R, p: FlashParams) -> io::Result<()> {
    if !p.jesd216a {
        return println!(rt;
            "dwords 10 to 16      not there: times, page size, polling and reset unknown"
        );
    }
    show_timing(rt, p.timing)?;
    println!(rt; "page size            {}", p.page_size)?;
    println!(rt; "poll by flag status  {}", yes_or_no(p.busy_poll_flag))?;
    println!(rt; "poll by status 1     {}", yes_or_no(p.busy_poll_status))?;
    println!(rt; "reset by F0          {}", yes_or_no(p.reset_inst_f0))?;
    println!(rt; "reset by 66, 99      {}", yes_or_no(p.reset_inst_66_99))?;
    println!(rt; "status register 1    {}", volatility_words(p.status_1_vol))
}

fn show<R: Print>(rt: &R, p: FlashParams) -> io::Result<()> {
    println!(rt; "table version        1.{}", p.version_minor)?;
    println!(rt;
        "density              {} bits, {} bytes",
        p.density,
        p.capacity_bytes()
    )?;
    println!(rt; "address bytes        {}", address_words(p.address_bytes))?;
    println!(rt;
        "4 KiB erase          {}",
        yes_or_no(p.legacy_4kb_erase_supported)
    )?;
    println!(rt; "4 KiB opcode         {:02x}", p.legacy_4kb_erase_inst)?;
    show_insts(rt, p)?;
    show_extended(rt, p)
}

fn answer<R: Print>(rt: &R, r: Result<FlashParams, SFDPError>) -> io::Result<()> {
    match r {
        Ok(p) => show(rt, p),
        Err(e) => println!(rt; "answer {}: {e}", e.number()),
    }
}

fn help<R: Print>(rt: &R) -> io::Result<()> {
    println!(rt;
        "show_sfdp FILE prints what the SFDP area in a file says of its part. The file has the area from address 0 on, as a read by"
    )?;
    println!(rt;
        "command 5A gives it. Linux has a part's table in /sys/bus/spi/devices/*/spi-nor/sfdp."
    )?;
    println!(rt;
        "An area that the driver refuses is told by its answer, 3, 4 or 12. A file that cannot be read is an error."
    )
}

fn show_file<R: Files + Print + Eprint>(rt: &R, name: &[u8]) -> io::Result<()> {
    let mut buf = [0u8; 65536];
    match files::read(rt, name, &mut buf) {
        Ok(n) => answer(rt, sfdp::read_area(&buf[..n])),
        Err(_) => println!(rt;
            "error: the file cannot be read; see that the name is right, that it is a file and that you may read it"
        ),
    }
}

fn main(rt: HostRuntime) -> io::Result<()> {
    let mut name = [0u8; 4096];
    match files::argument(&rt, 1, &mut name) {
        Ok(name) if files::is_help(name) => help(&rt),
        Ok(name) if files::is_missing(&rt, 2) => show_file(&rt, name),
        _ => println!(rt;
            "error: a name is needed: show_sfdp FILE, an SFDP area from address 0 on"
        ),
    }
}
