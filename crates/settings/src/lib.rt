// The driver's settings: defaults, setters with their limits, what read_params makes of them, and which ranges of
// addresses they accept.
#![tactic(auto)]

ghost use Rattle.std.specs.Prelude.{◌≡◌, ◌+◌, nat_le};
ghost use Rattle.settings.specs.Limits.{defaults, with_address_bytes, with_capacity, with_page_size, with_erase, with_poll_limit, within, set_address_bytes, set_page_size, set_erase_size, set_poll_limit, set_capacity, clear_capacity, set_erase_opcode, page_of};
ghost use Rattle.settings.specs.Updated.{address_bytes_of, legacy_erase, chosen_erase, size_or, opcode_or, updated};
ghost use Rattle.settings.specs.Ranges.{reach, capacity_allows, accepted_range, last_address, check_address_length};

use sfdp::{FlashParams, SFDPAddressBytes, SectorErase};

// page_size and erase_size 0: unset.
#[derive(Clone, Copy)]
pub struct Settings {
    pub address_bytes: u8,
    pub capacity: Option<u64>,
    pub page_size: u32,
    pub erase_size: u32,
    pub erase_opcode: u8,
    pub poll_limit: u16,
}

// A range that is not accepted: what answer 5 reports.
#[derive(Clone, Copy)]
pub struct BadRange {
    pub last: u32,
}

// Why a setter changes nothing: the number is not within its limits, answer 10.
#[derive(Clone, Copy)]
pub enum SettingError {
    BadSetting,
}

// Whether a number is within its limits.
#[tactic(auto, using(std::proofs::lemmas::Bool::Decides::nat_tests), unfolding(crate::specs::Limits::within))]
fn is_within(low: u64, high: u64, n: u64) -> bool
    ensures { result ≡ within low high n }
{
    low <= n && n <= high
}

impl Settings {
    // The defaults. No other function writes all the fields.
    pub fn new() -> Settings
        ensures { result ≡ defaults }
    {
        Settings {
            address_bytes: 3,
            capacity: None,
            page_size: 0,
            erase_size: 0,
            erase_opcode: 0x20,
            poll_limit: 65_535,
        }
    }

    // ---- one setting changed; the only places that write a field

    fn with_address_bytes(mut self, n: u8) -> Settings
        ensures { result ≡ with_address_bytes n self }
    {
        self.address_bytes = n;
        self
    }

    fn with_capacity(mut self, capacity: Option<u64>) -> Settings
        ensures { result ≡ with_capacity capacity self }
    {
        self.capacity = capacity;
        self
    }

    fn with_page_size(mut self, n: u32) -> Settings
        ensures { result ≡ with_page_size n self }
    {
        self.page_size = n;
        self
    }

    fn with_erase(mut self, size: u32, opcode: u8) -> Settings
        ensures { result ≡ with_erase size opcode self }
    {
        self.erase_size = size;
        self.erase_opcode = opcode;
        self
    }

    fn with_poll_limit(mut self, n: u16) -> Settings
        ensures { result ≡ with_poll_limit n self }
    {
        self.poll_limit = n;
        self
    }

    // ---- setters

    // 1 to 4.
    #[tactic(auto, using(crate::proofs::Laws::within_high, crate::proofs::Laws::set_when, crate::proofs::Laws::set_unless))]
    pub fn set_address_bytes(self, n: u8) -> Result<Settings, SettingError>
        ensures { result ≡ set_address_bytes self n }
    {
        if is_within(1, 4, n as u64) {
            Ok(self.with_address_bytes(n))
        } else {
            Err(SettingError::BadSetting)
        }
    }

    // 1 to 32,768.
    #[tactic(auto, using(crate::proofs::Laws::within_high, crate::proofs::Laws::set_when, crate::proofs::Laws::set_unless))]
    pub fn set_page_size(self, n: u64) -> Result<Settings, SettingError>
        ensures { result ≡ set_page_size self n }
    {
        if is_within(1, 32_768, n) {
            Ok(self.with_page_size(n as u32))
        } else {
            Err(SettingError::BadSetting)
        }
    }

    // 1 to 2,147,483,648.
    #[tactic(auto, using(crate::proofs::Laws::within_high, crate::proofs::Laws::set_when, crate::proofs::Laws::set_unless))]
    pub fn set_erase_size(self, n: u64) -> Result<Settings, SettingError>
        ensures { result ≡ set_erase_size self n }
    {
        if is_within(1, 2_147_483_648, n) {
            Ok(self.with_erase(n as u32, self.erase_opcode))
        } else {
            Err(SettingError::BadSetting)
        }
    }

    // 1 to 65,535.
    #[tactic(auto, using(crate::proofs::Laws::within_high, crate::proofs::Laws::set_when, crate::proofs::Laws::set_unless))]
    pub fn set_poll_limit(self, n: u32) -> Result<Settings, SettingError>
        ensures { result ≡ set_poll_limit self n }
    {
        if is_within(1, 65_535, n as u64) {
            Ok(self.with_poll_limit(n as u16))
        } else {
            Err(SettingError::BadSetting)
        }
    }

    // Any number.
    pub fn set_capacity(self, n: u64) -> Settings
        ensures { result ≡ set_capacity self n }
    {
        self.with_capacity(Some(n))
    }

    pub fn clear_capacity(self) -> Settings
        ensures { result ≡ clear_capacity self }
    {
        self.with_capacity(None)
    }

    // Any byte.
    pub fn set_erase_opcode(self, opcode: u8) -> Settings
        ensures { result ≡ set_erase_opcode self opcode }
    {
        self.with_erase(self.erase_size, opcode)
    }

    // The page size that is programmed by.
    #[tactic(auto, using(std::proofs::lemmas::Bool::Decides::nat_tests), unfolding(crate::specs::Limits::page_of))]
    pub fn page(self) -> u32
        ensures { result ≡ page_of self }
    {
        if self.page_size == 0 {
            256
        } else {
            self.page_size
        }
    }

    // ---- read_params

    // The size and opcode of an erase instruction, if there is one.
    fn with_chosen(self, chosen: Option<SectorErase>) -> Settings
        ensures { result ≡ with_erase (size_or self.erase_size chosen) (opcode_or self.erase_opcode chosen) self }
    {
        match chosen {
            Some(erase) => self.with_erase(erase.size, erase.opcode),
            None => self,
        }
    }

    // The settings after a read_params that gave these parameters.
    #[tactic(auto, unfolding(crate::specs::Updated::updated))]
    pub fn update(self, p: FlashParams) -> Settings
        ensures { result ≡ updated self p }
    {
        let s = self
            .with_address_bytes(address_bytes_of(p.address_bytes))
            .set_capacity(p.capacity_bytes());
        let chosen = chosen_erase(p);
        if p.jesd216a {
            s.with_page_size(p.page_size).with_chosen(chosen)
        } else {
            s.with_chosen(chosen)
        }
    }

    // ---- ranges

    // Whether a range is within the capacity, where that is set.
    fn capacity_allows(self, address: u32, length: u64) -> bool
        ensures { result ≡ capacity_allows self (address + length) }
    {
        match self.capacity {
            Some(capacity) => ends_within(address, length, capacity),
            None => true,
        }
    }

    #[tactic(auto, using(std::proofs::lemmas::Bool::Decides::nat_tests), unfolding(crate::specs::Ranges::accepted_range))]
    fn is_accepted(self, address: u32, length: u64) -> bool
        ensures { result ≡ accepted_range self address length }
    {
        1 <= length
            && ends_within(address, length, reach_of(self.address_bytes))
            && self.capacity_allows(address, length)
    }

    // Whether the range of length bytes from address on is accepted.
    #[tactic(auto, unfolding(crate::specs::Ranges::check_address_length))]
    pub fn check_address_length(self, address: u32, length: u64) -> Result<(), BadRange>
        ensures { result ≡ check_address_length self address length }
    {
        if self.is_accepted(address, length) {
            Ok(())
        } else {
            Err(BadRange {
                last: last_address(address, length),
            })
        }
    }
}

fn address_bytes_of(bytes: SFDPAddressBytes) -> u8
    ensures { result ≡ address_bytes_of bytes }
{
    match bytes {
        SFDPAddressBytes::Four => 4,
        _ => 3,
    }
}

// The 4 KiB erase instruction, if there is a usable one.
#[tactic(auto, unfolding(crate::specs::Updated::legacy_erase))]
fn legacy_erase(p: FlashParams) -> Option<SectorErase>
    ensures { result ≡ legacy_erase p }
{
    p.usable_4k().then_some(SectorErase {
        size: 4096,
        opcode: p.legacy_4kb_erase_inst,
    })
}

// The erase instruction that the settings take from the parameters, if there is one.
#[tactic(auto, unfolding(crate::specs::Updated::chosen_erase))]
fn chosen_erase(p: FlashParams) -> Option<SectorErase>
    ensures { result ≡ chosen_erase p }
{
    p.sector_erase().or(legacy_erase(p))
}

// How far addresses of so many bytes reach; more than 4 count as 4.
#[tactic(auto, using(crate::proofs::Laws::reach_four))]
fn reach_of(bytes: u8) -> u64
    ensures { result ≡ reach bytes }
{
    match bytes {
        0 => 1,
        1 => 256,
        2 => 65_536,
        3 => 16_777_216,
        _ => 4_294_967_296,
    }
}

// Whether address plus length is at most a limit, found without the sum.
#[tactic(auto, using(crate::proofs::Laws::sum_free, std::proofs::lemmas::Bool::Decides::nat_tests))]
fn ends_within(address: u32, length: u64, limit: u64) -> bool
    ensures { result ≡ nat_le (address + length) limit }
{
    let from = address as u64;
    from <= limit && length <= limit - from
}

// address + length - 1 modulo 2^32.
#[tactic(auto, unfolding(crate::specs::Ranges::last_address))]
fn last_address(address: u32, length: u64) -> u32
    ensures { result ≡ last_address address length }
{
    let low = (length % 0x1_0000_0000) as u32;
    address.wrapping_add(low).wrapping_sub(1)
}
