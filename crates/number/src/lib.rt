// Numbers: little-endian reads and signed arithmetic.
#![tactic(auto)]

ghost use Rattle.std.specs.Prelude.{◌≡◌, ℕ, ◌+◌, ◌^◌, ◌≤◌, ◌<◌, length};
ghost use Rattle.number.specs.Bytes.{byte_at, u16_at, u32_at, i32_at, biased_at};

pub mod sign;

// The byte at a place. Here and below a place is taken and no array of bytes, which would have to be cut out at each call.
pub fn byte(sheet: &[u8], at: usize) -> u64
    requires { at < length sheet.now }
    ensures { (result ≡ byte_at sheet.now at) × (result < 256) }
{
    sheet[at] as u64
}

// The number of two bytes, the low one first.
pub fn read_u16(sheet: &[u8], at: usize) -> u16
    requires { at + 2 ≤ length sheet.now }
    ensures { result ≡ u16_at sheet.now at }
{
    u16::from_le_bytes([sheet[at], sheet[at + 1]])
}

// The number of four bytes, the low one first.
pub fn read_u32(sheet: &[u8], at: usize) -> u64
    requires { at + 4 ≤ length sheet.now }
    ensures { (result ≡ u32_at sheet.now at) × (result < 2 ^ 32) }
{
    u32::from_le_bytes([sheet[at], sheet[at + 1], sheet[at + 2], sheet[at + 3]]) as u64
}

// The signed number of four bytes, and 2 ^ 31.
pub fn read_biased(sheet: &[u8], at: usize) -> u64
    requires { at + 4 ≤ length sheet.now }
    ensures { (result ≡ biased_at sheet.now at) × (result < 2 ^ 32) }
{
    (read_u32(sheet, at) + 0x8000_0000) % 0x1_0000_0000
}

// The signed number of four bytes, the low one first. `read_u32` names the same four: a function of them would take a definition of its own, for two callers.
pub fn read_i32(sheet: &[u8], at: usize) -> i32
    requires { at + 4 ≤ length sheet.now }
    ensures { result ≡ i32_at sheet.now at }
{
    i32::from_le_bytes([sheet[at], sheet[at + 1], sheet[at + 2], sheet[at + 3]])
}
