// IPv4 addresses.
ghost use Rattle.std.specs.Prelude.{◌≡◌, ◌<◌, ◌^◌, option_map};
ghost use Rattle.line_text.specs.Addresses.{leads_with_zero, octet, dotted, fourth, third, second, address_of};

use lab_base::{Kind, Parts, number_in, parted};

fn leads_with_zero(bytes: &[u8]) -> bool
    ensures { result ≡ leads_with_zero bytes.now }
{
    match bytes {
        [] => false,
        [_] => false,
        [first, _, ..] => *first == b'0',
    }
}

/// One number of an address, from its digits; `number` where it isn't from `least` to `most`.
fn octet_in(bytes: &[u8], least: u8, most: u8) -> Result<u8, Kind>
    ensures { result ≡ octet least most bytes.now }
{
    if leads_with_zero(bytes) {
        return Err(Kind::Number);
    }
    match number_in(bytes, u64::from(least), u64::from(most)) {
        Ok(number) => Ok(number as u8),
        Err(kind) => Err(kind),
    }
}

fn fourth(value: u32, bytes: &[u8]) -> Result<u32, Kind>
    requires { value < 2 ^ 24 }
    ensures { result ≡ fourth value bytes.now }
{
    match octet_in(bytes, 1, 254) {
        Ok(number) => Ok(value * 256 + u32::from(number)),
        Err(kind) => Err(kind),
    }
}

fn third(value: u32, parts: Option<Parts<'_>>) -> Result<u32, Kind>
    requires { value < 2 ^ 16 }
    ensures { result ≡ dotted fourth value (option_map (λ parts. (parts.before.now, parts.behind.now)) parts.entry) }
{
    match parts {
        Some(parts) => match octet_in(parts.before, 0, 255) {
            Ok(number) => fourth(value * 256 + u32::from(number), parts.behind),
            Err(kind) => Err(kind),
        },
        None => Err(Kind::Number),
    }
}

fn third_in(value: u32, bytes: &[u8]) -> Result<u32, Kind>
    requires { value < 2 ^ 16 }
    ensures { result ≡ third value bytes.now }
{
    third(value, parted(bytes, b'.'))
}

fn second(value: u32, parts: Option<Parts<'_>>) -> Result<u32, Kind>
    requires { value < 2 ^ 8 }
    ensures { result ≡ dotted third value (option_map (λ parts. (parts.before.now, parts.behind.now)) parts.entry) }
{
    match parts {
        Some(parts) => match octet_in(parts.before, 0, 255) {
            Ok(number) => third_in(value * 256 + u32::from(number), parts.behind),
            Err(kind) => Err(kind),
        },
        None => Err(Kind::Number),
    }
}

fn second_in(value: u32, bytes: &[u8]) -> Result<u32, Kind>
    requires { value < 2 ^ 8 }
    ensures { result ≡ second value bytes.now }
{
    second(value, parted(bytes, b'.'))
}

fn first(parts: Option<Parts<'_>>) -> Result<u32, Kind>
    ensures { result ≡ dotted second 0 (option_map (λ parts. (parts.before.now, parts.behind.now)) parts.entry) }
{
    match parts {
        Some(parts) => match octet_in(parts.before, 0, 255) {
            Ok(number) => second_in(0 * 256 + u32::from(number), parts.behind),
            Err(kind) => Err(kind),
        },
        None => Err(Kind::Number),
    }
}

/// The address of four numbers joined by dots, of which the last is 1 to 254.
pub fn address_in(bytes: &[u8]) -> Result<u32, Kind>
    ensures { result ≡ address_of bytes.now }
{
    first(parted(bytes, b'.'))
}
