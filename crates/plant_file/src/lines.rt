// The lines of the tables, by their fields.
ghost use Rattle.std.specs.Prelude.{◌≡◌};
ghost use Rattle.lab_base.specs.Texts.{views};
ghost use Rattle.lab_base.specs.Kinds.{both_of};
ghost use Rattle.lab_base.specs.Parts.{name_of, number_from};
ghost use Rattle.line_text.specs.Fields.{field_at};
ghost use Rattle.plant_file.specs.Lines.{boot_of, as_row, row_line, as_bare, bare_line, as_node, loaded_line, node_line, as_pipe, pipe_line, keyed, entry_of};

use crate::boots::boot_in;
use crate::entry::Entry;
use lab_base::{Boot, Kind, Name, Rates, VlanId, both};
use line_text::{RateLimits, both_rates_at, field_at, name_at, short_in};

/// Rates of any numbers that the program can hold.
const ANY_RATES: RateLimits = RateLimits {
    least_kbps: 0,
    most_kbps: u64::MAX,
    most_micros: u32::MAX,
    most_ppm: u32::MAX,
};

fn short_at(fields: &[&[u8]], n: usize) -> Result<u16, Kind>
    ensures { result ≡ number_from 0 u16.MAX (field_at (views fields.now) n) }
{
    let field = field_at(fields, n);
    short_in(field, 0, u16::MAX)
}

fn boot_at(fields: &[&[u8]], n: usize) -> Result<Boot, Kind>
    ensures { result ≡ boot_of (field_at (views fields.now) n) }
{
    let field = field_at(fields, n);
    boot_in(field)
}

fn as_row(read: Result<(Name, (u16, u16)), Kind>) -> Result<Entry, Kind>
    ensures { result ≡ as_row read }
{
    match read {
        Ok((switch, (port, vlan))) => Ok(Entry::Row {
            switch,
            port,
            vlan: VlanId(vlan),
        }),
        Err(kind) => Err(kind),
    }
}

/// Reads the fields after the word `row`.
fn row_in(fields: &[&[u8]]) -> Result<Entry, Kind>
    ensures { result ≡ row_line (views fields.now) }
{
    if fields.len() != 3 {
        return Err(Kind::Fields);
    }
    let port = short_at(fields, 1);
    let vlan = short_at(fields, 2);
    let behind = both(port, vlan);
    let switch = name_at(fields, 0);
    let whole = both(switch, behind);
    as_row(whole)
}

fn as_bare(read: Result<(Name, Boot), Kind>) -> Result<Entry, Kind>
    ensures { result ≡ as_bare read }
{
    match read {
        Ok((node, state)) => Ok(Entry::Bare { node, state }),
        Err(kind) => Err(kind),
    }
}

fn bare_in(fields: &[&[u8]]) -> Result<Entry, Kind>
    ensures { result ≡ bare_line (views fields.now) }
{
    let node = name_at(fields, 0);
    let state = boot_at(fields, 1);
    let whole = both(node, state);
    as_bare(whole)
}

fn as_node(read: Result<(Name, (Boot, Name)), Kind>) -> Result<Entry, Kind>
    ensures { result ≡ as_node read }
{
    match read {
        Ok((node, (state, os))) => Ok(Entry::Node { node, state, os }),
        Err(kind) => Err(kind),
    }
}

fn loaded_in(fields: &[&[u8]]) -> Result<Entry, Kind>
    ensures { result ≡ loaded_line (views fields.now) }
{
    let state = boot_at(fields, 1);
    let os = name_at(fields, 2);
    let behind = both(state, os);
    let node = name_at(fields, 0);
    let whole = both(node, behind);
    as_node(whole)
}

/// Reads the fields after the word `node`.
fn node_in(fields: &[&[u8]]) -> Result<Entry, Kind>
    ensures { result ≡ node_line (views fields.now) }
{
    if fields.len() == 2 {
        bare_in(fields)
    } else if fields.len() == 3 {
        loaded_in(fields)
    } else {
        Err(Kind::Fields)
    }
}

/// A pipe's node and number, its two interfaces, and its rates there and back.
type PipeRead = ((Name, u16), ((Name, Name), (Rates, Rates)));

fn as_pipe(read: Result<PipeRead, Kind>) -> Result<Entry, Kind>
    ensures { result ≡ as_pipe read }
{
    match read {
        Ok(((node, number), ((from, to), (there, back)))) => Ok(Entry::Pipe {
            node,
            number,
            from,
            to,
            there,
            back,
        }),
        Err(kind) => Err(kind),
    }
}

fn interfaces_at(fields: &[&[u8]]) -> Result<(Name, Name), Kind>
    ensures { result ≡ both_of (name_of (field_at (views fields.now) 2)) (name_of (field_at (views fields.now) 3)) }
{
    let from = name_at(fields, 2);
    let to = name_at(fields, 3);
    both(from, to)
}

fn pipe_key_at(fields: &[&[u8]]) -> Result<(Name, u16), Kind>
    ensures { result ≡ both_of (name_of (field_at (views fields.now) 0)) (number_from 0 u16.MAX (field_at (views fields.now) 1)) }
{
    let node = name_at(fields, 0);
    let number = short_at(fields, 1);
    both(node, number)
}

/// Reads the fields after the word `pipe`.
fn pipe_in(fields: &[&[u8]]) -> Result<Entry, Kind>
    ensures { result ≡ pipe_line (views fields.now) }
{
    if fields.len() != 10 {
        return Err(Kind::Fields);
    }
    let rates = both_rates_at(ANY_RATES, fields, 4);
    let interfaces = interfaces_at(fields);
    let behind = both(interfaces, rates);
    let key = pipe_key_at(fields);
    let whole = both(key, behind);
    as_pipe(whole)
}

fn keyed(keyword: &[u8], fields: &[&[u8]]) -> Result<Entry, Kind>
    ensures { result ≡ keyed keyword.now (views fields.now) }
{
    if keyword == b"row".as_slice() {
        row_in(fields)
    } else if keyword == b"node".as_slice() {
        node_in(fields)
    } else if keyword == b"pipe".as_slice() {
        pipe_in(fields)
    } else {
        Err(Kind::Word)
    }
}

/// Reads a line of the tables.
pub(crate) fn entry_in(fields: &[&[u8]]) -> Result<Entry, Kind>
    ensures { result ≡ entry_of (views fields.now) }
{
    match fields {
        [] => Err(Kind::Word),
        [keyword, rest @ ..] => keyed(keyword, rest),
    }
}
