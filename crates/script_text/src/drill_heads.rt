// The first lines of drills.
ghost use Rattle.std.specs.Prelude.{◌≡◌, IfSome};
ghost use Rattle.lab_base.specs.Texts.{views};
ghost use Rattle.script_text.specs.Blocks.{IsInRange};
ghost use Rattle.script_text.specs.Heads.{how_of, pick_of, nth_of, fail_head, stop_head};

use crate::Command;
use crate::heads::{Head, is_word, name_in};
use lab_base::read_number;
use plant::{How, Pick};

/// The last call that a drill can make fail.
const MAX_NTH: u64 = 1_000_000;

/// How a device fails, by a field.
fn how_in(field: &[u8]) -> Option<How>
    ensures { result ≡ how_of field.now }
{
    if is_word(field, b"applied") {
        Some(How::Applied)
    } else if is_word(field, b"not") {
        Some(How::Not)
    } else if is_word(field, b"hang") {
        Some(How::Hang)
    } else if is_word(field, b"jump") {
        Some(How::Jump)
    } else if is_word(field, b"read") {
        Some(How::Read)
    } else {
        None
    }
}

/// The pick of a stop, by a field.
fn pick_in(field: &[u8]) -> Option<Pick>
    ensures { result ≡ pick_of field.now }
{
    if is_word(field, b"none") {
        Some(Pick::Nothing)
    } else if is_word(field, b"all") {
        Some(Pick::All)
    } else if is_word(field, b"torn") {
        Some(Pick::Torn)
    } else {
        None
    }
}

/// The number of a call that a field gives.
fn nth_in(field: &[u8]) -> Option<u32>
    ensures { result ≡ nth_of field.now }
{
    match read_number(field, MAX_NTH) {
        Ok(0) | Err(_) => None,
        Ok(nth) => Some(nth as u32),
    }
}

/// The failure that fields give: of the disk by two, of a device by three.
pub(crate) fn fail_head(fields: &[&[u8]]) -> Option<Head>
    ensures head { result ≡ fail_head (views fields.now) }
    ensures range { IfSome result IsInRange }
{
    match fields {
        [disk, nth] if is_word(disk, b"disk") => {
            let nth = nth_in(nth)?;
            Some(Head::Whole(Command::FailDisk { nth }))
        }
        [device, nth, how] => {
            let device = name_in(device)?;
            let nth = nth_in(nth)?;
            let how = how_in(how)?;
            Some(Head::Whole(Command::Fail { device, nth, how }))
        }
        _ => None,
    }
}

/// The stop that two fields give.
pub(crate) fn stop_head(fields: &[&[u8]]) -> Option<Head>
    ensures head { result ≡ stop_head (views fields.now) }
    ensures range { IfSome result IsInRange }
{
    match fields {
        [nth, pick] => {
            let nth = nth_in(nth)?;
            let pick = pick_in(pick)?;
            Some(Head::Whole(Command::Stop { nth, pick }))
        }
        _ => None,
    }
}
