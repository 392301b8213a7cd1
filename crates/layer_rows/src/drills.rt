//! Drills, and what a stop leaves behind.
use lab_base::{Kind, Memory, Name};
use plant::{Drill, DrillFault, How, Pick, Plant};
use row_words::{RowFault, Words};

fn how(words: &mut Words<'_>) -> Result<How, RowFault> {
    match words.word() {
        "applied" => Ok(How::Applied),
        "not" => Ok(How::Not),
        "hang" => Ok(How::Hang),
        "jump" => Ok(How::Jump),
        "read" => Ok(How::Read),
        _ => Err(RowFault::Word(Kind::Word)),
    }
}

fn pick(words: &mut Words<'_>) -> Result<Pick, RowFault> {
    match words.word() {
        "none" => Ok(Pick::Nothing),
        "all" => Ok(Pick::All),
        "torn" => Ok(Pick::Torn),
        _ => Err(RowFault::Word(Kind::Word)),
    }
}

/// A failure of the disk or of a device.
fn failure(words: &mut Words<'_>) -> Result<Drill, RowFault> {
    match words.word() {
        "disk" => Ok(Drill::Disk {
            nth: words.number()?,
        }),
        device => Ok(Drill::Device {
            name: Name::read(device.as_bytes())?,
            nth: words.number()?,
            how: how(words)?,
        }),
    }
}

fn stop(words: &mut Words<'_>) -> Result<Drill, RowFault> {
    Ok(Drill::Stop {
        nth: words.number()?,
        pick: pick(words)?,
    })
}

fn plan<P: Plant>(plant: &mut P, drill: Drill) -> Result<&'static str, Memory> {
    match plant.drill(drill) {
        Ok(()) => Ok("planned"),
        Err(DrillFault::CannotPlan) => Ok("no drills"),
        Err(DrillFault::Memory) => Err(Memory),
    }
}

/// Plans a drill, and adds what is told of it, if it is one.
pub fn told<P: Plant>(
    out: &mut String,
    plant: &mut P,
    kind: &str,
    words: &mut Words<'_>,
) -> Result<bool, RowFault> {
    match kind {
        "fail" => out.push_str(plan(plant, failure(words)?)?)?,
        "stop" => out.push_str(plan(plant, stop(words)?)?)?,
        _ => return Ok(false),
    }
    Ok(true)
}
