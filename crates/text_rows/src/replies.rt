//! Texts of replies.
use lab_base::{Boot, Items, Kind, Memory, Name, Text, TextFault, VlanId, What};
use script_text::*;
use std::alloc::Global;
use virt_topo::Broken;

/// Adds the text of a reply, and after one that closes the controller a line that says so.
fn push_text(out: &mut Text, alloc: Global, reply: &Reply) -> Result<(), Memory> {
    out.push_bytes(reply_text(alloc, reply)?.bytes())?;
    if reply.closes() {
        out.push_bytes(b"(closes)\n")?;
    }
    Ok(())
}

/// Adds what is told of a reply, which ends here.
fn push_reply(out: &mut Text, alloc: Global, reply: Reply) -> Result<(), Memory> {
    let pushed = push_text(out, alloc, &reply);
    drop(reply);
    pushed
}

fn named(text: &[u8]) -> Result<Name, Memory> {
    Name::read(text).map_err(|_bad| Memory)
}

/// Adds what is told of commands that are done.
fn push_done(out: &mut Text, alloc: Global, exp: Name) -> Result<(), Memory> {
    let (switches, nodes, trunks, segments) = (1, 2, 0, 1);
    let lab = Reply::Lab {
        switches,
        nodes,
        trunks,
    };
    push_reply(out, alloc, lab)?;
    let created = Reply::Created {
        exp,
        nodes,
        segments,
    };
    push_reply(out, alloc, created)?;
    push_reply(out, alloc, Reply::Deleted { exp })?;
    push_reply(out, alloc, Reply::NoneFits { exp })?;
    push_reply(out, alloc, Reply::GaveUp { exp })
}

/// Adds what is told of labs and experiments that are refused.
fn push_refusals(out: &mut Text, alloc: Global, exp: Name) -> Result<(), Memory> {
    let (line, kind) = (6, Kind::Cycle);
    let fault = TextFault { line, kind };
    push_reply(out, alloc, Reply::NoLab)?;
    push_reply(out, alloc, Reply::LabIsSet)?;
    push_reply(out, alloc, Reply::Exists { exp })?;
    push_reply(out, alloc, Reply::Unknown { exp })?;
    push_reply(out, alloc, Reply::Bad { exp, fault })?;
    push_reply(out, alloc, Reply::BadPtop { fault })?;
    push_reply(out, alloc, Reply::FullExperiments)
}

/// Adds what is told of where experiments stand.
fn push_phases(out: &mut Text, alloc: Global, exp: Name) -> Result<(), Memory> {
    push_reply(out, alloc, Reply::IsIn { exp })?;
    push_reply(out, alloc, Reply::IsMoving { exp })?;
    push_reply(out, alloc, Reply::In { exp })?;
    push_reply(out, alloc, Reply::Out { exp })?;
    push_reply(out, alloc, Reply::IsOut { exp })?;
    push_reply(out, alloc, Reply::More { exp })?;
    push_reply(out, alloc, Reply::Busy { exp })?;
    push_reply(out, alloc, Reply::NotOpen { exp })
}

/// Adds what is told of the controller itself.
fn push_ends(out: &mut Text, alloc: Global) -> Result<(), Memory> {
    let (done, stuck) = (256, 0);
    push_reply(out, alloc, Reply::FullSwaps)?;
    push_reply(out, alloc, Reply::Recovered { done, stuck })?;
    push_reply(out, alloc, Reply::Planned)?;
    push_reply(out, alloc, Reply::NoDrill)?;
    push_reply(out, alloc, Reply::FullJournal { length: 18 })?;
    push_reply(out, alloc, Reply::Down)?;
    push_reply(out, alloc, Reply::Stopped)
}

/// Adds an experiment that is out.
fn push_out(out: &mut Text, alloc: Global, exp: Name) -> Result<(), Memory> {
    let top = Text::from_slice(alloc, b"node a pc linux\n")?;
    let reply = Reply::Shown {
        exp,
        phase: PhaseWord::Out,
        top,
        placed: None,
    };
    push_reply(out, alloc, reply)
}

fn placed(alloc: Global, segment: Name) -> Result<Placed, Memory> {
    let solution = Text::from_slice(alloc, b"node a pc1 pc\n")?;
    let mut tags = Items::new(alloc);
    tags.push(TagLine {
        segment,
        vlan: VlanId(100),
    })?;
    Ok(Placed { solution, tags })
}

/// Adds an experiment that is in.
fn push_in(out: &mut Text, alloc: Global, exp: Name) -> Result<(), Memory> {
    let segment = named(b"ab")?;
    let top = Text::from_slice(alloc, b"node a pc linux\n")?;
    let placed = placed(alloc, segment)?;
    let reply = Reply::Shown {
        exp,
        phase: PhaseWord::In,
        top,
        placed: Some(placed),
    };
    push_reply(out, alloc, reply)
}

fn push_listed(out: &mut Text, alloc: Global, exp: Name) -> Result<(), Memory> {
    let mut experiments = Items::new(alloc);
    experiments.push(StatusLine {
        exp,
        phase: PhaseWord::Out,
        nodes: 0,
        vlans: 0,
    })?;
    let reply = Reply::Listed {
        experiments,
        nodes: 2,
        vlans: 2,
    };
    push_reply(out, alloc, reply)
}

/// Adds what is told of searches and of a mapping that breaks a rule.
fn push_places(out: &mut Text, alloc: Global, exp: Name) -> Result<(), Memory> {
    let (cost, solution) = (u64::MAX, Text::from_slice(alloc, b"node a pc1 pc\n")?);
    let least = Reply::Least {
        exp,
        cost,
        solution,
    };
    push_reply(out, alloc, least)?;
    let (cost, solution) = (0, Text::new(alloc));
    let local = Reply::Local {
        exp,
        cost,
        solution,
    };
    push_reply(out, alloc, local)?;
    let (rule, subject) = (Broken::F5, Text::from_slice(alloc, b"a:1")?);
    push_reply(out, alloc, Reply::Infeasible { exp, rule, subject })
}

/// Adds what is told of a swap that failed with that end, and each cause but the journal's.
fn push_failed(out: &mut Text, alloc: Global, exp: Name, end: FailedEnd) -> Result<(), Memory> {
    let node = named(b"pc2")?;
    let (from, to) = (Boot::Booting, Boot::IsUp);
    for what in [
        What::Device(named(b"s1")?),
        What::Late(node),
        What::Unlawful { node, from, to },
    ] {
        push_reply(out, alloc, Reply::Failed { exp, end, what })?;
    }
    Ok(())
}

/// Adds what is told of swaps that failed.
fn push_failures(out: &mut Text, alloc: Global, exp: Name) -> Result<(), Memory> {
    push_failed(out, alloc, exp, FailedEnd::Out)?;
    push_failed(out, alloc, exp, FailedEnd::In)?;
    let (end, what) = (FailedEnd::In, What::Journal);
    push_reply(out, alloc, Reply::Failed { exp, end, what })?;
    let (end, what) = (FailedEnd::Stuck, What::Device(named(b"s1")?));
    push_reply(out, alloc, Reply::Failed { exp, end, what })?;
    let (end, what) = (FailedEnd::Stuck, What::Journal);
    push_reply(out, alloc, Reply::Failed { exp, end, what })
}

/// Adds what is told of turns in trouble.
fn push_troubles(out: &mut Text, alloc: Global, exp: Name) -> Result<(), Memory> {
    let node = named(b"pc2")?;
    let (from, to) = (Boot::Booting, Boot::Off);
    for what in [
        What::Device(named(b"s1")?),
        What::Late(node),
        What::Unlawful { node, from, to },
    ] {
        push_reply(out, alloc, Reply::Trouble { exp, what })?;
    }
    Ok(())
}

/// The texts of replies.
pub fn told(alloc: Global) -> Result<Text, Memory> {
    let exp = named(b"A")?;
    let mut out = Text::new(alloc);
    push_done(&mut out, alloc, exp)?;
    push_refusals(&mut out, alloc, exp)?;
    push_phases(&mut out, alloc, exp)?;
    push_ends(&mut out, alloc)?;
    push_out(&mut out, alloc, exp)?;
    push_in(&mut out, alloc, exp)?;
    push_listed(&mut out, alloc, exp)?;
    push_places(&mut out, alloc, exp)?;
    push_failures(&mut out, alloc, exp)?;
    push_troubles(&mut out, alloc, exp)?;
    Ok(out)
}
