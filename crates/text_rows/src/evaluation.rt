//! Values and ends of Tcl texts.
ghost use Rattle.std.specs.Prelude.{Ok};
ghost use Rattle.tcl_eval.specs.declared.hosts.Called.TheVariants as called;

use lab_base::{Memory, Text, TextRefused};
use std::alloc::Global;
use tcl_eval::{Called, Host, HostFault, Ran};
use tcl_run::Interp;

/// A host without commands.
#[derive(Drop)]
struct Nobody;

impl Host for Nobody {
    type Objects = ();

    ghost objects = { λ host. tt };

    ghost calls = { λ line objects words. (Ok called.NotMine, objects) };

    ghost hears = { λ objects name value. (Ok tt, objects) };

    fn call(&mut self, _words: &[Text], _line: u32) -> Result<Called, HostFault> {
        Ok(Called::NotMine)
    }

    fn assigned(&mut self, _name: &Text, _value: &Text) -> Result<(), HostFault> {
        Ok(())
    }
}

/// A host that stops at each of its commands.
#[derive(Drop)]
struct Stopper;

impl Host for Stopper {
    type Objects = ();

    ghost objects = { λ host. tt };

    ghost calls = { λ line objects words. (Ok called.Stop, objects) };

    ghost hears = { λ objects name value. (Ok tt, objects) };

    fn call(&mut self, _words: &[Text], _line: u32) -> Result<Called, HostFault> {
        Ok(Called::Stop)
    }

    fn assigned(&mut self, _name: &Text, _value: &Text) -> Result<(), HostFault> {
        Ok(())
    }
}

/// Runs a text of at most 100,000 bytes.
fn ran<H: Host>(interp: &mut Interp<H>, text: &[u8]) -> Result<Ran, TextRefused> {
    if text.len() > 100_000 {
        return Err(TextRefused::Memory);
    }
    interp.run(text)
}

/// Adds `ended` or `stopped` with the line, or the line and the kind of the text's fault.
fn push_ran(out: &mut Text, ran: Result<Ran, TextRefused>) -> Result<(), Memory> {
    match ran {
        Ok(Ran::Ended { line }) => {
            out.push_bytes(b"ended ")?;
            out.push_number(u64::from(line))
        }
        Ok(Ran::Stopped { line }) => {
            out.push_bytes(b"stopped ")?;
            out.push_number(u64::from(line))
        }
        Err(TextRefused::Text(fault)) => {
            out.push_number(u64::from(fault.line))?;
            out.push(b' ')?;
            out.push_bytes(fault.kind.word().as_bytes())
        }
        Err(TextRefused::Memory) => Err(Memory),
    }
}

/// The value that `r` has after a text that an interpreter runs, or `!`.
fn value_by(alloc: Global, interp: &mut Interp<Nobody>, text: &[u8]) -> Result<Text, Memory> {
    let name = Text::from_slice(alloc, b"r")?;
    if ran(interp, text).is_err() {
        return Text::from_slice(alloc, b"!");
    }
    match interp.value(&name) {
        Some(value) => value.copy(),
        None => Text::from_slice(alloc, b"!"),
    }
}

/// The value that `r` has after a text, or `!` where there is none or the text is refused.
pub fn value(alloc: Global, text: &[u8]) -> Result<Text, Memory> {
    let mut interp = Interp::new(alloc, Nobody)?;
    let value = value_by(alloc, &mut interp, text);
    drop(interp);
    value
}

/// How a text ends by an interpreter.
fn told_by<H: Host>(alloc: Global, interp: &mut Interp<H>, text: &[u8]) -> Result<Text, Memory> {
    let mut out = Text::new(alloc);
    push_ran(&mut out, ran(interp, text))?;
    Ok(out)
}

/// How a text ends.
pub fn told(alloc: Global, text: &[u8]) -> Result<Text, Memory> {
    let mut interp = Interp::new(alloc, Nobody)?;
    let told = told_by(alloc, &mut interp, text);
    drop(interp);
    told
}

/// How a text that is refused ends by an interpreter, and then another one.
fn told_of_two(alloc: Global, interp: &mut Interp<Nobody>, text: &[u8]) -> Result<Text, Memory> {
    let mut out = told_by(alloc, interp, b"\nnothing")?;
    out.push(b'\n')?;
    out.push_bytes(told_by(alloc, interp, text)?.bytes())?;
    Ok(out)
}

/// How it ends by an interpreter that has refused a text, with how that one ended.
pub fn told_again(alloc: Global, text: &[u8]) -> Result<Text, Memory> {
    let mut interp = Interp::new(alloc, Nobody)?;
    let told = told_of_two(alloc, &mut interp, text);
    drop(interp);
    told
}

/// How it ends where each command of the host stops it.
pub fn told_stopped(alloc: Global, text: &[u8]) -> Result<Text, Memory> {
    let mut interp = Interp::new(alloc, Stopper)?;
    let told = told_by(alloc, &mut interp, text);
    let _ = interp.into_host();
    told
}
