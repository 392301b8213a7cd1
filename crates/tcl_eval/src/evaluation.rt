//! The evaluation of texts.

ghost use Rattle.std.specs.Prelude.{◌≡◌, ◌+◌, ◌<◌, ◌≤◌, All, IfOk, OnOk, length, drop, Some};
ghost use Rattle.tcl_words.specs.Words.{LiesIn, CommandLiesIn};
ghost use Rattle.tcl_eval.specs.Short.{AllShort};
ghost use Rattle.tcl_eval.specs.Forms.{own};
ghost use Rattle.tcl_eval.specs.Operators.{opening_of};
ghost use Rattle.tcl_eval.specs.declared.commands.Own.TheVariants as owns;
ghost use Rattle.tcl_eval.specs.declared.openings.Opening.TheVariants as openings;

use crate::branches::branches;
use crate::commands::{Own, own_command};
use crate::halts::Halt;
use crate::hosts::Host;
use crate::limits::{MAX_VALUE, deeper, index_levels, indexed_name, short};
use crate::lists::{element_at, joined, words_from};
use crate::literals::literal;
use crate::machine::Machine;
use crate::numbers::{number_in, number_text};
use crate::openings::{Opening, closes_at, opening_at};
use crate::operators::{TIERS, after_blanks, alive, holds, negated, operator_at, turned};
use lab_base::{Kind, TEXT_LIMIT, Text};
use tcl_words::{Command, Part, reference_at, script_end, split};

impl<H: Host> Machine<H> {
    ghost use Rattle.std.specs.Prelude.{◌≡◌, ◌≤◌, []};
    ghost use Rattle.tcl_eval.specs.Machines.{Ended, seen};
    ghost use Rattle.tcl_eval.specs.Jobs.{Value, ValueAt, Truth, Integer, IntegerAt, Whole, Nested, One};
    ghost use Rattle.tcl_eval.specs.Jobs.{Parts, Named, Call, Condition, Expression, Pass, Tier, Operand};

    /// Runs a script. The result is that of its last command.
    #[cycle(eval)]
    fn script(&mut self, text: &[u8], levels: u32, line: u32) -> Result<Text, Halt>
        requires short { length text.now < TEXT_LIMIT }
        ensures evals { Ended (H.calls line) H.hears Value levels (Whole text.now) (seen H.objects self.old) (seen H.objects self.new) result }
        ensures left { self.new.left ≤ self.old.left }
    {
        let commands = split(self.alloc, text)?;
        let mut value = Text::new(self.alloc);
        for command in &commands {
            value = self.command(text, command, levels, line)?;
        }
        Ok(value)
    }

    /// Runs a script one level deeper.
    #[cycle(eval)]
    fn nested(&mut self, text: &[u8], levels: u32, line: u32) -> Result<Text, Halt>
        requires short { length text.now < TEXT_LIMIT }
        ensures evals { Ended (H.calls line) H.hears Value levels (Nested text.now) (seen H.objects self.old) (seen H.objects self.new) result }
        ensures left { self.new.left ≤ self.old.left }
    {
        let levels = deeper(levels)?;
        self.script(text, levels, line)
    }

    /// Runs a command, and gives its result.
    #[cycle(eval)]
    pub(crate) fn command(
        &mut self,
        text: &[u8],
        command: &Command,
        levels: u32,
        line: u32,
    ) -> Result<Text, Halt>
        requires short { length text.now < TEXT_LIMIT }
        requires lies { CommandLiesIn (length text.now) command.now }
        ensures evals { Ended (H.calls line) H.hears Value levels (One text.now command.now) (seen H.objects self.old) (seen H.objects self.new) result }
        ensures left { self.new.left ≤ self.old.left }
    {
        if self.left == 0 {
            return Err(Halt::Fault(Kind::Many));
        }
        self.left -= 1;
        let mut words = Vec::new(self.alloc);
        for word in command.words.as_slice() {
            words.push(self.substitute(text, word.parts.as_slice(), levels, line, false)?)?;
        }
        let value = self.invoke(&words, levels, line)?;
        short(value)
    }

    /// The text of parts, with their variables and scripts substituted.
    #[cycle(eval)]
    fn substitute(
        &mut self,
        text: &[u8],
        parts: &[Part],
        levels: u32,
        line: u32,
        in_index: bool,
    ) -> Result<Text, Halt>
        requires short { length text.now < TEXT_LIMIT }
        requires lie { All (LiesIn (length text.now)) parts.now }
        ensures evals { Ended (H.calls line) H.hears Value levels (Parts text.now in_index parts.now []) (seen H.objects self.old) (seen H.objects self.new)
            result }
        ensures left { self.new.left ≤ self.old.left }
        ensures value { IfOk result (λ value. length value ≤ MAX_VALUE) }
    {
        let mut value = Text::new(self.alloc);
        for part in parts {
            match *part {
                Part::Plain { start, end } => {
                    value.push_bytes(&text[start as usize..end as usize])?;
                }
                Part::Escape { byte } => value.push(byte)?,
                Part::Variable { start, .. } => {
                    let (more, _) = self.variable(text, start as usize, levels, line, in_index)?;
                    value.push_bytes(more.bytes())?;
                }
                Part::Script { start, end } => {
                    let more = self.nested(&text[start as usize..end as usize], levels, line)?;
                    value.push_bytes(more.bytes())?;
                }
            }
        }
        short(value)
    }

    /// The value of the variable at a `$`, and the place after it.
    #[cycle(eval)]
    fn variable(
        &mut self,
        text: &[u8],
        at: usize,
        levels: u32,
        line: u32,
        in_index: bool,
    ) -> Result<(Text, usize), Halt>
        requires short { length text.now < TEXT_LIMIT }
        requires here { at < length text.now }
        ensures evals { Ended (H.calls line) H.hears (λ x. ValueAt x.0 x.1) levels (Named text.now at in_index) (seen H.objects self.old)
            (seen H.objects self.new) result }
        ensures left { self.new.left ≤ self.old.left }
        ensures forward { IfOk result (λ found. (at < found.1) × (found.1 ≤ length text.now)) }
    {
        let Some(found) = reference_at(self.alloc, text, at)? else {
            return Err(Halt::Fault(Kind::Syntax));
        };
        let name = &text[found.name_start..found.name_end];
        let Some(index) = &found.index else {
            return Ok((self.named(name)?, found.end));
        };
        let levels = index_levels(levels, in_index)?;
        let index = self.substitute(text, index.as_slice(), levels, line, true)?;
        let name = short(indexed_name(self.alloc, name, index.bytes())?)?;
        Ok((self.read(&name)?, found.end))
    }

    /// Runs the command of these words, and gives its result.
    #[cycle(eval)]
    fn invoke(&mut self, words: &[Text], levels: u32, line: u32) -> Result<Text, Halt>
        requires words { AllShort words.now }
        ensures evals { Ended (H.calls line) H.hears Value levels (Call words.now) (seen H.objects self.old) (seen H.objects self.new) result }
        ensures left { self.new.left ≤ self.old.left }
    {
        match own_command(words) {
            None => self.run_host(words, line),
            Some(Own::Set) => self.run_set(words),
            Some(Own::Incr) => self.run_incr(words),
            Some(Own::Append) => self.run_append(words),
            Some(Own::Lappend) => self.run_lappend(words),
            Some(Own::Expr) => self.run_expr(words, levels, line),
            Some(Own::If) => self.run_if(words, levels, line),
            Some(Own::For) => self.run_for(words, levels, line),
            Some(Own::Foreach) => self.run_foreach(words, levels, line),
        }
    }

    /// `expr W ..`
    #[cycle(eval)]
    fn run_expr(&mut self, words: &[Text], levels: u32, line: u32) -> Result<Text, Halt>
        requires own { own words.now ≡ Some owns.Expr }
        requires words { AllShort words.now }
        ensures evals { Ended (H.calls line) H.hears Value levels (Call words.now) (seen H.objects self.old) (seen H.objects self.new) result }
        ensures left { self.new.left ≤ self.old.left }
    {
        if words.len() < 2 {
            return Err(Halt::Fault(Kind::Arity));
        }
        let text = short(joined(self.alloc, words_from(words, 1), b" ")?)?;
        let number = self.expression(text.bytes(), levels, line)?;
        Ok(number_text(self.alloc, number)?)
    }

    /// `if C B elseif C B .. else B`
    #[cycle(eval)]
    fn run_if(&mut self, words: &[Text], levels: u32, line: u32) -> Result<Text, Halt>
        requires own { own words.now ≡ Some owns.If }
        requires words { AllShort words.now }
        ensures evals { Ended (H.calls line) H.hears Value levels (Call words.now) (seen H.objects self.old) (seen H.objects self.new) result }
        ensures left { self.new.left ≤ self.old.left }
    {
        let Some(branches) = branches(self.alloc, words)? else {
            return Err(Halt::Fault(Kind::Arity));
        };
        for branch in &branches {
            let taken = match branch.condition {
                Some(place) => self.condition(words[place].bytes(), levels, line)?,
                None => true,
            };
            if taken {
                return self.nested(words[branch.body].bytes(), levels, line);
            }
        }
        Ok(Text::new(self.alloc))
    }

    /// `for START CONDITION NEXT BODY`
    #[cycle(eval)]
    fn run_for(&mut self, words: &[Text], levels: u32, line: u32) -> Result<Text, Halt>
        requires own { own words.now ≡ Some owns.For }
        requires words { AllShort words.now }
        ensures evals { Ended (H.calls line) H.hears Value levels (Call words.now) (seen H.objects self.old) (seen H.objects self.new) result }
        ensures left { self.new.left ≤ self.old.left }
    {
        if words.len() != 5 {
            return Err(Halt::Fault(Kind::Arity));
        }
        let condition = &words[2];
        let next = &words[3];
        let body = &words[4];
        self.nested(words[1].bytes(), levels, line)?;
        while self.condition(condition.bytes(), levels, line)? {
            self.nested(body.bytes(), levels, line)?;
            self.nested(next.bytes(), levels, line)?;
        }
        Ok(Text::new(self.alloc))
    }

    /// `foreach V L B`
    #[cycle(eval)]
    fn run_foreach(&mut self, words: &[Text], levels: u32, line: u32) -> Result<Text, Halt>
        requires own { own words.now ≡ Some owns.Foreach }
        requires words { AllShort words.now }
        ensures evals { Ended (H.calls line) H.hears Value levels (Call words.now) (seen H.objects self.old) (seen H.objects self.new) result }
        ensures left { self.new.left ≤ self.old.left }
    {
        if words.len() != 4 {
            return Err(Halt::Fault(Kind::Arity));
        }
        let name = &words[1];
        let list = &words[2];
        let body = &words[3];
        let mut at = 0;
        while let Some((start, end)) = element_at(list.bytes(), at) {
            let element = Text::from_slice(self.alloc, &list.bytes()[start..end])?;
            self.write(name, &element)?;
            self.nested(body.bytes(), levels, line)?;
            at = end;
        }
        Ok(Text::new(self.alloc))
    }

    /// Whether a condition holds.
    #[cycle(eval)]
    fn condition(&mut self, text: &[u8], levels: u32, line: u32) -> Result<bool, Halt>
        requires short { length text.now ≤ MAX_VALUE }
        ensures evals { Ended (H.calls line) H.hears Truth levels (Condition text.now) (seen H.objects self.old) (seen H.objects self.new) result }
        ensures left { self.new.left ≤ self.old.left }
        ensures spent { OnOk result (self.new.left < self.old.left) }
    {
        if self.left == 0 {
            return Err(Halt::Fault(Kind::Many));
        }
        self.left -= 1;
        let value = self.expression(text, levels, line)?;
        Ok(holds(value))
    }

    /// The value of an expression. A malformed one is refused before anything in it is evaluated.
    #[cycle(eval)]
    fn expression(&mut self, text: &[u8], levels: u32, line: u32) -> Result<i64, Halt>
        requires short { length text.now ≤ MAX_VALUE }
        ensures evals { Ended (H.calls line) H.hears Integer levels (Expression text.now) (seen H.objects self.old) (seen H.objects self.new) result }
        ensures left { self.new.left ≤ self.old.left }
    {
        self.whole(text, levels, line, false)?;
        self.whole(text, levels, line, true)
    }

    /// The value of a text that is one expression. Where it isn't live nothing is evaluated, and the value is 0.
    #[cycle(eval)]
    fn whole(&mut self, text: &[u8], levels: u32, line: u32, live: bool) -> Result<i64, Halt>
        requires short { length text.now ≤ MAX_VALUE }
        ensures evals { Ended (H.calls line) H.hears Integer levels (Pass text.now live) (seen H.objects self.old) (seen H.objects self.new) result }
        ensures left { self.new.left ≤ self.old.left }
    {
        let (value, end) = self.tier(text, 0, 0, levels, line, live)?;
        if after_blanks(text, end) < text.len() {
            return Err(Halt::Fault(Kind::Syntax));
        }
        Ok(value)
    }

    /// The value of operands joined by operators of this tier and tighter ones, and the place after them. Where it isn't live nothing is evaluated,
    /// and the value is 0.
    #[cycle(eval)]
    fn tier(
        &mut self,
        text: &[u8],
        at: usize,
        tier: u32,
        levels: u32,
        line: u32,
        live: bool,
    ) -> Result<(i64, usize), Halt>
        requires short { length text.now ≤ MAX_VALUE }
        requires here { at ≤ length text.now }
        requires tiers { tier ≤ TIERS }
        ensures evals { Ended (H.calls line) H.hears (λ x. IntegerAt x.0 x.1) levels (Tier text.now at tier live) (seen H.objects self.old)
            (seen H.objects self.new) result }
        ensures left { self.new.left ≤ self.old.left }
        ensures forward { IfOk result (λ found. (at < found.1) × (found.1 ≤ length text.now)) }
    {
        if tier == TIERS {
            return self.operand(text, after_blanks(text, at), levels, line, live);
        }
        let (mut left, mut at) = self.tier(text, at, tier + 1, levels, line, live)?;
        while let Some((operator, start)) = operator_at(text, at, tier) {
            let needed = operator.is_needed(left, live);
            let (right, end) = self.tier(text, start, tier + 1, levels, line, needed)?;
            if live {
                left = operator.apply(left, right)?;
            }
            at = end;
        }
        Ok((left, at))
    }

    /// The value of the operand at a place, and the place after it.
    #[cycle(eval)]
    fn operand(
        &mut self,
        text: &[u8],
        at: usize,
        levels: u32,
        line: u32,
        live: bool,
    ) -> Result<(i64, usize), Halt>
        requires short { length text.now ≤ MAX_VALUE }
        requires here { at ≤ length text.now }
        ensures evals { Ended (H.calls line) H.hears (λ x. IntegerAt x.0 x.1) levels (Operand text.now at live) (seen H.objects self.old)
            (seen H.objects self.new) result }
        ensures left { self.new.left ≤ self.old.left }
        ensures forward { IfOk result (λ found. (at < found.1) × (found.1 ≤ length text.now)) }
    {
        match opening_at(text, at) {
            Opening::Not => self.not_operand(text, at, levels, line, live),
            Opening::Minus => self.minus_operand(text, at, levels, line, live),
            Opening::Parenthesis => self.inner_operand(text, at, levels, line, live),
            Opening::Digits => Ok(literal(text, at, live)?),
            Opening::Dollar => self.dollar_operand(text, at, levels, line, live),
            Opening::Bracket => self.bracket_operand(text, at, levels, line, live),
            Opening::Nothing => Err(Halt::Fault(Kind::Syntax)),
        }
    }

    /// The value of `!` and its operand: 1 where the operand is 0, else 0.
    #[cycle(eval)]
    fn not_operand(
        &mut self,
        text: &[u8],
        at: usize,
        levels: u32,
        line: u32,
        live: bool,
    ) -> Result<(i64, usize), Halt>
        requires short { length text.now ≤ MAX_VALUE }
        requires here { at < length text.now }
        requires opening { opening_of (drop at text.now) ≡ openings.Not }
        ensures evals { Ended (H.calls line) H.hears (λ x. IntegerAt x.0 x.1) levels (Operand text.now at live) (seen H.objects self.old)
            (seen H.objects self.new) result }
        ensures left { self.new.left ≤ self.old.left }
        ensures forward { IfOk result (λ found. (at < found.1) × (found.1 ≤ length text.now)) }
    {
        let levels = deeper(levels)?;
        let (value, end) = self.operand(text, after_blanks(text, at + 1), levels, line, live)?;
        Ok((alive(turned(value), live), end))
    }

    /// The value of `-` and its operand.
    #[cycle(eval)]
    fn minus_operand(
        &mut self,
        text: &[u8],
        at: usize,
        levels: u32,
        line: u32,
        live: bool,
    ) -> Result<(i64, usize), Halt>
        requires short { length text.now ≤ MAX_VALUE }
        requires here { at < length text.now }
        requires opening { opening_of (drop at text.now) ≡ openings.Minus }
        ensures evals { Ended (H.calls line) H.hears (λ x. IntegerAt x.0 x.1) levels (Operand text.now at live) (seen H.objects self.old)
            (seen H.objects self.new) result }
        ensures left { self.new.left ≤ self.old.left }
        ensures forward { IfOk result (λ found. (at < found.1) × (found.1 ≤ length text.now)) }
    {
        let levels = deeper(levels)?;
        let (value, end) = self.operand(text, after_blanks(text, at + 1), levels, line, live)?;
        Ok((negated(value)?, end))
    }

    /// The value between parentheses.
    #[cycle(eval)]
    fn inner_operand(
        &mut self,
        text: &[u8],
        at: usize,
        levels: u32,
        line: u32,
        live: bool,
    ) -> Result<(i64, usize), Halt>
        requires short { length text.now ≤ MAX_VALUE }
        requires here { at < length text.now }
        requires opening { opening_of (drop at text.now) ≡ openings.Parenthesis }
        ensures evals { Ended (H.calls line) H.hears (λ x. IntegerAt x.0 x.1) levels (Operand text.now at live) (seen H.objects self.old)
            (seen H.objects self.new) result }
        ensures left { self.new.left ≤ self.old.left }
        ensures forward { IfOk result (λ found. (at < found.1) × (found.1 ≤ length text.now)) }
    {
        let levels = deeper(levels)?;
        let (value, end) = self.tier(text, at + 1, 0, levels, line, live)?;
        let end = after_blanks(text, end);
        if !closes_at(text, end) {
            return Err(Halt::Fault(Kind::Syntax));
        }
        Ok((value, end + 1))
    }

    /// The number that a variable holds.
    #[cycle(eval)]
    fn dollar_operand(
        &mut self,
        text: &[u8],
        at: usize,
        levels: u32,
        line: u32,
        live: bool,
    ) -> Result<(i64, usize), Halt>
        requires short { length text.now ≤ MAX_VALUE }
        requires here { at < length text.now }
        requires opening { opening_of (drop at text.now) ≡ openings.Dollar }
        ensures evals { Ended (H.calls line) H.hears (λ x. IntegerAt x.0 x.1) levels (Operand text.now at live) (seen H.objects self.old)
            (seen H.objects self.new) result }
        ensures left { self.new.left ≤ self.old.left }
        ensures forward { IfOk result (λ found. (at < found.1) × (found.1 ≤ length text.now)) }
    {
        if live {
            let (value, end) = self.variable(text, at, levels, line, false)?;
            return Ok((number_in(value)?, end));
        }
        match reference_at(self.alloc, text, at)? {
            Some(found) => Ok((0, found.end)),
            None => Err(Halt::Fault(Kind::Syntax)),
        }
    }

    /// The number that the script in a bracket results in.
    #[cycle(eval)]
    fn bracket_operand(
        &mut self,
        text: &[u8],
        at: usize,
        levels: u32,
        line: u32,
        live: bool,
    ) -> Result<(i64, usize), Halt>
        requires short { length text.now ≤ MAX_VALUE }
        requires here { at < length text.now }
        requires opening { opening_of (drop at text.now) ≡ openings.Bracket }
        ensures evals { Ended (H.calls line) H.hears (λ x. IntegerAt x.0 x.1) levels (Operand text.now at live) (seen H.objects self.old)
            (seen H.objects self.new) result }
        ensures left { self.new.left ≤ self.old.left }
        ensures forward { IfOk result (λ found. (at < found.1) × (found.1 ≤ length text.now)) }
    {
        let end = script_end(self.alloc, text, at)?;
        if !live {
            return Ok((0, end));
        }
        let value = self.nested(&text[at + 1..end - 1], levels, line)?;
        Ok((number_in(value)?, end))
    }
}
