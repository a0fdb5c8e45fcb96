//! Writes contents as texts.

ghost use Rattle.std.specs.Prelude.{◌≡◌, ℕ, List, ◌++◌, IfOk, OnOk};
ghost use Rattle.std.specs.String.{string_bytes};
ghost use Rattle.ds_formula.specs.declared.cells.Shape.{Shape};
ghost use Rattle.ds_formula.specs.Plain.{PlainContent, formula, plain};
ghost use Rattle.ds_formula.specs.Grammar.{Reads, ReadsLong};
ghost use Rattle.ds_formula.specs.Texts.{sign_text, operator_text, precedence, text_of, wrapped, content_text};

use crate::content::{Content, Operator, Sign, Tree};
use crate::parser::level_of;
use std::alloc::{AllocError, Global};
use std::fmt::Write;

fn sign_text(sign: Sign) -> &'static str
    ensures { result.now ≡ sign_text sign }
{
    match sign {
        Sign::Plus => "+",
        Sign::Minus => "-",
    }
}

fn operator_text(operator: Operator) -> &'static str
    ensures { result.now ≡ operator_text operator }
{
    match operator {
        Operator::Multiply => "*",
        Operator::Add => "+",
        Operator::Subtract => "-",
        Operator::Equal => "=",
        Operator::NotEqual => "<>",
        Operator::Less => "<",
        Operator::Greater => ">",
        Operator::LessOrEqual => "<=",
        Operator::GreaterOrEqual => ">=",
    }
}

impl Tree {
    // How tightly its parts hold together: 3 where it is an operand.
    fn precedence(&self) -> usize
        ensures { result ≡ precedence (formula self.now) }
    {
        match self {
            Tree::Binary(operator, _, _) => level_of(*operator),
            _ => 3,
        }
    }

    // Appends it to the text.
    #[cycle(writing)]
    fn write(&self, text: &mut String) -> Result<(), AllocError>
        ensures { OnOk result (string_bytes text.new ≡ string_bytes text.old ++ text_of (formula self.now)) }
    {
        match self {
            Tree::Number(number) => write!(text, "{number}"),
            Tree::Reference(cell) => write!(text, "[.{cell}]"),
            Tree::Range(area) => write!(text, "[.{}:.{}]", area.first, area.last),
            Tree::Prefix(sign, operand) => {
                text.push_str(sign_text(*sign))?;
                operand.write_in(3, text)
            }
            Tree::Binary(operator, left, right) => {
                let level = level_of(*operator);
                left.write_in(level, text)?;
                text.push_str(operator_text(*operator))?;
                right.write_in(level + 1, text)
            }
            Tree::Call(function, arguments) => {
                text.push_str(function.name())?;
                text.push_str("(")?;
                for (index, argument) in arguments.iter().enumerate() {
                    if index > 0 {
                        text.push_str(";")?;
                    }
                    argument.write(text)?;
                }
                text.push_str(")")
            }
        }
    }

    // Writes it where a form of this level may stand, in parentheses where its own is looser.
    #[cycle(writing)]
    fn write_in(&self, level: usize, text: &mut String) -> Result<(), AllocError>
        ensures { OnOk result (string_bytes text.new ≡ string_bytes text.old ++ wrapped level (formula self.now)) }
    {
        if self.precedence() < level {
            text.push_str("(")?;
            self.write(text)?;
            text.push_str(")")
        } else {
            self.write(text)
        }
    }
}

impl Content {
    /// A text that reads back as an equal content, however long it is, where this one was read: in capital letters,
    /// without white space, and without parentheses that precedence makes needless. The only error is a failed
    /// allocation.
    pub fn text(&self, alloc: Global) -> Result<String, AllocError>
        ensures { IfOk result (λ t. string_bytes t ≡ content_text (plain self.now)) }
    {
        let mut text = String::new(alloc);
        match self {
            Content::Blank => {}
            Content::Number(number) => write!(text, "{number}")?,
            Content::Formula(tree) => {
                text.push_str("=")?;
                tree.write(&mut text)?;
            }
        }
        Ok(text)
    }
}

/// The text of a content that was read reads back as that content, however long it is.
pub fn reads_back()
    ensures { (shape : Shape) (text : List ℕ) (content : PlainContent) → Reads shape text content → ReadsLong shape (content_text content) content }
{}
