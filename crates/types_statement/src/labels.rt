// The labels of a `switch`.
ghost use Rattle.std.specs.Prelude.{◌≡◌, IfOk, OnOk};
ghost use Rattle.c_tree.specs.View.{label_of as source_label};
ghost use Rattle.types_rules.specs.Scope.{or_zero};
ghost use Rattle.types_rules.specs.StatementRules.{case_rule};
ghost use Rattle.types_rules.specs.Typing.{typed_label};
ghost use Rattle.types_tree.specs.View.{label_of};
ghost use Rattle.types_statement.specs.Labels.{item_rule, label_fault, no_labels, rule_among, with_item, with_label};

use super::checked::CheckedLabel;
use c_tree::statement::{Item, Label as Source};
use indexmap::IndexSet;
use std::alloc::{AllocError, Global};
use std::marker::Model;
use types_declaration::{fault_at, when};
use types_expression::{check, first_of};
use types_rules::{Rule, constant_word};
use types_scope::Table;
use types_tree::statement::Label;

/// The labels so far.
#[derive(Drop)]
pub struct Labels {
    words: IndexSet<u32>,
    has_default: bool,
}

impl Model for Labels {
    ghost use Rattle.types_statement.specs.Labels.{Seen};

    ghost Value = { Seen };

    ghost view = { λ l. record { words = l.words.keys; default = l.has_default } };
}

impl Labels {
    pub fn new(alloc: Global) -> Labels
        ensures { result ≡ no_labels }
    {
        Labels {
            words: IndexSet::new(alloc),
            has_default: false,
        }
    }

    /// The rule of a word that may be missing.
    fn case_rule(&self, word: Option<u32>) -> Option<Rule>
        ensures { result ≡ case_rule word self.now.words }
    {
        match word {
            None => Some(Rule::Constant),
            Some(word) => when(self.words.contains(&word), Rule::Label),
        }
    }

    /// The rule that fails at a label behind these.
    fn rule(&self, label: &Source) -> Option<Rule>
        ensures { result ≡ rule_among (source_label label.now) self.now }
    {
        match label {
            Source::Case { value, .. } => self.case_rule(constant_word(value)),
            Source::Default { .. } => when(self.has_default, Rule::Label),
        }
    }

    fn add(&mut self, label: &Source) -> Result<(), AllocError>
        ensures { OnOk result (self.new ≡ with_label (source_label label.now) self.old) }
    {
        match label {
            Source::Case { value, .. } => match constant_word(value) {
                None => Ok(()),
                Some(word) => {
                    self.words.insert(word)?;
                    Ok(())
                }
            },
            Source::Default { .. } => {
                self.has_default = true;
                Ok(())
            }
        }
    }

    /// The rule that fails at an item behind these labels. One that it has is among them from here on.
    pub fn see(&mut self, item: &Item) -> Result<Option<Rule>, AllocError>
        ensures rule { IfOk result (λ rule. rule ≡ item_rule item.now self.old) }
        ensures after { OnOk result (self.new ≡ with_item item.now self.old) }
    {
        match item {
            Item::Declaration(_) => Ok(None),
            Item::Statement(_) => Ok(None),
            Item::Restriction(_) => Ok(None),
            Item::Label(label) => {
                let rule = self.rule(label);
                self.add(label)?;
                Ok(rule)
            }
        }
    }
}

fn or_zero(word: Option<u32>) -> u32
    ensures { result ≡ or_zero word }
{
    match word {
        Some(word) => word,
        None => 0,
    }
}

/// Checks a label at which this rule fails by itself.
pub fn check_label(
    label: &Source,
    rule: Option<Rule>,
    table: &Table,
    alloc: Global,
) -> Result<CheckedLabel, AllocError>
    ensures label { IfOk result (λ r. label_of r.label ≡ typed_label (source_label label.now) table.now) }
    ensures fault { IfOk result (λ r. r.fault ≡ label_fault rule (source_label label.now) table.now) }
{
    match label {
        Source::Case { value, at } => {
            let word = or_zero(constant_word(value));
            let inner = check(value, false, table, alloc)?;
            Ok(CheckedLabel {
                label: Label::Case {
                    value: Box::into_inner(inner.value.expr),
                    word,
                    at: *at,
                },
                fault: first_of(fault_at(rule, *at), inner.fault),
            })
        }
        Source::Default { at } => Ok(CheckedLabel {
            label: Label::Default { at: *at },
            fault: fault_at(rule, *at),
        }),
    }
}
