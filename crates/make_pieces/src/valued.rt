// Code, and the value that it leaves.
ghost use Rattle.std.specs.Prelude.{◌≡◌, IfNone, IfOk, IfSome, false, true};
ghost use Rattle.make_pieces.specs.View.{code_of, is_loose, leaf_expr, steady_of, valued_of};
ghost use Rattle.high_code.specs.Code.{joined, nothing};
ghost use Rattle.high_ir.specs.Tree.{Leave};
ghost use Rattle.high_ir.specs.View.{expr_of, statement_of};
ghost use Rattle.plan_definition.specs.Values.{finished, firm, held, jumping, kept, known, leaf, only_code, placed};

use super::changes::{is_changed, is_next};
use super::code::Code;
use super::expr::{Leaf, leaf_of};
use super::statements::nothing;
use high_ir::expression::Expr;
use high_ir::statement::Statement;
use high_ir::statements::choice;
use plan_definition::Purpose;
use std::alloc::Global;
use wcc_base::Memory;

/// Code, and the value that it leaves.
#[derive(Drop)]
pub struct Valued {
    pub code: Code,
    pub value: Expr,
}

/// Code, and the value that it leaves in a constant or a variable.
#[derive(Drop)]
pub struct Steady {
    pub code: Code,
    pub value: Leaf,
}

impl Steady {
    pub fn let_go(self) {
        drop(self);
    }

    pub fn valued(self) -> Valued
        ensures { valued_of result ≡ steady_of self }
    {
        Valued {
            code: self.code,
            value: self.value.expr(),
        }
    }
}

impl Valued {
    pub fn let_go(self) {
        drop(self);
    }

    /// A value that is known.
    pub fn known(alloc: Global, word: u32) -> Valued
        ensures { valued_of result ≡ known word }
    {
        Valued {
            code: Code::new(alloc),
            value: Expr::Constant(word),
        }
    }

    /// Code whose value is dropped.
    pub fn only_code(code: Code) -> Valued
        ensures { valued_of result ≡ only_code (code_of code) }
    {
        Valued {
            code,
            value: Expr::Constant(0),
        }
    }

    /// The code, which drops its value.
    pub fn code(self) -> Code
        ensures { code_of result ≡ (valued_of self).code }
    {
        drop(self.value);
        self.code
    }

    /// A test with its two ways.
    fn jumping(self, alloc: Global, first: Statement, other: Statement) -> Result<Valued, Memory>
        ensures { IfOk result (λ v. valued_of v ≡ jumping (valued_of self) (statement_of first) (statement_of other)) }
    {
        let Valued { code, value } = self;
        match choice(alloc, value, first, other) {
            Ok(jump) => Ok(Valued::only_code(code.then(jump)?)),
            Err(memory) => {
                code.let_go();
                Err(memory)
            }
        }
    }

    /// Code for a value, made to serve a purpose.
    pub fn finished(self, alloc: Global, purpose: Purpose) -> Result<Valued, Memory>
        ensures { IfOk result (λ v. valued_of v ≡ finished purpose (valued_of self)) }
    {
        match purpose {
            Purpose::Value => Ok(self),
            Purpose::Effect => Ok(self),
            Purpose::Unless { depth } => {
                self.jumping(alloc, nothing(alloc), Statement::Leave { depth })
            }
            Purpose::When { depth } => {
                self.jumping(alloc, Statement::Leave { depth }, nothing(alloc))
            }
        }
    }

    /// Code that puts the value into a variable.
    pub fn placed(self, x: u32) -> Result<Code, Memory>
        ensures { IfOk result (λ c. code_of c ≡ placed x (valued_of self)) }
    {
        let Valued { code, value } = self;
        code.then(Statement::Set { variable: x, value })
    }

    /// The value in a temporary, and then other code.
    #[tactic(auto, using(crate::proofs::Lists::joined_then))]
    fn stored(self, k: u32, after: Code) -> Result<Code, Memory>
        ensures { IfOk result (λ c. code_of c ≡ (held true k (valued_of self) (code_of after)).code) }
    {
        match self.placed(k) {
            Ok(code) => code.joined(after),
            Err(memory) => {
                after.let_go();
                Err(memory)
            }
        }
    }

    /// A value and then other code; in the temporary while that runs, where it is needed.
    fn held(self, needed: bool, k: u32, after: Code) -> Result<Valued, Memory>
        ensures { IfOk result (λ v. valued_of v ≡ held needed k (valued_of self) (code_of after)) }
    {
        if needed {
            return Ok(Valued {
                code: self.stored(k, after)?,
                value: Expr::Variable(k),
            });
        }
        let Valued { code, value } = self;
        match code.joined(after) {
            Ok(code) => Ok(Valued { code, value }),
            Err(memory) => {
                drop(value);
                Err(memory)
            }
        }
    }

    /// A value that other code leaves as it is.
    pub fn kept(self, k: u32, after: Code) -> Result<Valued, Memory>
        ensures { IfOk result (λ v. valued_of v ≡ kept k (valued_of self) (code_of after)) }
    {
        let needed = !after.is_empty() && is_changed(&self.value, &after);
        self.held(needed, k, after)
    }

    /// The leaf that the value is, where other code, and then an assignment to the next temporary, leave it as it is.
    fn steady_leaf(&self, k: u32, after: &Code) -> Option<Leaf>
        ensures same { IfSome result (λ l. leaf_expr l ≡ expr_of self.now.value) }
        ensures some { IfSome result (λ l. is_loose k (expr_of self.now.value) (code_of after.now) ≡ false) }
        ensures none { IfNone result (is_loose k (expr_of self.now.value) (code_of after.now) ≡ true) }
    {
        let Some(leaf) = leaf_of(&self.value) else {
            return None;
        };
        if is_changed(&self.value, after) {
            return None;
        }
        if is_next(k, &self.value) {
            return None;
        }
        Some(leaf)
    }

    /// The code, whose value is known to be a leaf, and then other code.
    fn with_leaf(self, leaf: Leaf, after: Code) -> Result<Steady, Memory>
        ensures code { IfOk result (λ v. code_of v.code ≡ joined (code_of self.code) (code_of after)) }
        ensures value { IfOk result (λ v. v.value ≡ leaf) }
    {
        Ok(Steady {
            code: self.code().joined(after)?,
            value: leaf,
        })
    }

    /// The value in a temporary, and then other code.
    fn in_temporary(self, k: u32, after: Code) -> Result<Steady, Memory>
        ensures { IfOk result (λ v. steady_of v ≡ held true k (valued_of self) (code_of after)) }
    {
        Ok(Steady {
            code: self.stored(k, after)?,
            value: Leaf::Variable(k),
        })
    }

    /// A leaf that other code, and then an assignment to the next temporary, leave as it is.
    pub fn firm(self, k: u32, after: Code) -> Result<Steady, Memory>
        ensures { IfOk result (λ v. steady_of v ≡ firm k (valued_of self) (code_of after)) }
    {
        match self.steady_leaf(k, &after) {
            Some(leaf) => self.with_leaf(leaf, after),
            None => self.in_temporary(k, after),
        }
    }

    /// The value as a leaf.
    #[tactic(auto, using(crate::proofs::Lists::joined_end))]
    pub fn leaf(self, k: u32) -> Result<Steady, Memory>
        ensures { IfOk result (λ v. steady_of v ≡ leaf k (valued_of self)) }
    {
        match leaf_of(&self.value) {
            Some(value) => Ok(Steady {
                code: self.code(),
                value,
            }),
            None => Ok(Steady {
                code: self.placed(k)?,
                value: Leaf::Variable(k),
            }),
        }
    }
}
