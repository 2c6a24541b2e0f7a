// Code: statements, one after another.
ghost use Rattle.std.specs.Prelude.{◌≡◌, IfOk};
ghost use Rattle.make_pieces.specs.View.{code_of};
ghost use Rattle.high_code.specs.Code.{alone, is_empty, joined};
ghost use Rattle.high_ir.specs.Tree.{Block, End, Seq, Then};
ghost use Rattle.high_ir.specs.View.{statement_of};

use high_ir::statement::Statement;
use high_ir::statements::{block, let_go};
use std::alloc::Global;
use wcc_base::Memory;

/// Statements, one after another.
#[derive(Drop)]
pub struct Code {
    pub statements: Vec<Statement>,
}

impl Code {
    /// No statement.
    pub fn new(alloc: Global) -> Code
        ensures { code_of result ≡ End }
    {
        Code {
            statements: Vec::new(alloc),
        }
    }

    pub fn let_go(self) {
        drop(self);
    }

    pub fn is_empty(&self) -> bool
        ensures { result ≡ is_empty (code_of self.now) }
    {
        self.statements.is_empty()
    }

    /// The same, and then one more.
    #[tactic(auto, using(crate::proofs::Lists::statements_push))]
    pub fn then(self, statement: Statement) -> Result<Code, Memory>
        ensures { IfOk result (λ c. code_of c ≡ joined (code_of self) (alone (statement_of statement))) }
    {
        let mut statements = self.statements;
        statements.push(statement)?;
        Ok(Code { statements })
    }

    /// The same, and then two more.
    #[tactic(auto, using(crate::proofs::Lists::joined_then))]
    pub fn then_both(self, first: Statement, second: Statement) -> Result<Code, Memory>
        ensures { IfOk result (λ c. code_of c ≡ joined (code_of self) (Then (statement_of first) (alone (statement_of second)))) }
    {
        match self.then(first) {
            Ok(code) => code.then(second),
            Err(memory) => {
                let_go(second);
                Err(memory)
            }
        }
    }

    /// The same, and then other code, whose statements are moved.
    #[tactic(auto, using(crate::proofs::Lists::statements_append))]
    pub fn joined(self, after: Code) -> Result<Code, Memory>
        ensures { IfOk result (λ c. code_of c ≡ joined (code_of self) (code_of after)) }
    {
        let mut statements = self.statements;
        let mut rest = after.statements;
        statements.append(&mut rest)?;
        Ok(Code { statements })
    }

    /// Code of one statement.
    pub fn alone(alloc: Global, statement: Statement) -> Result<Code, Memory>
        ensures { IfOk result (λ c. code_of c ≡ alone (statement_of statement)) }
    {
        Code::new(alloc).then(statement)
    }

    /// The statement that does what the code does.
    #[tactic(auto, using(crate::proofs::Lists::seq_view))]
    pub fn seq(self) -> Statement
        ensures { statement_of result ≡ Seq (code_of self) }
    {
        Statement::Seq(self.statements)
    }

    /// Code that is a block of this code.
    pub fn in_block(self, alloc: Global) -> Result<Code, Memory>
        ensures { IfOk result (λ c. code_of c ≡ alone (Block (Seq (code_of self)))) }
    {
        Code::alone(alloc, block(alloc, self.seq())?)
    }
}
