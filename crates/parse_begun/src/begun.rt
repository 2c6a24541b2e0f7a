ghost use Rattle.std.specs.Prelude.{◌≡◌, IfErr, IfOk};
ghost use Rattle.parse_begun.specs.declared.refusal.Refusal.TheVariants.{Memory, Syntax};

use super::part::{
    ExternalParts, ItemParts, MaybePart, ObjectPart, ObjectParts, ParamParts, Part, Parts,
    ShapePart, StartPart, StatementPart,
};
use super::refusal::Refusal;
use c_tree::expression::{AssignOperator, BinaryOperator, NameId, PrefixOperator, Specifier};
use c_tree::pragma::Pragma;
use std::alloc::Global;

/// A name, at its place.
#[derive(Clone, Copy)]
pub struct NameAt {
    pub name: NameId,
    pub at: u32,
}

/// The header of a function definition, behind what stands before it at file level.
#[derive(Drop)]
pub struct Header {
    pub specifiers: Vec<Specifier>,
    pub name: NameAt,
    pub params: ParamParts,
    pub body_at: u32,
    pub at: u32,
    pub front: ExternalParts,
}

/// A loop by its keyword's place and the pragma before it.
#[derive(Drop)]
pub struct Loop {
    pub bound: Option<Pragma>,
    pub at: u32,
}

/// A `for` behind the first part of its head.
#[derive(Drop)]
pub struct StartedFor {
    pub bound: Option<Pragma>,
    pub start: StartPart,
    pub at: u32,
}

/// A `for` behind the test in its head.
#[derive(Drop)]
pub struct TestedFor {
    pub bound: Option<Pragma>,
    pub start: StartPart,
    pub test: MaybePart,
    pub at: u32,
}

/// A `for` behind its head.
#[derive(Drop)]
pub struct HeadedFor {
    pub bound: Option<Pragma>,
    pub start: StartPart,
    pub test: MaybePart,
    pub step: MaybePart,
    pub at: u32,
}

impl Loop {
    pub fn let_go(self) {
        drop(self);
    }

    /// A `for` behind the first part of its head.
    pub fn started(self, start: StartPart) -> StartedFor
        ensures bound { result.bound ≡ self.bound }
        ensures start { result.start ≡ start }
        ensures at { result.at ≡ self.at }
    {
        StartedFor {
            bound: self.bound,
            start,
            at: self.at,
        }
    }
}

impl StartedFor {
    pub fn boxed(self, alloc: Global) -> Result<Box<StartedFor>, Refusal>
        ensures ok { IfOk result (λ b. b.value ≡ self) }
        ensures err { IfErr result (λ e. e ≡ Memory) }
    {
        Ok(Box::new(alloc, self)?)
    }

    pub fn let_go(self) {
        drop(self);
    }

    /// The same behind its test.
    pub fn tested(self, test: MaybePart) -> TestedFor
        ensures bound { result.bound ≡ self.bound }
        ensures start { result.start ≡ self.start }
        ensures test { result.test ≡ test }
        ensures at { result.at ≡ self.at }
    {
        TestedFor {
            bound: self.bound,
            start: self.start,
            test,
            at: self.at,
        }
    }
}

impl TestedFor {
    pub fn boxed(self, alloc: Global) -> Result<Box<TestedFor>, Refusal>
        ensures ok { IfOk result (λ b. b.value ≡ self) }
        ensures err { IfErr result (λ e. e ≡ Memory) }
    {
        Ok(Box::new(alloc, self)?)
    }

    pub fn let_go(self) {
        drop(self);
    }

    /// The same behind its head.
    pub fn headed(self, step: MaybePart) -> HeadedFor
        ensures bound { result.bound ≡ self.bound }
        ensures start { result.start ≡ self.start }
        ensures test { result.test ≡ self.test }
        ensures step { result.step ≡ step }
        ensures at { result.at ≡ self.at }
    {
        HeadedFor {
            bound: self.bound,
            start: self.start,
            test: self.test,
            step,
            at: self.at,
        }
    }
}

impl HeadedFor {
    pub fn boxed(self, alloc: Global) -> Result<Box<HeadedFor>, Refusal>
        ensures ok { IfOk result (λ b. b.value ≡ self) }
        ensures err { IfErr result (λ e. e ≡ Memory) }
    {
        Ok(Box::new(alloc, self)?)
    }

    pub fn let_go(self) {
        drop(self);
    }
}

/// What a statement stands in.
#[cycle(frames)]
#[derive(Drop)]
pub enum Frames {
    InItems(ItemParts, Box<Braces>),
    InThen {
        test: Part,
        at: u32,
        under: Box<Frames>,
    },
    InElse {
        test: Part,
        first: Box<StatementPart>,
        at: u32,
        under: Box<Frames>,
    },
    InWhile(Loop, Part, Box<Frames>),
    InDo(Loop, Box<Frames>),
    InFor(Box<HeadedFor>, Box<Frames>),
}

/// What the items between braces belong to.
#[cycle(frames)]
#[derive(Drop)]
pub enum Braces {
    OfBlock {
        at: u32,
        under: Box<Frames>,
    },
    OfSwitch {
        test: Part,
        at: u32,
        under: Box<Frames>,
    },
    OfFunction(Header),
}

/// Where a declaration stands.
#[derive(Drop)]
pub enum Scope {
    AtFile(ExternalParts),
    AmongItems(ItemParts, Box<Braces>),
    AtFor(Loop, Box<Frames>),
}

/// A declaration of objects, as far as they are whole.
#[derive(Drop)]
pub struct Head {
    pub specifiers: Vec<Specifier>,
    pub objects: ObjectParts,
    pub at: u32,
    pub scope: Scope,
}

/// A function's specifiers and its name, at the place of the first specifier.
#[derive(Drop)]
pub struct Proto {
    pub specifiers: Vec<Specifier>,
    pub name: NameAt,
    pub at: u32,
    pub scope: Scope,
}

/// A parameter behind its name, or behind its specifiers where it has none.
#[derive(Drop)]
pub struct NamedParam {
    pub proto: Proto,
    pub front: ParamParts,
    pub specifiers: Vec<Specifier>,
    pub name: Option<NameId>,
    pub at: u32,
}

/// What may have a size.
#[derive(Drop)]
pub enum Declarator {
    OfObject(Head, NameAt),
    OfParam(NamedParam),
}

/// An object whose initial value is read, behind those of its declaration that are whole.
#[derive(Drop)]
pub struct Receiver {
    pub head: Head,
    pub name: NameAt,
    pub shape: ShapePart,
}

/// What a test in round brackets belongs to.
#[derive(Drop)]
pub enum Test {
    OfIf { at: u32, under: Box<Frames> },
    OfWhile(Loop, Box<Frames>),
    OfDo(Loop, Box<StatementPart>, Box<Frames>),
    OfChoice { at: u32, under: Box<Frames> },
}

/// What a whole expression stands in.
#[derive(Drop)]
pub enum Purpose {
    Evaluates(Box<Frames>),
    Returns {
        at: u32,
        under: Box<Frames>,
    },
    Tests(Test),
    Starts(Loop, Box<Frames>),
    Guards(Box<StartedFor>, Box<Frames>),
    Repeats(Box<TestedFor>, Box<Frames>),
    Sizes(Box<Declarator>),
    Initialises(Box<Receiver>),
    Lists(Box<Receiver>, Parts),
    Labels {
        front: ItemParts,
        braces: Box<Braces>,
        at: u32,
    },
}

/// What an operand stands in, the innermost part first.
#[derive(Drop)]
pub enum Stack {
    Base(Purpose),
    InParen {
        at: u32,
        under: Box<Stack>,
    },
    InIndex(NameAt, Box<Stack>),
    InCall(NameAt, Parts, Box<Stack>),
    AfterPrefix {
        operator: PrefixOperator,
        at: u32,
        under: Box<Stack>,
    },
    AfterCast {
        specifiers: Vec<Specifier>,
        at: u32,
        under: Box<Stack>,
    },
    AfterJoin {
        operator: BinaryOperator,
        left: Part,
        under: Box<Stack>,
    },
    AfterQuestion {
        test: Part,
        under: Box<Stack>,
    },
    AfterColon {
        test: Part,
        first: Box<Part>,
        under: Box<Stack>,
    },
    AfterAssign {
        operator: AssignOperator,
        target: Part,
        under: Box<Stack>,
    },
}

/// How far an operand is.
#[derive(Drop)]
pub enum AtOperand {
    Wants,
    Has(Part),
    Opened { at: u32 },
    Typed { specifiers: Vec<Specifier>, at: u32 },
    Called(NameAt),
}

/// How far a statement is.
#[derive(Drop)]
pub enum AtStatement {
    Begins,
    Stands(StatementPart),
    Closes(StatementPart),
    Bounded(Pragma),
    Chooses { test: Part, at: u32 },
    Answers { at: u32 },
    Loops(Loop),
    LoopStarts(Loop),
    LoopTests(StartedFor),
    LoopSteps(TestedFor),
}

/// How far a declaration of objects is: behind a comma, or behind an object with an initial value.
#[derive(Drop)]
pub enum AtHead {
    Further,
    Ended(ObjectPart),
}

/// How far an initial value is.
#[derive(Drop)]
pub enum AtReceiver {
    Initial,
    Listed(Parts),
}

/// How far a size is.
#[derive(Drop)]
pub enum AtDeclarator {
    Declares,
    Sizing,
    Shaped(ShapePart),
}

/// How far what follows a function's name is.
#[derive(Drop)]
pub enum AtProto {
    Named,
    ParamsOpen,
    ParamNext(ParamParts),
    ParamSpecified {
        front: ParamParts,
        specifiers: Vec<Specifier>,
        at: u32,
    },
    ParamsDone(ParamParts),
}

/// Where the parser is, behind the tokens that it has taken: how far the part is that it reads, and what that
/// stands in. (Each large type is named once: the proof of a function that names a state opens each place where
/// one stands.)
#[derive(Drop)]
pub enum State {
    OfOperand(AtOperand, Stack),
    OfStatement(AtStatement, Box<Frames>),
    OfHead(AtHead, Head),
    OfReceiver(AtReceiver, Receiver),
    OfDeclarator(AtDeclarator, Declarator),
    OfProto(AtProto, Proto),
    File(ExternalParts),
    Among(ItemParts, Box<Braces>),
    Defaults {
        front: ItemParts,
        braces: Box<Braces>,
        at: u32,
    },
    Opens(Test),
    Specified {
        specifiers: Vec<Specifier>,
        at: u32,
        scope: Scope,
    },
}

// What has begun is boxed and let go by these calls alone: where a value of such a type is let go at the
// end of a body, or on the way out of it, the proof of that body takes many times as long.

impl Frames {
    pub fn boxed(self, alloc: Global) -> Result<Box<Frames>, Refusal>
        ensures ok { IfOk result (λ b. b.value ≡ self) }
        ensures err { IfErr result (λ e. e ≡ Memory) }
    {
        Ok(Box::new(alloc, self)?)
    }

    pub fn let_go(under: Box<Frames>) {
        drop(under);
    }

    /// Nothing of it may stand there.
    pub fn refuse(under: Box<Frames>) -> Refusal
        ensures { result ≡ Syntax }
    {
        drop(under);
        Refusal::Syntax
    }
}

impl Braces {
    pub fn boxed(self, alloc: Global) -> Result<Box<Braces>, Refusal>
        ensures ok { IfOk result (λ b. b.value ≡ self) }
        ensures err { IfErr result (λ e. e ≡ Memory) }
    {
        Ok(Box::new(alloc, self)?)
    }

    pub fn let_go(braces: Box<Braces>) {
        drop(braces);
    }

    /// Nothing of it may stand there.
    pub fn refuse(braces: Box<Braces>) -> Refusal
        ensures { result ≡ Syntax }
    {
        drop(braces);
        Refusal::Syntax
    }
}

impl Stack {
    pub fn boxed(self, alloc: Global) -> Result<Box<Stack>, Refusal>
        ensures ok { IfOk result (λ b. b.value ≡ self) }
        ensures err { IfErr result (λ e. e ≡ Memory) }
    {
        Ok(Box::new(alloc, self)?)
    }

    pub fn let_go(self) {
        drop(self);
    }

    /// Nothing of it may stand there.
    pub fn refuse(self) -> Refusal
        ensures { result ≡ Syntax }
    {
        drop(self);
        Refusal::Syntax
    }
}

impl Scope {
    pub fn let_go(self) {
        drop(self);
    }

    /// Nothing of it may stand there.
    pub fn refuse(self) -> Refusal
        ensures { result ≡ Syntax }
    {
        drop(self);
        Refusal::Syntax
    }
}

impl Head {
    pub fn let_go(self) {
        drop(self);
    }

    /// Nothing of it may stand there.
    pub fn refuse(self) -> Refusal
        ensures { result ≡ Syntax }
    {
        drop(self);
        Refusal::Syntax
    }
}

impl Proto {
    pub fn let_go(self) {
        drop(self);
    }

    /// Nothing of it may stand there.
    pub fn refuse(self) -> Refusal
        ensures { result ≡ Syntax }
    {
        drop(self);
        Refusal::Syntax
    }
}

impl Declarator {
    pub fn boxed(self, alloc: Global) -> Result<Box<Declarator>, Refusal>
        ensures ok { IfOk result (λ b. b.value ≡ self) }
        ensures err { IfErr result (λ e. e ≡ Memory) }
    {
        Ok(Box::new(alloc, self)?)
    }

    /// Nothing of it may stand there.
    pub fn refuse(self) -> Refusal
        ensures { result ≡ Syntax }
    {
        drop(self);
        Refusal::Syntax
    }
}

impl Receiver {
    pub fn boxed(self, alloc: Global) -> Result<Box<Receiver>, Refusal>
        ensures ok { IfOk result (λ b. b.value ≡ self) }
        ensures err { IfErr result (λ e. e ≡ Memory) }
    {
        Ok(Box::new(alloc, self)?)
    }

    pub fn let_go(self) {
        drop(self);
    }

    /// Nothing of it may stand there.
    pub fn refuse(self) -> Refusal
        ensures { result ≡ Syntax }
    {
        drop(self);
        Refusal::Syntax
    }
}

impl Test {
    /// Nothing of it may stand there.
    pub fn refuse(self) -> Refusal
        ensures { result ≡ Syntax }
    {
        drop(self);
        Refusal::Syntax
    }
}

impl Purpose {
    /// Nothing of it may stand there.
    pub fn refuse(self) -> Refusal
        ensures { result ≡ Syntax }
    {
        drop(self);
        Refusal::Syntax
    }
}

impl State {
    pub fn let_go(self) {
        drop(self);
    }
}
