//! What waits for a piece of a program to end, by the kind of answer that it waits for.

use class_world::{JavaType, Walk};
use core_meaning::{Ending, Frame, Value, Variable};
use java_core::{CoreCatch, CoreExpr, CoreGroup, CoreStmt, CoreVar, Kind};
use java_tree::tree::{BinOp, UnOp};
use java_tree::{Boxed, Items};

/// A loop with its test before the body.
#[derive(Clone, Copy)]
pub enum Loop<'a> {
    While {
        test: &'a CoreExpr,
        body: &'a Boxed<CoreStmt>,
    },
    For {
        test: &'a Option<CoreExpr>,
        step: &'a Items<CoreExpr>,
        body: &'a Boxed<CoreStmt>,
    },
    /// An enhanced `for` over an array.
    Items {
        slot: u32,
        ty: &'a JavaType,
        array: Value,
        body: &'a Boxed<CoreStmt>,
    },
    /// An enhanced `for` over what gives an iterator.
    Walk {
        walk: Walk,
        slot: u32,
        ty: &'a JavaType,
        item: &'a JavaType,
        implied: bool,
        iterator: Value,
        body: &'a Boxed<CoreStmt>,
    },
}

/// What waits for the value of an expression, or of a call.
#[derive(Drop)]
pub enum ForValue<'a> {
    Widen(&'a JavaType),
    Implied(&'a JavaType),
    Field(u32),
    Length,
    IndexOf(&'a Boxed<CoreExpr>),
    IndexAt(Value),
    CallOf {
        method: u32,
        args: &'a Items<CoreExpr>,
    },
    Unary(UnOp),
    Cast(&'a JavaType),
    InstanceOf(&'a JavaType),
    Left {
        op: BinOp,
        kind: Kind,
        right: &'a Boxed<CoreExpr>,
    },
    Right {
        op: BinOp,
        kind: Kind,
        left: Value,
    },
    Logic {
        both: bool,
        right: &'a Boxed<CoreExpr>,
    },
    Cond {
        yes: &'a Boxed<CoreExpr>,
        no: &'a Boxed<CoreExpr>,
    },
    Store(Variable),
    Step {
        up: bool,
        before: bool,
        to: Variable,
    },
    Compound {
        op: BinOp,
        kind: Kind,
        ty: &'a JavaType,
        right: &'a Boxed<CoreExpr>,
        to: Variable,
    },
    CompoundRight {
        op: BinOp,
        kind: Kind,
        ty: &'a JavaType,
        left: Value,
        to: Variable,
    },
    /// Another value stands in its place.
    Replace(Value),
    VariableField(u32),
    VariableIndexOf(&'a Boxed<CoreExpr>),
    VariableIndexAt(Value),
    Drop,
    /// The values before it, and the arguments from a place on.
    Argument {
        done: Items<Value>,
        args: &'a Items<CoreExpr>,
        at: usize,
    },
    /// The answer of toString().
    Told,
    /// The answer of hashCode(), for the text of an object whose class has this name.
    Hash(Items<u16>),
    /// The answer of getMessage(), likewise.
    Message(Items<u16>),
    Local(u32),
    Done,
    If {
        yes: &'a Boxed<CoreStmt>,
        no: &'a Option<Boxed<CoreStmt>>,
    },
    Test,
    Each {
        slot: u32,
        ty: &'a JavaType,
        over: &'a JavaType,
        item: &'a JavaType,
        implied: bool,
        body: &'a Boxed<CoreStmt>,
    },
    Iterator {
        walk: Walk,
        slot: u32,
        ty: &'a JavaType,
        item: &'a JavaType,
        implied: bool,
        body: &'a Boxed<CoreStmt>,
    },
    HasNext {
        walk: Walk,
        slot: u32,
        ty: &'a JavaType,
        item: &'a JavaType,
        implied: bool,
        iterator: Value,
    },
    Next {
        slot: u32,
        ty: &'a JavaType,
        item: &'a JavaType,
        implied: bool,
    },
    Switch(&'a Items<CoreGroup>),
    Return,
    Throw,
    /// The initialiser of an instance field.
    Filled(u32),
    /// The constructor of the superclass has run.
    Fill,
    /// The initialiser of a static field.
    Given(u32),
}

/// What waits for what gives nothing.
#[derive(Drop)]
pub enum ForNothing<'a> {
    StaticField(u32),
    StaticVariable(u32),
    StaticArgs {
        method: u32,
        args: &'a Items<CoreExpr>,
    },
    ReadStatic(u32),
    StoreStatic {
        field: u32,
        value: Value,
    },
    StaticCall {
        method: u32,
        args: Items<Value>,
    },
    New {
        class: u32,
        constructor: u32,
        args: &'a Items<CoreExpr>,
    },
    /// The initialisers of a type's static fields, from a place on.
    AllGiven {
        class: u32,
        at: usize,
    },
}

/// What waits for the values of arguments.
#[derive(Drop)]
pub enum ForValues<'a> {
    Call { of: Value, method: u32 },
    SuperCall(u32),
    StaticCall(u32),
    New { object: u64, constructor: u32 },
    Sizes(&'a JavaType),
    Filled { array: u64, element: &'a JavaType },
    Done,
    ThisCall(u32),
    SuperFirst(u32),
}

/// What waits for a variable.
#[derive(Drop)]
pub enum ForVariable<'a> {
    Assign(&'a Boxed<CoreExpr>),
    Step {
        up: bool,
        before: bool,
        of: &'a Boxed<CoreExpr>,
    },
    Compound {
        op: BinOp,
        kind: Kind,
        ty: &'a JavaType,
        of: &'a Boxed<CoreExpr>,
        right: &'a Boxed<CoreExpr>,
    },
}

/// What waits for the string of a value.
#[derive(Drop)]
pub enum ForUnits {
    Left(Value),
    Right(Items<u16>),
    Print { line: bool },
}

/// What waits for a test: loops, with the turns that they may still make.
#[derive(Drop)]
pub enum ForTruth<'a> {
    Loop {
        turns: u64,
        turn: u64,
        of: Loop<'a>,
    },
    Do {
        turns: u64,
        body: &'a Boxed<CoreStmt>,
        test: &'a CoreExpr,
    },
}

/// What a `try` goes on with behind its finally block.
#[derive(Clone, Copy)]
pub enum Saved {
    Ending(Ending),
    Threw(u64),
}

/// What waits for the end of a statement.
#[derive(Drop)]
pub enum ForEnding<'a> {
    Then {
        stmts: &'a Items<CoreStmt>,
        at: usize,
    },
    Locals {
        vars: &'a Items<CoreVar>,
        at: usize,
    },
    Loop {
        turns: u64,
        turn: u64,
        of: Loop<'a>,
    },
    Do {
        turns: u64,
        body: &'a Boxed<CoreStmt>,
        test: &'a CoreExpr,
    },
    Updates(&'a Items<CoreExpr>),
    Initial(Loop<'a>),
    Switch,
    Groups {
        groups: &'a Items<CoreGroup>,
        at: usize,
    },
    /// The initialisers of a class's instance fields, from a place on.
    Fill {
        class: u32,
        at: usize,
    },
    /// The constructor of the superclass and the initialisers have run.
    Body(&'a CoreStmt),
    Answered,
    After(Saved),
}

/// What waits.
#[derive(Drop)]
pub enum Waits<'a> {
    Value(ForValue<'a>),
    Nothing(ForNothing<'a>),
    Values(ForValues<'a>),
    Variable(ForVariable<'a>),
    Units(ForUnits),
    Truth(ForTruth<'a>),
    Ending(ForEnding<'a>),
    Finally(&'a Option<Boxed<CoreStmt>>),
    Rescue(&'a Items<CoreCatch>),
    /// The frame and the place of the caller.
    Leave {
        frame: Frame,
        depth: u64,
        class: u32,
    },
    /// The initialisation of a type.
    Settle(u32),
}
