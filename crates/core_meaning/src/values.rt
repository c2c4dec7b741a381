//! Values, what there is in a run, how statements and runs end, and how far a type is initialised.

use class_world::JavaType;
use java_tree::Items;

/// A value. `Ref` has the number of an object or array, `Text` the identity of a string.
#[derive(Clone, Copy, Debug, PartialEq, Eq)]
pub enum Value {
    Int(i32),
    Long(i64),
    Char(u16),
    Truth(bool),
    Null,
    Ref(u64),
    Text(u64),
}

/// What a field holds, by its number in the world.
#[derive(Clone, Copy, Debug)]
pub struct Held {
    pub field: u32,
    pub value: Value,
}

/// An object: its class, what its fields hold, and the message of a throwable (null in any other). Or an array: the type of its elements and its items.
#[derive(Drop)]
pub enum Thing {
    Object {
        class: u32,
        fields: Items<Held>,
        message: Value,
    },
    Array {
        element: JavaType,
        items: Items<Value>,
    },
}

/// Where a body runs: the object that it runs on, null in a static member, and what its parameters and locals hold, by slot.
#[derive(Drop)]
pub struct Frame {
    pub this: Value,
    pub slots: Items<Option<Value>>,
}

/// What there is in a run, and what has happened so far.
///
/// The steps that are left; objects and arrays by their numbers, from 0, which is System.out; the UTF-16 units of strings by their identities, and the identities of
/// those that literals have; what static fields hold, by the fields' numbers in the world; how far each type of the world is initialised; the frame; the bytes printed
/// and the methods entered so far; and whether the run has gone wrong: it met what a checked program never meets.
#[derive(Drop)]
pub struct State {
    pub left: u64,
    pub heap: Items<Thing>,
    pub texts: Items<Items<u16>>,
    pub literals: Items<u64>,
    pub statics: Items<Option<Value>>,
    pub progress: Items<Progress>,
    pub frame: Frame,
    pub printed: Items<u8>,
    pub entered: Items<u32>,
    pub wrong: bool,
}

/// A variable, where what stands before it is evaluated: a local by its slot, others by the fields' numbers.
#[derive(Clone, Copy, Debug)]
pub enum Variable {
    Local(u32),
    Field { of: Value, field: u32 },
    Static(u32),
    Item { of: Value, at: Value },
}

/// What an operator makes: a value; nothing, where a divisor is zero; nothing, since it has no rule for what it meets.
#[derive(Clone, Copy, Debug)]
pub enum Made {
    Makes(Value),
    ByZero,
    NoRule,
}

/// How a statement ends that throws nothing: it goes on, or by a jump (JLS 14.1).
#[derive(Clone, Copy, Debug)]
pub enum Ending {
    Goes,
    Breaks,
    Continues,
    Returns(Option<Value>),
}

/// How far the initialisation of a type is (JLS 12.4.2).
#[derive(Clone, Copy, Debug, PartialEq, Eq)]
pub enum Progress {
    Untouched,
    Running,
    Done,
    Failed,
}

/// How a run ends: normally, with a thrown object of this class, or where no step was left.
#[derive(Clone, Copy, Debug, PartialEq, Eq)]
pub enum End {
    Normal,
    Threw(u32),
    AtBound,
}
