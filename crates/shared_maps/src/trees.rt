//! Binary trees that share nodes in one list.

ghost use Rattle.std.specs.Prelude.{◌≡◌, ◌==◌, ℕ, ◌+◌, ◌-◌, ◌^◌, ◌<◌, ◌≤◌, ◌++◌, ◌↔◌, Some, IsTrue, if◌then◌else◌, length, slice_get, IfOk, OnOk};
ghost use Rattle.std.specs.Option.{option_or};
ghost use Rattle.shared_maps.specs.Trees.{Adds, AreInside, Differ, DiffersIn, Grows, HasHalves, IsArena, IsFirst, LacksFrom, OnlyRight, entries_at, value_at, value_of};

use java_tree::{Items, NoMemory};
use std::alloc::Global;

/// A tree by its top node: one with no keys; at the last level a value; or the trees of the lower and of the upper half of the keys, by their numbers. A node's number is its place in the list.
#[derive(Clone, Copy)]
pub(crate) enum Node {
    Nothing,
    Value(u32),
    Fork(u32, u32),
}

/// How many levels a tree needs for the keys below a limit: as many as the largest of them has bits.
pub(crate) fn height_for(keys: u32) -> u32
    ensures enough { keys ≤ 2 ^ result }
    ensures few { result ≤ 32 }
{
    for height in 0..32 {
        if keys <= 1 << height {
            return height;
        }
    }
    32
}

/// The trees of the two halves of the keys.
fn halves(nodes: &[Node], root: u32) -> (u32, u32)
    ensures { HasHalves nodes.now root result.0 result.1 }
{
    match nodes.get(root as usize) {
        Some(Node::Fork(low, high)) => (*low, *high),
        _ => (0, 0),
    }
}

/// The value of a tree of no levels.
fn own_value(nodes: &[Node], root: u32) -> Option<u32>
    ensures { result ≡ value_of (slice_get nodes.now root) }
{
    match nodes.get(root as usize) {
        Some(Node::Value(value)) => Some(*value),
        _ => None,
    }
}

/// How many keys each half of a tree of so many levels has.
fn half_of(levels: u32) -> u32
    requires some { 0 < levels }
    requires few { levels ≤ 32 }
    ensures { result ≡ 2 ^ (levels - 1) }
{
    1 << (levels - 1)
}

/// The value of a key in a tree of so many levels.
pub(crate) fn found(nodes: &[Node], levels: u32, root: u32, key: u32) -> Option<u32>
    requires { levels ≤ 32 }
    ensures { result ≡ value_at nodes.now levels root key }
{
    if levels == 0 {
        return own_value(nodes, root);
    }
    let half = half_of(levels);
    let (low, high) = halves(nodes, root);
    if key < half {
        found(nodes, levels - 1, low, key)
    } else {
        found(nodes, levels - 1, high, key - half)
    }
}

/// Adds a node, and gives its number.
fn add(nodes: &mut Items<Node>, node: Node) -> Result<u32, NoMemory>
    requires arena { IsArena nodes.old }
    requires inside { AreInside (length nodes.old) node }
    ensures arena { IsArena nodes.new }
    ensures grows { Grows nodes.old nodes.new }
    ensures added { IfOk result (λ n. slice_get nodes.new n ≡ Some node) }
{
    let Ok(number) = u32::try_from(nodes.len()) else {
        return Err(NoMemory);
    };
    nodes.push(node)?;
    Ok(number)
}

/// The tree of two halves, without a node where neither has a key.
fn joined(nodes: &mut Items<Node>, low: u32, high: u32) -> Result<u32, NoMemory>
    requires arena { IsArena nodes.old }
    requires low { low < length nodes.old }
    requires high { high < length nodes.old }
    ensures arena { IsArena nodes.new }
    ensures grows { Grows nodes.old nodes.new }
    ensures within { IfOk result (λ n. n < length nodes.new) }
    ensures halves { IfOk result (λ n. HasHalves nodes.new n low high) }
{
    if low == 0 && high == 0 {
        Ok(0)
    } else {
        add(nodes, Node::Fork(low, high))
    }
}

/// The tree with one key at another value, or without that key.
pub(crate) fn with_value(
    nodes: &mut Items<Node>,
    levels: u32,
    root: u32,
    key: u32,
    value: Option<u32>,
) -> Result<u32, NoMemory>
    requires arena { IsArena nodes.old }
    requires levels { levels ≤ 32 }
    requires key { key < 2 ^ levels }
    ensures arena { IsArena nodes.new }
    ensures grows { Grows nodes.old nodes.new }
    ensures within { IfOk result (λ n. n < length nodes.new) }
    ensures value { IfOk result (λ n. (k : ℕ) → k < 2 ^ levels → value_at nodes.new levels n k ≡ (if k == key then value else value_at nodes.old levels root k)) }
{
    if levels == 0 {
        return match value {
            Some(value) => add(nodes, Node::Value(value)),
            None => Ok(0),
        };
    }
    let half = half_of(levels);
    let (low, high) = halves(nodes.as_slice(), root);
    if key < half {
        let low = with_value(nodes, levels - 1, low, key, value)?;
        joined(nodes, low, high)
    } else {
        let high = with_value(nodes, levels - 1, high, key - half, value)?;
        joined(nodes, low, high)
    }
}

/// Adds the entries of a tree whose first key is `from` and that are below the limit.
pub(crate) fn add_entries(
    nodes: &[Node],
    keys: u32,
    levels: u32,
    root: u32,
    from: u32,
    entries: &mut Vec<(u32, u32)>,
) -> Result<(), NoMemory>
    requires arena { IsArena nodes.now }
    requires levels { levels ≤ 32 }
    requires end { from + 2 ^ levels ≤ 2 ^ 32 }
    ensures { OnOk result (entries.new.items ≡ entries.old.items ++ entries_at nodes.now keys levels root from) }
{
    if root == 0 || from >= keys {
        return Ok(());
    }
    if levels == 0 {
        if let Some(value) = own_value(nodes, root) {
            entries.push((from, value))?;
        }
        return Ok(());
    }
    let half = half_of(levels);
    let (low, high) = halves(nodes, root);
    add_entries(nodes, keys, levels - 1, low, from, entries)?;
    add_entries(nodes, keys, levels - 1, high, from + half, entries)
}

/// The tree with a number; the one with no keys, for a number of no tree.
pub(crate) fn known(nodes: &[Node], root: u32) -> u32
    requires { IsArena nodes.now }
    ensures within { result < length nodes.now }
    ensures value { (levels : ℕ) → (k : ℕ) → value_at nodes.now levels result k ≡ value_at nodes.now levels root k }
{
    if (root as usize) < nodes.len() {
        root
    } else {
        0
    }
}

fn has_halves(nodes: &[Node], root: u32, low: u32, high: u32) -> bool
    ensures { IsTrue result ↔ HasHalves nodes.now root low high }
{
    let (own_low, own_high) = halves(nodes, root);
    low == own_low && high == own_high
}

/// The tree of two halves: one of two trees, where it has these halves itself.
fn joined_or_own(
    nodes: &mut Items<Node>,
    left: u32,
    right: u32,
    low: u32,
    high: u32,
) -> Result<u32, NoMemory>
    requires arena { IsArena nodes.old }
    requires left { left < length nodes.old }
    requires right { right < length nodes.old }
    requires low { low < length nodes.old }
    requires high { high < length nodes.old }
    ensures arena { IsArena nodes.new }
    ensures grows { Grows nodes.old nodes.new }
    ensures within { IfOk result (λ n. n < length nodes.new) }
    ensures halves { IfOk result (λ n. HasHalves nodes.new n low high) }
{
    if has_halves(nodes.as_slice(), left, low, high) {
        return Ok(left);
    }
    if has_halves(nodes.as_slice(), right, low, high) {
        return Ok(right);
    }
    joined(nodes, low, high)
}

/// The tree that has what `left` has, and what `right` has at keys at which `left` has nothing.
pub(crate) fn united(
    nodes: &mut Items<Node>,
    levels: u32,
    left: u32,
    right: u32,
) -> Result<u32, NoMemory>
    requires arena { IsArena nodes.old }
    requires levels { levels ≤ 32 }
    requires left { left < length nodes.old }
    requires right { right < length nodes.old }
    ensures arena { IsArena nodes.new }
    ensures grows { Grows nodes.old nodes.new }
    ensures within { IfOk result (λ n. n < length nodes.new) }
    ensures value { IfOk result (λ n. (k : ℕ) → k < 2 ^ levels → value_at nodes.new levels n k ≡ option_or (value_at nodes.old levels left k) (value_at nodes.old levels right k)) }
{
    if left == right || right == 0 {
        return Ok(left);
    }
    if left == 0 {
        return Ok(right);
    }
    if levels == 0 {
        return match own_value(nodes.as_slice(), left) {
            Some(_) => Ok(left),
            None => Ok(right),
        };
    }
    let (left_low, left_high) = halves(nodes.as_slice(), left);
    let (right_low, right_high) = halves(nodes.as_slice(), right);
    let low = united(nodes, levels - 1, left_low, right_low)?;
    let high = united(nodes, levels - 1, left_high, right_high)?;
    joined_or_own(nodes, left, right, low, high)
}

/// Whether two trees of no levels have a value each, and not the same one.
fn differ(nodes: &[Node], left: u32, right: u32) -> bool
    ensures { IsTrue result ↔ Differ (value_of (slice_get nodes.now left)) (value_of (slice_get nodes.now right)) }
{
    let Some(x) = own_value(nodes, left) else {
        return false;
    };
    match own_value(nodes, right) {
        Some(y) => x != y,
        None => false,
    }
}

/// Adds the keys below the limit that two trees, whose first key is `from`, have different values for.
pub(crate) fn add_differing(
    nodes: &[Node],
    keys: u32,
    levels: u32,
    left: u32,
    right: u32,
    from: u32,
    different: &mut Vec<u32>,
) -> Result<(), NoMemory>
    requires arena { IsArena nodes.now }
    requires levels { levels ≤ 32 }
    requires end { from + 2 ^ levels ≤ 2 ^ 32 }
    ensures { OnOk result (Adds different.old.items different.new.items (DiffersIn nodes.now keys levels left right from)) }
{
    if left == right || left == 0 || right == 0 || from >= keys {
        return Ok(());
    }
    if levels == 0 {
        if differ(nodes, left, right) {
            different.push(from)?;
        }
        return Ok(());
    }
    let half = half_of(levels);
    let (left_low, left_high) = halves(nodes, left);
    let (right_low, right_high) = halves(nodes, right);
    add_differing(
        nodes,
        keys,
        levels - 1,
        left_low,
        right_low,
        from,
        different,
    )?;
    add_differing(
        nodes,
        keys,
        levels - 1,
        left_high,
        right_high,
        from + half,
        different,
    )
}

/// Whether the right one of two trees of no levels has a value, and the left one has none.
fn only_right(nodes: &[Node], left: u32, right: u32) -> bool
    ensures { IsTrue result ↔ OnlyRight (value_of (slice_get nodes.now left)) (value_of (slice_get nodes.now right)) }
{
    match own_value(nodes, left) {
        Some(_) => false,
        None => own_value(nodes, right).is_some(),
    }
}

/// The first key from `from` on that the right one of two trees has, and the left one has not.
pub(crate) fn first_lacking(
    nodes: &[Node],
    levels: u32,
    left: u32,
    right: u32,
    from: u32,
) -> Option<u32>
    requires arena { IsArena nodes.now }
    requires levels { levels ≤ 32 }
    ensures { IsFirst (LacksFrom nodes.now levels left right from) result }
{
    if left == right || right == 0 {
        return None;
    }
    if levels == 0 {
        if from == 0 && only_right(nodes, left, right) {
            return Some(0);
        }
        return None;
    }
    let half = half_of(levels);
    let (left_low, left_high) = halves(nodes, left);
    let (right_low, right_high) = halves(nodes, right);
    if from >= half {
        let key = first_lacking(nodes, levels - 1, left_high, right_high, from - half)?;
        return Some(half + key);
    }
    if let Some(key) = first_lacking(nodes, levels - 1, left_low, right_low, from) {
        return Some(key);
    }
    let key = first_lacking(nodes, levels - 1, left_high, right_high, 0)?;
    Some(half + key)
}
