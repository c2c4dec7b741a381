//! What the questions of a check are put to.

use class_world::World;
use java_tree::tree::Name;
use member_table::Members;
use type_names::TypeNames;

/// The world of a program with its members, its type names and the number of the file at hand, user files before library files; and the name `length`, of the field of arrays (JLS 10.7).
#[derive(Clone, Copy)]
pub struct Questions<'a> {
    pub world: &'a World,
    pub members: &'a Members,
    pub names: &'a TypeNames,
    pub file: u32,
    pub length_name: Name,
}
