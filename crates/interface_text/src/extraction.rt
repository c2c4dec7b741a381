//! What an interface is made from.

use class_world::World;
use java_tree::Names;

/// The methods `methods` of a class, by number and ascending, that an interface named `new_name` of the class's package gets. `class` is the class's number in the
/// world. `kept` has the numbers of nodes, strictly ascending, of the written types that go on to name the class.
#[derive(Clone, Copy)]
pub struct Extraction<'a> {
    pub world: &'a World,
    pub names: &'a Names,
    pub class: u32,
    pub methods: &'a [u32],
    pub new_name: &'a str,
    pub kept: &'a [u32],
}
