//! The world of a program, or the first broken rule on its declarations.

ghost use Rattle.std.specs.Prelude.{◌≡◌, ◌≢◌, ℕ, ◌+◌, ◌<◌, ◌≤◌, ◌^◌, List, map, length, Err, IfOk};
ghost use Rattle.java_tree.specs.Names.{IsFront};
ghost use Rattle.java_tree.specs.View.{unit_plain};
ghost use Rattle.rule_order.specs.First.{IsFirst};
ghost use Rattle.built_in_types.specs.BuiltIns.{AreWords, with_words};
ghost use Rattle.type_names.specs.Known.{files_of};
ghost use Rattle.type_names.specs.Tables.{StandsFor};
ghost use Rattle.type_headers.specs.Declared.{headers};
ghost use Rattle.class_world.specs.Merged.{IsAboveItself};
ghost use Rattle.class_world.specs.Ordered.{IsClassBelowTwo};
ghost use Rattle.class_world.specs.Sound.{AreSupers};
ghost use Rattle.class_world.specs.declared.world.TypeInfo as spec_world;
ghost use Rattle.decl_rules.specs.DeclaredRules.{declared_types, declared_methods};
ghost use Rattle.decl_table.specs.Bases.{AreBases};
ghost use Rattle.decl_table.specs.Judged.{IsJudged, IsDeclared, IsEarly, IsTabled, IsBuilding, named};
ghost use Rattle.decl_table.specs.Program as spec;

use crate::declarations::{first_clash, first_rule_breach};
use crate::limits::broken_limit;
use crate::scope::first_scope_breach;
use built_in_types::{BuiltIns, Word, Words, built_ins};
use class_world::{Ordered, TypeInfo, World, with_order};
use iterables::with_walk;
use java_tree::tree::SourceUnit;
use java_tree::{Broken, Family, Fault, Names, NoMemory};
use program_world::declared_world;
use rule_order::{Breach, earlier};
use std::alloc::Global;
use type_headers::headers;
use type_names::{JavaNames, TypeNames};

/// The world, or the broken rule that is named.
pub(crate) enum Judged {
    Declared(World),
    Refused(Broken),
}

/// The declared types, methods and fields of the program of these user files and library files (JLS 3rd edition, chapters 6 to 9), each by number: the built-in types first, and then those of the files in order; with the table of the order of the types and with its walk. Or the first broken rule: of S10 to S20, S22 and S23 the one at the first node, and there the one with the lowest number; else L6 (more than 4,096 types) or L7 (more than 65,536 methods and constructors), which have no node; else the first of DR1 to DR12, likewise. Node numbers are those of the trees, which are numbered one behind the other. The table of names gets those of the names that the built-in types need which it has not, at most 14, and keeps the others; where memory runs out, it may get some of them. `walk` has the numbers of the library's java.lang.Iterable and of its methods, where it is usable (`iterables`), and else is `None`.
pub fn build(
    alloc: Global,
    user: &[SourceUnit],
    lib: &[SourceUnit],
    names: &mut Names,
) -> Result<World, Fault>
    requires few { length names.old < 2 ^ 31 }
    ensures kept { IsFront names.old names.new }
    ensures few { length names.new ≤ length names.old + 14 }
    ensures named { result ≢ Err Fault.NoMemory → names.new ≡ with_words names.old }
    ensures built { IsBuilding names.new (map unit_plain user.now) (map unit_plain lib.now) result }
{
    let words = match Words::of(alloc, names) {
        Ok(words) => words,
        Err(NoMemory) => return Err(Fault::NoMemory),
    };
    match judge(alloc, names, &words, user, lib) {
        Ok(Judged::Declared(world)) => Ok(world),
        Ok(Judged::Refused(broken)) => Err(Fault::Broken(broken)),
        Err(NoMemory) => Err(Fault::NoMemory),
    }
}

fn judge(
    alloc: Global,
    names: &Names,
    words: &Words,
    user: &[SourceUnit],
    lib: &[SourceUnit],
) -> Result<Judged, NoMemory>
    ensures { IfOk result (IsJudged names.now (record { words = words.now; user = map unit_plain user.now; lib = map unit_plain lib.now })) }
{
    let java = java_names(words);
    let meant = TypeNames::of(alloc, java, user, lib)?;
    let built = built_ins(alloc, words)?;
    let types = headers(alloc, built.types.into_vec(), user, lib)?;
    let types = types.as_slice();
    if let Some(broken) = first_early(alloc, names, java, &meant, types, user, lib)? {
        return Ok(Judged::Refused(broken));
    }
    let built = built_ins(alloc, words)?;
    judge_declarations(alloc, names, java, built, &meant, types, user, lib)
}

/// The first of the S rules and of the limits.
fn first_early(
    alloc: Global,
    names: &Names,
    java: JavaNames,
    meant: &TypeNames,
    types: &[TypeInfo],
    user: &[SourceUnit],
    lib: &[SourceUnit],
) -> Result<Option<Broken>, NoMemory>
    ensures { (built : List spec_world.TypeInfo) → AreBases built → StandsFor meant.now java (files_of (map unit_plain user.now) (map unit_plain lib.now))
        → types.now ≡ headers built (files_of (map unit_plain user.now) (map unit_plain lib.now))
        → IfOk result (IsEarly (spec.ScopeSet names.now java (map unit_plain user.now) (map unit_plain lib.now) types.now)
        (spec.total declared_types (map unit_plain user.now) (map unit_plain lib.now)) (spec.total declared_methods (map unit_plain user.now) (map unit_plain lib.now))) }
{
    if let Some(breach) = first_scope_breach(alloc, names, java, meant, types, user, lib)? {
        return Ok(Some(broken(Family::S, breach)));
    }
    match broken_limit(user, lib) {
        Some(number) => Ok(Some(Broken {
            family: Family::L,
            number,
            node: None,
        })),
        None => Ok(None),
    }
}

/// The DR rules, where no rule before them is broken.
fn judge_declarations(
    alloc: Global,
    names: &Names,
    java: JavaNames,
    built: BuiltIns,
    meant: &TypeNames,
    types: &[TypeInfo],
    user: &[SourceUnit],
    lib: &[SourceUnit],
) -> Result<Judged, NoMemory>
    requires bases { AreBases built.types }
    requires stands { StandsFor meant.now java (files_of (map unit_plain user.now) (map unit_plain lib.now)) }
    requires headers { types.now ≡ headers built.types (files_of (map unit_plain user.now) (map unit_plain lib.now)) }
    requires few { length types.now < 2 ^ 32 }
    ensures { IfOk result (IsDeclared names.now built java (files_of (map unit_plain user.now) (map unit_plain lib.now))) }
{
    let world = declared_world(alloc, built, meant, types, user, lib)?;
    let methods = world.methods.as_slice();
    let in_rules = first_rule_breach(alloc, java, meant, types, methods, user, lib)?;
    let clash = first_clash(alloc, &world)?;
    match earlier(in_rules, clash) {
        Some(breach) => Ok(Judged::Refused(broken(Family::DR, breach))),
        None => with_table(alloc, names, world),
    }
}

/// The world with the table of its order and with its walk.
fn with_table(alloc: Global, names: &Names, world: World) -> Result<Judged, NoMemory>
    requires supers { AreSupers world }
    requires few { length world.types < 2 ^ 32 }
    requires rises { (c : ℕ) → IsAboveItself world c → ⊥ }
    requires single { (c : ℕ) → IsClassBelowTwo world c → ⊥ }
    ensures { IfOk result (IsTabled names.now world) }
{
    match with_order(alloc, world)? {
        Ordered::Sound(world) => {
            let walked = with_walk(alloc, names, world)?;
            Ok(Judged::Declared(walked))
        }
        Ordered::AboveItself(_) | Ordered::BelowTwo(_) => unreachable!(),
    }
}

fn java_names(words: &Words) -> JavaNames
    ensures { result ≡ spec.java_names words.now }
{
    JavaNames {
        java: words.get(Word::Java),
        lang: words.get(Word::Lang),
        io: words.get(Word::Io),
    }
}

fn broken(family: Family, breach: Breach) -> Broken
    ensures { result ≡ named family breach }
{
    Broken {
        family,
        number: breach.rule,
        node: Some(breach.node),
    }
}
