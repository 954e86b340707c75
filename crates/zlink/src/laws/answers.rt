//! Laws about the answers of the linker. A law is a function that does nothing and whose clause is a theorem.

ghost use Rattle.std.specs.Prelude.{◌≡◌, ◌↔◌, ℕ, Bool, List, Ok, Result, map};
ghost use Rattle.zlink.specs.declared.building.Built.{Built};
ghost use Rattle.zlink.specs.declared.fault.BuildFault.{BuildFault};
ghost use Rattle.zlink.specs.declared.source.Source.{Source};
ghost use Rattle.zlink.specs.declared.fault.LinkFault.{LinkFault};
ghost use Rattle.zlink.specs.declared.linking.Linked.{Linked};
ghost use Rattle.zmo_object.specs.Modules.{Module};
ghost use Rattle.zlink.specs.Built.{IsBuilt, IsExactBuild, origin_of};
ghost use Rattle.zlink.specs.Linked.{IsLinked};
ghost use Rattle.zlink.specs.Outcomes.{AreSame, built_outcome, linked_outcome};
ghost use Rattle.zlink.specs.Sources.{Assembly, AreAssembled, modules_of};
ghost use Rattle.relax.specs.declared.shape.Statement.{Statement as Sized};
ghost use Rattle.relax.specs.Choice.{Choice, Fits, IsBest, IsSettled, IsShape, IsValid, place, total};
ghost use Rattle.relax.specs.Growth.{IsForcing};
ghost use Rattle.cert_check.specs.Choice.{Fits as ToldFits, IsBest as IsToldBest, IsSettled as IsToldSettled, IsShape as IsToldShape, IsValid as IsToldValid, place as told_place, total as told_total};
ghost use Rattle.cert_check.specs.Forcing.{IsForcing as IsToldForcing};
ghost use Rattle.zlink.specs.Certified.{told_size};

use crate::laws::one_file;
use asm_module::laws::one_answer;
use relax::laws::one_growth;

/// The linker and the checker share no definition. Yet they say the same about which lists are shapes; and about each shape: the address of
/// each statement, which jumps fit, which choices are settled, valid and best, how many bytes they take, and which orders are forcing.
pub fn shapes_agree()
    ensures shape { (shape : List Sized) → IsShape shape ↔ IsToldShape (map told_size shape) }
    ensures places { (shape : List Sized) (c : Choice) (k : ℕ) → told_place c (map told_size shape) k ≡ place c shape k }
    ensures total { (shape : List Sized) (c : Choice) → told_total c (map told_size shape) ≡ total c shape }
    ensures fits { (shape : List Sized) (c : Choice) (k : ℕ) → Fits c shape k ↔ ToldFits c (map told_size shape) k }
    ensures settled { (shape : List Sized) (c : Choice) → IsSettled c shape ↔ IsToldSettled c (map told_size shape) }
    ensures valid { (shape : List Sized) (c : Choice) → IsValid c shape ↔ IsToldValid c (map told_size shape) }
    ensures best { (shape : List Sized) (c : Choice) → IsBest c shape ↔ IsToldBest c (map told_size shape) }
    ensures forcing { (shape : List Sized) (order : List ℕ) → IsForcing shape order ↔ IsToldForcing (map told_size shape) order }
{}

/// Sources have one program at most. An answer that `IsBuilt` allows is exact: what holds of the sources is answered, unless memory ran
/// out.
pub fn exact()
    ensures program { (grow : Bool) (sources : List Source) (a b : List Assembly) → AreAssembled grow sources a → AreAssembled grow sources b → a ≡ b }
    ensures answer { (grow : Bool) (sources : List Source) (result : Result Built BuildFault) → IsBuilt grow sources result → IsExactBuild grow sources result }
{
    // A law: it does nothing, and this law follows from its contract.
    one_answer();
}

/// Linking is deterministic: equal modules give equal answers, unless memory ran out. Building sources gives what linking their modules
/// gives: the same file, sizes file, certificate, labels and grown jumps, or the same refusal. And equal sources give equal answers.
pub fn one_link()
    ensures link { (modules : List Module) (a b : Result Linked LinkFault) → IsLinked modules a → IsLinked modules b → AreSame (linked_outcome a) (linked_outcome b) }
    ensures places { (modules : List Module) (a b : Linked) → IsLinked modules (Ok a) → IsLinked modules (Ok b) → a.places.items ≡ b.places.items }
    ensures build { (grow : Bool) (sources : List Source) (assemblies : List Assembly) (a : Result Built BuildFault) (b : Result Linked LinkFault) →
        AreAssembled grow sources assemblies → IsBuilt grow sources a → IsLinked (modules_of assemblies) b → AreSame (built_outcome a) (linked_outcome b) }
    ensures sources { (grow : Bool) (sources : List Source) (a b : Result Built BuildFault) → IsBuilt grow sources a → IsBuilt grow sources b → AreSame (built_outcome a) (built_outcome b) }
    ensures lines { (grow : Bool) (sources : List Source) (a b : Built) → IsBuilt grow sources (Ok a) → IsBuilt grow sources (Ok b) →
        (map origin_of a.statements.items ≡ map origin_of b.statements.items) × (a.last.items ≡ b.last.items) }
{
    // Laws: they do nothing, and this law follows from their contracts.
    one_answer();
    one_growth();
    one_file();
}
