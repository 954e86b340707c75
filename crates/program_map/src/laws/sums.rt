//! Laws about maps. A law is a function that does nothing and whose clause is a theorem: whoever calls it may use the clause.

ghost use Rattle.std.specs.Prelude.{◌≡◌, ◌+◌, ℕ, All, List, Option, count_by, length};
ghost use Rattle.common.specs.declared.limits.TheConstants.{FIRST_PLACE};
ghost use Rattle.relax.specs.Growth.{IsForcing, after};
ghost use Rattle.relax.specs.Choice.{Choice, total};
ghost use Rattle.zmo_object.specs.Modules.{Module};
ghost use Rattle.zlink.specs.File.Objects.{placed_shape};
ghost use Rattle.zlink.specs.File.Places.{ArePlaces};
ghost use Rattle.zlink.specs.Program.Whole.{program};
ghost use Rattle.program_map.specs.declared.maps.kind.Kind.{Kind};
ghost use Rattle.program_map.specs.Map.{mapped_modules, program_map};
ghost use Rattle.program_map.specs.Sums.{AddsUp, figure_bytes, is_sized_jump};

/// The figures of a map add up, if the addresses are those of a choice of short and long jumps. Code, data and space of a module are its
/// bytes, and each jump that may be short or long is one of both. The same holds of the whole program, which begins at 0100H and ends after
/// all its bytes. The program's shape has as many jumps that may be short or long: these are the lines `J` of its sizes file. If the addresses
/// are those after the order of the certificate, that order has as many members as there are long jumps: these are its lines `L`.
pub fn adds_up()
    ensures modules { (kinds : Option (List Kind)) (places : List ℕ) (modules : List Module) (c : Choice) → ArePlaces c (placed_shape (program modules)) places →
        All AddsUp (mapped_modules kinds places modules) }
    ensures bytes { (kinds : Option (List Kind)) (places : List ℕ) (modules : List Module) (c : Choice) → ArePlaces c (placed_shape (program modules)) places →
        FIRST_PLACE + figure_bytes (program_map kinds places modules).total ≡ (program_map kinds places modules).end }
    ensures end { (kinds : Option (List Kind)) (places : List ℕ) (modules : List Module) (c : Choice) → ArePlaces c (placed_shape (program modules)) places →
        (program_map kinds places modules).end ≡ FIRST_PLACE + total c (placed_shape (program modules)) }
    ensures sizes { (kinds : Option (List Kind)) (places : List ℕ) (modules : List Module) →
        (program_map kinds places modules).total.jumps ≡ count_by is_sized_jump (placed_shape (program modules)) }
    ensures certificate { (kinds : Option (List Kind)) (places : List ℕ) (modules : List Module) (order : List ℕ) → ArePlaces (after order) (placed_shape (program modules)) places →
        IsForcing (placed_shape (program modules)) order → (program_map kinds places modules).total.long ≡ length order }
    ensures jumps { (kinds : Option (List Kind)) (places : List ℕ) (modules : List Module) (c : Choice) → ArePlaces c (placed_shape (program modules)) places →
        (program_map kinds places modules).total.jumps ≡ (program_map kinds places modules).total.short + (program_map kinds places modules).total.long }
{
    zlink::laws::laid_out();
}
