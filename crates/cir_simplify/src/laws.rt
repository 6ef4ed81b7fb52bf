//! Laws of simplification, as functions that do nothing: the law is what each ensures.
ghost use Rattle.std.specs.Prelude.{◌≡◌, ℕ, List, map, All, None, Ok};
ghost use Rattle.gold_field.specs.declared.form.Constraint.{Constraint};
ghost use Rattle.cir_lc.specs.Normal.{IsConstraintWithin};
ghost use Rattle.cir_lc.specs.Sparse.{IsNormalForm, IsRising};
ghost use Rattle.cir_simplify.specs.declared.types.Rules.{Rules};
ghost use Rattle.cir_simplify.specs.Turn.{Simplified, first_pivot, simplified};
ghost use Rattle.cir_simplify.specs.Keeps.{KeepsSolutions, WiresKeepSolutions};
ghost use Rattle.cir_simplify.specs.Wires.{is_kept, wire_of, renamed_in};

/// Values of the kept signals satisfy the list after simplification exactly when they extend to an
/// assignment that satisfies the list given. A signal that no constraint names any more takes any
/// value.
pub fn kept_values()
    ensures { (r : Rules) (list : List Constraint) (end : Simplified)
        → All IsNormalForm list → All IsRising list → All (IsConstraintWithin r.bound) list
        → simplified r list ≡ Ok end → KeepsSolutions r.level r.kept list end.list }
{}

/// The same of what `simplify` gives: values of the wires satisfy its constraints exactly when they
/// extend to an assignment that satisfies the list given.
pub fn wire_values()
    ensures { (r : Rules) (list : List Constraint) (end : Simplified)
        → All IsNormalForm list → All IsRising list → All (IsConstraintWithin r.bound) list
        → simplified r list ≡ Ok end → WiresKeepSolutions (is_kept r.level r.kept end.list) list
        (map (renamed_in (wire_of (is_kept r.level r.kept end.list))) end.list) }
{}

/// No constraint of the list after simplification can be solved: so the turns, no more than there
/// are constraints, are all that there are.
pub fn nothing_fits()
    ensures { (r : Rules) (list : List Constraint) (end : Simplified)
        → All IsNormalForm list → All IsRising list → All (IsConstraintWithin r.bound) list
        → simplified r list ≡ Ok end → first_pivot r end.list ≡ None }
{}
