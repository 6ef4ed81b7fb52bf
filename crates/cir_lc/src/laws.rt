//! Laws of linear combinations, as functions that do nothing: the law is what each ensures.
ghost use Rattle.std.specs.Prelude.{◌≡◌, ℕ, ◌+◌, List, length};
ghost use Rattle.gold_field.specs.Rises.{RisesFrom};
ghost use Rattle.gold_field.specs.declared.form.Term.{Term};
ghost use Rattle.gold_field.specs.declared.form.Constraint.{Constraint};
ghost use Rattle.cir_lc.specs.declared.quad.Quad.{Quad};
ghost use Rattle.cir_lc.specs.Number.{value_of};
ghost use Rattle.cir_lc.specs.Coefficient.{terms_below, constant_in};
ghost use Rattle.cir_lc.specs.Normal.{IsNormal, constant_of};
ghost use Rattle.cir_lc.specs.Sparse.{form_of};
ghost use Rattle.cir_lc.specs.Terms.{IsWithin};

/// Linear combinations with the same numbers are the same.
pub fn one_combination()
    ensures { (n : ℕ) (f g : List Term) → RisesFrom 0 f → RisesFrom 0 g → IsWithin n f
        → IsWithin n g
        → value_of f ≡ value_of g → f ≡ g }
{}

/// The coefficients that a linear combination's numbers tell are as many as its terms.
pub fn term_count()
    ensures { (n : ℕ) (f : List Term) → RisesFrom 0 f → IsWithin n f
        → terms_below n (value_of f) ≡ length f }
{}

/// Whether a linear combination is a constant can be told from its numbers.
pub fn constant_part()
    ensures { (n : ℕ) (f : List Term) → RisesFrom 0 f → IsWithin (n + 1) f
        → constant_in n (value_of f) ≡ constant_of f }
{}

/// A quadratic form has one normal constraint.
pub fn one_normal()
    ensures { (n : ℕ) (q : Quad) (j k : Constraint) → IsNormal q j → IsNormal q k → RisesFrom 0 j.c
        → RisesFrom 0 k.c
        → IsWithin n j.c → IsWithin n k.c → j ≡ k }
{}

/// A linear combination is the form of its numbers.
pub fn one_form()
    ensures { (n : ℕ) (ts : List Term) → RisesFrom 0 ts → IsWithin n ts
        → ts ≡ form_of n (value_of ts) }
{}

/// The form of a list's numbers has these numbers, also where the list's terms stand in no order.
pub fn form_numbers()
    ensures { (n : ℕ) (ts : List Term) → IsWithin n ts → value_of (form_of n (value_of ts))
        ≡ value_of ts }
{}
