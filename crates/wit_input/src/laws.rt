//! What holds of every input and of public values, as contracts of functions that do nothing.

ghost use Rattle.std.specs.Prelude.{◌≡◌, ◌∷◌, ◌<◌, ℕ, List, All, Ok, length, sum_by};
ghost use Rattle.gold_field.specs.declared.gold.TheConstants.{P};
ghost use Rattle.cir_values.specs.declared.signals.InputShape.{InputShape};
ghost use Rattle.wit_input.specs.Input.{input_of};
ghost use Rattle.wit_input.specs.Publics.{publics_of, publics_text};

/// An input that is read gives as many numbers as main's inputs have elements, and each is a number
/// of the field.
pub fn inputs_are_numbers()
    ensures count { (bytes : List ℕ) (inputs : List InputShape) (numbers : List ℕ)
        → input_of bytes inputs ≡ Ok (1 ∷ numbers)
        → length numbers ≡ sum_by (λ i. i.count) inputs }
    ensures below { (bytes : List ℕ) (inputs : List InputShape) (numbers : List ℕ)
        → input_of bytes inputs ≡ Ok (1 ∷ numbers) → All (λ n. n < P) numbers }
{}

/// Public values that are written are read back.
pub fn publics_are_read_back()
    ensures { (values : List ℕ) → All (λ n. n < P) values
        → publics_of (publics_text values) ≡ Ok values }
{}
