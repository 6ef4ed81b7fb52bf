//! Laws over the values of expressions and the constraints of a source, each the contract of a
//! function that does nothing.

ghost use Rattle.std.specs.Prelude.{◌≡◌, ◌≢◌, ◌↔◌, ◌+◌, ◌<◌, ◌≤◌, ℕ, true, Some, is_some, Ok, Err};
ghost use Rattle.std.specs.Prelude.{List, All, length, slice_get, sum_by};
ghost use Rattle.std.specs.List.{list_all};
ghost use Rattle.gold_field.specs.declared.form.Constraint.{Constraint};
ghost use Rattle.gold_field.specs.declared.operators.Op1.{Op1};
ghost use Rattle.gold_field.specs.declared.operators.Op2.{Op2};
ghost use Rattle.gold_field.specs.declared.gold.TheConstants.{P};
ghost use Rattle.gold_field.specs.Form.{Holds};
ghost use Rattle.gold_field.specs.Operators.{binary_of, unary_of};
ghost use Rattle.cir_lc.specs.Number.{Assignment};
ghost use Rattle.cir_meaning.specs.declared.class.Class.{Class};
ghost use Rattle.cir_meaning.specs.Classes.{class_by, unary_class};
ghost use Rattle.cir_meaning.specs.Values.{IsValue, Parts, Value, class_of, difference_of};
ghost use Rattle.cir_meaning.specs.Values.{known_number, number_of, parts_of, result_of};
ghost use Rattle.cir_meaning.specs.Values.{unary_result, Known as KnownValue, Opaque, Decided};
ghost use Rattle.cir_meaning.specs.Values.{Shaded, Both, and_left, or_left, lazy_result};
ghost use Rattle.cir_meaning.specs.Values.{side_of, chosen, and_number, or_number, choice_number};
ghost use Rattle.cir_meaning.specs.Compile.{Circuit, Satisfies, compiled, exec_main};
ghost use Rattle.cir_ast.specs.Program.{Main, Program};
ghost use Rattle.cir_ast.specs.declared.program.Meant.{Meant};
ghost use Rattle.cir_meaning.specs.Dependence.{IsAllDeclared, IsFew};
ghost use Rattle.cir_meaning.specs.SignalFree.{AreFunctionsFree};
ghost use Rattle.cir_meaning.specs.Scoped.{IsResolved};
ghost use Rattle.cir_meaning.specs.Tried.{Where, Refused};
ghost use Rattle.cir_meaning.specs.Arrays.{Datum, is_all_known};
ghost use Rattle.cir_meaning.specs.Frame.{Signals, World};
ghost use Rattle.cir_meaning.specs.Bodies.{call_at};
ghost use Rattle.cir_meaning.specs.RunValues.{Numbers, missing};
ghost use Rattle.cir_meaning.specs.RunStatements.{run_call};
ghost use Rattle.cir_meaning.specs.Run.{Rejected, Stopped};
ghost use Rattle.cir_meaning.specs.RunBodies.{Ending, ran};
ghost use Rattle.cir_meaning.specs.Source.{Equation, IsDifference, IsEqualAt, IsSource, all_terms};

/// The class of an operator's result is the table's, whatever the numbers are.
pub fn classes_are_the_table()
    ensures { (op : Op2) (x y v : Value) → result_of op x y ≡ Some v →
        class_of v ≡ class_by op (class_of x) (class_of y) (known_number y) }
{}

/// The number of an operator's result is the operator's on the numbers of its operands, at each
/// assignment; of an opaque result no number is told.
pub fn numbers_are_the_operators()
    ensures { (op : Op2) (x y v : Value) (s : Assignment) → IsValue x → IsValue y
        → result_of op x y ≡ Some v →
        class_of v ≢ Class.Opaque → binary_of op (number_of x s) (number_of y s)
        ≡ Some (number_of v s) }
{}

/// The same of the operators of one operand: `-` keeps the class, and `!` and `~` are of known
/// numbers alone.
pub fn unary_operators()
    ensures class { (op : Op1) (x : Value)
        → class_of (unary_result op x) ≡ unary_class op (class_of x) }
    ensures number { (op : Op1) (x : Value) (s : Assignment) → IsValue x →
        class_of (unary_result op x) ≢ Class.Opaque
        → unary_of op (number_of x s) ≡ number_of (unary_result op x) s }
{}

/// The operators give values of the field, so a law on values holds of nested expressions too.
pub fn results_are_values()
    ensures binary { (op : Op2) (x y v : Value) → IsValue x → IsValue y →
        result_of op x y ≡ Some v → IsValue v }
    ensures unary { (op : Op1) (x : Value) → IsValue x → IsValue (unary_result op x) }
    ensures and { (x y : Value) → IsValue (lazy_result (and_left x) y) }
    ensures or { (x y : Value) → IsValue (lazy_result (or_left x) y) }
    ensures choice { (c x y : Value) → IsValue x → IsValue y → IsValue (chosen (side_of c) x y) }
{}

/// `&&`: a result that isn't opaque is the operator's on the numbers of its sides, at each
/// assignment. Known sides have a known one. A known left side of 0 decides, and one that isn't
/// known shades the right side. A result that isn't decided by the left side is opaque where a side
/// isn't known.
pub fn conjunctions()
    ensures number { (x y : Value) (s : Assignment) → class_of (lazy_result (and_left x) y)
        ≢ Class.Opaque →
        number_of (lazy_result (and_left x) y) s ≡ and_number (number_of x s) (number_of y s) }
    ensures known { (x y : Value) → class_of x ≡ Class.Known → class_of y ≡ Class.Known →
        class_of (lazy_result (and_left x) y) ≡ Class.Known }
    ensures decided { and_left (KnownValue 0) ≡ Decided 0 }
    ensures shaded { (x : Value) → class_of x ≢ Class.Known → and_left x ≡ Shaded }
    ensures zero { (y : Value) → lazy_result (and_left (KnownValue 0)) y ≡ KnownValue 0 }
    ensures opaque { (x y : Value) → class_of x ≢ Class.Known →
        lazy_result (and_left x) y ≡ Opaque }
    ensures right { (k : ℕ) (y : Value) → k ≢ 0 → class_of y ≢ Class.Known →
        lazy_result (and_left (KnownValue k)) y ≡ Opaque }
{}

/// The same of `||`, which a known left side that isn't 0 decides.
pub fn disjunctions()
    ensures number { (x y : Value) (s : Assignment) → class_of (lazy_result (or_left x) y)
        ≢ Class.Opaque →
        number_of (lazy_result (or_left x) y) s ≡ or_number (number_of x s) (number_of y s) }
    ensures known { (x y : Value) → class_of x ≡ Class.Known → class_of y ≡ Class.Known →
        class_of (lazy_result (or_left x) y) ≡ Class.Known }
    ensures decided { (k : ℕ) → k ≢ 0 → or_left (KnownValue k) ≡ Decided 1 }
    ensures shaded { (x : Value) → class_of x ≢ Class.Known → or_left x ≡ Shaded }
    ensures one { (k : ℕ) (y : Value) → k ≢ 0 →
        lazy_result (or_left (KnownValue k)) y ≡ KnownValue 1 }
    ensures opaque { (x y : Value) → class_of x ≢ Class.Known →
        lazy_result (or_left x) y ≡ Opaque }
    ensures right { (y : Value) → class_of y ≢ Class.Known →
        lazy_result (or_left (KnownValue 0)) y ≡ Opaque }
{}

/// `?:`: a known condition chooses one side, by the condition's number; one that isn't known shades
/// both, and the value is opaque.
pub fn choices()
    ensures number { (c x y : Value) (s : Assignment) → class_of c ≡ Class.Known →
        number_of (chosen (side_of c) x y) s
        ≡ choice_number (number_of c s) (number_of x s) (number_of y s) }
    ensures shaded { (c : Value) → class_of c ≢ Class.Known → side_of c ≡ Both }
    ensures opaque { (c x y : Value) → class_of c ≢ Class.Known → chosen (side_of c) x y ≡ Opaque }
{}

/// Where the difference of two values is `a * b + c`, this is left minus right at each assignment.
pub fn parts_are_the_difference()
    ensures { (x y : Value) (p : Parts) → IsValue x → IsValue y
        → parts_of (difference_of x y) ≡ Some p →
        IsDifference record { left = number_of x; right = number_of y; parts = p } }
{}

/// Equations have one source list.
pub fn one_source_list()
    ensures { (n : ℕ) (es : List Equation) (ks js : List Constraint) → IsSource n es ks
        → IsSource n es js → ks ≡ js }
{}

/// The source list holds at just the assignments at which the two sides of each equation are equal.
pub fn source_list_holds()
    ensures { (n : ℕ) (es : List Equation) (ks : List Constraint) (s : Assignment)
        → All IsDifference es →
        IsSource n es ks → All (IsEqualAt s) es ↔ All (Holds s.at) ks }
{}

/// The terms that are told of equations are those of their source list.
pub fn terms_are_counted()
    ensures { (n : ℕ) (es : List Equation) (ks : List Constraint) → 0 < n → IsSource n es ks →
        all_terms n es ≡ sum_by (λ k. length k.a + (length k.b + length k.c)) ks }
{}

/// In a program that compiles, the parts of each equation are left minus right at each assignment.
pub fn equations_are_differences()
    ensures { (p : Program) (c : Circuit) → compiled p ≡ Ok c → All IsDifference c.equations }
{}

/// The assignments that satisfy a program that compiles are those at which its source list holds.
pub fn list_is_satisfied()
    ensures { (p : Program) (c : Circuit) (n : ℕ) (ks : List Constraint) (s : Assignment)
        → compiled p ≡ Ok c →
        IsSource n c.equations ks → Satisfies p s ↔ All (Holds s.at) ks }
{}

/// A call with known arguments is known in each element that it gives, in a program whose functions
/// have no signals in them.
pub fn known_calls_are_known()
    ensures { (p : Program) (size room n : ℕ) (w : Where) (arguments : List Datum)
        (world after : World) (d : Datum) → AreFunctionsFree p →
        list_all is_all_known arguments ≡ true →
        call_at p size room w n arguments world ≡ Ok (d, after) → is_all_known d ≡ true }
{}

/// A function that is called when the program runs ends, or stops as a program may: it asks for no
/// value that isn't there.
pub fn functions_never_miss()
    ensures { (p : Program) (room f units stop : ℕ) (arguments : List Numbers) →
        AreFunctionsFree p → f < length p.functions →
        run_call p room f arguments units ≡ Err stop → stop ≢ missing }
{}

/// A function that is called on numbers of the field when the program runs gives a number of the
/// field.
pub fn functions_give_numbers()
    ensures { (p : Program) (room f units left : ℕ) (arguments : List Numbers) (d : Numbers)
        → All (λ a. All (λ n. n < P) a.items) arguments
        → run_call p room f arguments units ≡ Ok (d, left) → All (λ n. n < P) d.items }
{}

/// Where a program that is run on numbers of the field ends, each value is a number of the field;
/// so there is an assignment with these values.
pub fn runs_give_numbers()
    ensures below { (p : Program) (fuel : ℕ) (inputs : List ℕ) (e : Ending) (i x : ℕ)
        → All (λ n. n < P) inputs → ran p fuel inputs ≡ Ok e
        → slice_get e.values i ≡ Some (Some x) → x < P }
    ensures assignment { (p : Program) (fuel : ℕ) (inputs : List ℕ) (e : Ending)
        → All (λ n. n < P) inputs → ran p fuel inputs ≡ Ok e
        → (s : Assignment)
        × ((i x : ℕ) → slice_get e.values i ≡ Some (Some x) → s.at i ≡ x) }
{}

/// A program that compiles, on as many inputs as its main component has, runs to its end or stops
/// as a program may: the run refuses nothing, and asks for no value that isn't there.
pub fn runs_never_miss()
    ensures accepted { (p : Program) (c : Circuit) (fuel : ℕ) (inputs : List ℕ) (e : Refused)
        → IsResolved p → compiled p ≡ Ok c
        → length inputs ≡ c.public_inputs + c.private_inputs
        → ran p fuel inputs ≢ Err (Rejected e) }
    ensures missed { (p : Program) (c : Circuit) (fuel : ℕ) (inputs : List ℕ) (stop : ℕ)
        (w : Where) (log : List (List ℕ)) → IsResolved p → compiled p ≡ Ok c
        → length inputs ≡ c.public_inputs + c.private_inputs
        → ran p fuel inputs ≡ Err (Stopped stop w log) → stop ≢ missing }
{}

/// Where a program that compiles runs to its end, on as many inputs as its main component has,
/// there is a value for signal 0 and for each signal, by their numbers, and the assignments with
/// these values satisfy the program: the two sides of each equation are equal.
pub fn runs_satisfy()
    ensures counted { (p : Program) (c : Circuit) (fuel : ℕ) (inputs : List ℕ) (e : Ending)
        → IsResolved p → compiled p ≡ Ok c
        → length inputs ≡ c.public_inputs + c.private_inputs
        → ran p fuel inputs ≡ Ok e → length e.values ≡ 1 + length c.names }
    ensures values { (p : Program) (c : Circuit) (fuel : ℕ) (inputs : List ℕ) (e : Ending)
        → IsResolved p → compiled p ≡ Ok c
        → length inputs ≡ c.public_inputs + c.private_inputs
        → ran p fuel inputs ≡ Ok e → All (λ o. is_some o ≡ true) e.values }
    ensures satisfied { (p : Program) (c : Circuit) (fuel : ℕ) (inputs : List ℕ) (e : Ending)
        (s : Assignment) → IsResolved p → compiled p ≡ Ok c
        → length inputs ≡ c.public_inputs + c.private_inputs
        → ran p fuel inputs ≡ Ok e
        → ((i x : ℕ) → slice_get e.values i ≡ Some (Some x) → s.at i ≡ x) → Satisfies p s }
{}

/// The equations that the execution of main leaves depend on no signals but declared ones, where no
/// function has signals in it.
pub fn equations_are_over_declared_signals()
    ensures { (p : Program) (size : ℕ) (m : Main) (t : Meant) (signals : Signals) (world : World) →
        AreFunctionsFree p → exec_main p size m t ≡ Ok (signals, world) →
        IsAllDeclared size world }
{}

/// The execution of main leaves no more signals, equations and terms than the limits; so a program
/// that compiles has no more names of signals than the limit.
pub fn limits_hold()
    ensures world { (p : Program) (size : ℕ) (m : Main) (t : Meant) (signals : Signals)
        (world : World) → exec_main p size m t ≡ Ok (signals, world) → IsFew size world }
    ensures names { (p : Program) (c : Circuit) → compiled p ≡ Ok c → length c.names ≤ 1048575 }
{}
