//! Laws of certificates, as functions that do nothing: the law is what each ensures.
ghost use Rattle.std.specs.Prelude.{◌≡◌, ◌⊎◌, ◌↔◌, ℕ, ◌*◌, ◌≤◌, true, List, All, length, Some, Ok};
ghost use Rattle.gold_field.specs.Form.{ConstraintBelow};
ghost use Rattle.cir_determined.specs.declared.rule.Rule.{Rule as ARule};
ghost use Rattle.cir_determined.specs.declared.rule.Confirm.{Confirm as AConfirm};
ghost use Rattle.cir_determined.specs.declared.rule.Answer.{Answer as AnAnswer};
ghost use Rattle.cir_determined.specs.Circuit.{Circuit, in_normal_form};
ghost use Rattle.cir_determined.specs.Marks.{opening};
ghost use Rattle.cir_determined.specs.Certificate.{AllApply, IsCertificate, IsClosed, shown_by};
ghost use Rattle.cir_determined.specs.Certificate.{IsAnswer, IsShown, IsVerdict};
ghost use Rattle.cir_determined.specs.Determined.{Determines};
ghost use Rattle.cir_determined.specs.Text.{IsNarrow, line_of, rule_of, rules_of, rules_text};

/// Where there is a certificate, the inputs determine the outputs.
pub fn certificates_are_sound()
    ensures { (c : Circuit) (rules : List ARule) → All (ConstraintBelow c.wires) c.constraints
        → IsCertificate (in_normal_form c) rules
        → Determines c }
{}

/// The order of rules doesn't matter: what some rules make known, all rules after which none
/// applies make known.
pub fn order_is_free()
    ensures { (c : Circuit) (rules all : List ARule) → AllApply c.constraints (opening c) rules
        → AllApply c.constraints (opening c) all
        → IsClosed c.constraints (shown_by c.constraints (opening c) all) → (wire : ℕ)
        → (shown_by c.constraints (opening c) rules).known wire ≡ true
        → (shown_by c.constraints (opening c) all).known wire ≡ true }
{}

/// At most two rules a wire apply one after the other.
pub fn rules_are_few()
    ensures { (c : Circuit) (rules : List ARule) → All (ConstraintBelow c.wires) c.constraints
        → AllApply c.constraints (opening c) rules
        → length rules ≤ 2 * c.wires }
{}

/// A list of rules has one verdict.
pub fn one_verdict()
    ensures { (c : Circuit) (rules : List ARule) (a b : AConfirm) → IsVerdict c rules a
        → IsVerdict c rules b
        → a ≡ b }
{}

/// A circuit has one answer, but for the rules that are shown.
pub fn one_answer()
    ensures { (c : Circuit) (a b : AnAnswer) → IsAnswer c a → IsAnswer c b
        → (a ≡ b) ⊎ (IsShown a × IsShown b) }
{}

/// Rules that were written are read back.
pub fn written_rules_are_read()
    ensures { (rules : List ARule) → All IsNarrow rules → length rules ≤ 4194304
        → rules_of (rules_text rules) ≡ Ok rules }
{}

/// A line says a rule just where it is the one that is written of it.
pub fn rules_have_one_line()
    ensures { (line : List ℕ) (rule : ARule)
        → rule_of line ≡ Some rule ↔ (line ≡ line_of rule) × IsNarrow rule }
{}
