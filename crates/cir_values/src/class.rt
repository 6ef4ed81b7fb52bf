ghost use Rattle.std.specs.Prelude.{◌≡◌};
ghost use Rattle.cir_meaning.specs.Classes.{class_by, known_class, power_class, product_class};
ghost use Rattle.cir_meaning.specs.Classes.{quotient_class, sum_class};

use cir_meaning::Class;
use gold_field::Op2;

/// The class of an operator's result. The exponent is the right operand of a power, where that is a
/// known number.
pub fn class_of(op: Op2, a: Class, b: Class, exponent: Option<u64>) -> Class
    ensures { result ≡ class_by op a b exponent }
{
    match op {
        Op2::Add | Op2::Sub => sum_class(a, b),
        Op2::Mul => product_class(a, b),
        Op2::Div => quotient_class(a, b),
        Op2::Pow => power_class(a, b, exponent),
        _ => known_class(a, b),
    }
}

fn sum_class(a: Class, b: Class) -> Class
    ensures { result ≡ sum_class a b }
{
    match (a, b) {
        (Class::Known, _) => b,
        (_, Class::Known) => a,
        (Class::Linear, Class::Linear) => Class::Linear,
        (Class::Linear, Class::Quadratic) | (Class::Quadratic, Class::Linear) => Class::Quadratic,
        _ => Class::Opaque,
    }
}

fn product_class(a: Class, b: Class) -> Class
    ensures { result ≡ product_class a b }
{
    match (a, b) {
        (Class::Known, _) => b,
        (_, Class::Known) => a,
        (Class::Linear, Class::Linear) => Class::Quadratic,
        _ => Class::Opaque,
    }
}

fn quotient_class(a: Class, b: Class) -> Class
    ensures { result ≡ quotient_class a b }
{
    match b {
        Class::Known => a,
        _ => Class::Opaque,
    }
}

fn known_class(a: Class, b: Class) -> Class
    ensures { result ≡ known_class a b }
{
    match (a, b) {
        (Class::Known, Class::Known) => Class::Known,
        _ => Class::Opaque,
    }
}

fn power_class(a: Class, b: Class, exponent: Option<u64>) -> Class
    ensures { result ≡ power_class a b exponent }
{
    match (a, b, exponent) {
        (Class::Opaque, _, _) => Class::Opaque,
        (_, Class::Known, Some(0)) => Class::Known,
        (_, Class::Known, Some(1)) => a,
        (_, Class::Known, Some(2)) => product_class(a, a),
        _ => known_class(a, b),
    }
}
